// How much a tree has.
ghost use Rattle.std.specs.Prelude.{◌≡◌};
ghost use Rattle.mq_tree.specs.Counts.{IsCountable, counts_in, counts_of, counts_of_volume};
ghost use Rattle.mq_tree.specs.Trees.{body_kept, kept};

use crate::contents::InodeContent;
use crate::tree::Tree;

/// The number of directories and of files, and the number of bytes of all files together.
#[derive(Clone, Copy, PartialEq, Eq)]
pub struct TreeCounts {
    /// The number of directories, without the root.
    pub directories: u64,
    pub files: u64,
    pub bytes: u64,
}

/// The counts of one inode, where the root counts as a directory.
fn counts_of_one(content: &InodeContent) -> TreeCounts
    ensures { result ≡ counts_of (body_kept content.now) }
{
    let mut counts = TreeCounts {
        directories: 0,
        files: 0,
        bytes: 0,
    };
    match content {
        InodeContent::Free => {}
        InodeContent::File(bytes) => {
            counts.files = 1;
            counts.bytes = bytes.0.len() as u64;
        }
        InodeContent::Dir(_) => counts.directories = 1,
    }
    counts
}

/// The counts of all inodes together.
fn counts_of_all(contents: &[InodeContent]) -> TreeCounts
    requires { IsCountable (kept contents.now) }
    ensures { result ≡ counts_of_volume (kept contents.now) }
{
    let mut counts = TreeCounts {
        directories: 0,
        files: 0,
        bytes: 0,
    };
    for content in contents {
        let one = counts_of_one(content);
        counts.directories += one.directories;
        counts.files += one.files;
        counts.bytes += one.bytes;
    }
    counts
}

impl Tree {
    /// The directories below the root, the files and the bytes in them.
    pub fn counts(&self) -> TreeCounts
        ensures { result ≡ counts_in self.now }
    {
        let mut counts = counts_of_all(self.contents());
        if let Some(InodeContent::Dir(_)) = self.content(0) {
            counts.directories -= 1;
        }
        counts
    }
}
