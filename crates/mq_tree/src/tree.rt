// The tree of a file system, and the files in it.
ghost use Rattle.std.specs.Prelude.{◌≡◌, MatchOption, MatchResult, Ok, Err, length};
ghost use Rattle.std.specs.List.{list_all};
ghost use Rattle.mq_layout.specs.Names.{is_name};
ghost use Rattle.mq_tree.specs.Counts.{IsCountable};
ghost use Rattle.mq_tree.specs.ListText.{name_count};
ghost use Rattle.mq_tree.specs.Requests.{into_dir, walk};
ghost use Rattle.mq_tree.specs.Trees.{ReadsAs, body_kept, file_in, found_in, kept};
ghost use Rattle.mq_tree.specs.Volume.{Free, body, find, slots_of, way};

use crate::contents::InodeContent;
use crate::path::{Name, Path};
use crate::request::Fault;
use mq_layout::is_good_name;
use std::marker::Model;

/// The tree of a file system: its directories, and the bytes of its files.
#[derive(Drop)]
pub struct Tree {
    contents: Vec<InodeContent>,
}

impl Model for Tree {
    ghost use Rattle.mq_tree.specs.Counts.{IsCountable};
    ghost use Rattle.mq_tree.specs.Trees.{kept};
    ghost use Rattle.mq_tree.specs.Volume.{Volume};

    ghost Value = { Volume };

    ghost view = { λ t. kept t.contents.items };

    ghost invariant = { λ t. IsCountable (kept t.contents.items) };
}

impl Tree {
    pub(crate) fn new(contents: Vec<InodeContent>) -> Tree
        requires { IsCountable (kept contents.items) }
        ensures { result ≡ kept contents.items }
    {
        Tree { contents }
    }

    /// The contents of the inodes, by number.
    pub(crate) fn contents(&self) -> &[InodeContent]
        ensures is { kept result.now ≡ self.now }
        ensures countable { IsCountable (kept result.now) }
    {
        &self.contents
    }

    /// The number of inodes.
    pub(crate) fn count(&self) -> usize
        ensures { result ≡ length self.now }
    {
        self.contents.len()
    }

    /// The content of the inode at this place of the list, if there is one.
    fn content_at(&self, place: usize) -> Option<&InodeContent>
        ensures { MatchOption result (body self.now place ≡ Free)
            (λ content. body self.now place ≡ body_kept content.now) }
    {
        self.contents.get(place)
    }

    /// The content of the inode of this number, if there is one.
    pub(crate) fn content(&self, inode: u32) -> Option<&InodeContent>
        ensures { MatchOption result (body self.now inode ≡ Free)
            (λ content. body self.now inode ≡ body_kept content.now) }
    {
        self.content_at(inode as usize)
    }

    /// The number of names of the inode at this place of the list.
    pub(crate) fn name_count(&self, place: usize) -> usize
        ensures { result ≡ name_count (body self.now place) }
    {
        match self.content_at(place) {
            Some(InodeContent::Dir(names)) => names.len(),
            _ => 0,
        }
    }

    /// The inode under a name of a directory.
    fn find(&self, directory: u32, name: &Name) -> Result<u32, Fault>
        ensures { result ≡ found_in (find name.now (slots_of (body self.now directory))) }
    {
        match self.content(directory) {
            Some(InodeContent::Dir(names)) => names.get(&name.0).ok_or(Fault::NotFound),
            _ => Err(Fault::NotFound),
        }
    }

    /// The inode itself, if it is a directory that a walk may enter.
    fn enter(&self, inode: u32) -> Result<u32, Fault>
        ensures { result ≡ into_dir inode (body self.now inode) }
    {
        match self.content(inode) {
            Some(InodeContent::Dir(_)) => Ok(inode),
            Some(InodeContent::File(_)) => Err(Fault::NotDir),
            _ => Err(Fault::NotFound),
        }
    }

    /// The inode of the directory to which these names lead.
    fn walk(&self, names: &[Name]) -> Result<u32, Fault>
        ensures { result ≡ walk self.now (way names.now) }
    {
        let mut directory = 0;
        for name in names {
            let inode = self.find(directory, name)?;
            directory = self.enter(inode)?;
        }
        Ok(directory)
    }

    /// The bytes of an inode that is a file.
    fn bytes(&self, inode: u32) -> Result<&[u8], Fault>
        ensures { MatchResult result (λ bytes. file_in (body self.now inode) ≡ Ok bytes.now)
            (λ fault. file_in (body self.now inode) ≡ Err fault) }
    {
        match self.content(inode) {
            Some(InodeContent::File(bytes)) => Ok(&bytes.0),
            Some(InodeContent::Dir(_)) => Err(Fault::IsDir),
            _ => Err(Fault::NotFound),
        }
    }

    /// The bytes of the file at a path.
    pub fn file(&self, path: &Path) -> Result<&[u8], Fault>
        ensures { MatchResult result (λ bytes. ReadsAs self.now path.now (Ok bytes.now))
            (λ fault. ReadsAs self.now path.now (Err fault)) }
    {
        if !are_good(&path.0) {
            return Err(Fault::BadName);
        }
        match path.0.split_last() {
            None => self.bytes(0),
            Some((last, names)) => {
                let directory = self.walk(names)?;
                let inode = self.find(directory, last)?;
                self.bytes(inode)
            }
        }
    }
}

/// Whether all names are good.
fn are_good(names: &[Name]) -> bool
    ensures { result ≡ list_all is_name names.now }
{
    for name in names {
        if !is_good_name(&name.0) {
            return false;
        }
    }
    true
}
