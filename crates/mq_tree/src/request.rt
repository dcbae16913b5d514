// Requests on the tree, and what they answer.
ghost use Rattle.std.specs.Prelude.{◌≡◌};
ghost use Rattle.mq_tree.specs.Requests.{is_change};

use crate::path::{Bytes, Names, Path};

/// A request to the file system. Offsets and sizes are counts of bytes.
#[derive(Drop)]
pub enum Request {
    /// Makes a new directory.
    Mkdir(Path),
    /// Makes a new empty file.
    Create(Path),
    /// Writes these bytes at this offset of a file, which is extended with zeros up to there if it is
    /// shorter.
    Write(Path, u64, Bytes),
    /// Cuts a file to this size, or extends it with zeros up to it.
    Truncate(Path, u64),
    /// Removes a name of a file, and the file with its last name.
    Unlink(Path),
    /// Removes an empty directory.
    Rmdir(Path),
    /// Moves what is at the first path to the second, with everything below it.
    Rename(Path, Path),
    /// Gives the file at the first path the second path, too.
    Link(Path, Path),
    /// Reads the bytes of a file from an offset on, at most this many.
    Read(Path, u64, u64),
    /// The names in a directory.
    List(Path),
    /// The size of a file, or the number of names in a directory.
    Stat(Path),
}

/// The answer to one request.
#[derive(Drop)]
pub enum Reply {
    Ok,
    Data(Bytes),
    /// The names in a directory, in rising order of bytes.
    Names(Names),
    /// The size of a file in bytes.
    File(u64),
    /// The number of names in a directory.
    Dir(u64),
    Refused(Fault),
}

/// Why a request was refused. It then changed nothing.
#[derive(Clone, Copy, PartialEq, Eq)]
pub enum Fault {
    NotFound,
    Exists,
    NotDir,
    IsDir,
    NotEmpty,
    /// A name is not good, or the root would be removed.
    BadName,
    /// A file would be longer than 4,243,456 bytes, or a directory would have more than 15,540 names.
    TooBig,
    /// The root would be moved, or a directory would be moved into itself.
    Subtree,
    NoSpace,
    NoInodes,
    /// A file has 65,535 names.
    Links,
}

/// Whether the request may change the tree: it is none of `Read`, `List` and `Stat`.
pub fn changes(request: &Request) -> bool
    ensures { result ≡ is_change request.now }
{
    match request {
        Request::Read(..) | Request::List(_) | Request::Stat(_) => false,
        _ => true,
    }
}
