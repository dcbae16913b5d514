// Copies of requests and replies.
ghost use Rattle.std.specs.Prelude.{◌≡◌, IfOk};

use mq_blocks::OutOfMemory;
use mq_tree::{Bytes, Name, Names, Path, Reply, Request};
use std::alloc::Global;

fn copy_bytes(alloc: Global, bytes: &Bytes) -> Result<Bytes, OutOfMemory>
    ensures { IfOk result (λ copy. copy ≡ bytes.now) }
{
    Ok(Bytes(Vec::from_slice(alloc, &bytes.0)?))
}

fn copy_names(alloc: Global, names: &[Name]) -> Result<Vec<Name>, OutOfMemory>
    ensures { IfOk result (λ copies. copies.items ≡ names.now) }
{
    let mut copies = Vec::with_capacity(alloc, names.len())?;
    for name in names {
        copies.push(Name(Vec::from_slice(alloc, &name.0)?))?;
    }
    Ok(copies)
}

fn copy_path(alloc: Global, path: &Path) -> Result<Path, OutOfMemory>
    ensures { IfOk result (λ copy. copy ≡ path.now) }
{
    Ok(Path(copy_names(alloc, &path.0)?))
}

/// A copy of a request.
pub fn copy_request(alloc: Global, request: &Request) -> Result<Request, OutOfMemory>
    ensures { IfOk result (λ copy. copy ≡ request.now) }
{
    Ok(match request {
        Request::Mkdir(path) => Request::Mkdir(copy_path(alloc, path)?),
        Request::Create(path) => Request::Create(copy_path(alloc, path)?),
        Request::Write(path, at, bytes) => {
            Request::Write(copy_path(alloc, path)?, *at, copy_bytes(alloc, bytes)?)
        }
        Request::Truncate(path, size) => Request::Truncate(copy_path(alloc, path)?, *size),
        Request::Unlink(path) => Request::Unlink(copy_path(alloc, path)?),
        Request::Rmdir(path) => Request::Rmdir(copy_path(alloc, path)?),
        Request::Rename(from, to) => {
            Request::Rename(copy_path(alloc, from)?, copy_path(alloc, to)?)
        }
        Request::Link(from, to) => Request::Link(copy_path(alloc, from)?, copy_path(alloc, to)?),
        Request::Read(path, at, count) => Request::Read(copy_path(alloc, path)?, *at, *count),
        Request::List(path) => Request::List(copy_path(alloc, path)?),
        Request::Stat(path) => Request::Stat(copy_path(alloc, path)?),
    })
}

/// A copy of a reply.
pub fn copy_reply(alloc: Global, reply: &Reply) -> Result<Reply, OutOfMemory>
    ensures { IfOk result (λ copy. copy ≡ reply.now) }
{
    Ok(match reply {
        Reply::Ok => Reply::Ok,
        Reply::Data(bytes) => Reply::Data(copy_bytes(alloc, bytes)?),
        Reply::Names(names) => Reply::Names(Names(copy_names(alloc, &names.0)?)),
        Reply::File(size) => Reply::File(*size),
        Reply::Dir(count) => Reply::Dir(*count),
        Reply::Refused(fault) => Reply::Refused(*fault),
    })
}
