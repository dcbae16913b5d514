// Requests that read.
ghost use Rattle.std.specs.Prelude.{◌≡◌, false, IfErr, IfOk};
ghost use Rattle.mq_exec.specs.Reads.{IsInodeOf, LooksAlways, LooksInDir, Reads, path_of};
ghost use Rattle.mq_inodes.specs.MissingPages.{HasVolume, MissingOf, OfEach};
ghost use Rattle.mq_inodes.specs.Files.{LooksInFile};
ghost use Rattle.mq_tree.specs.Requests.{is_change, list_in, read_in, stat_in};
ghost use Rattle.mq_tree.specs.Volume.{body};

use crate::named_inode::{Subject, find_subject};
use mq_inodes::{DIRECTORY, Missing, Working};
use mq_tree::{Bytes, Fault, Names, Path, Reply, Request};
use std::alloc::Global;

/// The first path of a request.
fn path_in(request: &Request) -> &Path
    ensures { result.now ≡ path_of request.now }
{
    match request {
        Request::Mkdir(path) => path,
        Request::Create(path) => path,
        Request::Write(path, ..) => path,
        Request::Truncate(path, _) => path,
        Request::Unlink(path) => path,
        Request::Rmdir(path) => path,
        Request::Rename(path, _) => path,
        Request::Link(path, _) => path,
        Request::Read(path, ..) => path,
        Request::List(path) => path,
        Request::Stat(path) => path,
    }
}

/// The bytes of a file in a range.
fn read(
    alloc: Global,
    working: &Working,
    s: &Subject,
    at: u64,
    count: u64,
) -> Result<Reply, Missing>
    requires possible { HasVolume working.now }
    requires subject { OfEach working.now (λ v. IsInodeOf v s.now) }
    ensures ok { IfOk result (λ reply. OfEach working.now
        (λ v. reply ≡ read_in at count (body v s.now.number))) }
    ensures lack { IfErr result (MissingOf working.now (λ v b. LooksInFile v s.now.number at count b)) }
{
    if s.inode.kind == DIRECTORY {
        return Ok(Reply::Refused(Fault::IsDir));
    }
    let bytes = working.bytes(alloc, s.number, &s.inode, at, count)?;
    Ok(Reply::Data(Bytes(bytes)))
}

/// The size of a file, or the number of names in a directory.
fn stat(alloc: Global, working: &Working, s: &Subject) -> Result<Reply, Missing>
    requires possible { HasVolume working.now }
    requires subject { OfEach working.now (λ v. IsInodeOf v s.now) }
    ensures ok { IfOk result (λ reply. OfEach working.now (λ v. reply ≡ stat_in (body v s.now.number))) }
    ensures lack { IfErr result (MissingOf working.now (λ v b. LooksInDir v s.now.number b)) }
{
    if s.inode.kind != DIRECTORY {
        return Ok(Reply::File(s.inode.size));
    }
    let blocks = working.directory(alloc, s.number, &s.inode)?;
    Ok(Reply::Dir(u64::from(working.count(&blocks))))
}

/// The names in a directory.
fn list(alloc: Global, working: &Working, s: &Subject) -> Result<Reply, Missing>
    requires possible { HasVolume working.now }
    requires subject { OfEach working.now (λ v. IsInodeOf v s.now) }
    ensures ok { IfOk result (λ reply. OfEach working.now (λ v. reply ≡ list_in (body v s.now.number))) }
    ensures lack { IfErr result (MissingOf working.now (λ v b. LooksInDir v s.now.number b)) }
{
    if s.inode.kind != DIRECTORY {
        return Ok(Reply::Refused(Fault::NotDir));
    }
    let blocks = working.directory(alloc, s.number, &s.inode)?;
    Ok(Reply::Names(Names(working.names(alloc, &blocks)?)))
}

/// The answer to a request that reads.
pub fn answer(alloc: Global, working: &Working, request: &Request) -> Result<Reply, Missing>
    requires possible { HasVolume working.now }
    requires reads { is_change request.now ≡ false }
    ensures ok { IfOk result (λ reply. OfEach working.now
        (λ v. Reads working.now.geometry v request.now reply)) }
    ensures lack { IfErr result (MissingOf working.now
        (λ v b. LooksAlways working.now.geometry v request.now b)) }
{
    let subject = match find_subject(alloc, working, path_in(request))? {
        Ok(subject) => subject,
        Err(fault) => return Ok(Reply::Refused(fault)),
    };
    match request {
        Request::Read(_, at, count) => read(alloc, working, &subject, *at, *count),
        Request::List(_) => list(alloc, working, &subject),
        Request::Stat(_) => stat(alloc, working, &subject),
        _ => unreachable!(),
    }
}
