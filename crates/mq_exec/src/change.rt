// One request after another.
ghost use Rattle.std.specs.Prelude.{◌≡◌, ◌<◌, true, IfErr, IfOk, OnOk};
ghost use Rattle.mq_blocks.specs.Geometry.{queues_of};
ghost use Rattle.mq_exec.specs.Plans.{ComesTo};
ghost use Rattle.mq_inodes.specs.Edits.{IsOver};
ghost use Rattle.mq_inodes.specs.MissingPages.{HasVolume, MissingOf, OfEach};
ghost use Rattle.mq_tree.specs.Kept.{HasBytes};
ghost use Rattle.mq_tree.specs.Looks.{Looks, LooksAt};
ghost use Rattle.mq_tree.specs.Requests.{act, is_change, is_named as is_named_of, verdict};

use crate::answer::answer;
use crate::link::link;
use crate::make::make;
use crate::named_inode::is_good_path;
use crate::remove::{rmdir, unlink};
use crate::rename::rename;
use crate::rewrite::write;
use crate::truncate::truncate;
use mq_blocks::QueueNo;
use mq_inodes::{Missing, Working};
use mq_tree::{Fault, Reply, Request, changes};
use std::alloc::Global;

/// Whether each name of the paths of a request is good.
fn is_named(request: &Request) -> bool
    ensures { result ≡ is_named_of request.now }
{
    match request {
        Request::Mkdir(path) => is_good_path(path),
        Request::Create(path) => is_good_path(path),
        Request::Write(path, ..) => is_good_path(path),
        Request::Truncate(path, _) => is_good_path(path),
        Request::Unlink(path) => is_good_path(path),
        Request::Rmdir(path) => is_good_path(path),
        Request::Rename(from, to) => is_good_path(from) && is_good_path(to),
        Request::Link(from, to) => is_good_path(from) && is_good_path(to),
        Request::Read(path, ..) => is_good_path(path),
        Request::List(path) => is_good_path(path),
        Request::Stat(path) => is_good_path(path),
    }
}

/// Does a request that changes, whose names are good.
fn change(
    alloc: Global,
    working: &mut Working,
    queue: QueueNo,
    request: &Request,
) -> Result<Reply, Missing>
    requires possible { HasVolume working.old }
    requires queue { queue < queues_of working.old.geometry }
    requires names { is_named_of request.now ≡ true }
    requires changes { is_change request.now ≡ true }
    ensures bytes { HasBytes request.now }
    ensures over { OnOk result (IsOver working.old working.new) }
    ensures ok { IfOk result (λ reply. OfEach working.old
        (λ v. ComesTo working.old.geometry v
        (act working.old.geometry queue v request.now) reply working.old working.new)) }
    ensures lack { IfErr result (MissingOf working.old
        (λ v b. LooksAt working.old.geometry queue v request.now b)) }
{
    match request {
        Request::Mkdir(path) => make(alloc, working, queue, path, true),
        Request::Create(path) => make(alloc, working, queue, path, false),
        Request::Write(path, at, bytes) => write(alloc, working, queue, path, *at, &bytes.0),
        Request::Truncate(path, size) => truncate(alloc, working, queue, path, *size),
        Request::Unlink(path) => unlink(alloc, working, path),
        Request::Rmdir(path) => rmdir(alloc, working, path),
        Request::Rename(from, to) => rename(alloc, working, queue, from, to),
        Request::Link(from, to) => link(alloc, working, queue, from, to),
        _ => unreachable!(),
    }
}

/// Does one request. If a page is missing, the pages must not be used afterwards.
pub fn step(
    alloc: Global,
    working: &mut Working,
    queue: QueueNo,
    request: &Request,
) -> Result<Reply, Missing>
    requires possible { HasVolume working.old }
    requires queue { queue < queues_of working.old.geometry }
    ensures bytes { is_named_of request.now ≡ true → HasBytes request.now }
    ensures over { OnOk result (IsOver working.old working.new) }
    ensures ok { IfOk result (λ reply. OfEach working.old
        (λ v. ComesTo working.old.geometry v
        (verdict working.old.geometry queue v request.now) reply working.old working.new)) }
    ensures lack { IfErr result (MissingOf working.old
        (λ v b. Looks working.old.geometry queue v request.now b)) }
{
    if !changes(request) {
        return answer(alloc, working, request);
    }
    if !is_named(request) {
        return Ok(Reply::Refused(Fault::BadName));
    }
    change(alloc, working, queue, request)
}
