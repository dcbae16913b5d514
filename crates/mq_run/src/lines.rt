// What a run reports, out of its history and of what its sessions were answered and read.
ghost use Rattle.std.specs.Prelude.{◌≡◌, ◌++◌, IfOk, map};
ghost use Rattle.std.specs.List.{AllPairs};
ghost use Rattle.std.specs.List.Sorted.{IsPermutation};
ghost use Rattle.mq_run.specs.Lines.{AreCommitLines, IsCommitLine, IsNotAfter, end_of, joined, line_cmp};
ghost use Rattle.mq_tie.specs.Runs.{history_of};

use mq_blocks::OutOfMemory;
use mq_calls::{Blocks, FileEntry, Placed};
use mq_drive::Port;
use mq_exec::copy_reply;
use mq_queue_side::Drawn;
use mq_report::Line;
use mq_script::End;
use mq_tie::Ended;
use mq_tree::Reply;
use std::alloc::Global;
use std::cmp::Ordering;

// The groups of a session are fewer.
const GROUP_LIMIT: u64 = 1 << 32;

// The end of a group that was drawn.
fn end_of(durable: bool) -> End
    ensures { result ≡ end_of durable }
{
    if durable { End::Fsync } else { End::Fatomic }
}

// A copy of the replies.
fn copy_replies(alloc: Global, replies: &[Reply]) -> Result<Vec<Reply>, OutOfMemory>
    ensures { IfOk result (λ copies. copies.items ≡ replies.now) }
{
    let mut copies = Vec::with_capacity(alloc, replies.len())?;
    for reply in replies {
        copies.push(copy_reply(alloc, reply)?)?;
    }
    Ok(copies)
}

// The line of an entry of the history.
fn commit_line(alloc: Global, drawn: &Drawn<FileEntry>) -> Result<Line, OutOfMemory>
    ensures { IfOk result (λ line. IsCommitLine drawn.now.number drawn.now.entry line) }
{
    let entry = &drawn.entry;
    Ok(Line {
        number: drawn.number,
        commit: true,
        session: entry.session,
        group: (entry.call % GROUP_LIMIT) as u32,
        end: end_of(entry.durable),
        replies: copy_replies(alloc, &entry.replies.0)?,
    })
}

/// The lines of the commits, in number order, with room for `more` further lines.
pub(crate) fn commit_lines<P: Port>(
    alloc: Global,
    ended: &Ended<P, FileEntry>,
    more: usize,
) -> Result<Vec<Line>, OutOfMemory>
    ensures { IfOk result (λ lines. AreCommitLines (history_of ended.now) lines.items) }
{
    let mut lines = Vec::with_capacity(alloc, ended.count().saturating_add(more))?;
    for at in 0..ended.count() {
        lines.push(commit_line(alloc, ended.drawn(at))?)?;
    }
    Ok(lines)
}

// A copy of where blocks went.
fn copy_placed(alloc: Global, placed: &Placed) -> Result<Placed, OutOfMemory>
    ensures { IfOk result (λ copy. copy ≡ placed.now) }
{
    Ok(Placed {
        logged: Blocks(Vec::from_slice(alloc, placed.logged.as_slice())?),
        direct: Blocks(Vec::from_slice(alloc, placed.direct.as_slice())?),
        revoked: Blocks(Vec::from_slice(alloc, placed.revoked.as_slice())?),
    })
}

/// Where the blocks of each commit went, in number order.
pub(crate) fn placements<P: Port>(
    alloc: Global,
    ended: &Ended<P, FileEntry>,
) -> Result<Vec<Placed>, OutOfMemory>
    ensures { IfOk result (λ all. all.items ≡ map (λ h. h.1.placed) (history_of ended.now)) }
{
    let mut all = Vec::with_capacity(alloc, ended.count())?;
    for at in 0..ended.count() {
        all.push(copy_placed(alloc, &ended.drawn(at).entry.placed)?)?;
    }
    Ok(all)
}

/// The number of items in all lists, or `usize::MAX` if there are more.
pub(crate) fn count_all<T>(lists: &[Vec<T>]) -> usize {
    let mut count: usize = 0;
    for list in lists {
        count = count.saturating_add(list.len());
    }
    count
}

/// The items of all lists after these, one list after another.
pub(crate) fn gather<T: Drop>(lists: Vec<Vec<T>>, first: Vec<T>) -> Result<Vec<T>, OutOfMemory>
    ensures { IfOk result (λ all. all.items ≡ first.items ++ joined (map (λ l. l.items) lists.items)) }
{
    let mut all = first;
    for list in lists {
        let mut list = list;
        all.append(&mut list)?;
    }
    Ok(all)
}

// Which of two lines comes first in a report.
fn compare(a: &Line, b: &Line) -> Ordering
    ensures { result ≡ line_cmp a.now b.now }
{
    a.number
        .cmp(&b.number)
        .then(b.commit.cmp(&a.commit))
        .then(a.session.cmp(&b.session))
        .then(a.group.cmp(&b.group))
}

/// Puts lines in the order of a report.
pub(crate) fn sort_lines(lines: &mut Vec<Line>)
    ensures lines { IsPermutation lines.old.items lines.new.items }
    ensures order { AllPairs IsNotAfter lines.new.items }
{
    lines.sort_unstable_by(|a, b| compare(a, b));
}
