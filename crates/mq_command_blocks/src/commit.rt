// A block text is committed, each line as one transaction of the one queue.
ghost use Rattle.std.specs.Prelude.{◌≡◌, ◌<◌, ◌≤◌, ◌+◌, ◌^◌, ℕ, List, length, OnOk, OnErr, Some, [], ◌∷◌, vec_capacity};
ghost use Rattle.mq_blocks.specs.Drive.{PortImage, IsImage, IsQuiescent, counted};
ghost use Rattle.mq_blocks.specs.Geometry.{homes_of};
ghost use Rattle.mq_blocks.specs.Journal.{shown};
ghost use Rattle.mq_nvme.specs.Says.{journal_reading};
ghost use Rattle.mq_drive.specs.Start.{IsPortOf};
ghost use Rattle.mq_drive.specs.declared.role.Role.TheVariants.{Queue};
ghost use Rattle.mq_command_blocks.specs.Causes.{HasTextCause};
ghost use Rattle.mq_command_blocks.specs.Commits.{IsClean, IsCleanQueue, AllBelow, ShowsMap, ShowsLines};
ghost use Rattle.mq_block_trace.specs.Prefixes.{events_of};
ghost use Rattle.mq_command_blocks.specs.Cuts.{HasBounds, HasStopped, QueueShows, ShowsReached, rung_after};
ghost use Rattle.mq_block_trace.specs.Lines.{map_after};
ghost use Rattle.mq_command_blocks.specs.Ports.{the_queue};
ghost use Rattle.mq_block_text.specs.Text.{IsGoodText};

use crate::items::items_of_line;
use crate::line::{Refusal, commit_line};
use mq_block_text::BlockText;
use mq_blocks::{Geometry, OutOfMemory, QueueNo, TxNo};
use mq_drive::{Port, Ports};
use mq_pmr::PmrQueue;
use std::alloc::Global;

/// Why a text was not committed whole.
#[derive(Clone, Copy, PartialEq, Eq)]
pub enum TextRefusal {
    Off,
    /// A command ended with an error.
    Failed { status: u16 },
    OutOfMemory,
}

impl From<OutOfMemory> for TextRefusal {
    ghost use Rattle.mq_command_blocks.specs.declared.commit.TextRefusal.TheVariants as refusal;

    ghost from_gives = { λ _ e. e ≡ refusal.OutOfMemory };

    fn from(_: OutOfMemory) -> Self {
        TextRefusal::OutOfMemory
    }
}

impl From<Refusal> for TextRefusal {
    ghost use Rattle.mq_command_blocks.specs.Causes.{text_refusal};

    ghost from_gives = { λ r e. e ≡ text_refusal r };

    fn from(refusal: Refusal) -> Self {
        match refusal {
            Refusal::Off => TextRefusal::Off,
            Refusal::Failed { status } => TextRefusal::Failed { status },
        }
    }
}

/// Commits the lines in order, each drained before the next, with numbers from 1.
pub fn commit_lines<P: Port>(
    alloc: Global,
    geometry: Geometry,
    queue: &mut PmrQueue<P>,
    text: &BlockText,
) -> Result<(), TextRefusal>
    requires clean { IsCleanQueue geometry (P.state queue.old.port) }
    requires rung { queue.old.rung.items ≡ [] }
    requires good { IsGoodText text.now }
    requires below { AllBelow (homes_of geometry) text.now }
    ensures ok { OnOk result ((q r : PortImage)
        → IsImage (P.state queue.new.port) q
        → r.base ≡ 0
        → ShowsMap geometry (shown journal_reading geometry (q ∷ []) r) (length text.now)
        (map_after text.now (length text.now))) }
    ensures rings { OnOk result ((P.state queue.new.port).rings ≡ counted (P.state queue.old.port).rings
        (length text.now)) }
    ensures quiet { OnOk result (IsQuiescent (P.state queue.new.port)) }
    ensures done { OnOk result ((P.state queue.new.port).head ≡ (P.state queue.new.port).doorbell) }
    ensures events { OnOk result ((P.state queue.new.port).events ≡ counted (P.state queue.old.port).events
        (events_of text.now (length text.now))) }
    ensures rung { OnOk result ((P.state queue.new.port).doorbell ≡ (P.state queue.old.port).doorbell +
        rung_after text.now (events_of text.now (length text.now))) }
    ensures cut { OnErr result ((e : ℕ)
        × HasStopped (P.state queue.old.port) (P.state queue.new.port) text.now e
        × QueueShows geometry (P.state queue.new.port) text.now e) }
    ensures port { IsPortOf geometry (Queue 0) (P.state queue.new.port) }
    ensures bounds { HasBounds (P.state queue.old.port) (P.state queue.new.port) }
    ensures cause { HasTextCause result (P.faults queue.old.port) (P.faults queue.new.port) }
{
    let mut number: u64 = 0;
    let mut next: u64 = 0;
    let mut last: u64 = 0;
    for line in &text.0 {
        number += 1;
        let items = items_of_line(alloc, geometry, line, number, next, last)?;
        let count = items.len() as u64;
        commit_line(queue, TxNo(number), items)?;
        next += count;
        last = next - 1;
    }
    Ok(())
}

// Commits the lines through the queue of a port, and gives the port back.
fn commit_through<P: Port>(
    alloc: Global,
    geometry: Geometry,
    port: P,
    text: &BlockText,
) -> (P, Result<(), TextRefusal>)
    requires clean { IsCleanQueue geometry (P.state port) }
    requires good { IsGoodText text.now }
    requires below { AllBelow (homes_of geometry) text.now }
    ensures ok { OnOk result.1 ((q r : PortImage)
        → IsImage (P.state result.0) q
        → r.base ≡ 0
        → ShowsMap geometry (shown journal_reading geometry (q ∷ []) r) (length text.now)
        (map_after text.now (length text.now))) }
    ensures rings { OnOk result.1 ((P.state result.0).rings ≡ counted (P.state port).rings
        (length text.now)) }
    ensures quiet { OnOk result.1 (IsQuiescent (P.state result.0)) }
    ensures done { OnOk result.1 ((P.state result.0).head ≡ (P.state result.0).doorbell) }
    ensures events { OnOk result.1 ((P.state result.0).events ≡ counted (P.state port).events
        (events_of text.now (length text.now))) }
    ensures rung { OnOk result.1 ((P.state result.0).doorbell ≡ (P.state port).doorbell +
        rung_after text.now (events_of text.now (length text.now))) }
    ensures cut { OnErr result.1 ((e : ℕ)
        × HasStopped (P.state port) (P.state result.0) text.now e
        × QueueShows geometry (P.state result.0) text.now e) }
    ensures port { IsPortOf geometry (Queue 0) (P.state result.0) }
    ensures bounds { HasBounds (P.state port) (P.state result.0) }
    ensures cause { HasTextCause result.1 (P.faults port) (P.faults result.0) }
{
    if text.0.is_empty() {
        return (port, Ok(()));
    }
    match PmrQueue::open(alloc, port, geometry, QueueNo(0)) {
        Ok(mut queue) => {
            let answer = commit_lines(alloc, geometry, &mut queue, text);
            (queue.into_port(), answer)
        }
        Err((port, full)) => (port, Err(TextRefusal::from(full))),
    }
}

// Takes the one port out of a list, which keeps its room.
fn take_one<P: Port>(ports: &mut Vec<P>) -> P
    requires { length ports.old.items ≡ 1 }
    ensures items { ports.old.items ≡ result ∷ [] }
    ensures empty { ports.new.items ≡ [] }
    ensures room { 1 ≤ vec_capacity ports.new }
{
    match ports.pop() {
        Some(port) => port,
        None => unreachable!(),
    }
}

// Puts it back.
fn put_one<P: Port>(ports: &mut Vec<P>, port: P)
    requires empty { ports.old.items ≡ [] }
    requires room { 1 ≤ vec_capacity ports.old }
    ensures { ports.new.items ≡ port ∷ [] }
{
    match ports.push(port) {
        Ok(()) => {}
        Err(_) => unreachable!(),
    }
}

/// Commits the lines of a text through the one queue of a clean drive, and gives the ports back.
pub fn commit_text<P: Port>(
    alloc: Global,
    geometry: Geometry,
    ports: Ports<P>,
    text: &BlockText,
) -> (Ports<P>, Result<(), TextRefusal>)
    requires one { length ports.queues.items ≡ 1 }
    requires clean { (p : P)
        → the_queue ports ≡ Some p
        → IsClean geometry (P.state p) (P.state ports.root) }
    requires good { IsGoodText text.now }
    requires below { AllBelow (homes_of geometry) text.now }
    ensures ok { OnOk result.1 ((p : P)
        → the_queue result.0 ≡ Some p
        → ShowsLines geometry (P.state p) (P.state result.0.root) text.now (length text.now)) }
    ensures rings { OnOk result.1 ((p q : P)
        → the_queue ports ≡ Some p
        → the_queue result.0 ≡ Some q
        → (P.state q).rings ≡ counted (P.state p).rings (length text.now)) }
    ensures quiet { OnOk result.1 ((p : P)
        → the_queue result.0 ≡ Some p
        → IsQuiescent (P.state p)) }
    ensures done { OnOk result.1 ((p : P)
        → the_queue result.0 ≡ Some p
        → (P.state p).head ≡ (P.state p).doorbell) }
    ensures events { OnOk result.1 ((p q : P)
        → the_queue ports ≡ Some p
        → the_queue result.0 ≡ Some q
        → (P.state q).events ≡ counted (P.state p).events (events_of text.now (length text.now))) }
    // The doorbell is past all lines, and after a refusal past those that were rung.
    ensures rung { OnOk result.1 ((p q : P)
        → the_queue ports ≡ Some p
        → the_queue result.0 ≡ Some q
        → (P.state q).doorbell ≡ (P.state p).doorbell +
        rung_after text.now (events_of text.now (length text.now))) }
    ensures cut { OnErr result.1 ((p q : P)
        → the_queue ports ≡ Some p
        → the_queue result.0 ≡ Some q
        → (e : ℕ)
        × HasStopped (P.state p) (P.state q) text.now e
        × ShowsReached geometry (P.state q) (P.state result.0.root) text.now e) }
    ensures port { (p : P)
        → the_queue result.0 ≡ Some p
        → IsPortOf geometry (Queue 0) (P.state p) }
    ensures bounds { (p q : P)
        → the_queue ports ≡ Some p
        → the_queue result.0 ≡ Some q
        → HasBounds (P.state p) (P.state q) }
    ensures cause { (p q : P)
        → the_queue ports ≡ Some p
        → the_queue result.0 ≡ Some q
        → HasTextCause result.1 (P.faults p) (P.faults q) }
    ensures queues { length result.0.queues.items ≡ 1 }
    ensures root { result.0.root ≡ ports.root }
{
    let mut ports = ports;
    let port = take_one(&mut ports.queues);
    let (port, answer) = commit_through(alloc, geometry, port, text);
    put_one(&mut ports.queues, port);
    (ports, answer)
}
