// A desk is opened over the sides of a drive.
ghost use Rattle.std.specs.Prelude.{◌≡◌, ◌<◌, ◌≤◌, ◌^◌, ℕ, [], IfOk, IfErr, Some, map, slice_get, vec_len, vec_capacity};
ghost use Rattle.mq_journal.specs.Machine.{journal};
ghost use Rattle.mq_turns.specs.AtDesk.{AtDesk, chairs_of, start_of, view};
ghost use Rattle.mq_turns.specs.Chairs.{Starts};
ghost use Rattle.mq_turns.specs.Desk.{fresh};

use mq_blocks::{OutOfMemory, TxNo};
use mq_drive::{Port, Ports};
use mq_journal::{Groups, JournalMachine};
use mq_pages::PageCell;
use mq_queue_side::{QueueSide, Root, unmake_sides};
use mq_turns::{Chair, Desk};
use std::alloc::Global;

/// A desk with these values, and so many chairs. Out of memory gives the ports back.
pub fn open_desk<P: Port + Drop, G: Groups>(
    alloc: Global,
    cells: Vec<PageCell>,
    sides: Vec<QueueSide<P, G::Entry>>,
    root: Root<P>,
    base: TxNo,
    count: u32,
    spare: Vec<P>,
) -> Result<(Desk<JournalMachine<P, G>>, Vec<Chair<JournalMachine<P, G>>>), (Ports<P>, OutOfMemory)>
    requires count { 0 < count }
    requires base { base ≤ 2 ^ 62 }
    requires few { (vec_len cells < 2 ^ 32) × (vec_len sides < 2 ^ 32) }
    requires starts { Starts (journal P.state P.faults G.group) (record { pages = cells.items; sides = sides.items; root = root; base = base }) }
    requires room { (spare.items ≡ []) × (vec_len sides ≤ vec_capacity spare) }
    ensures desk { IfOk result (λ d. (start_of d.0 ≡ record { pages = cells.items; sides = sides.items; root = root; base = base })
        × (chairs_of d.0 ≡ count)) }
    ensures chairs { IfOk result (λ d. (vec_len d.1 ≡ count)
        × ((i : ℕ) (ch : _)
        → slice_get d.1.items i ≡ Some ch
        → AtDesk d.0 ch × (view ch ≡ fresh (start_of d.0) i))) }
    ensures err { IfErr result (λ e. (e.0.queues.items ≡ map (λ s. s.pmr.port) sides.items)
        × (e.0.root ≡ root.port)) }
{
    match Desk::new(alloc, cells, sides, root, base, count) {
        Ok(opened) => Ok(opened),
        Err((_, mut sides, root, full)) => {
            let mut queues = spare;
            sides.reverse();
            unmake_sides(sides, &mut queues);
            let root = root.into_port();
            Err((Ports { queues, root }, full))
        }
    }
}
