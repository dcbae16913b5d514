// One page is written home, by the port that has its block.
ghost use Rattle.std.specs.Prelude.{◌≡◌, ◌<◌, ◌≤◌, [], length, IfErr, OnErr, OnOk, Some};
ghost use Rattle.mq_blocks.specs.Geometry.{homes_of, queues_of, zone_of};
ghost use Rattle.mq_journal.specs.Numbers.{values};
ghost use Rattle.mq_desk_laws.specs.Rule.{shape_of};
ghost use Rattle.mq_turns.specs.AtDesk.{AtDesk, view, start_of};
ghost use Rattle.mq_journal.specs.Pages.{HoldsOnlyPage, IsDue, at_home};
ghost use Rattle.mq_journal.specs.Ports.{IsHomeOf, WritesHome, answer_of, port_of};
ghost use Rattle.mq_journal.specs.Steps.{IsRefusedBy, MovesOn};

use crate::machine::{Groups, JournalMachine};
use crate::root_reporting::report_port;
use mq_blocks::{Block, BlockNo, Geometry, Lba};
use mq_drive::{HomeStep, Off, Port};
use mq_pages::PageCell;
use mq_queue_side::Cause;
use mq_turns::{Chair, Desk, Item, Turn};
use std::sync::Wait;

// The turn of the port that has the block: the side of the queue in whose zone it is, or the root, which has
// the metadata region.
fn port_of(geometry: Geometry, block: BlockNo) -> Turn
    requires { block < homes_of geometry }
    ensures { result ≡ port_of (zone_of geometry block) }
{
    match geometry.zone_of(block) {
        Some(queue) => Turn::Side(queue),
        None => Turn::Root,
    }
}

// Writes a home block by the port in hand.
fn write_by<P: Port + Drop, G: Groups>(
    port: &mut Item<JournalMachine<P, G>>,
    lba: Lba,
    copy: Block,
) -> Result<HomeStep, Off>
    requires { IsHomeOf P.state port.old lba }
    ensures { WritesHome P.state P.faults lba copy result port.old port.new }
{
    match port {
        Item::Side(side) => side.write_home(lba, copy),
        Item::Root(root) => root.write_home(lba, copy),
        Item::Page(_) => unreachable!(),
    }
}

// What a home write of the block came to.
fn answer(block: BlockNo, step: Result<HomeStep, Off>) -> Result<(), Cause>
    ensures { result ≡ answer_of block step }
{
    match step {
        Ok(HomeStep::Done) => Ok(()),
        Ok(HomeStep::Error { status }) => Err(Cause::FailedHome { block, status }),
        Err(_) => Err(Cause::Off),
    }
}

/// Takes the port that has the block, writes a copy of the page home, notes it, and gives the port back.
pub(crate) fn write_home<R: Wait, P: Port + Drop, G: Groups>(
    rt: &R,
    desk: &Desk<JournalMachine<P, G>>,
    chair: &mut Chair<JournalMachine<P, G>>,
    geometry: Geometry,
    block: BlockNo,
    cell: &PageCell,
    copy: Block,
) -> Result<(), Cause>
    requires at { AtDesk desk.now chair.old }
    requires shape { geometry ≡ shape_of (values P.state P.faults G.group) G.group (start_of desk.now) }
    requires sides { length (start_of desk.now).sides ≡ queues_of geometry }
    requires home { block < homes_of geometry }
    requires page { HoldsOnlyPage P.state P.faults G.group (start_of desk.now) block cell.now
        (view chair.old) }
    requires due { IsDue cell.now (view chair.old) }
    requires content { cell.now.content ≡ Some copy }
    ensures at { AtDesk desk.now chair.new }
    ensures wrote { OnOk result (HoldsOnlyPage P.state P.faults G.group (start_of desk.now) block
        (at_home cell.now) (view chair.new)) }
    ensures left { OnErr result (HoldsOnlyPage P.state P.faults G.group (start_of desk.now) block
        cell.now (view chair.new)) }
    ensures moves { OnOk result (MovesOn [] [] (view chair.old) (view chair.new)) }
    ensures refused { IfErr result (λ c. IsRefusedBy P.state P.faults G.group [] c
        (view chair.old) (view chair.new)) }
{
    let turn = &port_of(geometry, block);
    let mut port = desk.take(rt, chair, *turn);
    let step = write_by(&mut port, geometry.home(block), copy);
    match answer(block, step) {
        Ok(()) => {
            desk.note_home(chair, block, cell.version);
            desk.give_back(chair, *turn, port);
            Ok(())
        }
        Err(cause) => {
            report_port(desk, chair, turn, port, &cause);
            Err(cause)
        }
    }
}
