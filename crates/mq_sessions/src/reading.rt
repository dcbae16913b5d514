// A group that is not drawn: it is read at the number that the session finds.
ghost use Rattle.std.specs.Prelude.{◌≡◌, [], IfOk, OnErr};
ghost use Rattle.mq_desk_laws.specs.Rule.{shape_of};
ghost use Rattle.mq_journal.specs.Machine.{journal};
ghost use Rattle.mq_journal.specs.Values.{side_values};
ghost use Rattle.mq_turns.specs.AtDesk.{AtDesk, start_of, view};
ghost use Rattle.mq_turns.specs.Desk.{Follows, MayRead};
ghost use Rattle.mq_sessions.specs.Calls.{IsAsking, Looked, call_of};
ghost use Rattle.mq_sessions.specs.Executors.{IsReadOf, IsUndrawn};
ghost use Rattle.mq_sessions.specs.Pages.{HoldsOnlyPages};
ghost use Rattle.mq_sessions.specs.Wanted.{IsSameSession};

use crate::asked::Asked;
use crate::executor::Executor;
use crate::pages::give_back_pages;
use mq_blocks::{Geometry, OutOfMemory, TxNo};
use mq_drive::Port;
use mq_journal::{Groups, JournalMachine};
use mq_pages::Held;
use mq_turns::{Chair, Desk};
use std::alloc::Global;

// Reads an entry at the newest number, and gives back the pages that are held.
fn look_and_leave<P: Port + Drop, G: Groups>(
    desk: &Desk<JournalMachine<P, G>>,
    chair: &mut Chair<JournalMachine<P, G>>,
    held: &mut Held,
    entry: &G::Entry,
) -> TxNo
    requires at { AtDesk desk.now chair.old }
    requires pages { HoldsOnlyPages (journal P.state P.faults G.group) (start_of desk.now) held.old.cells (view chair.old) }
    requires read { MayRead (journal P.state P.faults G.group) entry.now (view chair.old) }
    requires follows { Follows (journal P.state P.faults G.group) entry.now (view chair.old) }
    ensures at { AtDesk desk.now chair.new }
    ensures looked { Looked entry.now result (view chair.old) (view chair.new) }
    ensures cells { held.new.cells ≡ [] }
    ensures room { held.new.room ≡ held.old.room }
{
    let at = desk.look(chair, Some(entry));
    give_back_pages(desk, chair, held);
    at
}

/// Reads a group that is not drawn, since it changes nothing or too much: notes it at the newest number,
/// and gives back the pages of the session.
pub(crate) fn read_group<P: Port + Drop, G: Executor>(
    alloc: Global,
    desk: &Desk<JournalMachine<P, G>>,
    chair: &mut Chair<JournalMachine<P, G>>,
    geometry: Geometry,
    asked: &Asked<G::Request>,
    held: &mut Held,
    done: &G::Done,
) -> Result<TxNo, OutOfMemory>
    requires at { AtDesk desk.now chair.old }
    requires geometry { shape_of (side_values P.state P.faults) G.group (start_of desk.now) ≡ geometry }
    requires asks { IsAsking G.group geometry asked.now (view chair.old) }
    requires pages { HoldsOnlyPages (journal P.state P.faults G.group) (start_of desk.now) held.old.cells (view chair.old) }
    requires done { G.calls.on_cells geometry asked.now.queue held.old.cells asked.now.requests.now done.now }
    requires undrawn { IsUndrawn geometry (G.calls.writes done.now) (G.calls.frees done.now) }
    ensures at { AtDesk desk.now chair.new }
    ensures read { IfOk result (λ at. IsReadOf G.calls (call_of asked.now) done.now at (view chair.old) (view chair.new)) }
    ensures left { OnErr result ((view chair.new).held ≡ []) }
    ensures same { OnErr result (IsSameSession (view chair.old) (view chair.new)) }
    ensures cells { held.new.cells ≡ [] }
    ensures room { held.new.room ≡ held.old.room }
{
    G::done_groups_are_on_maps();
    G::entries_are_of_calls();
    G::undrawn_groups_fit::<JournalMachine<P, G>>();
    match G::undrawn(alloc, asked, done) {
        Ok(entry) => Ok(look_and_leave(desk, chair, held, &entry)),
        Err(wanting) => {
            give_back_pages(desk, chair, held);
            Err(wanting)
        }
    }
}
