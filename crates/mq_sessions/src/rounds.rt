// A group of requests on the pages that it looks at.
ghost use Rattle.std.specs.Prelude.{◌≡◌, ◌<◌, ◌≤◌, ℕ, [], length, IfOk, OnOk, OnErr, None};
ghost use Rattle.std.specs.List.{Contains};
ghost use Rattle.mq_blocks.specs.Geometry.{homes_of, queues_of};
ghost use Rattle.mq_desk_laws.specs.Rule.{shape_of};
ghost use Rattle.mq_journal.specs.Machine.{journal};
ghost use Rattle.mq_journal.specs.Values.{side_values};
ghost use Rattle.mq_turns.specs.AtDesk.{AtDesk, view, start_of};
ghost use Rattle.mq_turns.specs.Desk.{Sees, after_look};
ghost use Rattle.mq_sessions.specs.Pages.{HoldsOnlyPages, IsSeen, blocks_of};
ghost use Rattle.mq_sessions.specs.Wanted.{AreWanted, HaveSame, HoldsWanted, IsSameSession};

use crate::executor::{Executor, Outcome};
use crate::pages::{give_back_pages, take_pages};
use crate::wanted::take_more;
use mq_blocks::{BlockNo, Geometry, OutOfMemory, QueueNo};
use mq_drive::Port;
use mq_journal::{Groups, JournalMachine};
use mq_pages::Held;
use mq_turns::{Chair, Desk};
use std::alloc::Global;
use std::sync::Wait;

// Runs the group, fetching missing pages until none is missing. The pages stay held even if memory
// runs out.
fn run_in_rounds<P: Port + Drop, G: Executor, R: Wait>(
    rt: &R,
    alloc: Global,
    desk: &Desk<JournalMachine<P, G>>,
    chair: &mut Chair<JournalMachine<P, G>>,
    geometry: Geometry,
    queue: QueueNo,
    requests: &[G::Request],
    wanted: &mut Vec<BlockNo>,
    held: &mut Held,
) -> Result<G::Done, OutOfMemory>
    requires at { AtDesk desk.now chair.old }
    requires geometry { shape_of (side_values P.state P.faults) G.group (start_of desk.now) ≡ geometry }
    requires pages { length (start_of desk.now).pages ≡ homes_of geometry }
    requires queue { queue < queues_of geometry }
    requires wanted { AreWanted (homes_of geometry) wanted.old.items }
    requires holds { HoldsWanted (journal P.state P.faults G.group) (start_of desk.now) wanted.old.items
        held.old.cells (view chair.old) }
    requires room { homes_of geometry ≤ held.old.room }
    ensures at { AtDesk desk.now chair.new }
    ensures wanted { AreWanted (homes_of geometry) wanted.new.items }
    ensures keeps { (b : ℕ) → Contains wanted.old.items b → Contains wanted.new.items b }
    ensures holds { HoldsWanted (journal P.state P.faults G.group) (start_of desk.now) wanted.new.items
        held.new.cells (view chair.new) }
    ensures done { IfOk result (λ done.
        G.calls.on_cells geometry queue held.new.cells requests.now done) }
    ensures same { IsSameSession (view chair.old) (view chair.new) }
    ensures room { held.new.room ≡ held.old.room }
{
    'rounds: loop {
        match G::run(alloc, geometry, queue, requests, held)? {
            Outcome::Done(done) => return Ok(done),
            Outcome::Need(blocks) => take_more(rt, desk, chair, wanted, held, &blocks)?,
        }
    }
}

/// Looks, and reads no group.
pub(crate) fn look_only<P: Port + Drop, G: Groups>(
    desk: &Desk<JournalMachine<P, G>>,
    chair: &mut Chair<JournalMachine<P, G>>,
)
    requires at { AtDesk desk.now chair.old }
    ensures at { AtDesk desk.now chair.new }
    ensures looked { (K : _)
        × (view chair.new ≡ after_look None K (view chair.old))
        × Sees (journal P.state P.faults G.group) (view chair.old) K }
    ensures above { (view chair.old).seen ≤ (view chair.new).seen }
{
    let none: Option<G::Entry> = None;
    desk.look(chair, none.as_ref());
}

/// What a group of requests of a session comes to. It begins with the pages of the wanted blocks, and takes
/// those that the group misses; their blocks are wanted from then on. The chair then holds just the pages
/// of the wanted blocks. What the group comes to is decided by these pages alone, and nobody else changes
/// them, so the outcome holds whatever is drawn meanwhile. On out of memory the chair is left with no turn.
pub(crate) fn run_held<P: Port + Drop, G: Executor, R: Wait>(
    rt: &R,
    alloc: Global,
    desk: &Desk<JournalMachine<P, G>>,
    chair: &mut Chair<JournalMachine<P, G>>,
    geometry: Geometry,
    queue: QueueNo,
    requests: &[G::Request],
    wanted: &mut Vec<BlockNo>,
    held: &mut Held,
) -> Result<G::Done, OutOfMemory>
    requires at { AtDesk desk.now chair.old }
    requires geometry { shape_of (side_values P.state P.faults) G.group (start_of desk.now) ≡ geometry }
    requires pages { length (start_of desk.now).pages ≡ homes_of geometry }
    requires queue { queue < queues_of geometry }
    requires wanted { AreWanted (homes_of geometry) wanted.old.items }
    requires idle { ((view chair.old).held ≡ []) × (held.old.cells ≡ []) }
    requires room { homes_of geometry ≤ held.old.room }
    ensures at { AtDesk desk.now chair.new }
    ensures wanted { AreWanted (homes_of geometry) wanted.new.items }
    ensures keeps { (b : ℕ) → Contains wanted.old.items b → Contains wanted.new.items b }
    ensures pages { OnOk result
        (HoldsOnlyPages (journal P.state P.faults G.group) (start_of desk.now) held.new.cells (view chair.new)) }
    ensures blocks { OnOk result (HaveSame wanted.new.items (blocks_of held.new.cells)) }
    ensures seen { OnOk result (IsSeen (journal P.state P.faults G.group) (view chair.new)) }
    ensures done { IfOk result (λ done.
        G.calls.on_cells geometry queue held.new.cells requests.now done) }
    ensures idle { OnErr result (((view chair.new).held ≡ []) × (held.new.cells ≡ [])) }
    ensures same { IsSameSession (view chair.old) (view chair.new) }
    ensures room { held.new.room ≡ held.old.room }
{
    look_only(desk, chair);
    take_pages(rt, desk, chair, held, wanted);
    match run_in_rounds(
        rt, alloc, desk, chair, geometry, queue, requests, wanted, held,
    ) {
        Ok(done) => Ok(done),
        Err(wanting) => {
            give_back_pages(desk, chair, held);
            Err(wanting)
        }
    }
}
