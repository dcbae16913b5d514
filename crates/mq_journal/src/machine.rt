// The machine.

use mq_desk_laws::JournalValues;
use mq_drive::Port;
use mq_pages::PageCell;
use mq_queue_side::{QueueSide, Root};
use mq_turns::Machine;
use std::marker::PhantomData;

/// The groups of requests that a desk commits: the type of the entry that is drawn for a group, and how the
/// rule of the desk reads such an entry.
pub trait Groups {
    ghost use Rattle.mq_desk_laws.specs.Groups.{GroupView};

    /// A group, with its replies and its writes.
    type Entry: Drop;

    ghost group: { GroupView Self.Entry };
}

/// The machine over ports of this kind, for these groups. A page is the cell of a home block, a side the
/// side of a queue, which stores the groups that were drawn on it.
pub struct JournalMachine<P, G> {
    port: PhantomData<P>,
    groups: PhantomData<G>,
}

impl<P: Port + Drop, G: Groups> Machine for JournalMachine<P, G> {
    type Page = PageCell;

    type Side = QueueSide<P, G::Entry>;

    type Root = Root<P>;

    type Entry = G::Entry;

    ghost use Rattle.mq_journal.specs.Machine.{journal};

    ghost meaning = { journal P.state P.faults G.group };

    fn obeys() {}
}

impl<P: Port + Drop, G: Groups> JournalValues for JournalMachine<P, G> {
    type Side = QueueSide<P, G::Entry>;

    type Root = Root<P>;

    type Entry = G::Entry;

    ghost use Rattle.mq_journal.specs.Values.{side_values};

    ghost values = { side_values P.state P.faults };

    ghost group = { G.group };
}
