// The history of a run, read entry by entry, and the ports that it leaves.
ghost use Rattle.std.specs.Prelude.{◌≡◌, ◌+◌, ◌<◌, Some, length, reverse, slice_get};
ghost use Rattle.mq_tie.specs.Runs.{history_of, ports_of};

use crate::ended::Ended;
use mq_drive::{Port, Ports};
use mq_pages::PageCell;
use mq_queue_side::{Drawn, unmake_sides};

impl<P: Port, E> Ended<P, E> {
    /// The number of entries of the history.
    pub fn count(&self) -> usize
        ensures { result ≡ length (history_of self.now) }
    {
        self.order.len()
    }

    /// An entry of the history, with its number, by its place in number order, counted from 0.
    pub fn drawn(&self, at: usize) -> &Drawn<E>
        requires { at < length (history_of self.now) }
        ensures { slice_get (history_of self.now) at ≡ Some (result.now.number, result.now.entry) }
    {
        let entry_place = self.order[at];
        &self.sides[entry_place.queue].stored()[entry_place.place]
    }
}

impl<P: Port + Drop, E: Drop> Ended<P, E> {
    /// The ports, and the cells of the home blocks. The history is dropped. It takes no memory.
    pub fn into_ports(self) -> (Ports<P>, Vec<PageCell>)
        ensures queues { result.0.queues.items ≡ ports_of self }
        ensures root { result.0.root ≡ self.root.port }
        ensures pages { result.1 ≡ self.pages }
    {
        let Ended {
            pages,
            root,
            mut sides,
            mut queues,
            ..
        } = self;
        sides.reverse();
        unmake_sides(sides, &mut queues);
        let root = root.into_port();
        (Ports { queues, root }, pages)
    }
}
