// A transaction gets its number.
ghost use Rattle.std.specs.Prelude.{◌≡◌, ◌<◌, ◌≤◌, ◌+◌, ◌++◌, ◌∷◌, ◌^◌, [], length, vec_len, vec_capacity};
ghost use Rattle.mq_blocks.specs.Descriptor.{journal_form};
ghost use Rattle.mq_queue_side.specs.Commits.{descriptor_size, further_of};
ghost use Rattle.mq_queue_side.specs.Stored.{rows_of, next_in, numbered_in};

use crate::commit::Position;
use crate::room::{newest, next_place};
use crate::{Drawn, Numbered, Prepared, QueueSide};
use mq_blocks::TxNo;
use mq_drive::Port;

// Adds what was drawn, where there is room.
fn store<E>(stored: &mut Vec<Drawn<E>>, drawn: Drawn<E>)
    requires { vec_len stored.old < vec_capacity stored.old }
    ensures { stored.new.items ≡ stored.old.items ++ drawn ∷ [] }
{
    match stored.push(drawn) {
        Ok(()) => {}
        Err(_) => unreachable!(),
    }
}

impl<P: Port, E> QueueSide<P, E> {
    /// Notes a transaction that was drawn on the queue, with its entry: gives it the next places of the
    /// journal area, and fills its descriptor. Takes no memory.
    pub fn numbered(&mut self, prepared: Prepared, tx: TxNo, entry: E) -> Numbered
        requires reserved { vec_len self.old.stored < vec_capacity self.old.stored }
        requires places { next_in (rows_of self.old.stored.items)
            + (length prepared.logged + further_of prepared) < 2 ^ 62 }
        ensures commit { result ≡ numbered_in journal_form self.old.pmr.queue tx
            (rows_of self.old.stored.items) prepared }
        ensures stored { self.new.stored.items ≡ self.old.stored.items ++ (record {
          number = tx;
          next =
              next_in (rows_of self.old.stored.items) + (length prepared.logged
              + descriptor_size (length prepared.logged) (length prepared.revoked));
          entry = entry;
        }) ∷ [] }
        ensures rows { rows_of self.new.stored.items ≡ (record {
          number = tx;
          next =
              next_in (rows_of self.old.stored.items) + (length prepared.logged
              + descriptor_size (length prepared.logged) (length prepared.revoked));
        }) ∷ rows_of self.old.stored.items }
        ensures pmr { self.new.pmr ≡ self.old.pmr }
        ensures done { self.new.done ≡ self.old.done }
        ensures kept { self.new.kept ≡ self.old.kept }
    {
        let first = next_place(&self.stored);
        let next = first + (prepared.copies() + (prepared.further() + 1));
        let at = Position {
            queue: self.pmr.queue(),
            first,
            prev_place: first.saturating_sub(1),
            prev_number: newest(&self.stored),
        };
        store(
            &mut self.stored,
            Drawn {
                number: tx,
                next,
                entry,
            },
        );
        prepared.number(tx, at)
    }
}
