// The desk and its chairs.
ghost use Rattle.std.specs.Prelude.{◌≡◌, ◌+◌, ◌<◌, [], length};
ghost use Rattle.mq_turns.specs.Desk.{slots, opening_of};

use crate::machine::Machine;
use crate::rule::{Knows, Law, Start};
use crate::steps::Place;
use crate::turn::Item;
use atomic_table::Table;
use std::alloc::Global;

/// Pages, sides and a root, each under a turn, the counter of numbers, a mark for each side, and the
/// base. Threads share it by `&`.
#[derive(Drop)]
pub struct Desk<M: Machine> {
    pub(crate) table: Table<Option<Item<M>>, Knows<M>, Start<M>, Law<M>, Global>,
    pub(crate) pages: u32,
    pub(crate) sides: u32,
    ghost words: { table.shared.table_id.words ≡ table.shared.table_id.slots + sides + 2 },
    ghost slots: { table.shared.table_id.slots ≡ slots (opening_of table.shared.key) },
    ghost all_pages: { pages ≡ length table.shared.key.pages.value.items },
    ghost all_sides: { sides ≡ length table.shared.key.sides.value.items },
    ghost some: { 0 < table.shared.key.chairs },
}

/// A seat at a desk, for one thread at a time, with what the thread knows.
#[derive(Drop)]
pub struct Chair<M: Machine> {
    pub(crate) place: Place<M>,
    ghost bare: { place.me.1 ≡ [] },
    ghost quiet: { place.me.0.hand ≡ 0 },
    ghost live: { place.me.0.parts ≡ 1 },
}
