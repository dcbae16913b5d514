// The steps on the table, each with what it needs of the seat.
ghost use Rattle.std.specs.Prelude.{◌≡◌, ℕ, suc, ◌+◌, ◌*◌, ◌^◌, ◌<◌, ◌≤◌, [], ◌∷◌, Option, Some, None, IfSome, IfNone, length};
ghost use Rattle.std.specs.Option.{option_map};
ghost use Rattle.atomic_table.specs.Seated.{TableId};
ghost use Rattle.mq_turns.specs.Meaning.{newest};
ghost use Rattle.mq_turns.specs.Lists.{times, without};
ghost use Rattle.mq_turns.specs.declared.rule.Known.{Known};
ghost use Rattle.mq_turns.specs.Desk.{slots, turn_at, opening_of, allotment, Covers, MayRead, Follows, Below, IsInOrder, Sees, Stands, after_draw, after_look};

use crate::machine::Machine;
use crate::plays::{Draw, Free, Look, Reach, Settle, Take, Told};
use crate::rule::{Knows, Law, Start};
use crate::turn::Item;
use atomic_table::{Seat, Shared};
use crossbeam_utils::Backoff;
use std::marker::Brand;
use std::sync::Wait;

pub(crate) type Top<M> = Shared<Option<Item<M>>, Knows<M>, Start<M>, Law<M>>;

pub(crate) type Place<M> = Seat<Option<Item<M>>, Knows<M>>;

fn try_take<M: Machine>(top: &Top<M>, place: &mut Place<M>, slot: usize) -> Option<Item<M>>
    requires table { (place.old.table_id ≡ top.now.table_id)
        × (slot < top.now.table_id.slots)
        × (top.now.table_id.slots < top.now.table_id.words) }
    requires idle { (place.old.me.0.hand ≡ 0) × (place.old.me.1 ≡ []) × (0 < place.old.me.0.parts) }
    ensures seat { (place.new.table_id ≡ place.old.table_id) × (place.new.id ≡ place.old.id) }
    ensures some { IfSome result (λ x. (K : Known M.Page M.Side M.Root M.Entry)
        × (place.new.me ≡ (
          record place.old.me.0 {
            hand = 0;
            held =
                (slot, K) ∷ place.old.me.0.held;
          },
          [],
        ))
        × Sees M.meaning place.old.me.0 K
        × Stands M.meaning (turn_at K.opening slot) K x) }
    ensures none { IfNone result (place.new.me ≡ place.old.me) }
{
    if top.swap::<Take<M>>(place, slot, 1) == 0 {
        let item = top.exchange(place, slot, None).unwrap();
        top.load::<Settle>(place, slot);
        Some(item)
    } else {
        None
    }
}

/// Takes the turn of the slot, as soon as it is free.
pub(crate) fn take<M: Machine, R: Wait>(
    rt: &R,
    top: &Top<M>,
    place: &mut Place<M>,
    slot: usize,
) -> Item<M>
    requires table { (place.old.table_id ≡ top.now.table_id)
        × (slot < top.now.table_id.slots)
        × (top.now.table_id.slots < top.now.table_id.words) }
    requires idle { (place.old.me.0.hand ≡ 0) × (place.old.me.1 ≡ []) × (0 < place.old.me.0.parts) }
    ensures seat { (place.new.table_id ≡ place.old.table_id) × (place.new.id ≡ place.old.id) }
    ensures took { (K : Known M.Page M.Side M.Root M.Entry)
        × (place.new.me ≡ (
          record place.old.me.0 {
            hand = 0;
            held =
                (slot, K) ∷ place.old.me.0.held;
          },
          [],
        ))
        × Sees M.meaning place.old.me.0 K
        × Stands M.meaning (turn_at K.opening slot) K result }
{
    let backoff = Backoff::new();
    for _ in rt.forever() {
        if let Some(item) = try_take(top, place, slot) {
            return item;
        }
        backoff.snooze();
    }
    unreachable!()
}

/// Lays a value into the slot, and frees its turn.
pub(crate) fn give_back<M: Machine>(top: &Top<M>, place: &mut Place<M>, slot: usize, item: Item<M>)
    requires table { (place.old.table_id ≡ top.now.table_id)
        × (slot < top.now.table_id.slots)
        × (top.now.table_id.slots < top.now.table_id.words) }
    requires holds { (place.old.me.0.hand ≡ 0)
        × (place.old.me.1 ≡ [])
        × (0 < place.old.me.0.parts)
        × (0 < times slot place.old.me.0.held) }
    requires stands { (K : Known M.Page M.Side M.Root M.Entry)
        → Sees M.meaning place.old.me.0 K
        → Stands M.meaning (turn_at (opening_of top.now.key) slot) K item }
    ensures seat { (place.new.table_id ≡ place.old.table_id) × (place.new.id ≡ place.old.id) }
    ensures gave { place.new.me ≡ (record place.old.me.0 { hand = 0; held = without slot place.old.me.0.held }, []) }
{
    top.load::<Reach>(place, slot);
    let empty = top.exchange(place, slot, Some(item));
    let None = empty else { unreachable!() };
    top.store::<Free>(place, slot, 0);
}

fn look_as<M: Machine, N: Told<M::Entry>>(
    top: &Top<M>,
    place: &mut Place<M>,
    counter: usize,
    read: Option<&M::Entry>,
) -> u64
    requires table { (place.old.table_id ≡ top.now.table_id)
        × (counter ≡ top.now.table_id.slots)
        × (counter < top.now.table_id.words)
        × (0 < place.old.me.0.parts) }
    requires read { IfSome read (λ e. MayRead M.meaning e.now place.old.me.0
        × Follows M.meaning e.now place.old.me.0) }
    requires told { N.told ≡ option_map (λ e. e.now) read }
    ensures seat { (place.new.table_id ≡ place.old.table_id) × (place.new.id ≡ place.old.id) }
    ensures looked { (K : Known M.Page M.Side M.Root M.Entry)
        × (place.new.me ≡ (
          after_look
              (option_map (λ e. e.now) read.entry) K place.old.me.0,
          place.old.me.1,
        ))
        × (newest K ≡ result)
        × Sees M.meaning place.old.me.0 K }
    ensures below { Below result place.old.me.0 }
    ensures order { place.old.me.0.parts ≡ 1 → IsInOrder M.meaning place.new.me.0 }
{
    let _ = read;
    top.load::<Look<M, N>>(place, counter)
}

/// Reads the counter, with an entry that is not drawn, if there is one.
pub(crate) fn look<M: Machine>(
    top: &Top<M>,
    place: &mut Place<M>,
    counter: usize,
    read: Option<&M::Entry>,
) -> u64
    requires table { (place.old.table_id ≡ top.now.table_id)
        × (counter ≡ top.now.table_id.slots)
        × (counter < top.now.table_id.words)
        × (0 < place.old.me.0.parts) }
    requires read { IfSome read (λ e. MayRead M.meaning e.now place.old.me.0
        × Follows M.meaning e.now place.old.me.0) }
    ensures seat { (place.new.table_id ≡ place.old.table_id) × (place.new.id ≡ place.old.id) }
    ensures looked { (K : Known M.Page M.Side M.Root M.Entry)
        × (place.new.me ≡ (
          after_look
              (option_map (λ e. e.now) read.entry) K place.old.me.0,
          place.old.me.1,
        ))
        × (newest K ≡ result)
        × Sees M.meaning place.old.me.0 K }
    ensures below { Below result place.old.me.0 }
    ensures order { place.old.me.0.parts ≡ 1 → IsInOrder M.meaning place.new.me.0 }
{
    look_as::<M, Brand>(top, place, counter, read)
}

/// Reads the counter alone.
pub(crate) fn count<M: Machine>(top: &Top<M>, place: &mut Place<M>, counter: usize) -> u64
    requires table { (place.old.table_id ≡ top.now.table_id)
        × (counter ≡ top.now.table_id.slots)
        × (counter < top.now.table_id.words)
        × (0 < place.old.me.0.parts) }
    ensures seat { (place.new.table_id ≡ place.old.table_id) × (place.new.id ≡ place.old.id) }
    ensures counted { place.new.me ≡ (record place.old.me.0 { seen = result }, place.old.me.1) }
    ensures known { (K : Known M.Page M.Side M.Root M.Entry)
        × (newest K ≡ result)
        × Sees M.meaning place.old.me.0 K }
    ensures below { Below result place.old.me.0 }
    ensures order { place.old.me.0.parts ≡ 1 → IsInOrder M.meaning place.new.me.0 }
{
    top.load::<Look<M, Brand>>(place, counter)
}

fn draw_as<M: Machine, N: Told<M::Entry>>(
    top: &Top<M>,
    place: &mut Place<M>,
    counter: usize,
    entry: &M::Entry,
) -> u64
    requires table { (place.old.table_id ≡ top.now.table_id)
        × (counter ≡ top.now.table_id.slots)
        × (counter < top.now.table_id.words)
        × (counter ≡ slots (opening_of top.now.key)) }
    requires side { (M.meaning).queue entry.now < length (opening_of top.now.key).sides }
    requires may { Covers M.meaning entry.now place.old.me.0
        × Follows M.meaning entry.now place.old.me.0
        × (length place.old.me.0.drawn < place.old.me.0.parts * allotment top.now.key.chairs) }
    requires told { N.told ≡ Some entry.now }
    ensures seat { (place.new.table_id ≡ place.old.table_id) × (place.new.id ≡ place.old.id) }
    ensures drew { (K : Known M.Page M.Side M.Root M.Entry)
        × (place.new.me ≡ (after_draw M.meaning entry.now K place.old.me.0, place.old.me.1))
        × (newest K ≡ result)
        × Sees M.meaning place.old.me.0 K }
    ensures below { Below result place.old.me.0 × (result < 2 ^ 63) }
    ensures order { place.old.me.0.parts ≡ 1 → IsInOrder M.meaning place.new.me.0 }
{
    let _ = entry;
    M::obeys();
    top.fetch_add::<Draw<M, N>>(place, counter, 1)
}

/// Draws the number after the result.
pub(crate) fn draw<M: Machine>(
    top: &Top<M>,
    place: &mut Place<M>,
    counter: usize,
    entry: &M::Entry,
) -> u64
    requires table { (place.old.table_id ≡ top.now.table_id)
        × (counter ≡ top.now.table_id.slots)
        × (counter < top.now.table_id.words)
        × (counter ≡ slots (opening_of top.now.key)) }
    requires side { (M.meaning).queue entry.now < length (opening_of top.now.key).sides }
    requires may { Covers M.meaning entry.now place.old.me.0
        × Follows M.meaning entry.now place.old.me.0
        × (length place.old.me.0.drawn < place.old.me.0.parts * allotment top.now.key.chairs) }
    ensures seat { (place.new.table_id ≡ place.old.table_id) × (place.new.id ≡ place.old.id) }
    ensures drew { (K : Known M.Page M.Side M.Root M.Entry)
        × (place.new.me ≡ (after_draw M.meaning entry.now K place.old.me.0, place.old.me.1))
        × (newest K ≡ result)
        × Sees M.meaning place.old.me.0 K }
    ensures below { Below result place.old.me.0 × (result < 2 ^ 63) }
    ensures order { place.old.me.0.parts ≡ 1 → IsInOrder M.meaning place.new.me.0 }
{
    draw_as::<M, Brand>(top, place, counter, entry)
}
