// The places that commits take of the journal areas.
ghost use Rattle.std.specs.Prelude.{◌≡◌, ◌<◌, ◌+◌, ℕ, [], ◌∷◌, None, IfSome, length, slice_index_or};
ghost use Rattle.mq_loose_text.specs.Text.{IsGoodLine, places_on, queue_count};

use crate::line::LooseLine;

/// The places that are left on each queue behind a line, if they suffice for it.
pub fn room_behind(room: [usize; 4], line: &LooseLine) -> Option<[usize; 4]>
    requires whole { length room ≡ 4 }
    requires good { IsGoodLine line.now }
    ensures left { IfSome result (λ r. (length r ≡ 4)
        × ((q : ℕ) → q < queue_count
        → places_on q (line.now ∷ []) + slice_index_or r q 0 ≡ slice_index_or room q 0)) }
    ensures lacks { result ≡ None
        → (q : ℕ) × (q < queue_count) × (slice_index_or room q 0 < places_on q (line.now ∷ [])) }
{
    let LooseLine::Commit(queue, items) = line else {
        return Some(room);
    };
    let queue = queue.0 as usize;
    let sets = items.sets();
    if sets >= room[queue] {
        return None;
    }
    let mut left = room;
    left[queue] -= sets + 1;
    Some(left)
}
