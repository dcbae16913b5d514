// What a queue notes of the entries in its slots.
ghost use Rattle.std.specs.Prelude.{◌≡◌, ◌<◌, ◌≤◌, ◌+◌, ◌%◌, ℕ, Bool, true, false, length, vec_len, slice_set};

/// What is noted of the entry that was last staged in a slot: the number of its transaction, and
/// whether its command has ended with success.
#[derive(Clone, Copy)]
pub struct SlotRecord {
    pub tx: u64,
    pub done: bool,
}
