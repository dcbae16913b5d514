// Transactions in the order in which they were rung.
ghost use Rattle.std.specs.Prelude.{◌≡◌, ◌<◌, ◌≤◌, ◌++◌, ◌∷◌, [], ℕ, Bool, true, false, length};
ghost use Rattle.std.specs.VecDeque.{deque_len, deque_capacity};

/// A transaction that was rung: its number, and the count after its last entry.
#[derive(Clone, Copy)]
pub struct Rung {
    pub tx: u64,
    pub end: u64,
}
