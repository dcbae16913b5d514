// The numbers by which blocks, queues and transactions go.
use std::marker::Model;

/// The number of a home block, which is a block of the file system's own range, counted from 0.
#[derive(Clone, Copy, PartialEq, Eq, PartialOrd, Ord)]
pub struct BlockNo(pub u32);

impl Model for BlockNo {
    ghost use Rattle.std.specs.Prelude.{ℕ, ◌<◌, ◌^◌};

    ghost Value = { ℕ };

    ghost view = { λ b. b.0 };

    ghost invariant = { λ b. b.0 < 2 ^ 32 };

    ghost inverse = { λ n. record { 0 = n } };
}

/// The address of a logical block of namespace 1, which has 4,096 bytes.
#[derive(Clone, Copy, PartialEq, Eq, PartialOrd, Ord)]
pub struct Lba(pub u32);

impl Model for Lba {
    ghost use Rattle.std.specs.Prelude.{ℕ, ◌<◌, ◌^◌};

    ghost Value = { ℕ };

    ghost view = { λ l. l.0 };

    ghost invariant = { λ l. l.0 < 2 ^ 32 };

    ghost inverse = { λ n. record { 0 = n } };
}

/// The number of a queue, counted from 0.
#[derive(Clone, Copy, PartialEq, Eq, PartialOrd, Ord)]
pub struct QueueNo(pub u32);

impl Model for QueueNo {
    ghost use Rattle.std.specs.Prelude.{ℕ, ◌<◌, ◌^◌};

    ghost Value = { ℕ };

    ghost view = { λ q. q.0 };

    ghost invariant = { λ q. q.0 < 2 ^ 32 };

    ghost inverse = { λ n. record { 0 = n } };
}

/// The number of a transaction, over all queues. The first after a base is the base plus 1.
#[derive(Clone, Copy, PartialEq, Eq, PartialOrd, Ord)]
pub struct TxNo(pub u64);

impl Model for TxNo {
    ghost use Rattle.std.specs.Prelude.{ℕ, ◌<◌, ◌^◌};

    ghost Value = { ℕ };

    ghost view = { λ n. n.0 };

    ghost invariant = { λ n. n.0 < 2 ^ 64 };

    ghost inverse = { λ n. record { 0 = n } };
}
