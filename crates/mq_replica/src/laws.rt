// What holds of a feeder and a replica, whatever happens between them.
ghost use Rattle.std.specs.Prelude.{◌≡◌, ◌<◌, ◌^◌, ℕ};
ghost use Rattle.mq_replica.specs.Contents.{number_in, numbered_block};
ghost use Rattle.mq_replica.specs.World.{AlwaysServes};

/// Whatever order pushes, sends, offers, answers, power cuts and openings have, with loss and repetition:
/// each image of the replica stands for a number in its last block, and on the others for the history up
/// to it. Every answer that was given, and what the feeder takes as acknowledged, is at most this number;
/// once the feeder has nothing left to offer, it is the last one.
pub fn a_world_serves()
    ensures { AlwaysServes }
{}

/// A number that fits into the block which says one is read again.
pub fn a_number_is_read_again()
    ensures { (n : ℕ) → n < 2 ^ 64 → number_in (numbered_block n) ≡ n }
{}
