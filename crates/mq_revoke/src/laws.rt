// What a plan does for a draw.
ghost use Rattle.std.specs.Prelude.{◌≡◌, ℕ, ◌≤◌, List, length};
ghost use Rattle.std.specs.List.{All};
ghost use Rattle.mq_blocks.specs.declared.geometry.Geometry.{Geometry};
ghost use Rattle.mq_ledger.specs.KnownJournal.{MayDraw, KnownJournal, front};
ghost use Rattle.mq_ledger.specs.declared.tx.Tx.{Tx};
ghost use Rattle.mq_revoke.specs.Guard.{IsOfHistory, MeetsRest, placed_of};
ghost use Rattle.mq_revoke.specs.Placed.{Placed};
ghost use Rattle.mq_revoke.specs.Placing.{AreInOrder, IsPlacement};
ghost use Rattle.mq_revoke.specs.declared.placement.Planned.{Planned};
ghost use Rattle.mq_blocks.specs.Geometry.{write_limit};

/// A transaction that is placed by a plan may be drawn where the rest of the guard holds. Front and base
/// may have been read earlier: with a smaller front less is written directly, and with a smaller base
/// more is revoked.
pub fn a_plan_meets_the_guard()
    ensures { (k : KnownJournal) (t : Tx) (writes : List Planned) (read_front read_base : ℕ)
        → AreInOrder k.geometry writes
        → length writes ≤ write_limit k.geometry
        → All (IsOfHistory k) writes
        → read_front ≤ front k
        → read_base ≤ k.word
        → IsPlacement k.geometry t.queue read_front read_base writes (placed_of t)
        → MeetsRest k t
        → MayDraw k t }
{}

/// The same writes have exactly one placement.
pub fn a_placement_is_the_only_one()
    ensures { (g : Geometry) (queue front base : ℕ) (writes : List Planned) (p r : Placed)
        → IsPlacement g queue front base writes p
        → IsPlacement g queue front base writes r
        → p ≡ r }
{}
