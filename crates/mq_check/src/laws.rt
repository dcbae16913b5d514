// What holds of findings.
ghost use Rattle.std.specs.Prelude.{◌≡◌, ℕ};
ghost use Rattle.mq_blocks.specs.declared.geometry.Geometry.{Geometry};
ghost use Rattle.mq_tree.specs.Decoded.{Stored};
ghost use Rattle.mq_tree.specs.Phases.{IsFirst};
ghost use Rattle.mq_tree.specs.declared.corrupt.CorruptCause.{CorruptCause};

/// Home blocks have at most one first finding.
pub fn one_first_finding()
    ensures { (g : Geometry) (s : Stored) (phase other : ℕ) (cause further : CorruptCause) (b c : ℕ)
        → IsFirst g s phase cause b
        → IsFirst g s other further c
        → (phase ≡ other) × (cause ≡ further) × (b ≡ c) }
{}
