// What holds of every run.
ghost use Rattle.std.specs.Prelude.{◌≡◌, ◌≤◌, ℕ, ◌+◌, ◌^◌, Option, List, length};
ghost use Rattle.mq_blocks.specs.Descriptor.{Descriptor};
ghost use Rattle.mq_blocks.specs.Drive.{PortImage};
ghost use Rattle.mq_blocks.specs.Geometry.{homes_of};
ghost use Rattle.mq_blocks.specs.Journal.{Reaches, shown};
ghost use Rattle.mq_blocks.specs.declared.geometry.Geometry.{Geometry};
ghost use Rattle.mq_ledger.specs.History.{part_of};
ghost use Rattle.mq_ledger.specs.Items.{Entries, reading_of};
ghost use Rattle.mq_ledger.specs.Plain.{plain};
ghost use Rattle.mq_ledger.specs.State.{State, AreImages, IsLawful, IsStart, front_of};
ghost use Rattle.mq_core.specs.Start.{start_state};
ghost use Rattle.mq_core.specs.Machine.{Event, AreAllowed, IsAlwaysLawful};
ghost use Rattle.mq_core.specs.Reach.{ReachBetween, IsReached, stored_front};
ghost use Rattle.mq_core.specs.Whole.{is_whole};

/// Every run of allowed events from a start state is lawful before, after and between its events:
/// whatever a power cut leaves there is readable and stands for the map after a prefix of the
/// history, with all that was acknowledged. Transactions may write blocks directly and revoke copies.
pub fn every_run_is_lawful()
    ensures { (e : Entries) (s : State) (events : List Event)
        → IsStart e s
        → AreAllowed e events s
        → IsAlwaysLawful e events s }
{}

/// On an image of a lawful state the prefix is as long as the part of the history whose transactions the
/// image shows whole: up to its base, and from there on those whose entries all stand below its heads.
pub fn prefixes_are_whole()
    ensures { (e : Entries) (s : State) (queues : List PortImage) (root : PortImage) (ds : List Descriptor)
        → IsLawful e s
        → AreImages s queues root
        → Reaches s.geometry (shown (reading_of e) s.geometry queues root) ds
        → root.base + length ds
        ≡ s.base + length (part_of (is_whole s (shown (reading_of e) s.geometry queues root)) s.history) }
{}

/// Each image of a lawful state reaches a number from the front up to the greatest number such that the
/// stored heads are past all up to it, and some image reaches each of these two.
pub fn reach_is_exact()
    ensures between { (e : Entries) (s : State)
        → IsLawful e s
        → ReachBetween e s (front_of s) (stored_front s) }
    ensures least { (e : Entries) (s : State) → IsLawful e s → IsReached e s (front_of s) }
    ensures greatest { (e : Entries) (s : State) → IsLawful e s → IsReached e s (stored_front s) }
{}

/// Home blocks and a base make a start state.
pub fn starts()
    ensures { (g : Geometry) (blocks : List (Option (List ℕ))) (base : ℕ)
        → length blocks ≡ homes_of g
        → base ≤ 2 ^ 62
        → IsStart plain (start_state g blocks base) }
{}
