// What holds of every run.
ghost use Rattle.std.specs.Prelude.{List};
ghost use Rattle.mq_ledger.specs.Items.{Entries};
ghost use Rattle.mq_ledger.specs.State.{State};
ghost use Rattle.mq_loose.specs.Guards.{IsLooseStart};
ghost use Rattle.mq_loose.specs.Runs.{LooseEvent, AreAllowed, IsAlwaysSafe};

/// Every run of allowed events from a start state is safe before, after and between its events: whatever a
/// power cut leaves there is readable, its set of transactions is closed under dependence and has all that was
/// acknowledged, and it stands for the map after the transactions of that set.
pub fn every_loose_run_is_safe()
    ensures { (e : Entries) (s : State) (events : List LooseEvent)
        → IsLooseStart e s
        → AreAllowed e events s
        → IsAlwaysSafe e events s }
{}
