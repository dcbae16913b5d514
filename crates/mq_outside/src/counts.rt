// Counts that stand still at their end, and the calls that are to fail.
ghost use Rattle.std.specs.Prelude.{◌≡◌, ◌+◌, min, ◌==◌, MatchBool};
ghost use Rattle.std.specs.List.{list_any};
ghost use Rattle.mq_outside.specs.Outside.{Rose, count_end};

// One more, or the end.
pub(crate) fn counted(count: u64) -> u64
    ensures value { result ≡ min (count + 1) count_end }
    ensures rose { Rose count result }
{
    count.saturating_add(1)
}

// The calls of a form in memory, and which of them are to fail.
#[derive(Drop)]
pub(crate) struct Schedule {
    fail: Vec<u64>,
    calls: u64,
    pub(crate) faults: u64,
}

impl Schedule {
    pub(crate) fn new(fail: Vec<u64>) -> Schedule
        ensures fail { result.fail ≡ fail }
        ensures calls { result.calls ≡ 0 }
        ensures faults { result.faults ≡ 0 }
    {
        Schedule {
            fail,
            calls: 0,
            faults: 0,
        }
    }

    pub(crate) fn count_fault(&mut self)
        ensures fail { self.new.fail ≡ self.old.fail }
        ensures calls { self.new.calls ≡ self.old.calls }
        ensures rose { Rose self.old.faults self.new.faults }
    {
        self.faults = counted(self.faults);
    }

    // Counts a call, and says whether it is to fail. If so it counts a fault.
    pub(crate) fn call(&mut self) -> bool
        ensures listed { result ≡ list_any (λ n. n == self.new.calls) self.old.fail.items }
        ensures fail { self.new.fail ≡ self.old.fail }
        ensures calls { self.new.calls ≡ min (self.old.calls + 1) count_end }
        ensures faults { MatchBool result (Rose self.old.faults self.new.faults)
            (self.new.faults ≡ self.old.faults) }
    {
        self.calls = counted(self.calls);
        let fails = self.fail.contains(&self.calls);
        if fails {
            self.count_fault();
        }
        fails
    }
}
