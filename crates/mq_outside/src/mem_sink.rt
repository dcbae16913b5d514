// Sinks in memory.
ghost use Rattle.std.specs.Prelude.{◌≡◌, ◌+◌, ◌<◌, ◌≤◌, ◌↔◌, ◌==◌, true, false, [], ◌++◌, length, min, take, Some, IfOk, IsErrOf, MatchResult};
ghost use Rattle.std.specs.List.{list_any};
ghost use Rattle.mq_outside.specs.Outside.{PutCause, appended, count_end, piece_of};

use super::counts::Schedule;
use super::traits::{PutRefusal, Sink};
use std::alloc::Global;

// Appends a piece, or the first 64 bytes of a longer one.
fn append_piece(written: &mut Vec<u8>, bytes: &[u8]) -> Result<usize, PutRefusal>
    requires { 0 < length bytes.now }
    ensures some { IfOk result (λ n. (1 ≤ n) × (n ≤ length bytes.now)) }
    ensures wrote { MatchResult result (λ n. written.new.items ≡ written.old.items ++ take n bytes.now)
        (λ _. written.new.items ≡ written.old.items) }
    ensures piece { MatchResult result (λ n. n ≡ piece_of bytes.now) (λ e. e ≡ PutRefusal.OutOfMemory) }
{
    let n = bytes.len().min(64);
    match written.extend_from_slice(&bytes[..n]) {
        Ok(()) => Ok(n),
        Err(_) => Err(PutRefusal::OutOfMemory),
    }
}

/// A sink in memory, of which chosen calls fail.
#[derive(Drop)]
pub struct MemSink {
    written: Vec<u8>,
    schedule: Schedule,
}

impl MemSink {
    /// An empty sink. `fail` lists the puts that have to fail, counted from 1.
    pub fn new(alloc: Global, fail: Vec<u64>) -> MemSink
        ensures written { (⟦<MemSink as Sink>⟧.state result).contents ≡ Some [] }
        ensures fail { result.schedule.fail ≡ fail }
        ensures calls { result.schedule.calls ≡ 0 }
        ensures faults { (⟦<MemSink as Sink>⟧.state result).faults ≡ 0 }
    {
        MemSink {
            written: Vec::new(alloc),
            schedule: Schedule::new(fail),
        }
    }

    /// What was written so far.
    pub fn written(&self) -> &[u8]
        ensures { (⟦<MemSink as Sink>⟧.state self.now).contents ≡ Some result.now }
    {
        self.written.as_slice()
    }
}

impl Sink for MemSink {
    ghost state = { λ s. record { contents = Some s.written.items; faults = s.schedule.faults } };

    fn put(&mut self, bytes: &[u8]) -> Result<usize, PutRefusal>
        requires { 0 < length bytes.now }
        ensures some { IfOk result (λ n. (1 ≤ n) × (n ≤ length bytes.now)) }
        ensures wrote { MatchResult result
            (λ n. self.new.written.items ≡ self.old.written.items ++ take n bytes.now)
            (λ _. self.new.written.items ≡ self.old.written.items) }
        ensures cause { PutCause result self.old.schedule.faults self.new.schedule.faults }
        ensures piece { IfOk result (λ n. n ≡ piece_of bytes.now) }
        ensures listed { IsErrOf result PutRefusal.Failed
            ↔ (list_any (λ n. n == self.new.schedule.calls) self.old.schedule.fail.items ≡ true) }
        ensures calls { self.new.schedule.calls ≡ min (self.old.schedule.calls + 1) count_end }
        ensures fail { self.new.schedule.fail ≡ self.old.schedule.fail }
    {
        if self.schedule.call() {
            return Err(PutRefusal::Failed);
        }
        append_piece(&mut self.written, bytes)
    }
}

/// A sink in memory whose puts never fail.
#[derive(Drop)]
pub struct SureSink {
    written: Vec<u8>,
}

impl SureSink {
    /// An empty sink.
    pub fn new(alloc: Global) -> SureSink
        ensures { (⟦<SureSink as Sink>⟧.state result).contents ≡ Some [] }
    {
        SureSink {
            written: Vec::new(alloc),
        }
    }

    /// What was written so far.
    pub fn written(&self) -> &[u8]
        ensures { (⟦<SureSink as Sink>⟧.state self.now).contents ≡ Some result.now }
    {
        self.written.as_slice()
    }
}

impl Sink for SureSink {
    ghost state = { λ s. record { contents = Some s.written.items; faults = 0 } };

    fn put(&mut self, bytes: &[u8]) -> Result<usize, PutRefusal>
        requires { 0 < length bytes.now }
        ensures some { IfOk result (λ n. (1 ≤ n) × (n ≤ length bytes.now)) }
        ensures wrote { MatchResult result
            (λ n. self.new.written.items ≡ self.old.written.items ++ take n bytes.now)
            (λ _. self.new.written.items ≡ self.old.written.items) }
        ensures piece { MatchResult result (λ n. n ≡ piece_of bytes.now) (λ e. e ≡ PutRefusal.OutOfMemory) }
    {
        append_piece(&mut self.written, bytes)
    }
}
