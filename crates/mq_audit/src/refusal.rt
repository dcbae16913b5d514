// Why a trace is not read.
ghost use Rattle.std.specs.Prelude.{◌≡◌};
ghost use Rattle.mq_audit.specs.declared.refusal.Misread.TheVariants.{OutOfMemory as no_memory};
ghost use Rattle.mq_audit.specs.declared.refusal.TraceRefusal.TheVariants.{OutOfMemory as out_of_memory};

use mq_blocks::OutOfMemory;
use std::alloc::{AllocError, AllocFailed};

/// Why a line is not read.
#[derive(Clone, Copy, PartialEq, Eq)]
pub enum Misread {
    /// The line is not in its form.
    Form,
    /// Memory ran out. The line may be good.
    OutOfMemory,
}

/// Why a trace is not read.
#[derive(Clone, Copy, PartialEq, Eq)]
pub enum TraceRefusal {
    /// The first line that is not in its form, counted from 1.
    Line { line: u64 },
    /// Memory ran out. The trace may be good.
    OutOfMemory,
}

impl Misread {
    ghost use Rattle.mq_audit.specs.Answers.{refusal_at};

    /// This refusal of a line, as that of its trace.
    pub fn at(self, line: u64) -> TraceRefusal
        ensures { result ≡ refusal_at line self }
    {
        match self {
            Misread::Form => TraceRefusal::Line { line },
            Misread::OutOfMemory => TraceRefusal::OutOfMemory,
        }
    }
}

impl From<OutOfMemory> for Misread {
    ghost from_gives = { λ _ e. e ≡ no_memory };

    fn from(_: OutOfMemory) -> Self {
        Misread::OutOfMemory
    }
}

impl From<AllocError> for Misread {
    ghost from_gives = { λ _ e. e ≡ no_memory };

    fn from(_: AllocError) -> Self {
        Misread::OutOfMemory
    }
}

impl<T: Drop> From<AllocFailed<T>> for Misread {
    ghost from_gives = { λ _ e. e ≡ no_memory };

    fn from(_: AllocFailed<T>) -> Self {
        Misread::OutOfMemory
    }
}

impl From<OutOfMemory> for TraceRefusal {
    ghost from_gives = { λ _ e. e ≡ out_of_memory };

    fn from(_: OutOfMemory) -> Self {
        TraceRefusal::OutOfMemory
    }
}

impl From<AllocError> for TraceRefusal {
    ghost from_gives = { λ _ e. e ≡ out_of_memory };

    fn from(_: AllocError) -> Self {
        TraceRefusal::OutOfMemory
    }
}

impl<T: Drop> From<AllocFailed<T>> for TraceRefusal {
    ghost from_gives = { λ _ e. e ≡ out_of_memory };

    fn from(_: AllocFailed<T>) -> Self {
        TraceRefusal::OutOfMemory
    }
}
