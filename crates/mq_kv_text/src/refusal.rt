// Why a file is not read.
ghost use Rattle.std.specs.Prelude.{◌≡◌};
ghost use Rattle.mq_kv_text.specs.declared.refusal.KvTextRefusal.TheVariants.{OutOfMemory as out_of_memory};
ghost use Rattle.mq_kv_text.specs.declared.refusal.Misread.TheVariants.{OutOfMemory as no_memory};

use mq_blocks::OutOfMemory;
use std::alloc::{AllocError, AllocFailed};

/// Why a line is not read.
#[derive(Clone, Copy)]
pub enum Misread {
    /// The line is not in the form.
    Form,
    /// Memory ran out. The line may be good.
    OutOfMemory,
}

/// Why a file of groups is not read.
#[derive(Clone, Copy, PartialEq, Eq)]
pub enum KvTextRefusal {
    /// The first line that is not in the form, counted from 1. Where the last `sync` is missing, it is the
    /// line after the last one.
    Line { line: u64 },
    /// Memory ran out. The file may be good.
    OutOfMemory,
}

impl Misread {
    ghost use Rattle.mq_kv_text.specs.Files.{refusal_at};

    /// This refusal of a line, as that of its file.
    pub fn at(self, line: u64) -> KvTextRefusal
        ensures { result ≡ refusal_at line self }
    {
        match self {
            Misread::Form => KvTextRefusal::Line { line },
            Misread::OutOfMemory => KvTextRefusal::OutOfMemory,
        }
    }
}

impl From<OutOfMemory> for Misread {
    ghost from_gives = { λ _ e. e ≡ no_memory };

    fn from(_: OutOfMemory) -> Self {
        Misread::OutOfMemory
    }
}

impl From<AllocError> for Misread {
    ghost from_gives = { λ _ e. e ≡ no_memory };

    fn from(_: AllocError) -> Self {
        Misread::OutOfMemory
    }
}

impl From<AllocError> for KvTextRefusal {
    ghost from_gives = { λ _ e. e ≡ out_of_memory };

    fn from(_: AllocError) -> Self {
        KvTextRefusal::OutOfMemory
    }
}

impl<T: Drop> From<AllocFailed<T>> for KvTextRefusal {
    ghost from_gives = { λ _ e. e ≡ out_of_memory };

    fn from(_: AllocFailed<T>) -> Self {
        KvTextRefusal::OutOfMemory
    }
}
