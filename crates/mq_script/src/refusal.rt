// Why a script is not read.
ghost use Rattle.std.specs.Prelude.{◌≡◌};
ghost use Rattle.mq_script.specs.declared.refusal.LineRefusal.TheVariants.{Cause as of_cause, OutOfMemory as out_of_line};
ghost use Rattle.mq_script.specs.declared.refusal.ScriptRefusal.TheVariants.{OutOfMemory as out_of_memory};

use mq_blocks::OutOfMemory;
use std::alloc::{AllocError, AllocFailed};

/// Why a script is refused at a line.
#[derive(Clone, Copy, PartialEq, Eq)]
pub enum ScriptCause {
    /// The script has too many bytes. The line is 0.
    Size,
    /// A byte is neither a space nor a visible character of ASCII.
    Bytes,
    /// The first word names no request, nor an end of a group.
    Verb,
    /// There are fewer or more words than the first one takes.
    Arguments,
    /// A word is no path.
    Path,
    /// A word is no number.
    Number,
    /// The rest of the line is no data.
    Data,
    /// The script ends inside a group.
    Open,
}

/// Why a script is not read.
#[derive(Clone, Copy, PartialEq, Eq)]
pub enum ScriptRefusal {
    /// The first line that is refused, counted from 1, and its first cause.
    At { line: u32, cause: ScriptCause },
    /// Memory ran out. The script may be good.
    OutOfMemory,
}

/// Why a line is not read.
#[derive(Clone, Copy)]
pub enum LineRefusal {
    Cause(ScriptCause),
    OutOfMemory,
}

impl From<AllocError> for ScriptRefusal {
    ghost from_gives = { λ _ e. e ≡ out_of_memory };

    fn from(_: AllocError) -> Self {
        ScriptRefusal::OutOfMemory
    }
}

impl<T: Drop> From<AllocFailed<T>> for ScriptRefusal {
    ghost from_gives = { λ _ e. e ≡ out_of_memory };

    fn from(_: AllocFailed<T>) -> Self {
        ScriptRefusal::OutOfMemory
    }
}

impl From<AllocError> for LineRefusal {
    ghost from_gives = { λ _ e. e ≡ out_of_line };

    fn from(_: AllocError) -> Self {
        LineRefusal::OutOfMemory
    }
}

impl<T: Drop> From<AllocFailed<T>> for LineRefusal {
    ghost from_gives = { λ _ e. e ≡ out_of_line };

    fn from(_: AllocFailed<T>) -> Self {
        LineRefusal::OutOfMemory
    }
}

impl From<ScriptCause> for LineRefusal {
    ghost from_gives = { λ cause e. e ≡ of_cause cause };

    fn from(cause: ScriptCause) -> Self {
        LineRefusal::Cause(cause)
    }
}
