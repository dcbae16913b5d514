// The one text that a command says, and its status.
ghost use Rattle.std.specs.Prelude.{◌≡◌, if◌then◌else◌, nat_eq, IfOk, IsErrOf, MatchResult};
ghost use Rattle.mq_command_io.specs.Ending.{EndsWith, memory_line, named_line};
ghost use Rattle.mq_outside.specs.Outside.{AppendsPrefix, PutCause, appended};

use mq_outside::{PutRefusal, Sink, put_all};

/// Everything was done.
pub const DONE: u8 = 0;

/// The words of the command line are no command.
pub const USAGE: u8 = 1;

/// A text is refused.
pub const REFUSED: u8 = 2;

/// An image, a geometry or a path is refused.
pub const IMAGE: u8 = 3;

/// A file or the output failed, or a file is too long.
pub const FAULT: u8 = 4;

/// The command of the drive failed that had to fail.
pub const COMMAND: u8 = 5;

/// Memory ran out.
pub const NO_MEMORY: u8 = 6;

// The status after a text was put, or not.
fn ended(status: u8, put: Result<(), PutRefusal>) -> u8
    ensures ok { IfOk put (λ _. result ≡ status) }
    ensures failed { IsErrOf put PutRefusal.Failed → result ≡ 4 }
    ensures memory { IsErrOf put PutRefusal.OutOfMemory → result ≡ (if nat_eq status 4 then 4 else 6) }
{
    match put {
        Ok(()) => status,
        Err(PutRefusal::Failed) => FAULT,
        Err(PutRefusal::OutOfMemory) if status == FAULT => FAULT,
        Err(PutRefusal::OutOfMemory) => NO_MEMORY,
    }
}

/// Prints a text, and returns the status.
pub fn say<K: Sink>(status: u8, text: &[u8], out: &mut K) -> u8
    ensures { EndsWith status text.now result (K.state out.old) (K.state out.new) }
{
    ended(status, put_all(out, text))
}

/// Prints that memory ran out.
pub fn say_memory<K: Sink>(out: &mut K) -> u8
    ensures { EndsWith 6 memory_line result (K.state out.old) (K.state out.new) }
{
    say(NO_MEMORY, b"memory\n", out)
}

// Appends a word, a name and a line feed.
fn put_named<K: Sink>(out: &mut K, first: &[u8], name: &[u8]) -> Result<(), PutRefusal>
    ensures wrote { MatchResult result
        (λ _. (K.state out.new).contents ≡ appended (K.state out.old).contents (named_line first.now name.now))
        (λ _. AppendsPrefix (K.state out.old).contents (K.state out.new).contents
        (named_line first.now name.now)) }
    ensures cause { PutCause result (K.state out.old).faults (K.state out.new).faults }
{
    put_all(out, first)?;
    put_all(out, name)?;
    put_all(out, b"\n")
}

/// Prints a word and a name, with the status of a fault. It takes no memory, so that a fault is reported
/// even if there is none.
pub fn say_named<K: Sink>(first: &[u8], name: &[u8], out: &mut K) -> u8
    ensures { EndsWith 4 (named_line first.now name.now) result (K.state out.old) (K.state out.new) }
{
    ended(FAULT, put_named(out, first, name))
}
