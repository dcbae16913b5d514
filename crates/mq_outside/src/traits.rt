// What a command asks of files and of its output.
use std::alloc::Global;

/// The greatest number of bytes that one load gives.
pub const LOAD_LIMIT: u64 = 2_147_483_648;

/// Why a load gave no bytes.
#[derive(Clone, Copy, PartialEq, Eq)]
pub enum LoadRefusal {
    Failed,
    TooLong,
    OutOfMemory,
}

/// Why a save put no bytes.
#[derive(Clone, Copy, PartialEq, Eq)]
pub enum SaveRefusal {
    Failed,
    OutOfMemory,
}

/// Why a put appended no bytes.
#[derive(Clone, Copy, PartialEq, Eq)]
pub enum PutRefusal {
    Failed,
    OutOfMemory,
}

/// Files by name. A count that has reached `u64::MAX` stays there.
pub trait Files {
    ghost use Rattle.std.specs.Prelude.{◌≡◌, ◌≤◌, IfOk, MatchResult, length};
    ghost use Rattle.mq_outside.specs.Outside.{FilesState, Holds, LoadCause, LoadRefused, LoadTakes, LoadTries, SaveCause, Saves};

    // What each name holds, how many calls failed, how many bytes loads took, and which names were to be loaded.
    ghost state: { Self → FilesState };

    /// The bytes that the name holds.
    fn load(&mut self, alloc: Global, name: &str) -> Result<Vec<u8>, LoadRefusal>
        ensures gives { MatchResult result (λ v. Holds (state self.old).contents name.now v.items)
            (λ e. LoadRefused e (state self.old).contents name.now) }
        ensures within { IfOk result (λ v. length v.items ≤ LOAD_LIMIT) }
        ensures cause { LoadCause result (state self.old).faults (state self.new).faults }
        ensures takes { LoadTakes result (state self.old).taken (state self.new).taken }
        ensures tries { LoadTries result name.now (state self.old).tried (state self.new).tried }
        ensures names { (state self.new).contents ≡ (state self.old).contents };

    /// Makes the name hold the bytes.
    fn save(&mut self, name: &str, bytes: &[u8]) -> Result<(), SaveRefusal>
        ensures names { Saves result (state self.old).contents (state self.new).contents name.now bytes.now }
        ensures cause { SaveCause result (state self.old).faults (state self.new).faults }
        ensures takes { (state self.new).taken ≡ (state self.old).taken }
        ensures tries { (state self.new).tried ≡ (state self.old).tried };
}

/// Output, taken a piece at a time. A count that has reached `u64::MAX` stays there.
pub trait Sink {
    ghost use Rattle.std.specs.Prelude.{◌≡◌, ◌<◌, ◌≤◌, IfOk, MatchResult, length, take};
    ghost use Rattle.mq_outside.specs.Outside.{PutCause, SinkState, appended};

    // The bytes written so far, and how many calls failed.
    ghost state: { Self → SinkState };

    /// Appends the first bytes of the piece, and returns how many.
    fn put(&mut self, bytes: &[u8]) -> Result<usize, PutRefusal>
        requires { 0 < length bytes.now }
        ensures some { IfOk result (λ n. (1 ≤ n) × (n ≤ length bytes.now)) }
        ensures wrote { MatchResult result
            (λ n. (state self.new).contents ≡ appended (state self.old).contents (take n bytes.now))
            (λ _. (state self.new).contents ≡ (state self.old).contents) }
        ensures cause { PutCause result (state self.old).faults (state self.new).faults };
}

ghost use Rattle.std.specs.Prelude.{◌≡◌, MatchResult};
ghost use Rattle.mq_outside.specs.Outside.{AppendsPrefix, PutCause, appended};

/// Appends all the bytes. A refusal leaves a prefix of them appended.
pub fn put_all<K: Sink>(sink: &mut K, bytes: &[u8]) -> Result<(), PutRefusal>
    ensures wrote { MatchResult result
        (λ _. (K.state sink.new).contents ≡ appended (K.state sink.old).contents bytes.now)
        (λ _. AppendsPrefix (K.state sink.old).contents (K.state sink.new).contents bytes.now) }
    ensures cause { PutCause result (K.state sink.old).faults (K.state sink.new).faults }
{
    let mut at = 0;
    while at < bytes.len() {
        at += sink.put(&bytes[at..])?;
    }
    Ok(())
}
