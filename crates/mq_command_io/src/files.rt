// A command's loads and saves, each with the line of its refusal.
ghost use Rattle.std.specs.Prelude.{◌≡◌, ℕ, List, IfErr, IfOk};
ghost use Rattle.mq_command_io.specs.Ending.{EndsWith, IsLoaded, IsNotLoaded, IsNotSaved, IsSaved};

use crate::says::{say_memory, say_named};
use mq_outside::{Files, LoadRefusal, SaveRefusal, Sink};
use std::alloc::Global;

/// The bytes that a name holds. If they cannot be loaded, prints why and returns the status.
pub fn load_or_say<F: Files, K: Sink>(
    alloc: Global,
    name: &str,
    files: &mut F,
    out: &mut K,
) -> Result<Vec<u8>, u8>
    ensures ok { IfOk result (λ v. IsLoaded name.now v.items (F.state files.old) (F.state files.new)) }
    ensures silent { IfOk result (λ _. K.state out.new ≡ K.state out.old) }
    ensures refused { IfErr result (λ s. (status : ℕ)
        × (text : List ℕ)
        × IsNotLoaded name.now (F.state files.old) (F.state files.new) status text
        × EndsWith status text s (K.state out.old) (K.state out.new)) }
{
    match files.load(alloc, name) {
        Ok(bytes) => Ok(bytes),
        Err(LoadRefusal::Failed) => Err(say_named(b"fault load ", name.as_bytes(), out)),
        Err(LoadRefusal::TooLong) => Err(say_named(b"too long ", name.as_bytes(), out)),
        Err(LoadRefusal::OutOfMemory) => Err(say_memory(out)),
    }
}

/// Makes a name hold the bytes. If that fails, prints why and returns the status.
pub fn save_or_say<F: Files, K: Sink>(
    name: &str,
    bytes: &[u8],
    files: &mut F,
    out: &mut K,
) -> Result<(), u8>
    ensures ok { IfOk result (λ _. IsSaved name.now bytes.now (F.state files.old) (F.state files.new)) }
    ensures silent { IfOk result (λ _. K.state out.new ≡ K.state out.old) }
    ensures refused { IfErr result (λ s. (status : ℕ)
        × (text : List ℕ)
        × IsNotSaved name.now (F.state files.old) (F.state files.new) status text
        × EndsWith status text s (K.state out.old) (K.state out.new)) }
{
    match files.save(name, bytes) {
        Ok(()) => Ok(()),
        Err(SaveRefusal::Failed) => Err(say_named(b"fault save ", name.as_bytes(), out)),
        Err(SaveRefusal::OutOfMemory) => Err(say_memory(out)),
    }
}
