// Why home blocks have no tree.
use mq_blocks::{BlockNo, OutOfMemory};
use std::alloc::{AllocError, AllocFailed};

/// What is wrong at a block.
#[derive(Clone, Copy, PartialEq, Eq)]
pub enum CorruptCause {
    /// A part of the block is not in its form, or a byte or bit that has to be 0 is not.
    Layout,
    /// A pointer that has to be there is 0 or lies in no zone, or one that has to be 0 is not.
    Pointer,
    /// The bit of a block or an inode that is used is clear.
    Unmarked,
    /// A block or a directory is reached twice.
    Shared,
    /// A file's links are not as many as the slots that name it.
    Count,
    /// A name stands twice in a directory.
    Twin,
    /// A bit is set or an inode is used, but no path leads there.
    Unreached,
    /// A slot names no used inode, or the root; or inode 0 is no directory.
    Kind,
    /// A byte past the end of a file is not 0.
    Tail,
}

/// Why a mount is refused.
#[derive(Clone, Copy, PartialEq, Eq)]
pub enum MountRefusal {
    /// The blocks have no tree, and this is wrong at this block.
    Corrupt { cause: CorruptCause, block: BlockNo },
    OutOfMemory,
}

/// Why a mount is refused, with the phase that found it, from 1 to 6.
#[derive(Clone, Copy, PartialEq, Eq)]
pub enum PhaseRefusal {
    /// No earlier phase found anything. This is the least block at which this one did, and its first cause there.
    Found {
        phase: u32,
        cause: CorruptCause,
        block: BlockNo,
    },
    OutOfMemory,
}

impl From<OutOfMemory> for PhaseRefusal {
    ghost use Rattle.std.specs.Prelude.{◌≡◌};
    ghost use Rattle.mq_tree.specs.declared.corrupt.PhaseRefusal.TheVariants as refusal;

    ghost from_gives = { λ _ e. e ≡ refusal.OutOfMemory };

    fn from(_: OutOfMemory) -> Self {
        PhaseRefusal::OutOfMemory
    }
}

impl From<OutOfMemory> for MountRefusal {
    ghost use Rattle.std.specs.Prelude.{◌≡◌};
    ghost use Rattle.mq_tree.specs.declared.corrupt.MountRefusal.TheVariants as refusal;

    ghost from_gives = { λ _ e. e ≡ refusal.OutOfMemory };

    fn from(_: OutOfMemory) -> Self {
        MountRefusal::OutOfMemory
    }
}

impl From<AllocError> for MountRefusal {
    ghost use Rattle.std.specs.Prelude.{◌≡◌};
    ghost use Rattle.mq_tree.specs.declared.corrupt.MountRefusal.TheVariants as refusal;

    ghost from_gives = { λ _ e. e ≡ refusal.OutOfMemory };

    fn from(_: AllocError) -> Self {
        MountRefusal::OutOfMemory
    }
}

impl<T: Drop> From<AllocFailed<T>> for MountRefusal {
    ghost use Rattle.std.specs.Prelude.{◌≡◌};
    ghost use Rattle.mq_tree.specs.declared.corrupt.MountRefusal.TheVariants as refusal;

    ghost from_gives = { λ _ e. e ≡ refusal.OutOfMemory };

    fn from(_: AllocFailed<T>) -> Self {
        MountRefusal::OutOfMemory
    }
}
