// The phases of a mount, one after another, each with its first finding.
ghost use Rattle.std.specs.Prelude.{◌≡◌, None, Some, Ok, Err, MatchOption, MatchResult, IfErr, IfOk, IsTrue, OnOk};
ghost use Rattle.mq_blocks.specs.Blocks.{zeros};
ghost use Rattle.mq_tree.specs.Clean.{AreApart, AreDirs, AreEnded, AreLinked, AreNamed, AreNamedOnce, AreOnce};
ghost use Rattle.mq_tree.specs.Clean.{ArePointers, IsClean, IsTable};
ghost use Rattle.mq_tree.specs.Corrupt.{IsSharedBlock};
ghost use Rattle.mq_tree.specs.Decoded.{inodes_in, volume_in};
ghost use Rattle.mq_tree.specs.Least.{IsLeast};
ghost use Rattle.mq_tree.specs.Empty.{ArePages};
ghost use Rattle.mq_tree.specs.Phases.{IsFirstName, RefusesByPhase, RefusesIn, first_of as first_of_both, refusal_in};
ghost use Rattle.mq_tree.specs.Trees.{IsAlike, kept};

use crate::claims::claim_blocks;
use crate::contents::{InodeContent, read_contents};
use crate::corrupt::{CorruptCause, MountRefusal, PhaseRefusal};
use crate::dirs::bad_dir_block;
use crate::file_tails::bad_tail;
use crate::findings::lesser;
use crate::links::{bad_count, count_links, shared_directory};
use crate::names::bad_name;
use crate::pointers::bad_pointer;
use crate::reached::check_marks_and_paths;
use crate::stored::corrupt;
use crate::table::read_table;
use crate::walk::walk_all;
use mq_blocks::{Block, BlockNo, Geometry};
use mq_layout::Inode;
use std::alloc::Global;

/// The refusal for the first of two findings, where the second is there.
fn first_with(cause: CorruptCause, at: Option<u32>, other: CorruptCause, there: u32) -> MountRefusal
    ensures { first_of_both cause at other (Some there) ≡ Some result }
{
    match at {
        Some(block) => {
            if block <= there {
                corrupt(cause, block)
            } else {
                corrupt(other, there)
            }
        }
        None => corrupt(other, there),
    }
}

/// Refuses for the first of two findings of a phase: the lesser block, and at one block the first of the two.
fn refuse_first(
    cause: CorruptCause,
    at: Option<u32>,
    other: CorruptCause,
    there: Option<u32>,
) -> Result<(), MountRefusal>
    ensures none { OnOk result ((at ≡ None) × (there ≡ None)) }
    ensures first { IfErr result (λ e. first_of_both cause at other there ≡ Some e) }
{
    match there {
        Some(block) => Err(first_with(cause, at, other, block)),
        None => match at {
            Some(block) => Err(corrupt(cause, block)),
            None => Ok(()),
        },
    }
}

/// The second phase: the pointers of inodes, and the blocks of directories.
fn check_blocks(
    geometry: Geometry,
    blocks: &[Option<Block>],
    zero: &Block,
    inodes: &[Inode],
) -> Result<(), MountRefusal>
    requires zero { zero.now ≡ zeros }
    requires inodes { inodes.now ≡ inodes_in geometry blocks.now }
    requires table { IsTable geometry blocks.now }
    ensures pointers { OnOk result (ArePointers geometry blocks.now) }
    ensures dirs { OnOk result (AreDirs geometry blocks.now) }
    ensures cause { IfErr result (RefusesIn geometry blocks.now 2) }
{
    let pointer = bad_pointer(geometry, blocks, zero, inodes);
    let dir = bad_dir_block(geometry, blocks, zero, inodes);
    refuse_first(CorruptCause::Pointer, pointer, CorruptCause::Layout, dir)
}

/// The refusal of the third phase, where the search for names that stand twice refused.
fn first_name(name: Option<u32>, refusal: MountRefusal) -> MountRefusal
    ensures { IsFirstName name refusal result }
{
    match refusal {
        MountRefusal::Corrupt {
            block: BlockNo(b),
            ..
        } => first_with(CorruptCause::Kind, name, CorruptCause::Twin, b),
        MountRefusal::OutOfMemory => MountRefusal::OutOfMemory,
    }
}

/// The third phase: what slots name, and their names. What the inodes are, by number, if that is to be kept.
fn read_names(
    alloc: Global,
    geometry: Geometry,
    blocks: &[Option<Block>],
    zero: &Block,
    inodes: &[Inode],
    keeps: bool,
) -> Result<Vec<InodeContent>, MountRefusal>
    requires zero { zero.now ≡ zeros }
    requires inodes { inodes.now ≡ inodes_in geometry blocks.now }
    requires table { IsTable geometry blocks.now }
    requires pointers { ArePointers geometry blocks.now }
    requires dirs { AreDirs geometry blocks.now }
    ensures alike { IfOk result (λ found. IsTrue keeps
        → IsAlike (kept found.items) (volume_in geometry blocks.now)) }
    ensures named { OnOk result (AreNamed (volume_in geometry blocks.now)) }
    ensures once { OnOk result (AreOnce (volume_in geometry blocks.now)) }
    ensures cause { IfErr result (RefusesIn geometry blocks.now 3) }
{
    let name = bad_name(geometry, blocks, zero, inodes);
    match read_contents(alloc, geometry, blocks, zero, inodes, keeps) {
        Ok(contents) => {
            refuse_first(CorruptCause::Kind, name, CorruptCause::Twin, None)?;
            Ok(contents)
        }
        Err(refusal) => Err(first_name(name, refusal)),
    }
}

/// The fourth phase: no block and no directory is reached twice, and files have their links. `twice` is the least
/// block that is used twice.
fn check_uses(
    alloc: Global,
    geometry: Geometry,
    blocks: &[Option<Block>],
    zero: &Block,
    inodes: &[Inode],
    twice: Option<u32>,
) -> Result<(), MountRefusal>
    requires zero { zero.now ≡ zeros }
    requires inodes { inodes.now ≡ inodes_in geometry blocks.now }
    requires table { IsTable geometry blocks.now }
    requires pointers { ArePointers geometry blocks.now }
    requires dirs { AreDirs geometry blocks.now }
    requires named { AreNamed (volume_in geometry blocks.now) }
    requires twice { MatchOption twice (AreApart (volume_in geometry blocks.now))
        (IsLeast (IsSharedBlock geometry blocks.now)) }
    ensures apart { OnOk result (AreApart (volume_in geometry blocks.now)) }
    ensures alone { OnOk result (twice ≡ None) }
    ensures once { OnOk result (AreNamedOnce (volume_in geometry blocks.now)) }
    ensures linked { OnOk result (AreLinked geometry blocks.now) }
    ensures cause { IfErr result (RefusesIn geometry blocks.now 4) }
{
    let counts = count_links(alloc, geometry, blocks, zero, inodes)?;
    let directory = shared_directory(geometry, blocks, inodes, &counts);
    let count = bad_count(geometry, blocks, inodes, &counts);
    let shared = lesser(twice, directory);
    refuse_first(CorruptCause::Shared, shared, CorruptCause::Count, count)
}

/// The sixth phase: the bytes past the end of a file are zeros.
fn check_tails(
    geometry: Geometry,
    blocks: &[Option<Block>],
    zero: &Block,
    inodes: &[Inode],
) -> Result<(), MountRefusal>
    requires zero { zero.now ≡ zeros }
    requires inodes { inodes.now ≡ inodes_in geometry blocks.now }
    requires table { IsTable geometry blocks.now }
    requires pointers { ArePointers geometry blocks.now }
    ensures ended { OnOk result (AreEnded geometry blocks.now) }
    ensures cause { IfErr result (RefusesIn geometry blocks.now 6) }
{
    match bad_tail(geometry, blocks, zero, inodes) {
        Some(b) => Err(corrupt(CorruptCause::Tail, b)),
        None => Ok(()),
    }
}

/// A refusal with its phase.
fn with_phase(phase: u32, refusal: MountRefusal) -> PhaseRefusal
    ensures { result ≡ refusal_in phase refusal }
{
    match refusal {
        MountRefusal::Corrupt {
            cause,
            block: BlockNo(b),
        } => PhaseRefusal::Found {
            phase,
            cause,
            block: BlockNo(b),
        },
        MountRefusal::OutOfMemory => PhaseRefusal::OutOfMemory,
    }
}

/// What a phase answered, with its number.
fn in_phase<T>(phase: u32, found: Result<T, MountRefusal>) -> Result<T, PhaseRefusal>
    ensures { MatchResult found (λ x. result ≡ Ok x) (λ e. result ≡ Err (refusal_in phase e)) }
{
    match found {
        Ok(x) => Ok(x),
        Err(refusal) => Err(with_phase(phase, refusal)),
    }
}

/// What the inodes are, by number, where the blocks have a tree.
pub fn read_volume(
    alloc: Global,
    geometry: Geometry,
    blocks: &[Option<Block>],
    zero: &Block,
) -> Result<Vec<InodeContent>, PhaseRefusal>
    requires { zero.now ≡ zeros }
    ensures alike { IfOk result (λ found. IsAlike (kept found.items) (volume_in geometry blocks.now)) }
    ensures clean { OnOk result (IsClean geometry blocks.now) }
    ensures cause { IfErr result (RefusesByPhase geometry blocks.now) }
{
    let inodes = in_phase(1, read_table(alloc, geometry, blocks, zero))?;
    in_phase(2, check_blocks(geometry, blocks, zero, &inodes))?;
    let uses = claim_blocks(alloc, geometry, blocks, zero, &inodes)?;
    let keeps = uses.twice.is_none();
    let named = read_names(alloc, geometry, blocks, zero, &inodes, keeps);
    let contents = in_phase(3, named)?;
    let counted = check_uses(alloc, geometry, blocks, zero, &inodes, uses.twice);
    in_phase(4, counted)?;
    let seen = walk_all(alloc, geometry, blocks, zero, &inodes)?;
    let marked = check_marks_and_paths(geometry, blocks, zero, &inodes, &uses.used, &seen);
    in_phase(5, marked)?;
    in_phase(6, check_tails(geometry, blocks, zero, &inodes))?;
    Ok(contents)
}
