// The slots of one block of a directory.
ghost use Rattle.std.specs.Prelude.{◌≡◌, ◌≤◌, ◌<◌, ◌+◌, ◌*◌, ◌++◌, IfOk, MatchOption, Some, None};
ghost use Rattle.std.specs.Option.{IfSome};
ghost use Rattle.mq_blocks.specs.Windows.{window};
ghost use Rattle.mq_inodes.specs.Dirs.{earlier, later, names_of, slots_in};
ghost use Rattle.mq_tree.specs.Clean.{IsDirBlock};
ghost use Rattle.mq_tree.specs.Decoded.{slot_of};
ghost use Rattle.mq_tree.specs.Requests.{count_names, unused};
ghost use Rattle.mq_tree.specs.Volume.{find as find_name, slot_number};

use mq_blocks::bytes::u32_at;
use mq_blocks::{Block, OutOfMemory};
use mq_layout::SLOTS_PER_BLOCK;
use mq_tree::Name;
use std::alloc::Global;

/// The number of bytes of a slot, and the offset of its name.
const SLOT: usize = 272;

const NAME: usize = 16;

fn name_at(block: &Block, at: u32, length: u8) -> &[u8]
    requires { at < 15 }
    ensures { result.now ≡ window block.now (272 * at + 16) length }
{
    let start = SLOT * at as usize + NAME;
    &block.bytes()[start..start + length as usize]
}

/// The inode and the name in a slot.
#[tactic(auto, unfolding(mq_tree::specs::Decoded::slot_of))]
pub fn entry(block: &Block, at: u32) -> Option<(u32, &[u8])>
    requires at { at < 15 }
    requires form { IsDirBlock block.now }
    ensures { MatchOption result (slot_of block.now at ≡ None)
        (λ e. slot_of block.now at ≡ Some (record { inode = e.0; name = e.1.now })) }
{
    let bytes = block.bytes();
    let start = SLOT * at as usize;
    if bytes[start + 4] == 0 {
        return None;
    }
    Some((u32_at(bytes, start), name_at(block, at, bytes[start + 5])))
}

/// The inode under a name.
pub fn find_in(block: &Block, name: &[u8]) -> Option<u32>
    requires { IsDirBlock block.now }
    ensures { result ≡ find_name name.now (slots_in block.now) }
{
    for at in 0..SLOTS_PER_BLOCK {
        if let Some((inode, found)) = entry(block, at) {
            if found == name {
                return Some(inode);
            }
        }
    }
    None
}

/// The number of names.
pub fn count_in(block: &Block) -> u32
    requires { IsDirBlock block.now }
    ensures is { result ≡ count_names (slots_in block.now) }
    ensures few { result ≤ 15 }
{
    let mut count = 0;
    for at in 0..SLOTS_PER_BLOCK {
        if let Some(_used) = entry(block, at) {
            count += 1;
        }
    }
    count
}

/// The first unused slot.
pub fn unused_in(block: &Block) -> Option<u32>
    requires { IsDirBlock block.now }
    ensures is { result ≡ unused 0 (slots_in block.now) }
    ensures low { IfSome result (λ at. at < 15) }
{
    for at in 0..SLOTS_PER_BLOCK {
        if let None = entry(block, at) {
            return Some(at);
        }
    }
    None
}

/// The first unused slot of the blocks before, else that of this block, whose slots are numbered from
/// `first` on.
pub fn unused_after(found: Option<u32>, first: u32, block: &Block) -> Option<u32>
    requires form { IsDirBlock block.now }
    requires few { first ≤ 15540 }
    ensures { result ≡ earlier found (later first (unused 0 (slots_in block.now))) }
{
    if let Some(at) = found {
        return Some(at);
    }
    match unused_in(block) {
        Some(at) => Some(first + at),
        None => None,
    }
}

/// The slot of a name.
pub fn number_in(block: &Block, name: &[u8]) -> Option<u32>
    requires { IsDirBlock block.now }
    ensures is { result ≡ slot_number 0 name.now (slots_in block.now) }
    ensures low { IfSome result (λ at. at < 15) }
{
    for at in 0..SLOTS_PER_BLOCK {
        if let Some((_, found)) = entry(block, at) {
            if found == name {
                return Some(at);
            }
        }
    }
    None
}

/// Adds copies of the names, in the order of the slots.
pub fn push_names(alloc: Global, names: &mut Vec<Name>, block: &Block) -> Result<(), OutOfMemory>
    requires { IsDirBlock block.now }
    ensures { IfOk result (λ _. names.new.items ≡ names.old.items ++ names_of (slots_in block.now)) }
{
    for at in 0..SLOTS_PER_BLOCK {
        if let Some((_, name)) = entry(block, at) {
            names.push(Name(Vec::from_slice(alloc, name)?))?;
        }
    }
    Ok(())
}
