// The vectors that a port in memory is made of.
ghost use Rattle.std.specs.Prelude.{◌≡◌, ◌≢◌, ◌<◌, ◌≤◌, ◌+◌, ◌%◌, ◌++◌, ◌∷◌, [], ℕ, length, vec_len, slice_index_or, slice_set, slice_get, Some, None};
ghost use Rattle.mq_blocks.specs.Limits.{depth};
ghost use Rattle.std.specs.List.{remove};
ghost use Rattle.std.specs.VecDeque.{deque_len, deque_capacity};
ghost use Rattle.mq_blocks.specs.Blocks.{block_at};
ghost use Rattle.mq_blocks.specs.Drive.{counted};
ghost use Rattle.mq_drive.specs.Slots.{AreSettled};

use mq_blocks::{Block, Command, RING_DEPTH};
use mq_nvme::Entry;
use std::collections::VecDeque;

/// The number plus 1, but at most 2^64 - 1.
pub fn bump(n: u64) -> u64
    ensures { result ≡ counted n 1 }
{
    n.saturating_add(1)
}

pub fn slot_at(slots: &Vec<Entry>, k: usize) -> Entry
    requires { k < vec_len slots.now }
    ensures { result ≡ slice_index_or slots.now.items k [] }
{
    slots[k]
}

pub fn put_slot(slots: &mut Vec<Entry>, k: usize, entry: Entry)
    requires { k < vec_len slots.old }
    ensures { slots.new.items ≡ slice_set slots.old.items k entry }
{
    slots[k] = entry;
}

pub fn put_block(blocks: &mut Vec<Option<Block>>, k: usize, block: Block)
    requires { k < vec_len blocks.old }
    ensures { blocks.new.items ≡ slice_set blocks.old.items k (Some block) }
{
    blocks[k] = Some(block);
}

pub fn put_flag(flags: &mut Vec<bool>, k: usize, value: bool)
    requires { k < vec_len flags.old }
    ensures { flags.new.items ≡ slice_set flags.old.items k value }
{
    flags[k] = value;
}

pub fn read_block(blocks: &Vec<Option<Block>>, k: usize, into: &mut Block)
    requires { k < vec_len blocks.now }
    ensures { into.new ≡ block_at blocks.now.items k }
{
    match &blocks[k] {
        Some(block) => into.copy_from(block),
        None => into.clear(),
    }
}

/// Adds a command, for which there is room.
pub fn add(commands: &mut VecDeque<Command>, command: Command)
    requires { deque_len commands.old < deque_capacity commands.old }
    ensures items { commands.new.items ≡ commands.old.items ++ command ∷ [] }
    ensures capacity { deque_capacity commands.old ≤ deque_capacity commands.new }
{
    match commands.push_back(command) {
        Ok(()) => {}
        Err(_) => unreachable!(),
    }
}

/// Appends all commands to those that are there, for which there is room.
pub fn add_all(commands: &mut VecDeque<Command>, more: &mut VecDeque<Command>)
    requires { deque_len commands.old + deque_len more.old ≤ deque_capacity commands.old }
    ensures items { commands.new.items ≡ commands.old.items ++ more.old.items }
    ensures more { more.new.items ≡ [] }
    ensures capacity { deque_capacity commands.old ≤ deque_capacity commands.new }
    ensures more_capacity { deque_capacity more.new ≡ deque_capacity more.old }
{
    match commands.append(more) {
        Ok(()) => {}
        Err(_) => unreachable!(),
    }
}

/// Removes the command at an index, and returns it.
pub fn take_at(commands: &mut VecDeque<Command>, at: usize) -> Command
    requires { at < deque_len commands.old }
    ensures item { slice_get commands.old.items at ≡ Some result }
    ensures items { commands.new.items ≡ remove commands.old.items at }
    ensures capacity { deque_capacity commands.new ≡ deque_capacity commands.old }
{
    match commands.remove(at) {
        Some(command) => command,
        None => unreachable!(),
    }
}

/// Copies the slots of the counts from `from` up to `to`.
pub fn settle(flushed: &mut Vec<Entry>, staged: &Vec<Entry>, from: u64, to: u64)
    requires same { length flushed.old.items ≡ length staged.now.items }
    requires ring { from < to → length staged.now.items ≡ depth }
    requires settled { AreSettled flushed.old.items staged.now.items from to }
    ensures { flushed.new.items ≡ staged.now.items }
{
    for count in from..to {
        let k = (count % RING_DEPTH as u64) as usize;
        flushed[k] = staged[k];
    }
}
