// Which blocks are in the map after some of the commits of a text.
ghost use Rattle.std.specs.Prelude.{◌≡◌, ◌<◌, ◌^◌, IfOk, false, length, true};
ghost use Rattle.mq_block_text.specs.Text.{AreGoodItems};
ghost use Rattle.mq_block_trace.specs.Lines.{empty_map};
ghost use Rattle.mq_block_trace.specs.Marks.{AreMarks};
ghost use Rattle.mq_blocks.specs.Journal.{is_among};
ghost use Rattle.mq_ledger.specs.History.{blocks_of, map_after};
ghost use Rattle.mq_loose_order.specs.Dependence.{kept};
ghost use Rattle.mq_loose_text.specs.Meaning.{drawn_in};
ghost use Rattle.mq_loose_text.specs.Text.{IsGoodLine, IsGoodText};
ghost use Rattle.mq_loose_run.specs.Markings.{AreMarkedTo, AreNamed, MarksCommit, MarksLine};

use crate::items::items_of;
use mq_block_text::BlockLine;
use mq_block_trace::NAMED;
use mq_blocks::{Block, BlockNo, OutOfMemory, TxNo};
use mq_loose_text::{LooseLine, LooseText};
use std::alloc::Global;

/// Which blocks are in the map after the commits so far.
#[derive(Drop)]
pub struct Marking {
    /// How many there are.
    pub number: u64,
    /// After all of them.
    pub all: Vec<bool>,
    /// After those in a set.
    pub kept: Vec<bool>,
}

// Whether a number is among these.
fn is_in(numbers: &[TxNo], number: TxNo) -> bool
    ensures { result ≡ is_among number numbers.now }
{
    for other in numbers {
        if other.0 == number.0 {
            return true;
        }
    }
    false
}

// Marks what is written.
fn mark(writes: &[(BlockNo, Block)], marks: &mut Vec<bool>)
    requires whole { length marks.old.items ≡ 256 }
    requires named { AreNamed (blocks_of writes.now) }
    ensures whole { length marks.new.items ≡ 256 }
    ensures marked { AreMarkedTo true (blocks_of writes.now) marks.old.items marks.new.items }
{
    for (block, _) in writes {
        marks[block.0 as usize] = true;
    }
}

// Takes the marks of what is freed.
fn unmark(frees: &[BlockNo], marks: &mut Vec<bool>)
    requires whole { length marks.old.items ≡ 256 }
    requires named { AreNamed frees.now }
    ensures whole { length marks.new.items ≡ 256 }
    ensures marked { AreMarkedTo false frees.now marks.old.items marks.new.items }
{
    for block in frees {
        marks[block.0 as usize] = false;
    }
}

// Marks the blocks after one commit more. Whatever it frees is looked up in the map after all commits before it.
fn mark_commit(
    alloc: Global,
    line: &BlockLine,
    set: &[TxNo],
    marking: &mut Marking,
) -> Result<(), OutOfMemory>
    requires good { AreGoodItems line.now }
    requires few { marking.old.number < 2 ^ 63 }
    requires whole { length marking.old.all.items ≡ 256 }
    requires kept { length marking.old.kept.items ≡ 256 }
    ensures { IfOk result (λ _. MarksCommit line.now set.now marking.old marking.new) }
{
    let items = items_of(alloc, line, &marking.all)?;
    marking.number += 1;
    if is_in(set, TxNo(marking.number)) {
        unmark(&items.frees, &mut marking.kept);
        mark(&items.writes, &mut marking.kept);
    }
    marking.all = items.marks;
    Ok(())
}

// Marks the blocks after one line more.
fn mark_text_line(
    alloc: Global,
    line: &LooseLine,
    set: &[TxNo],
    marking: &mut Marking,
) -> Result<(), OutOfMemory>
    requires good { IsGoodLine line.now }
    requires few { marking.old.number < 2 ^ 63 }
    requires whole { length marking.old.all.items ≡ 256 }
    requires kept { length marking.old.kept.items ≡ 256 }
    ensures { IfOk result (λ _. MarksLine line.now set.now marking.old marking.new) }
{
    match line {
        LooseLine::Commit(_, items) => mark_commit(alloc, items, set, marking),
        LooseLine::Done(_) => Ok(()),
    }
}

/// For each block that texts may name, whether it is in the map after the transactions of these numbers.
pub fn marks_after(alloc: Global, text: &LooseText, set: &[TxNo]) -> Result<Vec<bool>, OutOfMemory>
    requires { IsGoodText text.now }
    ensures whole { IfOk result (λ v. length v.items ≡ 256) }
    ensures marks { IfOk result (λ v. AreMarks
        (map_after empty_map (kept (λ n. is_among n set.now) (drawn_in text.now))) v.items) }
{
    let mut marking = Marking {
        number: 0,
        all: vec![in alloc; false; NAMED]?,
        kept: vec![in alloc; false; NAMED]?,
    };
    for line in &text.0 {
        mark_text_line(alloc, line, set, &mut marking)?;
    }
    Ok(marking.kept)
}
