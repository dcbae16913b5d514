// A whole file of groups.
ghost use Rattle.std.specs.Prelude.{◌≡◌, ◌==◌, ◌||◌, ◌++◌, ◌∷◌, [], ℕ, List, IfErr, IfOk, MatchResult, OnOk, length, not};
ghost use Rattle.mq_kv_buckets.specs.declared.operation.KvOp.{KvOp as Operation};
ghost use Rattle.mq_kv_text.specs.Files.{IsFile, IsMisread, IsRefusal, IsRefused, lines_so_far};
ghost use Rattle.mq_kv_text.specs.declared.refusal.KvTextRefusal.TheVariants.{OutOfMemory as out_of_memory};

use crate::line::{Line, read_line};
use crate::refusal::KvTextRefusal;
use mq_block_text::cut_lines;
use mq_kv_buckets::KvOp;
use std::alloc::Global;
use std::marker::Model;
use std::mem;

/// The operations of one group, in order.
#[derive(Drop)]
pub struct KvGroup(pub Vec<KvOp>);

impl Model for KvGroup {
    ghost use Rattle.std.specs.Prelude.{List};
    ghost use Rattle.mq_kv_buckets.specs.declared.operation.KvOp.{KvOp};

    ghost Value = { List KvOp };

    ghost view = { λ g. g.0.items };
}

/// Adds what a line says to the groups before it, and to the operations of one that has not ended.
fn add_line(
    alloc: Global,
    groups: &mut Vec<KvGroup>,
    ops: &mut Vec<KvOp>,
    line: Line,
) -> Result<(), KvTextRefusal>
    ensures added { OnOk result (lines_so_far groups.new.items ops.new.items
        ≡ lines_so_far groups.old.items ops.old.items ++ line ∷ []) }
    ensures failed { IfErr result (λ e. e ≡ out_of_memory) }
{
    match line {
        Line::Asks(op) => ops.push(op)?,
        Line::Syncs => {
            let ended = mem::replace(ops, Vec::new(alloc));
            groups.push(KvGroup(ended))?;
        }
    }
    Ok(())
}

/// Whether the last line is no `sync`, or there is none.
fn lacks_sync(groups: &[KvGroup], ops: &[KvOp]) -> bool
    ensures { result ≡ (length groups.now == 0 || not (length ops.now == 0)) }
{
    groups.is_empty() || !ops.is_empty()
}

/// The groups of a file. That no other answer fits the bytes is left to the caller.
fn read_lines(alloc: Global, bytes: &[u8]) -> Result<Vec<KvGroup>, KvTextRefusal>
    ensures ok { IfOk result (λ v. IsFile bytes.now v.items) }
    ensures refused { IfErr result (IsRefused (IsMisread bytes.now)) }
{
    let lines = cut_lines(alloc, bytes)?;
    let mut groups = Vec::new(alloc);
    let mut ops = Vec::new(alloc);
    let mut line = 0;
    for text in &lines {
        line += 1;
        match read_line(alloc, text) {
            Ok(said) => add_line(alloc, &mut groups, &mut ops, said)?,
            Err(misread) => return Err(misread.at(line)),
        }
    }
    if lacks_sync(&groups, &ops) {
        return Err(KvTextRefusal::Line { line: line + 1 });
    }
    Ok(groups)
}

/// The groups of a file, in order.
pub fn read_groups(alloc: Global, bytes: &[u8]) -> Result<Vec<KvGroup>, KvTextRefusal>
    // What is read is spelled so.
    ensures ok { IfOk result (λ v. IsFile bytes.now v.items) }
    // A line that is refused is the first that is not in the form.
    ensures refused { IfErr result (IsRefused (IsMisread bytes.now)) }
    // Bytes with such a line are refused there, unless memory runs out.
    ensures exact { (line : ℕ) → IsMisread bytes.now line → IsRefusal result line }
    // What is spelled so is read, unless memory runs out.
    ensures only { (groups : List (List Operation))
        → IsFile bytes.now groups
        → MatchResult result (λ v. v.items ≡ groups) (λ e. e ≡ out_of_memory) }
{
    read_lines(alloc, bytes)
}
