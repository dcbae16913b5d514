// The table of the home blocks: of each, its last change, and whether it is in the map.
ghost use Rattle.std.specs.Prelude.{◌≡◌, ◌<◌, [], IfOk, OnOk, length, replicate};
ghost use Rattle.mq_blocks.specs.Descriptor.{AreRising};
ghost use Rattle.mq_blocks.specs.Geometry.{homes_of};
ghost use Rattle.mq_loose_order.specs.Dependence.{with_last};
ghost use Rattle.mq_loose_queues.specs.Changes.{change_at, first_change, with_changed, with_changes};

use mq_blocks::{BlockNo, Geometry, OutOfMemory, TxNo};
use mq_loose_order::Numbers;
use std::alloc::Global;

/// The last change of a home block.
#[derive(Clone, Copy)]
pub struct Change {
    /// The last transaction that wrote or freed it, or the base.
    pub number: TxNo,
    /// Whether it is in the map.
    pub is_there: bool,
}

/// The table where nothing has changed a block since a base.
pub fn first_changes(
    alloc: Global,
    geometry: Geometry,
    base: TxNo,
) -> Result<Vec<Change>, OutOfMemory>
    ensures { IfOk result (λ v. v.items ≡ replicate (homes_of geometry) (first_change base)) }
{
    let change = Change {
        number: base,
        is_there: true,
    };
    Ok(vec![in alloc; change; geometry.homes() as usize]?)
}

/// A transaction of this number wrote these blocks, or freed them.
pub fn note(table: &mut [Change], blocks: &[BlockNo], number: TxNo, is_there: bool)
    requires { AreRising 0 (length table.old) blocks.now }
    ensures { table.new ≡ with_changes blocks.now (record { number = number; is_there = is_there }) table.old }
{
    for block in blocks {
        table[block.0 as usize] = Change { number, is_there };
    }
}

/// Puts the last number above the base that changed a block among rising ones.
fn add_change(
    table: &[Change],
    base: TxNo,
    numbers: &mut Numbers,
    block: BlockNo,
) -> Result<(), OutOfMemory>
    requires { block < length table.now }
    ensures { OnOk result (numbers.new ≡ with_last base (change_at base table.now block).number numbers.old) }
{
    let change = table[block.0 as usize];
    if change.number > base {
        numbers.add(change.number)?;
    }
    Ok(())
}

/// The same for each of these blocks.
fn add_changes(
    table: &[Change],
    base: TxNo,
    numbers: &mut Numbers,
    blocks: &[BlockNo],
) -> Result<(), OutOfMemory>
    requires { AreRising 0 (length table.now) blocks.now }
    ensures { OnOk result (numbers.new ≡ with_changed base table.now blocks.now numbers.old) }
{
    for at in (0..blocks.len()).rev() {
        add_change(table, base, numbers, blocks[at])?;
    }
    Ok(())
}

/// The last numbers above a base that changed a block of these lists: one block after another, the last one
/// first.
pub fn last_changes(
    alloc: Global,
    table: &[Change],
    base: TxNo,
    blocks: &[BlockNo],
    others: &[BlockNo],
) -> Result<Numbers, OutOfMemory>
    requires blocks { AreRising 0 (length table.now) blocks.now }
    requires others { AreRising 0 (length table.now) others.now }
    ensures { IfOk result (λ numbers. numbers ≡ with_changed base table.now blocks.now
        (with_changed base table.now others.now [])) }
{
    let mut numbers = Numbers::new(alloc);
    add_changes(table, base, &mut numbers, others)?;
    add_changes(table, base, &mut numbers, blocks)?;
    Ok(numbers)
}
