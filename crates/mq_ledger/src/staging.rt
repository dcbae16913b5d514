// What is staged for an entry.
ghost use Rattle.std.specs.Prelude.{◌≡◌, ◌<◌, ◌≤◌, ◌+◌, ◌^◌, List, IfOk, length, true, false};
ghost use Rattle.mq_blocks.specs.Limits.{newest_version};
ghost use Rattle.mq_blocks.specs.Descriptor.{further_block, journal_form, last_block};
ghost use Rattle.mq_ledger.specs.History.{blocks_of, writes};
ghost use Rattle.mq_ledger.specs.Items.{item_of, descriptor_for, descriptor_blocks, further_blocks};
ghost use Rattle.mq_ledger.specs.KnownJournal.{IsTx};
ghost use Rattle.mq_ledger.specs.Plain.{plain_entry};
ghost use Rattle.mq_ledger.specs.Staged.{IsStaged, IsBehind};
ghost use Rattle.mq_ledger.specs.declared.tx.Tx.{Tx as Record};

use crate::content::copy_content;
use crate::queue_rows::Row;
use crate::records::descriptor_blocks;
use crate::{Content, PlainEntry, Tx};
use mq_area::{Descriptor, write_descriptor};
use mq_blocks::{Block, BlockNo, Geometry, Lba, OutOfMemory, TxNo};
use std::alloc::Global;

/// An entry that a queue stages, with its write.
#[derive(Drop)]
pub struct Staged {
    pub entry: PlainEntry,
    pub tx: TxNo,
    pub lba: Lba,
    pub block: Content,
}

impl Staged {
    fn new(tx: TxNo, lba: Lba, commit: bool, block: Content) -> Staged
        ensures entry { result.entry ≡ plain_entry (tx, lba, commit) }
        ensures tx_is { result.tx ≡ tx }
        ensures lba_is { result.lba ≡ lba }
        ensures block_is { result.block ≡ block }
    {
        let entry = PlainEntry {
            number: tx.0,
            lba: u64::from(lba.0),
            commit,
        };
        Staged {
            entry,
            tx,
            lba,
            block,
        }
    }
}

fn logged_blocks(alloc: Global, writes: &[(BlockNo, Content)]) -> Result<Vec<BlockNo>, OutOfMemory>
    ensures { IfOk result (λ v. v.items ≡ blocks_of writes.now) }
{
    let mut blocks = Vec::new(alloc);
    for write in writes {
        blocks.push(write.0)?;
    }
    Ok(blocks)
}

/// A block of a transaction's descriptor, if the queue before the transaction ends with this row: the
/// last one, or the further one before it.
fn describe(
    alloc: Global,
    geometry: Geometry,
    tx: &Tx,
    before: Row,
    last: bool,
) -> Result<Content, OutOfMemory>
    requires form { IsTx geometry tx.now }
    requires places { before.next + (length tx.now.logged + further_blocks tx.now) < 2 ^ 62 }
    ensures { IfOk result (λ c. (txs : List Record)
        → IsBehind before txs
        → (last ≡ true → c ≡ last_block journal_form newest_version (descriptor_for tx.now txs))
        × (last ≡ false → further_blocks tx.now ≡ 1
        → c ≡ further_block journal_form newest_version (descriptor_for tx.now txs))) }
{
    let logged = logged_blocks(alloc, tx.logged.as_slice())?;
    let descriptor = Descriptor {
        queue: tx.queue.0,
        number: tx.number.0,
        place: before.next + (descriptor_blocks(tx) - 1 + logged.len() as u64),
        prev_place: before.next.saturating_sub(1),
        prev_number: before.number,
        logged,
        revoked: Vec::from_slice(alloc, tx.revoked.as_slice())?,
    };
    let mut block = Block::zeroed(alloc)?;
    let mut further = Block::zeroed(alloc)?;
    write_descriptor(&descriptor, &mut block, &mut further);
    if last {
        return Ok(Content(Vec::from_slice(alloc, block.bytes())?));
    }
    Ok(Content(Vec::from_slice(alloc, further.bytes())?))
}

/// What is staged for an entry of a transaction, if the queue before the transaction ends with this
/// row. Its copies come first, then its direct writes, then the blocks of its descriptor.
pub fn stage_entry(
    alloc: Global,
    geometry: Geometry,
    tx: &Tx,
    before: Row,
    index: usize,
) -> Result<Staged, OutOfMemory>
    requires form { IsTx geometry tx.now }
    requires places { before.next + (length tx.now.logged + further_blocks tx.now) < 2 ^ 62 }
    requires index { index < writes tx.now + descriptor_blocks tx.now }
    ensures { IfOk result (λ s. (txs : List Record)
        → IsBehind before txs
        → IsStaged geometry tx.now.queue (item_of tx.now txs index) s) }
{
    let logged = tx.logged.as_slice();
    let direct = tx.direct.as_slice();
    let copies = logged.len();
    if index < copies {
        let lba = geometry.area_lba(tx.queue, before.next + index as u64);
        let block = copy_content(alloc, &logged[index].1)?;
        return Ok(Staged::new(tx.number, lba, false, block));
    }
    if index < copies + direct.len() {
        let write = &direct[index - copies];
        let block = copy_content(alloc, &write.1)?;
        return Ok(Staged::new(tx.number, geometry.home(write.0), false, block));
    }
    let at = (index - copies - direct.len()) as u64;
    let last = descriptor_blocks(tx) - 1 <= at;
    let lba = geometry.area_lba(tx.queue, before.next + (copies as u64 + at));
    let block = describe(alloc, geometry, tx, before, last)?;
    Ok(Staged::new(tx.number, lba, last, block))
}
