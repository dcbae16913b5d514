// What a drawn group makes of the pages that its session holds.
ghost use Rattle.std.specs.Prelude.{◌≡◌, ◌+◌, ℕ};
ghost use Rattle.mq_blocks.specs.Descriptor.{AreRising};
ghost use Rattle.mq_blocks.specs.Journal.{is_among};
ghost use Rattle.mq_sessions.specs.Drawn.{tx_by};
ghost use Rattle.mq_sessions.specs.Drawn.{LeavesBelow, PagesStayBelow, TakesWrite, blocks_in, content_with, page_with};
ghost use Rattle.mq_desk_laws.specs.Cells.{cell_after};

use mq_blocks::{Block, BlockNo, TxNo};
use mq_pages::{PageCell, Write};
use mq_revoke::Placement;

// Whether the block is one of these, which rise.
fn is_in(blocks: &[BlockNo], block: BlockNo) -> bool
    requires { (high : ℕ) × AreRising 0 high blocks.now }
    ensures { result ≡ is_among block blocks.now }
{
    blocks
        .binary_search_by_key(&block.0, |other| other.0)
        .is_ok()
}

// Takes out the last write, where it is of this block.
fn take_write(writes: &mut Vec<Write>, block: BlockNo) -> Option<Write>
    ensures { TakesWrite writes.old.items block result writes.new.items }
{
    let last = writes.last()?;
    if last.block != block {
        return None;
    }
    writes.pop()
}

// The content of the page: what was written, nothing where it was freed, or what it had.
fn content_with(
    old: Option<Block>,
    written: Option<Block>,
    is_written: bool,
    freed: bool,
) -> Option<Block>
    ensures { result ≡ content_with old written is_written freed }
{
    if is_written {
        return written;
    }
    if freed {
        return None;
    }
    old
}

// The page with a content that was written, logged or not, directly or not; or freed.
fn page_with(
    cell: PageCell,
    number: TxNo,
    written: Option<Block>,
    logged: bool,
    direct: bool,
    freed: bool,
) -> PageCell
    ensures { result ≡ page_with cell number written logged direct freed }
{
    let PageCell {
        content,
        version,
        last_logged,
        home_version,
    } = cell;
    let is_written = logged || direct;
    let is_changed = is_written || freed;
    PageCell {
        content: content_with(content, written, is_written, freed),
        version: if is_changed { number } else { version },
        last_logged: if logged { number } else { last_logged },
        home_version: if direct { number } else { home_version },
    }
}

/// The page of a block after the transaction of a group. A session goes through the pages that it holds
/// from the greatest block down, and gives each back. The content of a write is moved into its page.
pub(crate) fn page_after(
    block: BlockNo,
    cell: PageCell,
    number: TxNo,
    plan: &Placement,
    writes: &mut Vec<Write>,
    frees: &[BlockNo],
) -> PageCell
    requires logged { (high : ℕ) × AreRising 0 high plan.now.logged }
    requires direct { (high : ℕ) × AreRising 0 high plan.now.direct }
    requires frees { (high : ℕ) × AreRising 0 high frees.now }
    requires writes { AreRising 0 (block + 1) (blocks_in writes.old.items) }
    ensures cell { result ≡ cell_after (tx_by number 0 plan.now writes.old.items frees.now) block cell }
    ensures left { LeavesBelow block writes.old.items writes.new.items }
{
    let logged = is_in(&plan.logged, block);
    let direct = is_in(&plan.direct, block);
    let freed = is_in(frees, block);
    match take_write(writes, block) {
        Some(write) => page_with(cell, number, Some(write.content), logged, direct, freed),
        None => page_with(cell, number, None, false, false, freed),
    }
}

/// What is written to greater blocks changes nothing of a page.
pub fn a_page_stays_below()
    ensures { PagesStayBelow }
{}
