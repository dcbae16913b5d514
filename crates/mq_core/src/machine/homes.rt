// Events on home blocks and the base.
ghost use Rattle.std.specs.Prelude.{◌≡◌, ◌↔◌, ◌<◌, ◌++◌, ◌∷◌, [], IfOk, OnOk, OnErr, IsTrue, IsSome, true, filter, not, reverse, nat_eq};
ghost use Rattle.mq_blocks.specs.Geometry.{homes_of, zone_of};
ghost use Rattle.mq_blocks.specs.Journal.{is_among};
ghost use Rattle.mq_ledger.specs.Plain.{plain};
ghost use Rattle.mq_ledger.specs.State.{start_map};
ghost use Rattle.mq_ledger.specs.History.{map_after};
ghost use Rattle.mq_core.specs.Answers.{Answers};
ghost use Rattle.mq_blocks.specs.Blocks.{content};
ghost use Rattle.mq_core.specs.Events.{MayWriteHome, begin_home, end_home};
ghost use Rattle.mq_core.specs.Homes.{ports_after, root_after, IsIn};
ghost use Rattle.mq_core.specs.Machine.{IsAllowed, happens, WriteHome};
ghost use Rattle.mq_core.specs.Parts.{home_begun, home_ended, under};

use super::Core;
use crate::{CoreRefusal, PlainPort};
use mq_blocks::{BlockNo, Geometry, OutOfMemory};
use mq_ledger::{Content, Ledger, copy_content};
use std::alloc::Global;

/// Begins a home write of a block on its port, and counts it as under way.
fn begin_write(
    ports: &mut Vec<PlainPort>,
    root: &mut PlainPort,
    writing: &mut Vec<BlockNo>,
    geometry: Geometry,
    block: BlockNo,
    content: Content,
) -> Result<(), OutOfMemory>
    requires block { block < homes_of geometry }
    requires there { IsIn geometry block ports.old.items root.old }
    ensures ports { OnOk result (ports.new.items ≡ ports_after (begin_home geometry block content)
        (zone_of geometry block) ports.old.items) }
    ensures root { OnOk result (root.new ≡ root_after (begin_home geometry block content)
        (zone_of geometry block) root.old) }
    ensures writing { OnOk result (writing.new.items ≡ writing.old.items ++ block ∷ []) }
    ensures refused { OnErr result ((ports.new.items ≡ ports.old.items)
        × (root.new ≡ root.old)
        × (writing.new.items ≡ writing.old.items)) }
{
    writing.reserve(1)?;
    match geometry.zone_of(block) {
        Some(queue) => ports[queue.0 as usize].begin_home(geometry.home(block), content)?,
        None => root.begin_home(geometry.home(block), content)?,
    }
    writing.push(block)?;
    Ok(())
}

/// Ends the last home write of a block on its port, with this content.
fn end_write(
    ports: &mut Vec<PlainPort>,
    root: &mut PlainPort,
    geometry: Geometry,
    block: BlockNo,
    content: Content,
)
    requires block { block < homes_of geometry }
    requires there { IsIn geometry block ports.old.items root.old }
    ensures ports { ports.new.items ≡ ports_after (end_home geometry block content)
        (zone_of geometry block) ports.old.items }
    ensures root { root.new ≡ root_after (end_home geometry block content) (zone_of geometry block) root.old }
{
    match geometry.zone_of(block) {
        Some(queue) => ports[queue.0 as usize].end_home(geometry.home(block), content),
        None => root.end_home(geometry.home(block), content),
    }
}

fn is_same(one: BlockNo, other: BlockNo) -> bool
    ensures { result ≡ nat_eq one other }
{
    one.0 == other.0
}

/// Whether a block is one of these.
fn holds_block(blocks: &[BlockNo], block: BlockNo) -> bool
    ensures { result ≡ is_among block blocks.now }
{
    for other in blocks {
        if is_same(*other, block) {
            return true;
        }
    }
    false
}

/// Removes a block from a list, wherever it stands.
fn drop_block(blocks: &mut Vec<BlockNo>, block: BlockNo)
    ensures { blocks.new.items ≡ filter (λ x. not (nat_eq x block)) blocks.old.items }
{
    blocks.retain(|other| !is_same(*other, block));
}

/// A copy of what stands on a home block of the map.
fn home_content(alloc: Global, ledger: &Ledger, block: BlockNo) -> Result<Content, OutOfMemory>
    requires block { block < homes_of ledger.now.geometry }
    requires there { IsSome (map_after (start_map ledger.now.start) ledger.now.history block) }
    ensures { IfOk result (λ c. c ≡ content (map_after (start_map ledger.now.start) ledger.now.history block)) }
{
    copy_content(alloc, ledger.content(block).unwrap())
}

/// A home write of what stands on a block of the map begins.
pub fn write_home(
    alloc: Global,
    ledger: &Ledger,
    ports: &mut Vec<PlainPort>,
    root: &mut PlainPort,
    writing: &mut Vec<BlockNo>,
    block: BlockNo,
) -> Result<(), OutOfMemory>
    requires block { block < homes_of ledger.now.geometry }
    requires there { IsSome (map_after (start_map ledger.now.start) ledger.now.history block) }
    requires port { IsIn ledger.now.geometry block ports.old.items root.old }
    ensures begun { OnOk result (under ledger.now ports.new.items root.new writing.new.items
        ≡ home_begun ledger.now ports.old.items root.old writing.old.items block) }
    ensures refused { OnErr result (under ledger.now ports.new.items root.new writing.new.items
        ≡ under ledger.now ports.old.items root.old writing.old.items) }
{
    let content = home_content(alloc, ledger, block)?;
    begin_write(ports, root, writing, ledger.geometry(), block, content)
}

/// The last home write of the block that is under way ends with success.
pub fn home_done(
    alloc: Global,
    ledger: &Ledger,
    ports: &mut Vec<PlainPort>,
    root: &mut PlainPort,
    writing: &mut Vec<BlockNo>,
    block: BlockNo,
) -> Result<(), CoreRefusal>
    requires { is_among block (reverse writing.old.items) ≡ true
        → (block < homes_of ledger.now.geometry)
        × IsSome (map_after (start_map ledger.now.start) ledger.now.history block)
        × IsIn ledger.now.geometry block ports.old.items root.old }
    ensures { Answers (is_among block (reverse writing.old.items) ≡ true)
        (home_ended ledger.now ports.old.items root.old writing.old.items block)
        (under ledger.now ports.old.items root.old writing.old.items)
        (under ledger.now ports.new.items root.new writing.new.items) result }
{
    if !holds_block(writing, block) {
        return Err(CoreRefusal::NotAllowed { index: 0 });
    }
    let content = home_content(alloc, ledger, block)?;
    end_write(ports, root, ledger.geometry(), block, content);
    drop_block(writing, block);
    Ok(())
}

impl Core {
    /// Whether a home write of a block may begin.
    fn may_write_home(&self, block: BlockNo) -> bool
        ensures { IsTrue result ↔ MayWriteHome self.now block }
    {
        if block.0 >= self.ledger.geometry().homes() {
            return false;
        }
        let change = self.ledger.last_change(block).0;
        if change <= self.root.stored_base() {
            return false;
        }
        if change > self.ledger.front().0 {
            return false;
        }
        self.ledger.is_logged_last(block)
    }

    /// A home write of the block's content begins.
    pub fn write_home(&mut self, alloc: Global, block: BlockNo) -> Result<(), CoreRefusal>
        ensures { Answers (IsAllowed plain (WriteHome block) self.old)
            (happens plain (WriteHome block) self.old) self.old self.new result }
    {
        if !self.may_write_home(block) {
            return Err(CoreRefusal::NotAllowed { index: 0 });
        }
        write_home(
            alloc,
            &self.ledger,
            &mut self.ports,
            &mut self.root,
            &mut self.writing,
            block,
        )?;
        Ok(())
    }
}
