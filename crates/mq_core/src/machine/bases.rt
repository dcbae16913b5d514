// Events on the base.
ghost use Rattle.std.specs.Prelude.{◌≡◌, ◌<◌, ◌↔◌, ℕ, IsTrue, MatchOption, Some, None};
ghost use Rattle.mq_blocks.specs.Drive.{after_store_base};
ghost use Rattle.mq_blocks.specs.Geometry.{homes_of, zone_of, home_lba};
ghost use Rattle.mq_ledger.specs.Plain.{plain};
ghost use Rattle.mq_ledger.specs.State.{port_of};
ghost use Rattle.mq_core.specs.Answers.{Answers};
ghost use Rattle.mq_core.specs.Bases.{due_at, is_due, home_of, writes_none, post_none, Holds};
ghost use Rattle.mq_core.specs.Events.{MayStoreBase};
ghost use Rattle.mq_core.specs.Parts.{AreHeld, parts, whole};
ghost use Rattle.mq_core.specs.Within.{IsWithin};

use super::parts::Parts;
use crate::{CoreRefusal, PlainCommand, PlainPort};
use mq_blocks::{BlockNo, Geometry, TxNo};
use mq_ledger::{Content, Ledger};

/// The home block that a command writes, if it writes one.
fn home_block(geometry: Geometry, command: &PlainCommand) -> Option<BlockNo>
    ensures { result ≡ home_of geometry command.now }
{
    let areas = geometry.queues() * geometry.area();
    if command.lba.0 < areas {
        return None;
    }
    Some(BlockNo(command.lba.0 - areas))
}

impl<'a> Parts<'a> {
    /// What stands on a block in the map after the base, where no number above it and up to the front
    /// changed the block.
    fn due(self, base: TxNo, block: BlockNo) -> Option<&'a Content>
        requires { AreHeld self.ledger.now.front (whole self) }
        ensures { MatchOption result (due_at (whole self.entry) base block ≡ None)
            (λ c. due_at (whole self.entry) base block ≡ Some c.now) }
    {
        if block.0 >= self.ledger.geometry().homes() {
            return None;
        }
        if self.ledger.settled_change(block).0 > base.0 {
            return None;
        }
        self.ledger.settled_content(block)
    }

    fn is_due(self, base: TxNo, block: Option<BlockNo>) -> bool
        requires { AreHeld self.ledger.now.front (whole self) }
        ensures { result ≡ is_due (whole self.entry) base block }
    {
        match block {
            Some(block) => self.due(base, block).is_some(),
            None => false,
        }
    }

    /// Whether none of these commands writes a block that is due.
    fn writes_none(self, base: TxNo, commands: &[PlainCommand]) -> bool
        requires { AreHeld self.ledger.now.front (whole self) }
        ensures { result ≡ writes_none (whole self.entry) base commands.now }
    {
        let geometry = self.ledger.geometry();
        for command in commands {
            if self.is_due(base, home_block(geometry, command)) {
                return false;
            }
        }
        true
    }

    /// Whether no posted command writes a block that is due.
    fn posts_none(self, base: TxNo) -> bool
        requires { AreHeld self.ledger.now.front (whole self) }
        ensures { result ≡ post_none (whole self.entry) base (whole self.entry).ports }
    {
        for port in self.ports {
            if !self.writes_none(base, port.posted()) {
                return false;
            }
        }
        true
    }

    /// The port of a home block.
    fn home_port(self, block: BlockNo) -> &'a PlainPort
        requires held { AreHeld self.ledger.now.front (whole self) }
        requires block { block < homes_of (whole self).geometry }
        ensures is { result.now ≡ port_of (whole self.entry) (zone_of (whole self.entry).geometry block) }
        ensures within { IsWithin result.now (home_lba (whole self.entry).geometry block) }
    {
        match self.ledger.geometry().zone_of(block) {
            Some(queue) => &self.ports[queue.0 as usize],
            None => self.root,
        }
    }

    /// Whether a block holds at home what is due there.
    fn is_home(self, base: TxNo, block: BlockNo) -> bool
        requires held { AreHeld self.ledger.now.front (whole self) }
        requires block { block < homes_of (whole self).geometry }
        ensures { IsTrue result
            ↔ ((content : _)
            → due_at (whole self.entry) base block ≡ Some content
            → Holds (port_of (whole self.entry) (zone_of (whole self.entry).geometry block))
            (home_lba (whole self.entry).geometry block) content) }
    {
        let Some(content) = self.due(base, block) else {
            return true;
        };
        let lba = self.ledger.geometry().home(block);
        self.home_port(block).holds(lba, content)
    }

    /// Whether each block holds at home what is due there.
    fn are_home(self, base: TxNo) -> bool
        requires { AreHeld self.ledger.now.front (whole self) }
        ensures { IsTrue result
            ↔ ((x : ℕ) (content : _)
            → x < homes_of (whole self.entry).geometry
            → due_at (whole self.entry) base x ≡ Some content
            → Holds (port_of (whole self.entry) (zone_of (whole self.entry).geometry x))
            (home_lba (whole self.entry).geometry x) content) }
    {
        for block in 0..self.ledger.geometry().homes() {
            if !self.is_home(base, BlockNo(block)) {
                return false;
            }
        }
        true
    }

    /// Whether a base may be stored.
    fn may_store_base(self, base: TxNo) -> bool
        requires { AreHeld self.ledger.now.front (whole self) }
        ensures { IsTrue result ↔ MayStoreBase plain (whole self.entry) base }
    {
        if base.0 < self.root.stored_base() {
            return false;
        }
        if base.0 > self.ledger.front().0 {
            return false;
        }
        if !self.posts_none(base) {
            return false;
        }
        self.are_home(base)
    }
}

/// The base is stored: recovery needs no transaction up to it.
pub fn store_base(
    ledger: &Ledger,
    ports: &[PlainPort],
    root: &mut PlainPort,
    base: TxNo,
) -> Result<(), CoreRefusal>
    requires { AreHeld ledger.now.front (parts ledger.now ports.now root.old) }
    ensures { Answers (MayStoreBase plain (parts ledger.now ports.now root.old) base)
        (after_store_base root.old base) root.old root.new result }
{
    let now = Parts {
        ledger,
        ports,
        root: &*root,
    };
    if !now.may_store_base(base) {
        return Err(CoreRefusal::NotAllowed { index: 0 });
    }
    root.store_base(base);
    Ok(())
}
