// Home writes through a queue's side.
ghost use Rattle.std.specs.Prelude.{◌≡◌};
ghost use Rattle.mq_blocks.specs.Drive.{IsHome};
ghost use Rattle.mq_drive.specs.Steps.{HomeGives};
ghost use Rattle.mq_queue_side.specs.Counts.{KeepsCount};
ghost use Rattle.mq_queue_side.specs.Homes.{StaysAt, GoesHome};
ghost use Rattle.mq_queue_side.specs.Side.{side_state};
ghost use Rattle.mq_queue_side.specs.Told.{KeepsTold};

use crate::QueueSide;
use mq_blocks::{Block, Lba};
use mq_drive::{HomeStep, Off, Port};

impl<P: Port, E> QueueSide<P, E> {
    /// Writes a home block of the queue's zone.
    pub fn write_home(&mut self, lba: Lba, block: Block) -> Result<HomeStep, Off>
        requires { IsHome (P.state self.old.pmr.port) lba }
        ensures home { HomeGives (P.state self.old.pmr.port) (P.faults self.old.pmr.port) lba block
            result (P.state self.new.pmr.port) (P.faults self.new.pmr.port) }
        ensures stays { StaysAt lba (side_state P.state P.faults self.old)
            (side_state P.state P.faults self.new) }
        ensures goes { GoesHome lba block (side_state P.state P.faults self.old) result
            (side_state P.state P.faults self.new) }
        ensures counts { KeepsCount (side_state P.state P.faults self.old)
            (side_state P.state P.faults self.new) }
        ensures told { KeepsTold (side_state P.state P.faults self.old)
            (side_state P.state P.faults self.new) }
        ensures kept { self.new.kept ≡ self.old.kept }
        ensures done { self.new.done ≡ self.old.done }
        ensures stored { self.new.stored ≡ self.old.stored }
        ensures records { (self.new.pmr.done ≡ self.old.pmr.done)
            × (self.new.pmr.rung.items ≡ self.old.pmr.rung.items) }
        ensures own { (self.new.pmr.geometry ≡ self.old.pmr.geometry)
            × (self.new.pmr.queue ≡ self.old.pmr.queue) }
    {
        self.pmr.write_home(lba, block)
    }
}
