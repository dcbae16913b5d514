// The shape of a drive on a desk.
use mq_drive::Port;
use mq_journal::{Groups, JournalMachine};
use mq_turns::Machine;

/// A machine over a drive, whose shape follows from the values that a desk is opened with.
pub trait Shaped: Machine {
    ghost use Rattle.mq_blocks.specs.declared.geometry.Geometry.{Geometry};
    ghost use Rattle.mq_turns.specs.declared.rule.Opening.{Opening};

    ghost shape: { Opening Self.Page Self.Side Self.Root → Geometry };
}

impl<P: Port + Drop, G: Groups> Shaped for JournalMachine<P, G> {
    ghost use Rattle.mq_sessions.specs.Opening.{geometry_at};

    ghost shape = { geometry_at P.state P.faults G.group };
}
