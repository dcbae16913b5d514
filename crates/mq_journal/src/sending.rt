// A commit that has its number is sent.
ghost use Rattle.std.specs.Prelude.{◌≡◌, IfOk, OnOk, OnErr};
ghost use Rattle.mq_turns.specs.AtDesk.{AtDesk, view, start_of};
ghost use Rattle.mq_turns.specs.declared.rule.Report.TheVariants as report;
ghost use Rattle.mq_journal.specs.Numbers.{HoldsNumbered, IsReported, MaySend, WasCut};

use crate::machine::{Groups, JournalMachine};
use crate::reporting::report_side;
use mq_blocks::TxNo;
use mq_drive::{Off, Port};
use mq_queue_side::{Numbered, QueueSide};
use mq_turns::{Chair, Desk, Report};

/// Sends a commit that was drawn last on the queue, and gives the side back. That it was rung is known
/// on the desk from then on. After `Off` the side keeps the commit as cut, and the refusal is charged to
/// its port.
pub fn send<P: Port + Drop, G: Groups>(
    desk: &Desk<JournalMachine<P, G>>,
    chair: &mut Chair<JournalMachine<P, G>>,
    mut side: QueueSide<P, G::Entry>,
    numbered: Numbered,
) -> Result<TxNo, Off>
    requires at { AtDesk desk.now chair.old }
    requires side { HoldsNumbered P.state P.faults G.group (start_of desk.now) side.pmr.queue side numbered
        (view chair.old) }
    requires sends { MaySend P.state P.faults G.group side numbered }
    requires queue { numbered.queue ≡ side.pmr.queue }
    ensures at { AtDesk desk.now chair.new }
    ensures answer { IfOk result (λ tx. tx ≡ numbered.number) }
    ensures sent { OnOk result (IsReported P.state P.faults G.group (start_of desk.now) side.pmr.queue
        (report.Sent numbered.number) (view chair.old) (view chair.new)) }
    ensures cut { OnErr result (WasCut P.state P.faults G.group side numbered) }
    ensures charged { OnErr result (IsReported P.state P.faults G.group (start_of desk.now) side.pmr.queue
        report.Off (view chair.old) (view chair.new)) }
{
    match side.send(numbered) {
        Ok(tx) => {
            report_side(desk, chair, side, Report::Sent(tx));
            Ok(tx)
        }
        Err(off) => {
            report_side(desk, chair, side, Report::Off);
            Err(off)
        }
    }
}
