// A notice is served by a drain of the side of its queue.
use crate::runner::{Assistant, Runner};
use mq_blocks::TxNo;
use mq_calls::{FileMachine, Mqfs};
use mq_drive::Port;
use mq_notices::Serve;
use std::sync::Wait;

impl<P: Port + Drop> Serve<Mqfs<P>> for Runner<FileMachine<P>> {
    ghost use Rattle.std.specs.Prelude.{◌≡◌};
    ghost use Rattle.mq_calls.specs.Sessions.{IsReady};
    ghost use Rattle.mq_run.specs.Helping.{IsServed};
    ghost use Rattle.mq_turns.specs.AtDesk.{AtDesk, view};

    ghost is_ready = { λ files r. AtDesk files.desk r.user.chair
        × IsReady files.geometry r.user.queue r.user.calls r.user.held (view r.user.chair) };

    ghost serves = { λ files number old new. (new.told ≡ old.told)
        × (new.reads ≡ old.reads)
        × (new.user.queue ≡ old.user.queue)
        × (new.user.calls ≡ old.user.calls)
        × IsServed P.state P.faults old.user.queue (view old.user.chair) (view new.user.chair) };

    // The drain of the whole side is that of this number too. What it comes to is told to nobody.
    fn serve<R: Wait>(&mut self, rt: &R, context: &Mqfs<P>, number: TxNo) {
        let _ = number;
        let _ = context.settle_own(rt, &mut self.user);
    }
}

impl<P: Port + Drop> Serve<Mqfs<P>> for Assistant<FileMachine<P>> {
    ghost use Rattle.std.specs.Prelude.{◌≡◌, ◌<◌};
    ghost use Rattle.mq_blocks.specs.Geometry.{queues_of};
    ghost use Rattle.mq_calls.specs.Helpers.{IsAtEase};
    ghost use Rattle.mq_run.specs.Helping.{IsServed};
    ghost use Rattle.mq_turns.specs.AtDesk.{AtDesk, view};

    ghost is_ready = { λ files a. AtDesk files.desk a.helper.chair
        × IsAtEase (view a.helper.chair)
        × (a.queue < queues_of files.geometry) };

    ghost serves = { λ files number old new. (new.queue ≡ old.queue)
        × IsServed P.state P.faults old.queue (view old.helper.chair) (view new.helper.chair) };

    // The drain of the whole side is that of this number too. What it comes to is told to nobody.
    fn serve<R: Wait>(&mut self, rt: &R, context: &Mqfs<P>, number: TxNo) {
        let _ = number;
        let queue = self.queue;
        let _ = context.settle(rt, &mut self.helper, queue);
    }
}
