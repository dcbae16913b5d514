// What a chair notes: home writes that ended, pages that it gives back, and faults that it answers.
ghost use Rattle.std.specs.Prelude.{◌≡◌, ℕ, Some};
ghost use Rattle.mq_turns.specs.Words.{after_notice, MayNote};
ghost use Rattle.mq_turns.specs.Desk.{Sees};
ghost use Rattle.mq_turns.specs.AtDesk.{AtDesk, view};
ghost use Rattle.mq_turns.specs.declared.rule.Known.{Known};
ghost use Rattle.mq_turns.specs.declared.rule.Notice.TheVariants as notice;

use crate::desk::{Chair, Desk};
use crate::machine::Machine;
use crate::rule::Charge;
use crate::words;
use mq_blocks::{BlockNo, TxNo};
use std::marker::Brand;

impl<M: Machine> Desk<M> {
    /// Notes that a home write of the block ended, with the content of the number. The chair holds the
    /// block's page and the port that wrote it. At run time this is only a load: the note is for
    /// proofs, and other chairs know of it from then on.
    pub fn note_home(&self, chair: &mut Chair<M>, block: BlockNo, number: TxNo)
        requires at { AtDesk self.now chair.old }
        requires may { MayNote M.meaning (notice.Home block number) (view chair.old) }
        ensures at { AtDesk self.now chair.new }
        ensures noted { (K : Known M.Page M.Side M.Root M.Entry)
            × (view chair.new ≡ after_notice M.meaning (notice.Home block number) K (view chair.old))
            × Sees M.meaning (view chair.old) K }
    {
        let counter = self.table.slot_count();
        words::note_home::<M, Brand>(&self.table.shared, &mut chair.place, counter, block, number);
    }

    /// Notes the state of the page by all that is known now, before the page is given back. The chair
    /// keeps the note. At run time this is only a load.
    pub fn note_page(&self, chair: &mut Chair<M>, block: BlockNo, page: &M::Page)
        requires at { AtDesk self.now chair.old }
        requires may { MayNote M.meaning (notice.Page block page.now) (view chair.old) }
        ensures at { AtDesk self.now chair.new }
        ensures noted { (K : Known M.Page M.Side M.Root M.Entry)
            × (view chair.new ≡ after_notice M.meaning (notice.Page block page.now) K (view chair.old))
            × Sees M.meaning (view chair.old) K }
    {
        let counter = self.table.slot_count();
        words::note_page::<M, Brand>(&self.table.shared, &mut chair.place, counter, block, page);
    }

    /// Enters in the account of a port what the chair reports of it: a refusal that it returns, or that
    /// a transaction was rung. The chair holds the port, which must show what was reported by the time
    /// that it is given back. At run time this is only a load.
    pub fn charge(&self, chair: &mut Chair<M>, charge: &Charge)
        requires at { AtDesk self.now chair.old }
        requires may { MayNote M.meaning (notice.Charge charge.now) (view chair.old) }
        ensures at { AtDesk self.now chair.new }
        ensures noted { (K : Known M.Page M.Side M.Root M.Entry)
            × (view chair.new ≡ after_notice M.meaning (notice.Charge charge.now) K (view chair.old))
            × Sees M.meaning (view chair.old) K }
    {
        let counter = self.table.slot_count();
        words::charge::<M, Brand>(&self.table.shared, &mut chair.place, counter, charge);
    }
}
