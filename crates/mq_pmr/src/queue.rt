// A queue in persistent memory.
ghost use Rattle.std.specs.Prelude.{◌≡◌, ◌≢◌, ◌⊎◌, ◌<◌, ◌≤◌, ◌+◌, ◌-◌, ◌%◌, ◌++◌, ℕ, List, [], ◌∷◌, length, OnOk, OnErr};
ghost use Rattle.mq_blocks.specs.Limits.{depth, usable_depth};
ghost use Rattle.std.specs.Prelude.{IfOk, IfErr, IsSome, Some, None, slice_index_or, reverse, if◌then◌else◌};
ghost use Rattle.std.specs.VecDeque.{deque_capacity};
ghost use Rattle.mq_blocks.specs.Drive.{PortState, IsHome, Owns, staged_end, after_stage, after_flush, after_ring, after_store_head};
ghost use Rattle.mq_blocks.specs.Journal.{number_limit};
ghost use Rattle.mq_drive.specs.Start.{IsPortOf};
ghost use Rattle.mq_drive.specs.Steps.{OffCause, HomeGives};
ghost use Rattle.mq_drive.specs.declared.role.Role.TheVariants.{Queue};
ghost use Rattle.mq_nvme.specs.Entry.{entry_of};
ghost use Rattle.mq_pmr.specs.Answers.{TookGives};
ghost use Rattle.mq_pmr.specs.Queue.{Fits, IsRingOf, after_head};
ghost use Rattle.mq_pmr.specs.Rungs.{AreEnds, AreEnds-prop, is_clear, last_leading, left_after};
ghost use Rattle.mq_pmr.specs.Runs.{OwnsAll, after_some};
ghost use Rattle.mq_pmr.specs.Ring.{IsHeld, AreWhole, AreWhole-prop, AreOf, AreCertain, KeepsBefore};
ghost use Rattle.mq_pmr.specs.Written.{IsWritten};

use crate::Took;
use crate::rungs::Rung;
use crate::slots::SlotRecord;
use crate::walk::{add_rung, note_done, note_staged, pass_done, tx_of_slot};
use mq_blocks::{Block, Geometry, Lba, OutOfMemory, QueueNo, RING_DEPTH, TxNo, USABLE_DEPTH};
use mq_drive::{HomeStep, Off, Port, Step};
use mq_nvme::fields::Ccid;
use mq_nvme::{WriteReq, status_of, write_of};
use std::alloc::Global;
use std::collections::VecDeque;
use std::snapshot::Snapshot;

/// A queue of a drive: its port, and what is known of the entries in its ring. Counts are absolute.
#[derive(Drop)]
pub struct PmrQueue<P: Port> {
    port: P,
    // the port as it was when the queue was opened
    opened: Snapshot<P>,
    geometry: Geometry,
    queue: QueueNo,
    slots: Vec<SlotRecord>,
    // the count of the next entry
    end: u64,
    // the head, as last flushed and as last stored
    head: u64,
    stored_head: u64,
    // the commands of all entries below this count have ended with success
    passed: u64,
    // the last transaction that is done with all before it; before there is one, number 0 and the
    // doorbell at which the queue was opened
    done: Rung,
    // the transactions that were rung after it
    rung: VecDeque<Rung>,
    // the number of the transaction that is staged whole and not rung; none also where a part of one is
    // staged
    staged: Option<u64>,
    ghost fits: { Fits (P.state port) (record {
      slots = slots.items;
      end = end;
      head = head;
      stored_head = stored_head;
      passed = passed;
      done = done;
      rung = rung.items;
      staged = staged;
    }) },
    ghost own: { IsRingOf geometry queue (P.state port) },
    ghost ends: { AreEnds done.end (P.state port).doorbell rung.items } by { AreEnds-prop done.end (P.state port).doorbell rung.items },
    ghost written: { IsWritten (P.state port) slots.items done.end end },
    ghost whole: { AreWhole (P.state port).flushed done.end rung.items } by { AreWhole-prop (P.state port).flushed done.end rung.items },
    ghost held: { IsHeld (P.state opened.value) (P.state port) done rung.items staged },
    ghost reserved: { usable_depth ≤ deque_capacity rung },
}

/// Removes the first item from a list in reverse order.
fn take_first(reversed: &mut Vec<(Lba, Block)>) -> (Lba, Block)
    requires { 0 < length reversed.old.items }
    ensures { reverse reversed.old.items ≡ result ∷ reverse reversed.new.items }
{
    match reversed.pop() {
        Some(item) => item,
        None => unreachable!(),
    }
}

impl<P: Port> PmrQueue<P> {
    /// The queue of a port on which nothing is under way. Its records take memory, and no other call
    /// does. A refusal gives the port back as it was.
    pub fn open(
        alloc: Global,
        port: P,
        geometry: Geometry,
        queue: QueueNo,
    ) -> Result<PmrQueue<P>, (P, OutOfMemory)>
        requires port { IsPortOf geometry (Queue queue) (P.state port) }
        requires head { (P.state port).head ≡ (P.state port).doorbell }
        requires stored { (P.state port).stored_head ≡ (P.state port).doorbell }
        requires pending { (P.state port).pending ≡ [] }
        requires posted { (P.state port).posted ≡ [] }
        requires failed { (P.state port).failed ≡ [] }
        requires flushed { (P.state port).flushed_end ≡ (P.state port).doorbell }
        ensures port { IfOk result (λ q. q.port ≡ port) }
        ensures opened { IfOk result (λ q. q.opened.value ≡ port) }
        ensures own { IfOk result (λ q. (q.geometry ≡ geometry) × (q.queue ≡ queue)) }
        ensures done { IfOk result (λ q. q.done ≡ record { tx = 0; end = (P.state port).doorbell }) }
        ensures rung { IfOk result (λ q. q.rung.items ≡ []) }
        ensures err { IfErr result (λ e. e.0 ≡ port) }
    {
        let (slots, rung) = match records(alloc) {
            Ok(records) => records,
            Err(full) => return Err((port, full)),
        };
        let doorbell = port.doorbell();
        let opened = Snapshot::of(&port);
        Ok(PmrQueue {
            port,
            opened,
            geometry,
            queue,
            slots,
            end: doorbell,
            head: doorbell,
            stored_head: doorbell,
            passed: doorbell,
            done: Rung {
                tx: 0,
                end: doorbell,
            },
            rung,
            staged: None,
        })
    }

    /// The geometry of the drive.
    pub fn geometry(&self) -> Geometry
        ensures { result ≡ self.now.geometry }
    {
        self.geometry
    }

    /// The number of this queue on the drive.
    pub fn queue(&self) -> QueueNo
        ensures { result ≡ self.now.queue }
    {
        self.queue
    }

    /// The number of further entries that may be staged.
    pub fn room(&self) -> u32
        ensures { result ≡ usable_depth - (staged_end (P.state self.now.port) - (P.state self.now.port).head) }
    {
        USABLE_DEPTH - (self.end - self.head) as u32
    }

    /// The count of the next entry, past all that were staged.
    pub fn end(&self) -> u64
        ensures { result ≡ staged_end (P.state self.now.port) }
    {
        self.end
    }

    // Stages one entry of a transaction.
    fn stage_one(&mut self, tx: u64, lba: Lba, block: Block, commit: bool) -> Result<(), Off>
        requires tx { 1 ≤ tx }
        requires below { staged_end (P.state self.old.port) < number_limit }
        requires room { staged_end (P.state self.old.port) - (P.state self.old.port).head < usable_depth }
        requires unstaged { self.old.staged ≡ None }
        requires whose { AreOf (P.state self.old.port) tx }
        requires own { Owns (P.state self.old.port) lba }
        ensures ok { OnOk result (P.state self.new.port ≡ after_stage (P.state self.old.port)
            (entry_of (record {
              tx = tx;
              slot = staged_end
                  (P.state self.old.port) % depth;
              lba = lba;
              commit = commit;
            })) tx lba block) }
        ensures off { OnErr result (P.state self.new.port ≡ P.state self.old.port) }
        ensures cause { OffCause result (P.faults self.old.port) (P.faults self.new.port) }
        ensures done { self.new.done ≡ self.old.done }
        ensures rung { self.new.rung.items ≡ self.old.rung.items }
        ensures whose { OnOk result (AreOf (P.state self.new.port) tx) }
        ensures staged { OnOk result (self.new.staged ≡ (if commit then Some tx else None)) }
        ensures part { OnErr result (self.new.staged ≡ self.old.staged) }
        ensures own { (self.new.geometry ≡ self.old.geometry) × (self.new.queue ≡ self.old.queue) }
        ensures opened { self.new.opened ≡ self.old.opened }
    {
        let entry = write_of(&WriteReq {
            tx,
            slot: (self.end % RING_DEPTH as u64) as u16,
            lba: u64::from(lba.0),
            commit,
        });
        self.port.stage(self.end, entry, block)?;
        note_staged(&mut self.slots, self.end, tx);
        self.end += 1;
        self.staged = tx_if(tx, commit);
        Ok(())
    }

    /// Stages the writes of a transaction, the last as its commit request, and moves them out. After
    /// `Off` the first ones are staged and nothing is rung: the queue may only be drained and cut.
    pub fn stage_all(&mut self, tx: TxNo, items: &mut Vec<(Lba, Block)>) -> Result<(), Off>
        requires tx { 1 ≤ tx }
        requires some { 0 < length items.old.items }
        requires room { length items.old.items ≤ usable_depth -
            (staged_end (P.state self.old.port) - (P.state self.old.port).head) }
        requires end { staged_end (P.state self.old.port) + length items.old.items ≤ number_limit }
        requires empty { (P.state self.old.port).pending ≡ [] }
        requires own { OwnsAll (P.state self.old.port) items.old.items }
        ensures ok { OnOk result (P.state self.new.port ≡ after_some (P.state self.old.port) tx
            (length items.old.items) items.old.items) }
        ensures off { OnErr result ((k : ℕ)
            × (k < length items.old.items)
            × (P.state self.new.port ≡ after_some (P.state self.old.port) tx k items.old.items)) }
        ensures cause { OffCause result (P.faults self.old.port) (P.faults self.new.port) }
        ensures before { 0 < (P.state self.old.port).head
            → slice_index_or (P.state self.new.port).staged
            (((P.state self.old.port).head - 1) % depth) [] ≡ slice_index_or
            (P.state self.old.port).staged (((P.state self.old.port).head - 1) % depth) [] }
        ensures staged { OnOk result (self.new.staged ≡ Some tx) }
        ensures part { OnErr result (self.new.staged ≡ None) }
        ensures done { self.new.done ≡ self.old.done }
        ensures rung { self.new.rung.items ≡ self.old.rung.items }
        ensures items { items.new.items ≡ [] }
        ensures own { (self.new.geometry ≡ self.old.geometry) × (self.new.queue ≡ self.old.queue) }
        ensures opened { self.new.opened ≡ self.old.opened }
    {
        items.reverse();
        let answer = self.stage_reversed(tx.0, items);
        items.clear();
        answer
    }

    // Stages items that stand in reverse.
    fn stage_reversed(&mut self, tx: u64, items: &mut Vec<(Lba, Block)>) -> Result<(), Off>
        requires tx { 1 ≤ tx }
        requires some { 0 < length items.old.items }
        requires room { length items.old.items ≤ usable_depth -
            (staged_end (P.state self.old.port) - (P.state self.old.port).head) }
        requires end { staged_end (P.state self.old.port) + length items.old.items ≤ number_limit }
        requires empty { (P.state self.old.port).pending ≡ [] }
        requires own { OwnsAll (P.state self.old.port) (reverse items.old.items) }
        ensures ok { OnOk result (P.state self.new.port ≡ after_some (P.state self.old.port) tx
            (length items.old.items) (reverse items.old.items)) }
        ensures off { OnErr result ((k : ℕ)
            × (k < length items.old.items)
            × (P.state self.new.port ≡ after_some (P.state self.old.port) tx k (reverse items.old.items))) }
        ensures cause { OffCause result (P.faults self.old.port) (P.faults self.new.port) }
        ensures before { 0 < (P.state self.old.port).head
            → slice_index_or (P.state self.new.port).staged
            (((P.state self.old.port).head - 1) % depth) [] ≡ slice_index_or
            (P.state self.old.port).staged (((P.state self.old.port).head - 1) % depth) [] }
        ensures staged { OnOk result (self.new.staged ≡ Some tx) }
        ensures part { OnErr result (self.new.staged ≡ None) }
        ensures done { self.new.done ≡ self.old.done }
        ensures rung { self.new.rung.items ≡ self.old.rung.items }
        ensures own { (self.new.geometry ≡ self.old.geometry) × (self.new.queue ≡ self.old.queue) }
        ensures opened { self.new.opened ≡ self.old.opened }
    {
        'staging: while !items.is_empty() {
            let (lba, block) = take_first(items);
            self.stage_one(tx, lba, block, items.is_empty())?;
        }
        Ok(())
    }

    /// Flushes once, and then writes the doorbell once, for the transaction that is staged. `Off`
    /// leaves the doorbell as it was.
    pub fn ring_once(&mut self) -> Result<(), Off>
        requires { IsSome self.old.staged }
        ensures ok { OnOk result (P.state self.new.port ≡ after_ring (after_flush (P.state self.old.port))) }
        ensures off { OnErr result ((P.state self.new.port ≡ P.state self.old.port)
            ⊎ (P.state self.new.port ≡ after_flush (P.state self.old.port))) }
        ensures cause { OffCause result (P.faults self.old.port) (P.faults self.new.port) }
        ensures rung { OnOk result ((tx : ℕ)
            → self.old.staged ≡ Some tx
            → self.new.rung.items ≡ self.old.rung.items ++
            (record { tx = tx; end = staged_end (P.state self.old.port) }) ∷ []) }
        ensures before { KeepsBefore (P.state self.old.port) (P.state self.new.port) }
        ensures same { OnErr result (self.new.rung.items ≡ self.old.rung.items) }
        ensures unstaged { OnOk result (self.new.staged ≡ None) }
        ensures staged { OnErr result (self.new.staged ≡ self.old.staged) }
        ensures done { self.new.done ≡ self.old.done }
        ensures own { (self.new.geometry ≡ self.old.geometry) × (self.new.queue ≡ self.old.queue) }
        ensures opened { self.new.opened ≡ self.old.opened }
    {
        self.flush()?;
        self.port.ring(self.end)?;
        if let Some(tx) = self.staged.take() {
            let rung = Rung { tx, end: self.end };
            add_rung(&mut self.rung, rung);
        }
        Ok(())
    }

    // Flushes, and notes it.
    fn flush(&mut self) -> Result<(), Off>
        ensures ok { OnOk result (P.state self.new.port ≡ after_flush (P.state self.old.port)) }
        ensures off { OnErr result (P.state self.new.port ≡ P.state self.old.port) }
        ensures cause { OffCause result (P.faults self.old.port) (P.faults self.new.port) }
        ensures done { self.new.done ≡ self.old.done }
        ensures rung { self.new.rung ≡ self.old.rung }
        ensures staged { self.new.staged ≡ self.old.staged }
        ensures passed { self.new.passed ≡ self.old.passed }
        ensures before { KeepsBefore (P.state self.old.port) (P.state self.new.port) }
        ensures own { (self.new.geometry ≡ self.old.geometry) × (self.new.queue ≡ self.old.queue) }
        ensures opened { self.new.opened ≡ self.old.opened }
    {
        self.port.flush()?;
        self.head = self.stored_head;
        Ok(())
    }

    /// Completes one posted command.
    pub fn complete_one(&mut self) -> Result<Took, Off>
        ensures gives { TookGives (P.state self.old.port) (P.faults self.old.port) result
            (P.state self.new.port) (P.faults self.new.port) }
        ensures done { self.new.done ≡ self.old.done }
        ensures rung { self.new.rung.items ≡ self.old.rung.items }
        ensures staged { self.new.staged ≡ self.old.staged }
        ensures own { (self.new.geometry ≡ self.old.geometry) × (self.new.queue ≡ self.old.queue) }
        ensures opened { self.new.opened ≡ self.old.opened }
    {
        match self.port.step()? {
            Step::Idle => Ok(Took::Idle),
            Step::Done(completion) => {
                let slot = Ccid::get(&completion);
                let status = status_of(&completion);
                if status != 0 {
                    let tx = TxNo(tx_of_slot(&self.slots, slot as usize));
                    return Ok(Took::Bad { tx, status });
                }
                note_done(&mut self.slots, slot as usize);
                Ok(Took::One { slot })
            }
        }
    }

    /// Stores the head past each leading transaction all of whose commands have ended with success, and
    /// flushes it. Returns the number of the last transaction before the head that was rung since the
    /// queue was opened, or 0. If the flushed head is there already, no event happens.
    pub fn advance_head(&mut self) -> Result<TxNo, Off>
        ensures done { self.new.done ≡ last_leading
            (is_clear (P.state self.old.port)) self.old.done self.old.rung.items }
        ensures rung { self.new.rung.items ≡ left_after
            (is_clear (P.state self.old.port)) self.old.rung.items }
        ensures staged { self.new.staged ≡ self.old.staged }
        ensures answer { IfOk result (λ tx. tx ≡ self.new.done.tx) }
        ensures ok { OnOk result (P.state self.new.port ≡ after_head
            (P.state self.old.port) self.new.done.end) }
        ensures off { OnErr result ((P.state self.new.port ≡ P.state self.old.port)
            ⊎ (P.state self.new.port ≡ after_store_head (P.state self.old.port) self.new.done.end)) }
        ensures before { KeepsBefore (P.state self.old.port) (P.state self.new.port) }
        ensures cause { OffCause result (P.faults self.old.port) (P.faults self.new.port) }
        ensures own { (self.new.geometry ≡ self.old.geometry) × (self.new.queue ≡ self.old.queue) }
        ensures opened { self.new.opened ≡ self.old.opened }
    {
        self.pass();
        if self.head != self.done.end {
            self.store_done()?;
            self.flush()?;
        }
        Ok(TxNo(self.done.tx))
    }

    // Passes the transactions that lead and are done.
    fn pass(&mut self)
        ensures port { self.new.port ≡ self.old.port }
        ensures done { self.new.done ≡ last_leading
            (is_clear (P.state self.old.port)) self.old.done self.old.rung.items }
        ensures rung { self.new.rung.items ≡ left_after
            (is_clear (P.state self.old.port)) self.old.rung.items }
        ensures staged { self.new.staged ≡ self.old.staged }
        ensures own { (self.new.geometry ≡ self.old.geometry) × (self.new.queue ≡ self.old.queue) }
        ensures opened { self.new.opened ≡ self.old.opened }
    {
        pass_done(
            &self.slots,
            &mut self.passed,
            &mut self.done,
            &mut self.rung,
        );
    }

    // Stores the head past them.
    fn store_done(&mut self) -> Result<(), Off>
        ensures ok { OnOk result (P.state self.new.port ≡ after_store_head
            (P.state self.old.port) self.old.done.end) }
        ensures off { OnErr result (P.state self.new.port ≡ P.state self.old.port) }
        ensures cause { OffCause result (P.faults self.old.port) (P.faults self.new.port) }
        ensures done { self.new.done ≡ self.old.done }
        ensures rung { self.new.rung.items ≡ self.old.rung.items }
        ensures staged { self.new.staged ≡ self.old.staged }
        ensures own { (self.new.geometry ≡ self.old.geometry) × (self.new.queue ≡ self.old.queue) }
        ensures opened { self.new.opened ≡ self.old.opened }
    {
        let head = self.done.end;
        self.port.store_head(head)?;
        self.stored_head = head;
        Ok(())
    }

    /// Writes a home block of the port.
    pub fn write_home(&mut self, lba: Lba, block: Block) -> Result<HomeStep, Off>
        requires { IsHome (P.state self.old.port) lba }
        ensures home { HomeGives (P.state self.old.port) (P.faults self.old.port) lba block result
            (P.state self.new.port) (P.faults self.new.port) }
        ensures done { self.new.done ≡ self.old.done }
        ensures rung { self.new.rung.items ≡ self.old.rung.items }
        ensures staged { self.new.staged ≡ self.old.staged }
        ensures own { (self.new.geometry ≡ self.old.geometry) × (self.new.queue ≡ self.old.queue) }
        ensures opened { self.new.opened ≡ self.old.opened }
    {
        self.port.write_home(lba, block)
    }

    /// The port.
    pub fn into_port(self) -> P
        ensures port { result ≡ self.port }
        ensures own { IsPortOf self.geometry (Queue self.queue) (P.state result) }
        ensures certain { AreCertain (P.state result) }
    {
        self.port
    }
}

// The number of a transaction, where its commit request is staged.
fn tx_if(tx: u64, commit: bool) -> Option<u64>
    ensures { result ≡ (if commit then Some tx else None) }
{
    if commit { Some(tx) } else { None }
}

// The records of a queue before anything is staged.
fn records(alloc: Global) -> Result<(Vec<SlotRecord>, VecDeque<Rung>), OutOfMemory>
    ensures { IfOk result (λ r. (length r.0.items ≡ depth) × (r.1.items ≡ []) × (usable_depth ≤ deque_capacity r.1)) }
{
    let slots = vec![in alloc; SlotRecord { tx: 0, done: false }; RING_DEPTH as usize]?;
    let rung = VecDeque::with_capacity(alloc, USABLE_DEPTH as usize)?;
    Ok((slots, rung))
}
