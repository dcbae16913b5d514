// What a port in memory keeps, and how it changes.
ghost use Rattle.std.specs.Prelude.{◌≡◌, ◌<◌, ◌≤◌, ◌-◌, ◌/◌, ◌%◌, ◌^◌, ℕ, [], true, false, IfOk, OnOk, OnErr, All, IsSome, IsNone, IsTrue, ◌↔◌, Some, None, Contains};
ghost use Rattle.mq_blocks.specs.Limits.{depth, usable_depth};
ghost use Rattle.std.specs.VecDeque.{deque_capacity};
ghost use Rattle.mq_drive.specs.Fuse.{above, below, earlier};
ghost use Rattle.mq_drive.specs.Emulated.{phase_after};
ghost use Rattle.mq_drive.specs.Happened.{happened_in};
ghost use Rattle.mq_drive.specs.Sound.{IsSound, IsSound-prop};

use crate::blocks::Blocks;
use crate::cut::{tear_commands, tear_home, tear_slots};
use crate::extent::{Extent, block_index, extents, port_number, queue_id};
use crate::failing::{Failing, Failure, parts_of};
use crate::power::Power;
use crate::random::{choose, either, generator};
use crate::store::{add, add_all, bump, put_slot, settle, slot_at, take_at};
use crate::{FuseSeat, HomeStep, Off, Port, PortImage, Role, Step};
use mq_blocks::{Block, Command, Geometry, HomeWrite, Lba, OutOfMemory, RING_DEPTH, USABLE_DEPTH};
use mq_nvme::{Completion, Ended, Entry, WRITE_FAULT, completion_of};
use rand_pcg::Lcg128Xsl64;
use std::alloc::Global;
use std::collections::VecDeque;

// The phase of the completion that follows this number of others: 1 at first, and inverted at each pass
// through a completion queue of the ring's depth (NVM Express 1.4, "Completion Queue Entry").
fn phase_after(completions: u64) -> bool
    ensures is { IsTrue result ↔ (completions / depth % 2 ≡ 0) }
    ensures phase { result ≡ phase_after completions }
{
    completions / RING_DEPTH as u64 % 2 == 0
}

/// A port in memory: its parts, and their invariants.
#[derive(Drop)]
pub struct Device<'f> {
    role: Role,
    number: u32,
    id: u32,
    area: Extent,
    homes: Extent,
    flushed: Vec<Entry>,
    staged: Vec<Entry>,
    flushed_end: u64,
    pending: VecDeque<Command>,
    doorbell: u64,
    posted: VecDeque<Command>,
    failure: Option<Failure>,
    head: u64,
    stored_head: u64,
    base: u64,
    stored_base: u64,
    blocks: Blocks,
    under_way: Option<HomeWrite>,
    rings: u64,
    begins: u64,
    events: u64,
    completions: u64,
    power: Power<'f>,
    failing: Failing,
    order: Lcg128Xsl64,
    ghost sound: { IsSound
        (record { role = role; id = id; area = area; homes = homes })
        (record { flushed = flushed.items; staged = staged.items; flushed_end = flushed_end })
        (record {
          pending = pending.items;
          pending_capacity = deque_capacity pending;
          posted = posted.items;
          posted_capacity = deque_capacity posted;
        })
        (record {
          doorbell = doorbell;
          head = head;
          stored_head = stored_head;
          base = base;
          stored_base = stored_base;
        })
        (record {
          stored = blocks.stored.items;
          certain = blocks.certain.items;
          doubt = blocks.doubt;
          failure = failure;
          under_way = under_way;
        })
        (record {
          events = events;
          begins = begins;
          happened = power.happened;
          offs = power.offs;
          failed = failing.failed;
        }) } by { IsSound-prop },
}

impl<'f> Device<'f> {
    ghost use Rattle.mq_drive.specs.Emu.{device_state, device_faults, device_chance};
    ghost use Rattle.mq_drive.specs.Limits.{fails_by};
    ghost use Rattle.mq_drive.specs.Seats.{name_of, fuse_of, tickets_of};
    ghost use Rattle.mq_drive.specs.Start.{IsRole, IsImageOf, start_of, chance_at_start};
    ghost use Rattle.mq_drive.specs.Steps.{PowerOff};
    ghost use Rattle.mq_blocks.specs.Drive.{staged_end};

    /// As `EmuPort::new`.
    pub fn new(
        alloc: Global,
        power: Power<'f>,
        geometry: Geometry,
        role: Role,
        image: PortImage,
        fail: Option<u64>,
        seed: u64,
    ) -> Result<Device<'f>, OutOfMemory>
        requires power { (power.happened ≡ 0) × (power.offs ≡ 0) }
        requires role { IsRole geometry role }
        requires image { IsImageOf geometry role image }
        ensures state { IfOk result (λ d. device_state d ≡ start_of geometry role image
            (fuse_of power.entry.seat) fail) }
        ensures faults { IfOk result (λ d. device_faults d ≡ []) }
        ensures chance { IfOk result (λ d. device_chance d ≡ chance_at_start geometry role seed) }
        ensures power { IfOk result (λ d. d.power ≡ power.entry) }
        ensures failing { IfOk result (λ d. d.failing.executed ≡ 0) }
        ensures completions { IfOk result (λ d. d.completions ≡ 0) }
    {
        let (area, homes) = extents(geometry, role);
        let number = port_number(role, geometry);
        let PortImage {
            doorbell,
            head,
            base,
            slots,
            blocks,
        } = image;
        let flushed = slots.to_vec(alloc)?;
        let certain = vec![in alloc; true; blocks.len()]?;
        Ok(Device {
            role,
            number,
            id: queue_id(role, geometry),
            area,
            homes,
            flushed,
            staged: slots,
            flushed_end: doorbell,
            pending: VecDeque::with_capacity(alloc, USABLE_DEPTH as usize)?,
            doorbell,
            posted: VecDeque::with_capacity(alloc, USABLE_DEPTH as usize)?,
            failure: None,
            head,
            stored_head: head,
            base,
            stored_base: base,
            blocks: Blocks::new(blocks, certain),
            under_way: None,
            rings: 0,
            begins: 0,
            events: 0,
            completions: 0,
            power,
            failing: Failing::new(fail),
            order: generator(seed, number),
        })
    }

    /// As `EmuPort::events`.
    pub fn events(&self) -> u64
        ensures is { result ≡ self.now.power.happened }
        ensures homes { result ≡ happened_in (device_state self.now) (device_faults self.now) }
        ensures state { (device_state self.now).begins ≡ 0 → result ≡ (device_state self.now).events }
        ensures tickets { (l : ℕ)
            → (device_state self.now).fuse.limit ≡ Some l
            → result ≡ below l (tickets_of self.now.power.seat) }
        ensures most { (l : ℕ) → (device_state self.now).fuse.limit ≡ Some l → result ≤ l }
        ensures off { (l : ℕ)
            → (device_state self.now).fuse.limit ≡ Some l
            → Contains (device_faults self.now) PowerOff
            → 0 < above l (tickets_of self.now.power.seat) }
        ensures on { (l : ℕ)
            → (device_state self.now).fuse.limit ≡ Some l
            → 0 < above l (tickets_of self.now.power.seat)
            → Contains (device_faults self.now) PowerOff }
        ensures last { (l : ℕ)
            → (device_state self.now).fuse.limit ≡ Some l
            → above l (earlier (tickets_of self.now.power.seat)) ≡ 0 }
        ensures unlimited { (device_state self.now).fuse.limit ≡ None
            → Contains (device_faults self.now) PowerOff
            → ⊥ }
    {
        self.power.happened()
    }

    // The count of the next entry.
    fn end(&self) -> u64
        ensures { result ≡ staged_end (device_state self.now) }
    {
        self.doorbell + self.pending.len() as u64
    }

    /// As `EmuPort::failed`.
    pub fn failed(&self) -> bool
        ensures named { result ≡ fails_by (device_state self.now).fail self.now.failing.executed }
        ensures errors { result ≡ true → All (λ f. f ≡ PowerOff) (device_faults self.now) → ⊥ }
        ensures no_error { result ≡ false → All (λ f. f ≡ PowerOff) (device_faults self.now) }
        ensures none { (device_state self.now).fail ≡ None
            → All (λ f. f ≡ PowerOff) (device_faults self.now) }
    {
        self.failing.failed()
    }
}

impl<'f> Device<'f> {
    ghost use Rattle.mq_drive.specs.Choices.{cut_of};
    ghost use Rattle.mq_drive.specs.Emu.{device_state, device_chance};
    ghost use Rattle.mq_blocks.specs.Drive.{IsImage, IsQuiescent, image_of};
    ghost use Rattle.mq_blocks.specs.declared.geometry.Geometry as geometry;
    ghost use Rattle.mq_drive.specs.Roles.{role_of};
    ghost use Rattle.mq_drive.specs.Start.{IsPortOf, IsImageOf};

    /// As `EmuPort::cut`.
    pub fn cut(self, pick: u64) -> (PortImage, FuseSeat)
        ensures image { IsImage (device_state self.entry) result.0 }
        ensures quiet { IsQuiescent (device_state self.entry)
            → result.0 ≡ image_of (device_state self.entry) }
        ensures role { (g : geometry.Geometry)
            → IsPortOf g (role_of (device_state self.entry).queue) (device_state self.entry)
            → IsImageOf g (role_of (device_state self.entry).queue) result.0 }
        ensures chosen { result.0 ≡ cut_of (device_state self.entry) (device_chance self.entry) pick }
        ensures seat { result.1 ≡ self.entry.power.seat }
    {
        let Device {
            number,
            area,
            homes,
            mut flushed,
            staged,
            flushed_end,
            pending,
            doorbell,
            posted,
            failure,
            head,
            stored_head,
            base,
            stored_base,
            mut blocks,
            under_way,
            power,
            ..
        } = self;
        let mut rng = generator(pick, number);
        let end = doorbell + pending.len() as u64;
        tear_slots(&mut flushed, &staged, flushed_end, end, &mut rng);
        let head = either(&mut rng, head, stored_head);
        let base = either(&mut rng, base, stored_base);
        let (failed, unended) = parts_of(failure, blocks.doubt());
        tear_commands(&mut blocks, area, homes, posted, failed, &mut rng);
        tear_home(&mut blocks, area, homes, unended, &mut rng);
        tear_home(&mut blocks, area, homes, under_way, &mut rng);
        let image = PortImage {
            doorbell,
            head,
            base,
            slots: flushed,
            blocks: blocks.into_inner(),
        };
        (image, power.into_seat())
    }
}

impl<'f> Port for Device<'f> {
    ghost use Rattle.mq_drive.specs.Choices.{StepChooses, HomeChooses};
    ghost use Rattle.mq_drive.specs.Emu.{device_state, device_faults, device_chance, device_counts, device_tickets};
    ghost use Rattle.mq_blocks.specs.Drive.{Owns, IsHome, AreFrom, staged_end, after_stage, after_flush, after_ring, after_store_head, after_store_base};
    ghost use Rattle.mq_nvme.specs.Entry.{tx_of, lba_of};
    ghost use Rattle.mq_drive.specs.Emulated.{StepCounts, HomeCounts, StepTickets, HomeTickets};
    ghost use Rattle.mq_drive.specs.Seats.{Happens, IsRefused};
    ghost use Rattle.mq_drive.specs.Steps.{StepGives, HomeGives, OffCause, IsOwnWrite};

    ghost state = { device_state };

    ghost faults = { device_faults };

    fn role(&self) -> Role {
        self.role
    }

    fn doorbell(&self) -> u64 {
        self.doorbell
    }

    fn head(&self) -> u64 {
        self.head
    }

    fn base(&self) -> u64 {
        self.base
    }

    fn read_slot(&self, slot: u32) -> Entry {
        slot_at(&self.flushed, slot as usize)
    }

    fn read_block(&self, lba: Lba, into: &mut Block) {
        let index = block_index(self.area, self.homes, lba);
        self.blocks.read(index, into);
    }

    fn stage(&mut self, at: u64, entry: Entry, block: Block) -> Result<(), Off>
        requires queue { IsSome (device_state self.old).queue }
        requires next { at ≡ staged_end (device_state self.old) }
        requires below { at < 2 ^ 63 }
        requires order { (device_state self.old).stored_head ≤ (device_state self.old).doorbell }
        requires room { at - (device_state self.old).head < usable_depth }
        requires write { IsOwnWrite (device_state self.old) at entry }
        ensures ok { OnOk result (device_state self.new ≡ after_stage (device_state self.old) entry
            (tx_of entry) (lba_of entry) block) }
        ensures off { OnErr result (device_state self.new ≡ device_state self.old) }
        ensures cause { OffCause result (device_faults self.old) (device_faults self.new) }
        ensures chance { device_chance self.new ≡ device_chance self.old }
        ensures counts { device_counts self.new ≡ device_counts self.old }
        ensures happens { OnOk result (Happens (device_state self.old).fuse.limit (device_tickets self.old)
            (device_tickets self.new)) }
        ensures refused { OnErr result (IsRefused (device_state self.old).fuse.limit
            (device_tickets self.old) (device_tickets self.new)) }
    {
        self.power.event()?;
        let command = Command {
            count: at,
            tx: entry.tx(),
            lba: Lba(entry.lba() as u32),
            block,
        };
        add(&mut self.pending, command);
        put_slot(&mut self.staged, (at % RING_DEPTH as u64) as usize, entry);
        self.events = bump(self.events);
        Ok(())
    }

    fn flush(&mut self) -> Result<(), Off>
        ensures ok { OnOk result (device_state self.new ≡ after_flush (device_state self.old)) }
        ensures off { OnErr result (device_state self.new ≡ device_state self.old) }
        ensures cause { OffCause result (device_faults self.old) (device_faults self.new) }
        ensures chance { device_chance self.new ≡ device_chance self.old }
        ensures counts { device_counts self.new ≡ device_counts self.old }
        ensures happens { OnOk result (Happens (device_state self.old).fuse.limit (device_tickets self.old)
            (device_tickets self.new)) }
        ensures refused { OnErr result (IsRefused (device_state self.old).fuse.limit
            (device_tickets self.old) (device_tickets self.new)) }
    {
        let end = self.end();
        self.power.event()?;
        settle(&mut self.flushed, &self.staged, self.flushed_end, end);
        self.flushed_end = end;
        self.head = self.stored_head;
        self.base = self.stored_base;
        self.events = bump(self.events);
        Ok(())
    }

    fn ring(&mut self, tail: u64) -> Result<(), Off>
        requires tail { tail ≡ staged_end (device_state self.old) }
        requires flushed { (device_state self.old).flushed_end ≡ tail }
        ensures ok { OnOk result (device_state self.new ≡ after_ring (device_state self.old)) }
        ensures off { OnErr result (device_state self.new ≡ device_state self.old) }
        ensures cause { OffCause result (device_faults self.old) (device_faults self.new) }
        ensures chance { device_chance self.new ≡ device_chance self.old }
        ensures counts { device_counts self.new ≡ device_counts self.old }
        ensures happens { OnOk result (Happens (device_state self.old).fuse.limit (device_tickets self.old)
            (device_tickets self.new)) }
        ensures refused { OnErr result (IsRefused (device_state self.old).fuse.limit
            (device_tickets self.old) (device_tickets self.new)) }
    {
        self.power.event()?;
        add_all(&mut self.posted, &mut self.pending);
        self.doorbell = tail;
        self.rings = bump(self.rings);
        self.events = bump(self.events);
        Ok(())
    }

    fn step(&mut self) -> Result<Step, Off>
        ensures gives { StepGives (device_state self.old) (device_faults self.old) result
            (device_state self.new) (device_faults self.new) }
        ensures chosen { StepChooses (device_state self.old) (device_faults self.old)
            (device_chance self.old) result (device_state self.new) (device_faults self.new)
            (device_chance self.new) }
        ensures counts { StepCounts (device_state self.old) (device_counts self.old) result
            (device_counts self.new) }
        ensures tickets { StepTickets (device_state self.old).fuse.limit (device_tickets self.old) result
            (device_tickets self.new) }
    {
        if self.posted.is_empty() {
            return Ok(Step::Idle);
        }
        self.power.event()?;
        let at = choose(&mut self.order, self.posted.len());
        let command = take_at(&mut self.posted, at);
        let index = block_index(self.area, self.homes, command.lba);
        let ended = Ended {
            sq_head: (self.doorbell % RING_DEPTH as u64) as u16,
            sq_id: self.id as u16,
            cid: (command.count % RING_DEPTH as u64) as u16,
            phase: phase_after(self.completions),
            status: 0,
        };
        self.completions = bump(self.completions);
        self.events = bump(self.events);
        if self.failing.next() {
            let completion = completion_of(&Ended {
                status: WRITE_FAULT,
                ..ended
            });
            self.blocks.fail(index);
            self.failure = Some(Failure::Queued(command));
            return Ok(Step::Done(completion));
        }
        self.blocks.complete(index, command.block);
        Ok(Step::Done(completion_of(&ended)))
    }

    fn store_head(&mut self, head: u64) -> Result<(), Off>
        requires low { (device_state self.old).head ≤ head }
        requires high { head ≤ (device_state self.old).doorbell }
        requires posted { AreFrom head (device_state self.old).posted }
        requires failed { AreFrom head (device_state self.old).failed }
        ensures ok { OnOk result (device_state self.new ≡ after_store_head (device_state self.old) head) }
        ensures off { OnErr result (device_state self.new ≡ device_state self.old) }
        ensures cause { OffCause result (device_faults self.old) (device_faults self.new) }
        ensures chance { device_chance self.new ≡ device_chance self.old }
        ensures counts { device_counts self.new ≡ device_counts self.old }
        ensures happens { OnOk result (Happens (device_state self.old).fuse.limit (device_tickets self.old)
            (device_tickets self.new)) }
        ensures refused { OnErr result (IsRefused (device_state self.old).fuse.limit
            (device_tickets self.old) (device_tickets self.new)) }
    {
        self.power.event()?;
        self.stored_head = head;
        self.events = bump(self.events);
        Ok(())
    }

    fn store_base(&mut self, base: u64) -> Result<(), Off>
        requires root { IsNone (device_state self.old).queue }
        requires low { (device_state self.old).base ≤ base }
        ensures ok { OnOk result (device_state self.new ≡ after_store_base (device_state self.old) base) }
        ensures off { OnErr result (device_state self.new ≡ device_state self.old) }
        ensures cause { OffCause result (device_faults self.old) (device_faults self.new) }
        ensures chance { device_chance self.new ≡ device_chance self.old }
        ensures counts { device_counts self.new ≡ device_counts self.old }
        ensures happens { OnOk result (Happens (device_state self.old).fuse.limit (device_tickets self.old)
            (device_tickets self.new)) }
        ensures refused { OnErr result (IsRefused (device_state self.old).fuse.limit
            (device_tickets self.old) (device_tickets self.new)) }
    {
        self.power.event()?;
        self.stored_base = base;
        self.events = bump(self.events);
        Ok(())
    }

    fn write_home(&mut self, lba: Lba, block: Block) -> Result<HomeStep, Off>
        requires { IsHome (device_state self.old) lba }
        ensures gives { HomeGives (device_state self.old) (device_faults self.old) lba block result
            (device_state self.new) (device_faults self.new) }
        ensures chosen { HomeChooses (device_state self.old) (device_chance self.old) lba block result
            (device_state self.new) (device_chance self.new) }
        ensures counts { HomeCounts (device_state self.old) (device_counts self.old) result
            (device_counts self.new) }
        ensures tickets { HomeTickets (device_state self.old).fuse.limit (device_tickets self.old) result
            (device_tickets self.new) }
    {
        self.power.event()?;
        let index = block_index(self.area, self.homes, lba);
        self.begins = bump(self.begins);
        self.blocks.begin(index);
        if let Err(off) = self.power.event() {
            self.under_way = Some(HomeWrite { lba, block });
            return Err(off);
        }
        if self.failing.next() {
            self.blocks.fail(index);
            self.failure = Some(Failure::Home(HomeWrite { lba, block }));
            return Ok(HomeStep::Error {
                status: WRITE_FAULT,
            });
        }
        self.blocks.complete(index, block);
        Ok(HomeStep::Done)
    }
}
