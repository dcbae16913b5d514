// A text of the loose order is run on a fresh drive until the end or until the power goes off, and what the cut leaves is
// read.
ghost use Rattle.std.specs.Prelude.{◌≡◌, ◌<◌, ◌+◌, ◌^◌, ℕ, IfOk, IfSome, List, [], None, length, replicate};
ghost use Rattle.mq_blocks.specs.Geometry.{homes_of, queues_of};
ghost use Rattle.mq_blocks.specs.Drive.{FuseName};
ghost use Rattle.mq_drive.specs.Seats.{name_of};
ghost use Rattle.mq_image_ops.specs.Starts.{AreFreshSeats};
ghost use Rattle.mq_ledger.specs.State.{State};
ghost use Rattle.mq_ledger.specs.declared.tx.Tx.{Tx};
ghost use Rattle.mq_loose.specs.Guards.{settled};
ghost use Rattle.mq_loose_queues.specs.Journal.{IsJournal, state_over};
ghost use Rattle.mq_loose_text.specs.Meaning.{after_line, drawn_in, numbers_from};
ghost use Rattle.mq_loose_text.specs.Text.{IsGoodText};
ghost use Rattle.mq_loose_run.specs.Cuts.{AreBlank, IsCutRun, IsOpenedBlank};
ghost use Rattle.mq_loose_run.specs.Lines.{queues_state};
ghost use Rattle.mq_loose_run.specs.Runs.{IsLooseRun, IsRunGeometry};
ghost use Rattle.mq_loose_run.specs.Texts.{IsOver, MayRunAll};

use crate::lines::run_lines;
use crate::marks::marks_after;
use crate::running::{Running, Stop};
use crate::standing::read_left;
use mq_block_trace::NAMED;
use mq_blocks::{BlockNo, Geometry, OutOfMemory, TxNo};
use mq_command_blocks::live_blocks;
use mq_drive::{EmuPort, Fuse, FuseSeat, Ports};
use mq_image::DriveImage;
use mq_image_ops::{CutDrive, blank_drive, cut_ports, drive_power, start_ports};
use mq_loose_queues::{LooseQueues, loose_queues_are_safe};
use mq_loose_recover::LooseStanding;
use mq_loose_text::{LooseLine, LooseText};
use std::alloc::Global;

/// What a run of a text leaves.
#[derive(Drop)]
pub struct LooseRun {
    /// The settled numbers, the least first.
    pub acknowledged: Vec<TxNo>,
    /// The numbers of the image's set, the least first.
    pub set: Vec<TxNo>,
    /// The blocks of the map after the set, each with its byte.
    pub live: Vec<(BlockNo, u8)>,
    /// What the cut left of the drive.
    pub image: DriveImage,
}

/// The geometry of the drive on which texts of the loose order are run: four queues with the smallest journal area,
/// and 256 home blocks.
pub fn run_geometry() -> Geometry
    ensures { IsRunGeometry result }
{
    match Geometry::new(4, 1024, 16, 60) {
        Ok(geometry) => geometry,
        Err(_) => unreachable!(),
    }
}

// What stands on a drive of zeros.
fn blank_standing(alloc: Global, geometry: Geometry) -> Result<LooseStanding, OutOfMemory>
    ensures blocks { IfOk result (λ s. s.blocks.items ≡ replicate (homes_of geometry) None) }
    ensures base { IfOk result (λ s. s.base ≡ 0) }
{
    let mut blocks = Vec::with_capacity(alloc, geometry.homes() as usize)?;
    for block in 0..geometry.homes() {
        let _absent = block;
        blocks.push(None)?;
    }
    Ok(LooseStanding {
        blocks,
        set: Vec::new(alloc),
        base: TxNo(0),
        top: TxNo(0),
    })
}

// Opens the queues of a drive of zeros.
fn open_blank<'f>(
    alloc: Global,
    geometry: Geometry,
    ports: Ports<EmuPort<'f>>,
) -> Result<Running<'f>, OutOfMemory>
    requires geometry { IsRunGeometry geometry }
    requires blank { (fuse : FuseName) × AreBlank fuse geometry ports }
    ensures { (fuse : FuseName) → AreBlank fuse geometry ports.entry → IfOk result (IsOpenedBlank fuse) }
{
    let marks = vec![in alloc; false; NAMED]?;
    let waits = vec![in alloc; false; 4]?;
    let standing = blank_standing(alloc, geometry)?;
    match LooseQueues::open(alloc, geometry, ports, standing) {
        Ok(queues) => Ok(Running {
            queues,
            marks,
            waits,
        }),
        Err((_ports, full)) => Err(full),
    }
}

// How many commits there are with a line, where so many are before it.
fn commits_with(line: &LooseLine, before: u64) -> u64
    requires { before < 2 ^ 63 }
    ensures { (h : List Tx) → before ≡ length h → result ≡ length (after_line line.now h) }
{
    match line {
        LooseLine::Commit(_, _) => before + 1,
        LooseLine::Done(_) => before,
    }
}

// How many commits a text has.
fn commits_in(text: &LooseText) -> u64
    requires { IsGoodText text.now }
    ensures { result ≡ length (drawn_in text.now) }
{
    let mut count = 0;
    for line in &text.0 {
        count = commits_with(line, count);
    }
    count
}

// The settled ones of the first numbers, so many.
fn settled_numbers(
    alloc: Global,
    queues: &LooseQueues<EmuPort<'_>>,
    count: u64,
) -> Result<Vec<TxNo>, OutOfMemory>
    requires { count < 2 ^ 63 }
    ensures { (s : State) (h : List Tx)
        → IsJournal s h (queues_state queues.now)
        → IfOk result (λ v. v.items ≡ numbers_from (settled (state_over s h [] (queues_state queues.now))) 1 count) }
{
    let mut numbers = Vec::new(alloc);
    for before in 0..count {
        let number = TxNo(before + 1);
        let settled = queues.settled(number);
        match settled {
            true => numbers.push(number)?,
            false => {}
        }
    }
    Ok(numbers)
}

// Where a run was stopped by its power, it ends; where memory ran out, it is refused.
fn unless_off(stop: Stop) -> Result<(), OutOfMemory>
    ensures { IfOk result (λ _. stop ≡ Stop.Off) }
{
    match stop {
        Stop::Off => Ok(()),
        Stop::OutOfMemory => Err(OutOfMemory),
    }
}

// Runs the lines until the end or until the power goes off.
fn run_or_stop(
    alloc: Global,
    running: &mut Running<'_>,
    text: &LooseText,
) -> Result<(), OutOfMemory>
    requires { MayRunAll text.now running.old }
    ensures { IfOk result (λ _. IsOver text.now running.old running.new) }
{
    match run_lines(alloc, running, text) {
        Ok(()) => Ok(()),
        Err(stop) => unless_off(stop),
    }
}

// Runs a text on a fresh drive that starts with the power of a fuse, until the power goes off or to the end, and cuts
// the power of all its ports then. The settled numbers are found before.
fn run_until(
    alloc: Global,
    fuse: &Fuse,
    seats: Vec<FuseSeat>,
    geometry: Geometry,
    text: &LooseText,
    pick: u64,
) -> Result<(Vec<TxNo>, CutDrive), OutOfMemory>
    requires geometry { IsRunGeometry geometry }
    requires good { IsGoodText text.now }
    requires seats { AreFreshSeats (name_of fuse.now) (queues_of geometry + 1) seats.items }
    ensures { IfOk result (λ r. IsCutRun geometry text.now (name_of fuse.now) r.0.items r.1.images.items
        r.1.seats.items) }
{
    loose_queues_are_safe();
    let image = blank_drive(alloc, geometry)?;
    let ports = start_ports(alloc, fuse, seats, image, None, pick)?;
    let mut running = open_blank(alloc, geometry, ports)?;
    run_or_stop(alloc, &mut running, text)?;
    let acknowledged = settled_numbers(alloc, &running.queues, commits_in(text))?;
    let left = cut_ports(alloc, running.queues.into_ports(), pick)?;
    Ok((acknowledged, left))
}

/// Runs the lines of a text on a fresh drive of zeros until the end, or until the power goes off after `cut` events,
/// and reads what is left. What the cut leaves of what is uncertain follows from `pick`.
pub fn run_loose_text(
    alloc: Global,
    text: &LooseText,
    cut: Option<u64>,
    pick: u64,
) -> Result<LooseRun, OutOfMemory>
    requires good { IsGoodText text.now }
    requires cut { IfSome cut (λ k. k < 2 ^ 63) }
    ensures { IfOk result (IsLooseRun cut text.now) }
{
    let geometry = run_geometry();
    let (fuse, seats) = drive_power(alloc, geometry, cut)?;
    let (acknowledged, left) = run_until(alloc, &fuse, seats, geometry, text, pick)?;
    let CutDrive { images, seats } = left;
    fuse.close(seats);
    let image = DriveImage {
        geometry,
        ports: images,
    };
    let left = read_left(alloc, image)?;
    let marks = marks_after(alloc, text, &left.set)?;
    let live = live_blocks(alloc, &left.blocks, &marks)?;
    Ok(LooseRun {
        acknowledged,
        set: left.set,
        live,
        image: left.image,
    })
}
