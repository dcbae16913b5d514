// A block text is run: committed on a fresh drive, cut from power, recovered, and printed.
ghost use Rattle.std.specs.Prelude.{◌≡◌, ◌<◌, ◌+◌, ℕ, List, ◌^◌, false, true, Err, IfErr, IfOk, IfSome, OnOk, MatchResult, None};
ghost use Rattle.mq_blocks.specs.Geometry.{homes_of, queues_of};
ghost use Rattle.mq_drive.specs.Seats.{name_of};
ghost use Rattle.mq_command_blocks.specs.Commits.{AllBelow};
ghost use Rattle.mq_block_trace.specs.Fresh.{IsTextGeometry};
ghost use Rattle.mq_block_text.specs.Text.{IsGoodText};
ghost use Rattle.mq_command_blocks.specs.Blocks.{IsBlockText, output_of};
ghost use Rattle.mq_block_trace.specs.Prefixes.{IsPrefixAt};
ghost use Rattle.mq_block_text.specs.declared.refusal.BlockTextCause.{BlockTextCause};
ghost use Rattle.mq_block_text.specs.Refusals.{IsRefusal, IsRefused, RefusesText};
ghost use Rattle.mq_command_blocks.specs.Left.{IsCutText, IsFile, IsLeft, IsPickedText, IsTraceFile, KeepsLeft, KeepsTrace};
ghost use Rattle.mq_command_blocks.specs.Picked.{IsPickedLeft, IsRunBy, pick_of};
ghost use Rattle.mq_cli.specs.Asked.{AreSmall};
ghost use Rattle.mq_image.specs.Drives.{IsDrive};
ghost use Rattle.mq_image.specs.File.{DriveImage as Image, image_bytes};
ghost use Rattle.mq_image_ops.specs.Starts.{AreFreshSeats};

use crate::commit::{TextRefusal, commit_text};
use crate::live::{live_blocks, live_marks};
use crate::restart::stands_after;
use mq_block_text::{BlockItem, BlockText, BlockTextRefusal, print_blocks, read_block_text};
use mq_block_trace::write_trace;
use mq_blocks::{Geometry, OutOfMemory};
use mq_cli::BlocksOptions;
use mq_drive::{Fuse, FuseSeat};
use mq_image::{DriveImage, write_image};
use mq_image_ops::{CutDrive, blank_drive, cut_ports, drive_power, start_ports};
use std::alloc::Global;

/// The geometry of block texts: one queue with the smallest journal area, and 256 home blocks.
pub fn text_geometry() -> Geometry
    ensures { IsTextGeometry result }
{
    match Geometry::new(1, 1024, 16, 240) {
        Ok(geometry) => geometry,
        Err(_) => unreachable!(),
    }
}

// Where no command fails, a text is committed, or cut by its power, or wants memory.
fn check_memory(answer: Result<(), TextRefusal>) -> Result<(), OutOfMemory>
    requires { (status : ℕ) → answer ≡ Err (TextRefusal.Failed status) → ⊥ }
    ensures { OnOk result (answer ≡ Err TextRefusal.OutOfMemory → ⊥) }
{
    match answer {
        Ok(()) => Ok(()),
        Err(TextRefusal::Off) => Ok(()),
        Err(TextRefusal::OutOfMemory) => Err(OutOfMemory),
        Err(TextRefusal::Failed { .. }) => unreachable!(),
    }
}

// Commits a text on a fresh drive that starts with the power of a fuse, until the power goes off or to the
// end, and cuts the power of all its ports then.
fn commit_until(
    alloc: Global,
    fuse: &Fuse,
    seats: Vec<FuseSeat>,
    geometry: Geometry,
    text: &BlockText,
    pick: u64,
) -> Result<CutDrive, OutOfMemory>
    requires geometry { IsTextGeometry geometry }
    requires good { IsGoodText text.now }
    requires below { AllBelow (homes_of geometry) text.now }
    requires cut { IfSome (name_of fuse.now).limit (λ k. k < 2 ^ 63) }
    requires seats { AreFreshSeats (name_of fuse.now) (queues_of geometry + 1) seats.items }
    ensures stands { IfOk result (λ r. IsCutText geometry text.now (name_of fuse.now) r.images.items
        r.seats.items) }
    ensures chosen { IfOk result (λ r. IsPickedText geometry pick (name_of fuse.now) r.images.items
        r.seats.items) }
{
    let image = blank_drive(alloc, geometry)?;
    let ports = start_ports(alloc, fuse, seats, image, None, pick)?;
    let (ports, answer) = commit_text(alloc, geometry, ports, text);
    check_memory(answer)?;
    cut_ports(alloc, ports, pick)
}

/// Commits a text on a fresh drive, and cuts the power after `cut` events of the queue's port, or at
/// the end. Returns the image that the cut leaves.
fn commit_fresh(
    alloc: Global,
    geometry: Geometry,
    text: &BlockText,
    cut: Option<u64>,
    pick: u64,
) -> Result<DriveImage, OutOfMemory>
    requires geometry { IsTextGeometry geometry }
    requires good { IsGoodText text.now }
    requires below { AllBelow (homes_of geometry) text.now }
    requires cut { IfSome cut (λ k. k < 2 ^ 63) }
    ensures stands { IfOk result (λ x. (p : ℕ) × IsPrefixAt text.now cut p × IsLeft text.now cut p x) }
    ensures chosen { IfOk result (IsPickedLeft cut pick) }
{
    let (fuse, seats) = drive_power(alloc, geometry, cut)?;
    let left = commit_until(alloc, &fuse, seats, geometry, text, pick)?;
    let CutDrive { images, seats } = left;
    fuse.close(seats);
    Ok(DriveImage {
        geometry,
        ports: images,
    })
}

/// The result of `mqfs blocks` for a text.
#[derive(Drop)]
pub struct TextRun {
    /// The text that is printed.
    pub output: Vec<u8>,
    /// The file of the image that the cut left, if it is asked for.
    pub left: Option<Vec<u8>>,
    /// The trace of the events up to the cut, if it is asked for.
    pub traced: Option<Vec<u8>>,
}

/// Which files are asked for beside the text.
#[derive(Clone, Copy)]
pub struct Wanted {
    pub left: bool,
    pub traced: bool,
}

// The file of an image, where it is wanted.
fn left_of(alloc: Global, image: &DriveImage, wanted: bool) -> Result<Option<Vec<u8>>, OutOfMemory>
    requires { IsDrive image.now }
    ensures none { wanted ≡ false → IfOk result (λ r. r ≡ None) }
    ensures some { wanted ≡ true → IfOk result (λ r. IsFile (image_bytes image.now) r) }
{
    if !wanted {
        return Ok(None);
    }
    Ok(Some(write_image(alloc, image)?))
}

// The trace of a text, where it is wanted.
fn trace_of(
    alloc: Global,
    geometry: Geometry,
    text: &BlockText,
    cut: Option<u64>,
    wanted: bool,
) -> Result<Option<Vec<u8>>, OutOfMemory>
    requires geometry { IsTextGeometry geometry }
    requires good { IsGoodText text.now }
    ensures none { wanted ≡ false → IfOk result (λ r. r ≡ None) }
    ensures some { wanted ≡ true → IfOk result (λ r. IsTraceFile text.now cut r) }
{
    if !wanted {
        return Ok(None);
    }
    Ok(Some(write_trace(alloc, geometry, text, cut)?))
}

/// Commits a text on a fresh drive, cuts the power after `cut` events or at the end, recovers, and
/// prints what stands. A first recovery is itself cut after `again` events, if that is given. What
/// the cuts leave of what is uncertain follows from `pick`. The image that the cut left is kept as a
/// file, and so is the trace, each if it is asked for.
fn run_text(
    alloc: Global,
    text: &BlockText,
    cut: Option<u64>,
    pick: u64,
    again: Option<u64>,
    wanted: Wanted,
) -> Result<TextRun, OutOfMemory>
    requires good { IsGoodText text.now }
    requires cut { IfSome cut (λ k. k < 2 ^ 63) }
    requires again { IfSome again (λ k. k < 2 ^ 63) }
    ensures { IfOk result (λ r. (p : ℕ)
        × (x : Image)
        × IsPrefixAt text.now cut p
        × (r.output.items ≡ output_of text.now p)
        × IsRunBy text.now cut again pick p x
        × KeepsLeft wanted.left x r.left
        × KeepsTrace wanted.traced text.now cut r.traced) }
{
    let geometry = text_geometry();
    let image = commit_fresh(alloc, geometry, text, cut, pick)?;
    let left = left_of(alloc, &image, wanted.left)?;
    let traced = trace_of(alloc, geometry, text, cut, wanted.traced)?;
    let standing = stands_after(alloc, image, again, pick)?;
    let marks = live_marks(alloc, text, standing.prefix)?;
    let live = live_blocks(alloc, &standing.blocks, &marks)?;
    let output = print_blocks(alloc, standing.prefix, &live)?;
    Ok(TextRun {
        output,
        left,
        traced,
    })
}

/// The result of `mqfs blocks` for the bytes of a block text, with the files that are asked for.
pub fn run_bytes(
    alloc: Global,
    bytes: &[u8],
    options: BlocksOptions,
    wanted: Wanted,
) -> Result<TextRun, BlockTextRefusal>
    requires small { AreSmall options }
    ensures ok { IfOk result (λ r. (lines : List (List BlockItem))
        × (p : ℕ)
        × (x : Image)
        × IsBlockText bytes.now lines
        × IsPrefixAt lines options.cut p
        × (r.output.items ≡ output_of lines p)
        × IsRunBy lines options.cut options.again (pick_of options) p x
        × KeepsLeft wanted.left x r.left
        × KeepsTrace wanted.traced lines options.cut r.traced) }
    ensures refused { IfErr result (IsRefused (RefusesText bytes.now)) }
    ensures exact { (line : ℕ) (cause : BlockTextCause)
        → RefusesText bytes.now line cause
        → IsRefusal result line cause }
    ensures only { (lines : List (List BlockItem))
        → IsBlockText bytes.now lines
        → MatchResult result (λ _. Unit {0}) (λ e. e ≡ BlockTextRefusal.OutOfMemory) }
{
    let text = read_block_text(alloc, bytes)?;
    let pick = options.pick.unwrap_or(0);
    Ok(run_text(alloc, &text, options.cut, pick, options.again, wanted)?)
}
