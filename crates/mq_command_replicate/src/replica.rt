// A replica on a fresh drive in memory, to which the lines of a block text are fed.
ghost use Rattle.std.specs.Prelude.{◌≡◌, ◌+◌, ℕ, List, false, true, IfErr, IfOk, MatchResult, None, length};
ghost use Rattle.mq_block_text.specs.Refusals.{IsRefusal, IsRefused, RefusesText};
ghost use Rattle.mq_block_text.specs.Text.{IsGoodText};
ghost use Rattle.mq_block_text.specs.declared.refusal.BlockTextCause.{BlockTextCause};
ghost use Rattle.mq_blocks.specs.Descriptor.{Descriptor};
ghost use Rattle.mq_blocks.specs.Geometry.{queues_of};
ghost use Rattle.mq_blocks.specs.Journal.{Reaches};
ghost use Rattle.mq_command_blocks.specs.Blocks.{IsBlockText};
ghost use Rattle.mq_command_blocks.specs.Left.{IsFile, KeepsLeft};
ghost use Rattle.mq_drive.specs.Emu.{emu_faults, emu_state};
ghost use Rattle.mq_drive.specs.Seats.{name_of};
ghost use Rattle.mq_image.specs.Drives.{IsDrive};
ghost use Rattle.mq_image.specs.File.{DriveImage as Image, image_bytes};
ghost use Rattle.mq_image_ops.specs.Standing.{IsStandingOf};
ghost use Rattle.mq_image_ops.specs.Starts.{AreFreshSeats};
ghost use Rattle.mq_image_ops.specs.Views.{view_of};
ghost use Rattle.mq_recover.specs.Drives.{drive_of};
ghost use Rattle.mq_recover.specs.Images.{IsReadableImage};
ghost use Rattle.mq_replica.specs.Offers.{IsOpenedOn, MayOpen};
ghost use Rattle.mq_replica.specs.Replicas.{replica_state};
ghost use Rattle.mq_replica.specs.Views.{below, faults_below};
ghost use Rattle.mq_command_replicate.specs.Lasting.{IsLasting};
ghost use Rattle.mq_command_replicate.specs.Replicas.{IsLeftReplica, IsReplicaOf, output_of};
ghost use Rattle.mq_command_replicate.specs.Updates.{IsReplicaGeometry};

use crate::feeding::feed_lines;
use crate::lines::print_replica;
use mq_block_text::{BlockItem, BlockText, BlockTextRefusal, read_block_text};
use mq_blocks::{Block, Geometry, OutOfMemory, TxNo};
use mq_command_blocks::{live_blocks, live_marks, only_memory};
use mq_drive::{EmuPort, Fuse, FuseSeat, Ports};
use mq_image::{DriveImage, write_image};
use mq_image_ops::{
    CutDrive, blank_drive, cut_ports, drive_power, recover_image, start_ports, take_homes,
};
use mq_recover::{ImageFault, RecoverRefusal};
use mq_replica::{Replica, a_number_is_read_again};
use std::alloc::Global;

/// The geometry of replicas of block texts: that of block texts with one home block more.
pub fn replica_geometry() -> Geometry
    ensures { IsReplicaGeometry result }
{
    match Geometry::new(1, 1024, 16, 241) {
        Ok(geometry) => geometry,
        Err(_) => unreachable!(),
    }
}

// Where the power never ends and no command fails, an opening on a readable image is refused for memory
// alone.
fn only_memory_to_open(refusal: RecoverRefusal) -> OutOfMemory
    requires { refusal ≡ RecoverRefusal.Image ImageFault.OutOfMemory }
{
    match refusal {
        RecoverRefusal::Image(fault) => only_memory(fault),
        RecoverRefusal::Off => unreachable!(),
        RecoverRefusal::Failed { .. } => unreachable!(),
    }
}

// Opens a replica on the drive of zeros.
fn open_blank<'f>(
    alloc: Global,
    geometry: Geometry,
    ports: Ports<EmuPort<'f>>,
) -> Result<Replica<EmuPort<'f>>, OutOfMemory>
    requires may { MayOpen geometry (drive_of emu_state ports) }
    requires readable { IsReadableImage geometry (drive_of emu_state ports) }
    requires lasting { IsLasting geometry (drive_of emu_state ports) }
    ensures { IfOk result (λ r. IsOpenedOn geometry (drive_of emu_state ports.entry)
        (replica_state (below emu_state) (faults_below emu_faults) r)) }
{
    match Replica::open(alloc, geometry, ports) {
        Ok(replica) => Ok(replica),
        Err((_back, refusal)) => Err(only_memory_to_open(refusal)),
    }
}

// Feeds a text to a replica on a fresh drive with the power of a fuse that has no limit, and cuts the power
// at the end.
fn follow_until(
    alloc: Global,
    fuse: &Fuse,
    seats: Vec<FuseSeat>,
    geometry: Geometry,
    text: &BlockText,
    seed: u64,
) -> Result<(TxNo, CutDrive), OutOfMemory>
    requires geometry { IsReplicaGeometry geometry }
    requires good { IsGoodText text.now }
    requires seats { AreFreshSeats (name_of fuse.now) (queues_of geometry + 1) seats.items }
    requires power { (name_of fuse.now).limit ≡ None }
    ensures reached { IfOk result (λ r. r.0 ≡ length text.now) }
    ensures left { IfOk result (λ r. IsLeftReplica text.now
        record { geometry = geometry; ports = r.1.images.items }) }
{
    a_number_is_read_again();
    let image = blank_drive(alloc, geometry)?;
    let ports = start_ports(alloc, fuse, seats, image, None, 0)?;
    let mut replica = open_blank(alloc, geometry, ports)?;
    feed_lines(alloc, &mut replica, text, seed)?;
    let reached = replica.reached();
    let left = cut_ports(alloc, replica.into_ports(), 0)?;
    Ok((reached, left))
}

// Feeds a text to a replica on a fresh drive. Returns the number that it reached, and the image that a cut
// of the power leaves at the end.
fn follow(
    alloc: Global,
    geometry: Geometry,
    text: &BlockText,
    seed: u64,
) -> Result<(TxNo, DriveImage), OutOfMemory>
    requires geometry { IsReplicaGeometry geometry }
    requires good { IsGoodText text.now }
    ensures reached { IfOk result (λ r. r.0 ≡ length text.now) }
    ensures left { IfOk result (λ r. IsLeftReplica text.now r.1) }
{
    let (fuse, seats) = drive_power(alloc, geometry, None)?;
    let (reached, left) = follow_until(alloc, &fuse, seats, geometry, text, seed)?;
    let image = DriveImage {
        geometry,
        ports: left.images,
    };
    Ok((reached, image))
}

/// The result of `mqfs replicate` for a text.
#[derive(Drop)]
pub struct ReplicaRun {
    /// The text that is printed.
    pub output: Vec<u8>,
    /// The file of the replica's image, if it is asked for.
    pub file: Option<Vec<u8>>,
}

// The file of an image, where it is wanted.
fn file_of(alloc: Global, image: &DriveImage, wanted: bool) -> Result<Option<Vec<u8>>, OutOfMemory>
    requires { IsDrive image.now }
    ensures { IfOk result (KeepsLeft wanted image.now) }
{
    if !wanted {
        return Ok(None);
    }
    Ok(Some(write_image(alloc, image)?))
}

// The home blocks that stand on an image that is readable.
fn standing_blocks(alloc: Global, image: DriveImage) -> Result<Vec<Option<Block>>, OutOfMemory>
    requires drive { IsDrive image }
    requires readable { ∥ ((ds : List Descriptor) × Reaches image.geometry (view_of image) ds) ∥₁ }
    ensures { IfOk result (λ v. IsStandingOf image v.items) }
{
    match recover_image(alloc, image, None, 0) {
        Ok(recovered) => take_homes(recovered.image),
        Err(fault) => Err(only_memory(fault)),
    }
}

// Feeds a text to a replica, recovers its image, and prints what stands.
fn run_text(
    alloc: Global,
    text: &BlockText,
    seed: u64,
    wanted: bool,
) -> Result<ReplicaRun, OutOfMemory>
    requires { IsGoodText text.now }
    ensures { IfOk result (λ r. (x : Image)
        × IsReplicaOf text.now x
        × (r.output.items ≡ output_of text.now)
        × KeepsLeft wanted x r.file) }
{
    let geometry = replica_geometry();
    let (reached, image) = follow(alloc, geometry, text, seed)?;
    let file = file_of(alloc, &image, wanted)?;
    let homes = standing_blocks(alloc, image)?;
    let marks = live_marks(alloc, text, reached.0)?;
    let live = live_blocks(alloc, &homes, &marks)?;
    let output = print_replica(alloc, reached, &live)?;
    Ok(ReplicaRun { output, file })
}

/// The result of `mqfs replicate` for the bytes of a block text, with the file of the image where it is
/// wanted.
pub fn run_bytes(
    alloc: Global,
    bytes: &[u8],
    seed: u64,
    wanted: bool,
) -> Result<ReplicaRun, BlockTextRefusal>
    ensures ok { IfOk result (λ r. (lines : List (List BlockItem))
        × (x : Image)
        × IsBlockText bytes.now lines
        × IsReplicaOf lines x
        × (r.output.items ≡ output_of lines)
        × KeepsLeft wanted x r.file) }
    ensures refused { IfErr result (IsRefused (RefusesText bytes.now)) }
{
    let text = read_block_text(alloc, bytes)?;
    Ok(run_text(alloc, &text, seed, wanted)?)
}
