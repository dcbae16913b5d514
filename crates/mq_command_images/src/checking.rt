// `check`: the verdict on the file system that stands on an image.
ghost use Rattle.std.specs.Prelude.{◌≡◌, ℕ, List, IfOk, Some};
ghost use Rattle.mq_blocks.specs.Descriptor.{Descriptor};
ghost use Rattle.mq_check.specs.Verdicts.{Judges};
ghost use Rattle.mq_check.specs.declared.verdict.Verdict.{Verdict};
ghost use Rattle.mq_command_images.specs.Checks.{Checks, verdict_line};
ghost use Rattle.mq_command_images.specs.Commands.{SaysOfImage};
ghost use Rattle.mq_command_io.specs.Ending.{EndsWith, IsUnlessFailed, SaysOf};
ghost use Rattle.mq_image.specs.Drives.{IsDrive, IsRead};
ghost use Rattle.mq_image.specs.Faults.{HasFault};
ghost use Rattle.mq_image.specs.File.{DriveImage as Image};
ghost use Rattle.mq_image.specs.declared.fault.FileFault.{FileFault};
ghost use Rattle.mq_image_ops.specs.Standing.{Reads, RefusesDrive};
ghost use Rattle.mq_outside.specs.Outside.{Tells};
ghost use Rattle.mq_recover.specs.declared.refusal.ImageFault.{ImageFault};

use crate::answer::{Answer, refuse_drive, say_answer};
use crate::check_line::line_of_verdict;
use crate::loading::load_image;
use crate::standing::standing_blocks;
use mq_blocks::{Block, Geometry, OutOfMemory};
use mq_command_io::DONE;
use mq_image::DriveImage;
use mq_outside::{Files, Sink};
use std::alloc::Global;

// What `check` says of the home blocks that stand.
fn judge(alloc: Global, geometry: Geometry, blocks: &[Option<Block>]) -> Result<Answer, OutOfMemory>
    ensures { IfOk result (λ a. (verdict : Verdict)
        × Judges geometry blocks.now verdict
        × (a.status ≡ 0)
        × (a.text.items ≡ verdict_line verdict)) }
{
    let verdict = mq_check::check(alloc, geometry, blocks)?;
    Ok(Answer {
        status: DONE,
        text: line_of_verdict(alloc, verdict)?.into_bytes(),
    })
}

// What `check` says of an image.
fn check_image(alloc: Global, image: DriveImage) -> Result<Answer, OutOfMemory>
    requires { IsDrive image }
    ensures { IfOk result (λ a. Checks image a.status a.text.items) }
{
    let geometry = image.geometry;
    match standing_blocks(alloc, image) {
        Ok(blocks) => judge(alloc, geometry, &blocks),
        Err(fault) => refuse_drive(alloc, fault),
    }
}

/// `check NAME`: prints the verdict on the file system that stands on the image that the name holds, which is
/// not mounted. Nothing is saved.
pub fn check<F: Files, K: Sink>(alloc: Global, name: &str, files: &mut F, out: &mut K) -> u8
    ensures ends { (status : ℕ)
        × (text : List ℕ)
        × SaysOf (SaysOfImage Checks) name.now (F.state files.old) (F.state files.new) status text
        × EndsWith status text result (K.state out.old) (K.state out.new) }
    ensures done_where { (bytes : List ℕ) (x : Image) (ds : List Descriptor) (top : ℕ)
        → Tells (F.state files.old).contents name.now (Some bytes)
        → IsRead x bytes
        → Reads x ds top
        → IsUnlessFailed 0 result }
    ensures refused_where { (bytes : List ℕ) (e : FileFault)
        → Tells (F.state files.old).contents name.now (Some bytes)
        → HasFault bytes (Some e)
        → IsUnlessFailed 3 result }
    ensures unreadable_where { (bytes : List ℕ) (x : Image) (e : ImageFault)
        → Tells (F.state files.old).contents name.now (Some bytes)
        → IsRead x bytes
        → RefusesDrive x e
        → IsUnlessFailed 3 result }
    ensures contents { (F.state files.new).contents ≡ (F.state files.old).contents }
{
    match load_image(alloc, name, files, out) {
        Ok(image) => say_answer(check_image(alloc, image), out),
        Err(status) => status,
    }
}
