// `dump`: the words and the chains of an image.
ghost use Rattle.std.specs.Prelude.{◌≡◌, ℕ, List, IfOk, Some};
ghost use Rattle.mq_blocks.specs.Descriptor.{Descriptor};
ghost use Rattle.mq_blocks.specs.Journal.{AreWhole};
ghost use Rattle.mq_command_images.specs.Commands.{Dumps, SaysOfImage};
ghost use Rattle.mq_command_io.specs.Ending.{EndsWith, IsUnlessFailed, SaysOf};
ghost use Rattle.mq_image.specs.Drives.{IsDrive, IsRead};
ghost use Rattle.mq_image.specs.Faults.{HasFault};
ghost use Rattle.mq_image.specs.File.{DriveImage as Image};
ghost use Rattle.mq_image.specs.declared.fault.FileFault.{FileFault};
ghost use Rattle.mq_image_ops.specs.Standing.{RefusesDrive};
ghost use Rattle.mq_image_ops.specs.Views.{view_of};
ghost use Rattle.mq_outside.specs.Outside.{Tells};
ghost use Rattle.mq_recover.specs.declared.refusal.ImageFault.{ImageFault};

use crate::answer::{Answer, refuse_drive, say_answer};
use crate::loading::load_image;
use mq_blocks::OutOfMemory;
use mq_command_io::DONE;
use mq_image::DriveImage;
use mq_image_ops::dump_image;
use mq_outside::{Files, Sink};
use std::alloc::Global;

// What `dump` says of an image.
fn dump_drive(alloc: Global, image: DriveImage) -> Result<Answer, OutOfMemory>
    requires { IsDrive image }
    ensures { IfOk result (λ a. Dumps image a.status a.text.items) }
{
    match dump_image(alloc, image) {
        Ok(text) => Ok(Answer { status: DONE, text }),
        Err(fault) => refuse_drive(alloc, fault),
    }
}

/// `dump NAME`: prints the words and the chains of the image that the name holds. Nothing is saved.
pub fn dump<F: Files, K: Sink>(alloc: Global, name: &str, files: &mut F, out: &mut K) -> u8
    ensures ends { (status : ℕ)
        × (text : List ℕ)
        × SaysOf (SaysOfImage Dumps) name.now (F.state files.old) (F.state files.new) status text
        × EndsWith status text result (K.state out.old) (K.state out.new) }
    ensures done_where { (bytes : List ℕ) (x : Image) (chains : ℕ → List Descriptor)
        → Tells (F.state files.old).contents name.now (Some bytes)
        → IsRead x bytes
        → AreWhole x.geometry (view_of x) chains
        → IsUnlessFailed 0 result }
    ensures refused_where { (bytes : List ℕ) (e : FileFault)
        → Tells (F.state files.old).contents name.now (Some bytes)
        → HasFault bytes (Some e)
        → IsUnlessFailed 3 result }
    ensures unreadable_where { (bytes : List ℕ) (x : Image) (e : ImageFault)
        → Tells (F.state files.old).contents name.now (Some bytes)
        → IsRead x bytes
        → RefusesDrive x e
        → IsUnlessFailed 3 result }
    ensures contents { (F.state files.new).contents ≡ (F.state files.old).contents }
{
    match load_image(alloc, name, files, out) {
        Ok(image) => say_answer(dump_drive(alloc, image), out),
        Err(status) => status,
    }
}
