// `ls` and `cat`: the tree that stands on an image, and the bytes of its files.
ghost use Rattle.std.specs.Prelude.{◌≡◌, ℕ, List, IfOk, Err, Ok, Some};
ghost use Rattle.mq_command_images.specs.Commands.{Lists, SaysOfImage, ShowsFile};
ghost use Rattle.mq_command_io.specs.Ending.{EndsWith, IsUnlessFailed, SaysOf};
ghost use Rattle.mq_image.specs.Drives.{IsDrive, IsRead};
ghost use Rattle.mq_image.specs.Faults.{HasFault};
ghost use Rattle.mq_image.specs.File.{DriveImage as Image};
ghost use Rattle.mq_image.specs.declared.fault.FileFault.{FileFault};
ghost use Rattle.mq_image_ops.specs.Standing.{HasNoVolume, StandsFor};
ghost use Rattle.mq_outside.specs.Outside.{Tells};
ghost use Rattle.mq_tree.specs.Trees.{ReadsAs};
ghost use Rattle.mq_tree.specs.Volume.{Volume};
ghost use Rattle.mq_tree.specs.declared.request.Fault.{Fault};

use crate::answer::{Answer, refuse_path, refuse_volume, say_answer};
use crate::loading::load_image;
use mq_blocks::OutOfMemory;
use mq_command_io::DONE;
use mq_image::DriveImage;
use mq_image_ops::{list_volume, read_volume};
use mq_outside::{Files, Sink};
use mq_tree::Path;
use std::alloc::Global;

// What `ls` says of an image.
fn list_image(alloc: Global, image: DriveImage) -> Result<Answer, OutOfMemory>
    requires { IsDrive image }
    ensures { IfOk result (λ a. Lists image a.status a.text.items) }
{
    match list_volume(alloc, image) {
        Ok(text) => Ok(Answer { status: DONE, text }),
        Err(refusal) => refuse_volume(alloc, refusal),
    }
}

/// `ls NAME`: lists the tree that stands on the image that the name holds. Nothing is saved.
pub fn ls<F: Files, K: Sink>(alloc: Global, name: &str, files: &mut F, out: &mut K) -> u8
    ensures ends { (status : ℕ)
        × (text : List ℕ)
        × SaysOf (SaysOfImage Lists) name.now (F.state files.old) (F.state files.new) status text
        × EndsWith status text result (K.state out.old) (K.state out.new) }
    ensures done_where { (bytes : List ℕ) (x : Image) (v : Volume)
        → Tells (F.state files.old).contents name.now (Some bytes)
        → IsRead x bytes
        → StandsFor x v
        → IsUnlessFailed 0 result }
    ensures refused_where { (bytes : List ℕ) (e : FileFault)
        → Tells (F.state files.old).contents name.now (Some bytes)
        → HasFault bytes (Some e)
        → IsUnlessFailed 3 result }
    ensures no_volume_where { (bytes : List ℕ) (x : Image)
        → Tells (F.state files.old).contents name.now (Some bytes)
        → IsRead x bytes
        → HasNoVolume x
        → IsUnlessFailed 3 result }
    ensures contents { (F.state files.new).contents ≡ (F.state files.old).contents }
{
    match load_image(alloc, name, files, out) {
        Ok(image) => say_answer(list_image(alloc, image), out),
        Err(status) => status,
    }
}

// What `cat` says of an image.
fn show_image(alloc: Global, image: DriveImage, path: &Path) -> Result<Answer, OutOfMemory>
    requires { IsDrive image }
    ensures { IfOk result (λ a. ShowsFile path.now image a.status a.text.items) }
{
    let tree = match read_volume(alloc, image) {
        Ok(tree) => tree,
        Err(refusal) => return refuse_volume(alloc, refusal),
    };
    match tree.file(path) {
        Ok(bytes) => Ok(Answer {
            status: DONE,
            text: Vec::from_slice(alloc, bytes)?,
        }),
        Err(fault) => refuse_path(alloc, fault),
    }
}

/// `cat NAME PATH`: prints the bytes of a file of the tree that stands on the image that the name holds.
/// Nothing is saved.
pub fn cat<F: Files, K: Sink>(
    alloc: Global,
    name: &str,
    path: &Path,
    files: &mut F,
    out: &mut K,
) -> u8
    ensures ends { (status : ℕ)
        × (text : List ℕ)
        × SaysOf (SaysOfImage (ShowsFile path.now)) name.now (F.state files.old) (F.state files.new) status text
        × EndsWith status text result (K.state out.old) (K.state out.new) }
    ensures done_where { (bytes : List ℕ) (x : Image) (v : Volume) (content : List ℕ)
        → Tells (F.state files.old).contents name.now (Some bytes)
        → IsRead x bytes
        → StandsFor x v
        → ReadsAs v path.now (Ok content)
        → IsUnlessFailed 0 result }
    ensures no_file_where { (bytes : List ℕ) (x : Image) (v : Volume) (fault : Fault)
        → Tells (F.state files.old).contents name.now (Some bytes)
        → IsRead x bytes
        → StandsFor x v
        → ReadsAs v path.now (Err fault)
        → IsUnlessFailed 3 result }
    ensures refused_where { (bytes : List ℕ) (e : FileFault)
        → Tells (F.state files.old).contents name.now (Some bytes)
        → HasFault bytes (Some e)
        → IsUnlessFailed 3 result }
    ensures no_volume_where { (bytes : List ℕ) (x : Image)
        → Tells (F.state files.old).contents name.now (Some bytes)
        → IsRead x bytes
        → HasNoVolume x
        → IsUnlessFailed 3 result }
    ensures contents { (F.state files.new).contents ≡ (F.state files.old).contents }
{
    match load_image(alloc, name, files, out) {
        Ok(image) => say_answer(show_image(alloc, image, path), out),
        Err(status) => status,
    }
}
