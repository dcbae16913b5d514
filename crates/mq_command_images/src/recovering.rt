// `recover`: recovers an image, and saves it.
ghost use Rattle.std.specs.Prelude.{◌≡◌, ◌≢◌, ◌≤◌, ◌^◌, ◌++◌, ℕ, List, IfErr, IfOk, Some};
ghost use Rattle.std.specs.Option.{ForSome};
ghost use Rattle.mq_blocks.specs.Descriptor.{Descriptor};
ghost use Rattle.mq_command_images.specs.Commands.{SaysOfImage};
ghost use Rattle.mq_command_images.specs.Lines.{number_line};
ghost use Rattle.mq_command_images.specs.Recovers.{IsRecoveredAs, IsRecoveryFile, Recovers, RefusesRecovery, cut_line, recovered_text};
ghost use Rattle.mq_command_io.specs.Ending.{EndsWith, IsUnlessFailed};
ghost use Rattle.mq_image.specs.Drives.{IsDrive, IsRead};
ghost use Rattle.mq_image.specs.Faults.{HasFault};
ghost use Rattle.mq_image.specs.File.{DriveImage as Image};
ghost use Rattle.mq_image.specs.declared.fault.FileFault.{FileFault as FaultOfFile};
ghost use Rattle.mq_image_ops.specs.Standing.{Reads, RefusesDrive};
ghost use Rattle.mq_outside.specs.Outside.{Tells};
ghost use Rattle.mq_recover.specs.declared.refusal.ImageFault.{ImageFault};

use crate::answer::{Answer, refuse_drive, refuse_file, save_and_say, say_answer};
use mq_blocks::OutOfMemory;
use mq_command_io::load_or_say;
use mq_image::{DriveImage, read_image, write_image_over, written_images_are_read};
use mq_image_laws::a_recovery_leaves_the_rest;
use mq_image_ops::{RecoveredImage, recover_image};
use mq_outside::{Files, Sink};
use std::alloc::Global;

// The file of what a recovery left, and what is said of it.
#[derive(Drop)]
struct Recovery {
    file: Vec<u8>,
    text: Vec<u8>,
}

// Appends a line of a word and a number.
fn put_line(alloc: Global, text: &mut Vec<u8>, word: &str, number: u64) -> Result<(), OutOfMemory>
    ensures { IfOk result (λ _. text.new.items ≡ text.old.items ++ number_line word.now number) }
{
    let line = format!(in alloc; "{word}{number}\n")?;
    text.extend_from_slice(line.as_bytes())?;
    Ok(())
}

// Appends after how many events the recovery was cut, where it was.
fn put_cut(alloc: Global, text: &mut Vec<u8>, cut: Option<u64>) -> Result<(), OutOfMemory>
    ensures { IfOk result (λ _. text.new.items ≡ text.old.items ++ cut_line cut) }
{
    match cut {
        Some(events) => put_line(alloc, text, "cut ", events),
        None => Ok(()),
    }
}

// What is said of a recovery.
fn text_of(alloc: Global, recovered: &RecoveredImage) -> Result<Vec<u8>, OutOfMemory>
    ensures { IfOk result (λ v. v.items ≡ recovered_text recovered.now) }
{
    let mut text = Vec::new(alloc);
    put_line(alloc, &mut text, "prefix ", recovered.found.prefix)?;
    put_line(alloc, &mut text, "base ", recovered.found.base.0)?;
    put_cut(alloc, &mut text, recovered.cut)?;
    Ok(text)
}

// The file of what a recovery left, in the memory of these bytes, and what is said of it.
fn recovery_of(
    alloc: Global,
    bytes: Vec<u8>,
    recovered: &RecoveredImage,
) -> Result<Recovery, OutOfMemory>
    requires { IsDrive recovered.now.image }
    ensures { IfOk result (λ v. IsRecoveryFile recovered.now v.file.items v.text.items) }
{
    let file = write_image_over(bytes, &recovered.image)?;
    let text = text_of(alloc, recovered)?;
    Ok(Recovery { file, text })
}

// Recovers an image, or says why it is not readable. The file of what that leaves takes the memory of these
// bytes.
fn recover_drive(
    alloc: Global,
    bytes: Vec<u8>,
    image: DriveImage,
    cut: Option<u64>,
    pick: u64,
) -> Result<Recovery, Result<Answer, OutOfMemory>>
    requires image { IsDrive image }
    requires cut { ForSome cut (λ k. k ≤ 2 ^ 63) }
    ensures ok { IfOk result (λ v. IsRecoveredAs image cut pick v.file.items v.text.items) }
    ensures refused { IfErr result (λ answer. IfOk answer (λ a. RefusesRecovery image a.status a.text.items)) }
{
    a_recovery_leaves_the_rest();
    let recovered = match recover_image(alloc, image, cut, pick) {
        Ok(recovered) => recovered,
        Err(fault) => return Err(refuse_drive(alloc, fault)),
    };
    match recovery_of(alloc, bytes, &recovered) {
        Ok(recovery) => Ok(recovery),
        Err(OutOfMemory) => Err(Err(OutOfMemory)),
    }
}

// Recovers the image whose file these bytes are, or says why they are none, or why it is not readable.
fn recover_bytes(
    alloc: Global,
    bytes: Vec<u8>,
    cut: Option<u64>,
    pick: u64,
) -> Result<Recovery, Result<Answer, OutOfMemory>>
    requires cut { ForSome cut (λ k. k ≤ 2 ^ 63) }
    ensures ok { IfOk result (λ v. (x : Image)
        × IsRead x bytes.items
        × IsRecoveredAs x cut pick v.file.items v.text.items) }
    ensures refused { IfErr result (λ answer. IfOk answer (λ a. SaysOfImage RefusesRecovery bytes.items a.status
        a.text.items)) }
{
    written_images_are_read();
    match read_image(alloc, &bytes) {
        Ok(image) => recover_drive(alloc, bytes, image, cut, pick),
        Err(fault) => Err(refuse_file(alloc, fault)),
    }
}

// Recovers the image that the name holds, saves what that left, and says what it found.
fn recover_or_say<F: Files, K: Sink>(
    alloc: Global,
    name: &str,
    cut: Option<u64>,
    pick: u64,
    files: &mut F,
    out: &mut K,
) -> u8
    requires { ForSome cut (λ k. k ≤ 2 ^ 63) }
    ensures { (status : ℕ)
        × (text : List ℕ)
        × Recovers cut pick name.now (F.state files.old) (F.state files.new) status text
        × EndsWith status text result (K.state out.old) (K.state out.new) }
{
    let bytes = match load_or_say(alloc, name, files, out) {
        Ok(bytes) => bytes,
        Err(status) => return status,
    };
    match recover_bytes(alloc, bytes, cut, pick) {
        Ok(recovery) => save_and_say(name, &recovery.file, &recovery.text, files, out),
        Err(answer) => say_answer(answer, out),
    }
}

/// `recover NAME [--cut K] [--pick S]`: recovers the image that the name holds, and saves what the recovery
/// left, even if that is the same. The power of the drive goes off after `cut` events, if one is given, and
/// what the cut leaves of what is uncertain then follows from `pick`. Before the image is saved, only the
/// line of a refusal is printed.
pub fn recover<F: Files, K: Sink>(
    alloc: Global,
    name: &str,
    cut: Option<u64>,
    pick: u64,
    files: &mut F,
    out: &mut K,
) -> u8
    requires { ForSome cut (λ k. k ≤ 2 ^ 63) }
    ensures ends { (status : ℕ)
        × (text : List ℕ)
        × Recovers cut pick name.now (F.state files.old) (F.state files.new) status text
        × EndsWith status text result (K.state out.old) (K.state out.new) }
    ensures done_where { (bytes : List ℕ) (x : Image) (ds : List Descriptor) (top : ℕ)
        → Tells (F.state files.old).contents name.now (Some bytes)
        → IsRead x bytes
        → Reads x ds top
        → IsUnlessFailed 0 result }
    ensures refused_where { (bytes : List ℕ) (e : FaultOfFile)
        → Tells (F.state files.old).contents name.now (Some bytes)
        → HasFault bytes (Some e)
        → IsUnlessFailed 3 result }
    ensures unreadable_where { (bytes : List ℕ) (x : Image) (e : ImageFault)
        → Tells (F.state files.old).contents name.now (Some bytes)
        → IsRead x bytes
        → RefusesDrive x e
        → IsUnlessFailed 3 result }
{
    recover_or_say(alloc, name, cut, pick, files, out)
}
