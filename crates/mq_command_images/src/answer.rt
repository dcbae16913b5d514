// What a command has to say, and how it is said.
ghost use Rattle.std.specs.Prelude.{◌≡◌, ◌≢◌, ℕ, List, Err, IfOk, MatchResult};
ghost use Rattle.mq_command_images.specs.Commands.{SavesAs};
ghost use Rattle.mq_command_images.specs.Lines.{drive_line, file_line, path_line, volume_line};
ghost use Rattle.std.specs.String.{string_bytes};
ghost use Rattle.mq_command_io.specs.Ending.{EndsWith, memory_line};

use crate::lines::{line_of_drive, line_of_file, line_of_path, line_of_volume};
use mq_blocks::OutOfMemory;
use mq_command_io::{DONE, IMAGE, save_or_say, say, say_memory};
use mq_image::FileFault;
use mq_image_ops::StandingRefusal;
use mq_outside::{Files, Sink};
use mq_recover::ImageFault;
use mq_tree::Fault;
use std::alloc::Global;

/// The text that a command prints, and the status with which it ends.
#[derive(Drop)]
pub struct Answer {
    pub status: u8,
    pub text: Vec<u8>,
}

// The line of a refusal of an image.
fn refused(line: String) -> Answer
    ensures { (result.status ≡ 3) × (result.text.items ≡ string_bytes line) }
{
    Answer {
        status: IMAGE,
        text: line.into_bytes(),
    }
}

/// The answer to bytes that are not an image file.
pub fn refuse_file(alloc: Global, fault: FileFault) -> Result<Answer, OutOfMemory>
    ensures { IfOk result (λ a. (a.status ≡ 3)
        × (a.text.items ≡ file_line fault)
        × (fault ≢ FileFault.OutOfMemory)) }
{
    if let FileFault::OutOfMemory = fault {
        return Err(OutOfMemory);
    }
    Ok(refused(line_of_file(alloc, fault)?))
}

/// The answer to an image that is not readable.
pub fn refuse_drive(alloc: Global, fault: ImageFault) -> Result<Answer, OutOfMemory>
    ensures { IfOk result (λ a. (a.status ≡ 3)
        × (a.text.items ≡ drive_line fault)
        × (fault ≢ ImageFault.OutOfMemory)) }
{
    if let ImageFault::OutOfMemory = fault {
        return Err(OutOfMemory);
    }
    Ok(refused(line_of_drive(alloc, fault)?))
}

/// The answer to an image on which no volume stands.
pub fn refuse_volume(alloc: Global, refusal: StandingRefusal) -> Result<Answer, OutOfMemory>
    ensures { IfOk result (λ a. (a.status ≡ 3)
        × (a.text.items ≡ volume_line refusal)
        × (refusal ≢ StandingRefusal.OutOfMemory)) }
{
    if let StandingRefusal::OutOfMemory = refusal {
        return Err(OutOfMemory);
    }
    Ok(refused(line_of_volume(alloc, refusal)?))
}

/// The answer to a path that names no file.
pub fn refuse_path(alloc: Global, fault: Fault) -> Result<Answer, OutOfMemory>
    ensures { IfOk result (λ a. (a.status ≡ 3) × (a.text.items ≡ path_line fault)) }
{
    Ok(refused(line_of_path(alloc, fault)?))
}

/// Prints an answer, or that memory ran out.
pub fn say_answer<K: Sink>(answer: Result<Answer, OutOfMemory>, out: &mut K) -> u8
    ensures { MatchResult answer (λ a. EndsWith a.status a.text.items result (K.state out.old) (K.state out.new))
        (λ _. EndsWith 6 memory_line result (K.state out.old) (K.state out.new)) }
{
    match answer {
        Ok(Answer { status, text }) => say(status, &text, out),
        Err(OutOfMemory) => say_memory(out),
    }
}

/// Saves a file, and then prints a text, or the reason why the file was not saved.
pub fn save_and_say<F: Files, K: Sink>(
    name: &str,
    file: &[u8],
    text: &[u8],
    files: &mut F,
    out: &mut K,
) -> u8
    ensures { (status : ℕ)
        × (said : List ℕ)
        × SavesAs name.now file.now text.now (F.state files.old) (F.state files.new) status said
        × EndsWith status said result (K.state out.old) (K.state out.new) }
{
    match save_or_say(name, file, files, out) {
        Ok(()) => say(DONE, text, out),
        Err(status) => status,
    }
}
