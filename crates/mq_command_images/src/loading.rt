// The image that a name holds.
ghost use Rattle.std.specs.Prelude.{◌≡◌, ℕ, List, IfErr, IfOk};
ghost use Rattle.mq_command_images.specs.Commands.{RefusesName};
ghost use Rattle.mq_command_io.specs.Ending.{EndsWith, IsLoaded};
ghost use Rattle.mq_image.specs.Drives.{IsRead};
ghost use Rattle.mq_image.specs.Faults.{FindsFirst};

use crate::answer::{refuse_file, say_answer};
use mq_command_io::load_or_say;
use mq_image::{DriveImage, FileFault, read_image, written_images_are_read};
use mq_outside::{Files, Sink};
use std::alloc::Global;

// The image of the bytes of a file. They are freed before anything is made of the image.
fn read_loaded(alloc: Global, bytes: Vec<u8>) -> Result<DriveImage, FileFault>
    ensures sound { IfOk result (λ x. IsRead x bytes.items) }
    ensures finds { FindsFirst bytes.items result }
{
    read_image(alloc, &bytes)
}

/// The image that a name holds; where there is none, why is said, and the status answered.
pub fn load_image<F: Files, K: Sink>(
    alloc: Global,
    name: &str,
    files: &mut F,
    out: &mut K,
) -> Result<DriveImage, u8>
    ensures ok { IfOk result (λ x. (bytes : List ℕ)
        × IsLoaded name.now bytes (F.state files.old) (F.state files.new)
        × IsRead x bytes) }
    ensures silent { IfOk result (λ _. K.state out.new ≡ K.state out.old) }
    ensures refused { IfErr result (λ s. (status : ℕ)
        × (text : List ℕ)
        × RefusesName name.now (F.state files.old) (F.state files.new) status text
        × EndsWith status text s (K.state out.old) (K.state out.new)) }
{
    written_images_are_read();
    let bytes = match load_or_say(alloc, name, files, out) {
        Ok(bytes) => bytes,
        Err(status) => return Err(status),
    };
    match read_loaded(alloc, bytes) {
        Ok(image) => Ok(image),
        Err(fault) => Err(say_answer(refuse_file(alloc, fault), out)),
    }
}
