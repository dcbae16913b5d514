// What `mqfs loose` makes of the bytes of a file.
ghost use Rattle.std.specs.Prelude.{◌≡◌, ◌<◌, ◌^◌, ℕ, Bool, List, IfErr, IfOk, IfSome};
ghost use Rattle.mq_command_blocks.specs.Left.{KeepsLeft};
ghost use Rattle.mq_image.specs.Drives.{IsDrive};
ghost use Rattle.mq_image.specs.File.{DriveImage as Image};
ghost use Rattle.mq_loose_run.specs.Runs.{IsLeftLoose};
ghost use Rattle.mq_loose_text.specs.Meaning.{IsSetIn, output_of};
ghost use Rattle.mq_loose_text.specs.Text.{IsGoodText, IsLooseText, IsRefused, RefusesText};
ghost use Rattle.mq_loose_text.specs.declared.line.LooseLine.{LooseLine};

use mq_blocks::OutOfMemory;
use mq_image::{DriveImage, write_image};
use mq_loose_run::run_loose_text;
use mq_loose_text::{LooseText, LooseTextRefusal, print_loose, read_loose_text};
use std::alloc::Global;

/// The result of `mqfs loose` for a text.
#[derive(Drop)]
pub struct LooseOutput {
    /// The text that is printed.
    pub text: Vec<u8>,
    /// The file of the image that the cut left, if it is asked for.
    pub file: Option<Vec<u8>>,
}

// The file of an image, where it is wanted.
fn file_of(alloc: Global, image: &DriveImage, wanted: bool) -> Result<Option<Vec<u8>>, OutOfMemory>
    requires { IsDrive image.now }
    ensures { IfOk result (KeepsLeft wanted image.now) }
{
    if !wanted {
        return Ok(None);
    }
    Ok(Some(write_image(alloc, image)?))
}

// Runs a text, and prints what was acknowledged and what stands.
fn run_text(
    alloc: Global,
    text: &LooseText,
    cut: Option<u64>,
    pick: u64,
    wanted: bool,
) -> Result<LooseOutput, OutOfMemory>
    requires good { IsGoodText text.now }
    requires cut { IfSome cut (λ k. k < 2 ^ 63) }
    ensures { IfOk result (λ r. (set : ℕ → Bool)
        × (x : Image)
        × IsSetIn cut text.now set
        × IsLeftLoose cut text.now set x
        × (r.text.items ≡ output_of cut text.now set)
        × KeepsLeft wanted x r.file) }
{
    let run = run_loose_text(alloc, text, cut, pick)?;
    let text = print_loose(alloc, &run.acknowledged, &run.set, &run.live)?;
    let file = file_of(alloc, &run.image, wanted)?;
    Ok(LooseOutput { text, file })
}

/// The result of `mqfs loose` for the bytes of a file, with the file of the image where it is wanted.
pub fn run_bytes(
    alloc: Global,
    bytes: &[u8],
    cut: Option<u64>,
    pick: u64,
    wanted: bool,
) -> Result<LooseOutput, LooseTextRefusal>
    requires { IfSome cut (λ k. k < 2 ^ 63) }
    ensures ok { IfOk result (λ r. (lines : List LooseLine)
        × (set : ℕ → Bool)
        × (x : Image)
        × IsLooseText bytes.now lines
        × IsSetIn cut lines set
        × IsLeftLoose cut lines set x
        × (r.text.items ≡ output_of cut lines set)
        × KeepsLeft wanted x r.file) }
    ensures refused { IfErr result (IsRefused (RefusesText bytes.now)) }
{
    let text = read_loose_text(alloc, bytes)?;
    Ok(run_text(alloc, &text, cut, pick, wanted)?)
}
