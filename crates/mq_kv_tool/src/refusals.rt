// The answers to files and images that are refused.
ghost use Rattle.std.specs.Prelude.{◌≡◌, ◌≢◌, ℕ, IfOk};
ghost use Rattle.mq_kv_text.specs.Reports.{misread_text};
ghost use Rattle.mq_kv_tool.specs.Applies.{refusal_line};

use mq_blocks::{BlockNo, OutOfMemory};
use mq_command_images::{Answer, refuse_drive};
use mq_command_io::{IMAGE, REFUSED};
use mq_kv_run::KvRunRefusal;
use mq_kv_text::{KvTextRefusal, print_bucket, print_misread};
use std::alloc::Global;

/// The answer to a file of which a line is not in the form.
pub fn refuse_file(alloc: Global, refusal: KvTextRefusal) -> Result<Answer, OutOfMemory>
    ensures { IfOk result (λ a. (line : ℕ)
        × (refusal ≡ KvTextRefusal.Line line)
        × (a.status ≡ 2)
        × (a.text.items ≡ misread_text line)) }
{
    match refusal {
        KvTextRefusal::Line { line } => Ok(Answer {
            status: REFUSED,
            text: print_misread(alloc, line)?.into_bytes(),
        }),
        KvTextRefusal::OutOfMemory => Err(OutOfMemory),
    }
}

// The answer to an image of which a bucket is not in its form.
fn refuse_bucket(alloc: Global, block: BlockNo, offset: u32) -> Result<Answer, OutOfMemory>
    ensures { IfOk result (λ a. (a.status ≡ 3)
        × (a.text.items ≡ refusal_line (KvRunRefusal.Bucket block offset))) }
{
    Ok(Answer {
        status: IMAGE,
        text: print_bucket(alloc, block, offset)?.into_bytes(),
    })
}

/// The answer to an image on which no groups are run.
pub fn refuse_run(alloc: Global, refusal: KvRunRefusal) -> Result<Answer, OutOfMemory>
    ensures { IfOk result (λ a. (a.status ≡ 3)
        × (a.text.items ≡ refusal_line refusal)
        × (refusal ≢ KvRunRefusal.OutOfMemory)) }
{
    match refusal {
        KvRunRefusal::Image(fault) => refuse_drive(alloc, fault),
        KvRunRefusal::Bucket { block, offset } => refuse_bucket(alloc, block, offset),
        KvRunRefusal::OutOfMemory => Err(OutOfMemory),
    }
}
