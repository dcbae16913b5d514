// `apply`: recovers an image, runs the groups of a file on it, and saves what that left.
ghost use Rattle.std.specs.Prelude.{◌≡◌, ◌⊎◌, ◌≤◌, ◌^◌, ℕ, List, IfErr, IfOk};
ghost use Rattle.std.specs.Option.{ForSome};
ghost use Rattle.mq_command_io.specs.Ending.{EndsWith, IsLoaded, IsNotSaved, IsSaved, IsUnlessFailed};
ghost use Rattle.mq_image.specs.Drives.{IsDrive};
ghost use Rattle.mq_image.specs.File.{image_bytes};
ghost use Rattle.mq_kv_run.specs.Runs.{IsRunOf};
ghost use Rattle.mq_kv_run.specs.declared.ran.KvRun.{KvRun as Run};
ghost use Rattle.mq_kv_text.specs.Files.{IsFile};
ghost use Rattle.mq_kv_text.specs.Reports.{report_text};
ghost use Rattle.mq_kv_tool.specs.Applies.{Applies, RefusesFile, RefusesRunning};
ghost use Rattle.mq_kv_tool.specs.Decided.{ApplyDecides};

use crate::refusals::{refuse_file, refuse_run};
use mq_blocks::OutOfMemory;
use mq_command_images::{Answer, load_image, say_answer};
use mq_command_io::{DONE, load_or_say, save_or_say, say};
use mq_image::{DriveImage, write_image};
use mq_kv_run::{KvOptions, KvRun, a_run_keeps_its_promise, run_groups};
use mq_kv_text::{KvGroup, print_report, read_groups};
use mq_outside::{Files, Sink};
use std::alloc::Global;
use std::sync::Wait;

// The file of what a run left, and its report.
#[derive(Drop)]
struct RunFile {
    file: Vec<u8>,
    report: Vec<u8>,
}

// The groups that a name holds; where there are none, why is said, and the status answered.
fn load_groups<F: Files, K: Sink>(
    alloc: Global,
    name: &str,
    files: &mut F,
    out: &mut K,
) -> Result<Vec<KvGroup>, u8>
    ensures ok { IfOk result (λ v. (bytes : List ℕ)
        × IsLoaded name.now bytes (F.state files.old) (F.state files.new)
        × IsFile bytes v.items) }
    ensures silent { IfOk result (λ _. K.state out.new ≡ K.state out.old) }
    ensures refused { IfErr result (λ s. (status : ℕ)
        × (text : List ℕ)
        × RefusesFile name.now (F.state files.old) (F.state files.new) status text
        × EndsWith status text s (K.state out.old) (K.state out.new)) }
{
    let bytes = match load_or_say(alloc, name, files, out) {
        Ok(bytes) => bytes,
        Err(status) => return Err(status),
    };
    match read_groups(alloc, &bytes) {
        Ok(groups) => Ok(groups),
        Err(refusal) => Err(say_answer(refuse_file(alloc, refusal), out)),
    }
}

// The file of what a run left, and its report.
fn run_file(alloc: Global, ran: &KvRun) -> Result<RunFile, OutOfMemory>
    requires { IsDrive ran.now.image }
    ensures { IfOk result (λ v. (v.file.items ≡ image_bytes ran.now.image)
        × (v.report.items ≡ report_text ran.now.report)) }
{
    let file = write_image(alloc, &ran.image)?;
    let report = print_report(alloc, &ran.report)?;
    Ok(RunFile { file, report })
}

// Runs groups on an image, or says why they are not run.
fn run_to_file<R: Wait>(
    rt: &R,
    alloc: Global,
    image: DriveImage,
    groups: &[KvGroup],
    options: KvOptions,
) -> Result<RunFile, Result<Answer, OutOfMemory>>
    requires image { IsDrive image }
    requires cut { ForSome options.cut (λ k. k ≤ 2 ^ 63) }
    ensures ok { IfOk result (λ v. (r : Run)
        × IsRunOf image groups.now options r
        × (v.file.items ≡ image_bytes r.image)
        × (v.report.items ≡ report_text r.report)) }
    ensures refused { IfErr result (λ answer. IfOk answer
        (λ a. RefusesRunning image a.status a.text.items)) }
{
    let ran = match run_groups(rt, alloc, image, groups, options) {
        Ok(ran) => ran,
        Err(refusal) => return Err(refuse_run(alloc, refusal)),
    };
    match run_file(alloc, &ran) {
        Ok(file) => Ok(file),
        Err(OutOfMemory) => Err(Err(OutOfMemory)),
    }
}

// Saves what a run left, and then says its report; where it is not saved, why is said.
fn save_run<F: Files, K: Sink>(name: &str, ran: &RunFile, files: &mut F, out: &mut K) -> u8
    ensures { (IsSaved name.now ran.now.file.items (F.state files.old) (F.state files.new)
        × EndsWith 0 ran.now.report.items result (K.state out.old) (K.state out.new))
        ⊎ ((status : ℕ)
        × (text : List ℕ)
        × IsNotSaved name.now (F.state files.old) (F.state files.new) status text
        × EndsWith status text result (K.state out.old) (K.state out.new)) }
{
    match save_or_say(name, &ran.file, files, out) {
        Ok(()) => say(DONE, &ran.report, out),
        Err(status) => status,
    }
}

// Recovers the image that one name holds, runs the groups that the other holds, saves what that left, and says the
// report.
fn apply_or_say<F: Files, K: Sink, R: Wait>(
    rt: &R,
    alloc: Global,
    name: &str,
    file: &str,
    options: KvOptions,
    files: &mut F,
    out: &mut K,
) -> u8
    requires cut { ForSome options.cut (λ k. k ≤ 2 ^ 63) }
    ensures { (status : ℕ)
        × (text : List ℕ)
        × Applies options name.now file.now (F.state files.old) (F.state files.new) status text
        × EndsWith status text result (K.state out.old) (K.state out.new) }
{
    let image = match load_image(alloc, name, files, out) {
        Ok(image) => image,
        Err(status) => return status,
    };
    let groups = match load_groups(alloc, file, files, out) {
        Ok(groups) => groups,
        Err(status) => return status,
    };
    a_run_keeps_its_promise();
    match run_to_file(rt, alloc, image, &groups, options) {
        Ok(ran) => save_run(name, &ran, files, out),
        Err(answer) => say_answer(answer, out),
    }
}

/// `apply NAME FILE [--cut K] [--pick S]`: recovers the image that the name holds, runs the groups of the file on
/// it, and saves what that left. Before the image is saved, only the line of a refusal is printed.
pub fn apply<F: Files, K: Sink, R: Wait>(
    rt: &R,
    alloc: Global,
    name: &str,
    file: &str,
    options: KvOptions,
    files: &mut F,
    out: &mut K,
) -> u8
    requires cut { ForSome options.cut (λ k. k ≤ 2 ^ 63) }
    ensures ends { (status : ℕ)
        × (text : List ℕ)
        × Applies options name.now file.now (F.state files.old) (F.state files.new) status text
        × EndsWith status text result (K.state out.old) (K.state out.new) }
    ensures decided { (status : ℕ)
        → ApplyDecides name.now file.now (F.state files.old).contents status
        → IsUnlessFailed status result }
{
    apply_or_say(rt, alloc, name, file, options, files, out)
}
