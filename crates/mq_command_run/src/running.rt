// `run`: recovers an image, runs scripts on it, and saves what that left.
ghost use Rattle.std.specs.Prelude.{◌≡◌, ◌≢◌, ◌⊎◌, ◌<◌, ◌≤◌, ◌^◌, ◌++◌, ◌∷◌, [], ℕ, List, IfErr, IfOk, None, Some, length, map};
ghost use Rattle.std.specs.Option.{ForSome};
ghost use Rattle.mq_blocks.specs.Descriptor.{Descriptor};
ghost use Rattle.mq_blocks.specs.Geometry.{queues_of};
ghost use Rattle.mq_command_run.specs.RunsScripts.{AreLoaded, HoldBadScript, HoldScripts, IsRunAs, IsRunFile, IsScriptIn, RefusesRunning, RefusesScript, RefusesScripts, Runs, are_wanting, is_wanting, run_status};
ghost use Rattle.mq_command_io.specs.Ending.{EndsWith, IsLoaded, IsNotSaved, IsSaved, IsUnlessFailed};
ghost use Rattle.mq_image.specs.Drives.{IsDrive, IsRead};
ghost use Rattle.mq_image.specs.Faults.{HasFault};
ghost use Rattle.mq_image.specs.File.{DriveImage as Image};
ghost use Rattle.mq_image.specs.declared.fault.FileFault.{FileFault};
ghost use Rattle.mq_run_laws.specs.Endings.{limit_of};
ghost use Rattle.mq_image_run.specs.Limits.{AreWithin, IsFirstAbove};
ghost use Rattle.mq_image_ops.specs.Standing.{HasNoVolume, Reads, StandsFor};
ghost use Rattle.mq_outside.specs.Outside.{Tells};
ghost use Rattle.mq_script.specs.Scripts.{Script as ReadScript};
ghost use Rattle.mq_tree.specs.Volume.{Volume};

use crate::refusals::{refuse_script, refuse_scripts};
use mq_blocks::OutOfMemory;
use mq_calls::{CallCause, Gate, Refusal};
use mq_command_images::{Answer, load_image, refuse_volume, say_answer};
use mq_command_io::{COMMAND, DONE, NO_MEMORY, load_or_say, save_or_say, say, say_memory};
use mq_image::{DriveImage, write_image};
use mq_outside::{Files, Sink};
use mq_report::{Told, report};
use mq_run_laws::{ImageRun, RunOptions, run_image};
use mq_script::{Script, read_script};
use std::alloc::Global;
use std::sync::Wait;
use std::thread::Threads;

// The file of what a run left, and what is said of it.
#[derive(Drop)]
struct RunFile {
    file: Vec<u8>,
    answer: Answer,
}

// ---- what is loaded

// Appends the script that a name holds; where there is none, why is said, and the status answered.
fn load_script<F: Files, K: Sink>(
    alloc: Global,
    name: &str,
    scripts: &mut Vec<Script>,
    files: &mut F,
    out: &mut K,
) -> Result<(), u8>
    ensures ok { IfOk result (λ _. (text : List ℕ)
        × (script : ReadScript)
        × IsLoaded name.now text (F.state files.old) (F.state files.new)
        × IsScriptIn text script
        × (scripts.new.items ≡ scripts.old.items ++ script ∷ [])) }
    ensures silent { IfOk result (λ _. K.state out.new ≡ K.state out.old) }
    ensures refused { IfErr result (λ s. (status : ℕ)
        × (text : List ℕ)
        × RefusesScript name.now (F.state files.old) (F.state files.new) status text
        × EndsWith status text s (K.state out.old) (K.state out.new)) }
{
    let bytes = match load_or_say(alloc, name, files, out) {
        Ok(bytes) => bytes,
        Err(status) => return Err(status),
    };
    let script = match read_script(alloc, &bytes) {
        Ok(script) => script,
        Err(refusal) => return Err(say_answer(refuse_script(alloc, name, refusal), out)),
    };
    match scripts.push(script) {
        Ok(()) => Ok(()),
        Err(_) => Err(say_memory(out)),
    }
}

// The scripts that these names hold, in their order; where one holds none, why is said, and the status
// answered.
fn load_scripts<F: Files, K: Sink>(
    alloc: Global,
    names: &[&str],
    files: &mut F,
    out: &mut K,
) -> Result<Vec<Script>, u8>
    ensures ok { IfOk result (λ v. AreLoaded (map (λ s. s.now) names.now) v.items (F.state files.old)
        (F.state files.new)) }
    ensures silent { IfOk result (λ _. K.state out.new ≡ K.state out.old) }
    ensures refused { IfErr result (λ s. (status : ℕ)
        × (text : List ℕ)
        × RefusesScripts (map (λ s. s.now) names.now) (F.state files.old) (F.state files.new) status text
        × EndsWith status text s (K.state out.old) (K.state out.new)) }
{
    let mut scripts = Vec::new(alloc);
    for name in names {
        match load_script(alloc, name, &mut scripts, files, out) {
            Ok(()) => {}
            Err(status) => return Err(status),
        }
    }
    Ok(scripts)
}

// ---- what is said of a run

// Whether memory ran out for a group.
fn wants_memory(told: &Told) -> bool
    ensures { result ≡ is_wanting told.now.answer }
{
    match told.answer {
        Ok(_) => false,
        Err(Refusal { cause, .. }) => match cause {
            CallCause::OutOfMemory => true,
            CallCause::TooLarge { .. } | CallCause::Changes { .. } | CallCause::Drive(_) => false,
        },
    }
}

// Whether memory ran out for one of the groups.
fn any_wants_memory(answers: &[Told]) -> bool
    ensures { result ≡ are_wanting answers.now }
{
    for told in answers {
        if wants_memory(told) {
            return true;
        }
    }
    false
}

// The status with which a run ends.
fn status_of(ran: &ImageRun) -> u8
    ensures { result ≡ run_status ran.now }
{
    if any_wants_memory(&ran.answers) {
        return NO_MEMORY;
    }
    if ran.failed { COMMAND } else { DONE }
}

// The file of what a run left, and what is said of it.
fn run_file(alloc: Global, ran: &ImageRun) -> Result<RunFile, OutOfMemory>
    requires { IsDrive ran.now.image }
    ensures { IfOk result (λ v. IsRunFile ran.now v.file.items v.answer.status v.answer.text.items) }
{
    let status = status_of(ran);
    let file = write_image(alloc, &ran.image)?;
    let text = report(alloc, ran.base, &ran.entries, &ran.answers, &ran.last)?;
    Ok(RunFile {
        file,
        answer: Answer { status, text },
    })
}

// Runs scripts on an image, or says why they are not run.
fn run_to_file<R: Threads + Wait + Sync, G: Gate + Sync>(
    rt: &R,
    alloc: Global,
    image: DriveImage,
    scripts: &[Script],
    options: RunOptions,
    gate: &G,
) -> Result<RunFile, Result<Answer, OutOfMemory>>
    requires image { IsDrive image }
    requires cut { ForSome (limit_of options.ending) (λ k. k ≤ 2 ^ 63) }
    requires some { 1 ≤ length scripts.now }
    ensures ok { IfOk result (λ v. IsRunAs image scripts.now options v.file.items v.answer.status
        v.answer.text.items) }
    ensures refused { IfErr result (λ answer. IfOk answer (λ a. RefusesRunning image scripts.now a.status
        a.text.items)) }
{
    let queues = image.geometry.queues();
    if scripts.len() > queues as usize {
        return Err(refuse_scripts(alloc, scripts.len(), queues));
    }
    let ran = match run_image(rt, alloc, image, scripts, options, gate) {
        Ok(ran) => ran,
        Err(refusal) => return Err(refuse_volume(alloc, refusal)),
    };
    match run_file(alloc, &ran) {
        Ok(file) => Ok(file),
        Err(OutOfMemory) => Err(Err(OutOfMemory)),
    }
}

// Saves what a run left, and then says its report; where it is not saved, why is said.
fn save_run<F: Files, K: Sink>(name: &str, ran: &RunFile, files: &mut F, out: &mut K) -> u8
    ensures { (IsSaved name.now ran.now.file.items (F.state files.old) (F.state files.new)
        × EndsWith ran.now.answer.status ran.now.answer.text.items result (K.state out.old)
        (K.state out.new))
        ⊎ ((status : ℕ)
        × (text : List ℕ)
        × IsNotSaved name.now (F.state files.old) (F.state files.new) status text
        × EndsWith status text result (K.state out.old) (K.state out.new)) }
{
    match save_or_say(name, &ran.file, files, out) {
        Ok(()) => say(ran.answer.status, &ran.answer.text, out),
        Err(status) => status,
    }
}

// Recovers the image that the name holds, runs the scripts that the other names hold, saves what that left,
// and says the report.
fn run_or_say<F: Files, K: Sink, R: Threads + Wait + Sync, G: Gate + Sync>(
    rt: &R,
    alloc: Global,
    name: &str,
    scripts: &[&str],
    options: RunOptions,
    files: &mut F,
    out: &mut K,
    gate: &G,
) -> u8
    requires cut { ForSome (limit_of options.ending) (λ k. k ≤ 2 ^ 63) }
    requires scripts { 1 ≤ length scripts.now }
    ensures { (status : ℕ)
        × (text : List ℕ)
        × Runs options name.now (map (λ s. s.now) scripts.now) (F.state files.old) (F.state files.new)
        status text
        × EndsWith status text result (K.state out.old) (K.state out.new) }
{
    let image = match load_image(alloc, name, files, out) {
        Ok(image) => image,
        Err(status) => return status,
    };
    let texts = match load_scripts(alloc, scripts, files, out) {
        Ok(texts) => texts,
        Err(status) => return status,
    };
    match run_to_file(rt, alloc, image, &texts, options, gate) {
        Ok(ran) => save_run(name, &ran, files, out),
        Err(answer) => say_answer(answer, out),
    }
}

/// `run NAME SCRIPT.. [--cut K] [--pick S] [--fail Q:N]`: recovers the image that the name holds, runs the
/// scripts that the other names hold, each on a session and a thread of its own, and saves what that left.
/// Before the image is saved, only the line of a refusal is printed.
pub fn run<F: Files, K: Sink, R: Threads + Wait + Sync, G: Gate + Sync>(
    rt: &R,
    alloc: Global,
    name: &str,
    scripts: &[&str],
    options: RunOptions,
    files: &mut F,
    out: &mut K,
    gate: &G,
) -> u8
    requires cut { ForSome (limit_of options.ending) (λ k. k ≤ 2 ^ 63) }
    requires scripts { 1 ≤ length scripts.now }
    ensures ends { (status : ℕ)
        × (text : List ℕ)
        × Runs options name.now (map (λ s. s.now) scripts.now) (F.state files.old) (F.state files.new)
        status text
        × EndsWith status text result (K.state out.old) (K.state out.new) }
    ensures done_where { (bytes : List ℕ) (x : Image) (v : Volume) (texts : List ReadScript)
        → Tells (F.state files.old).contents name.now (Some bytes)
        → IsRead x bytes
        → HoldScripts (F.state files.old).contents (map (λ s. s.now) scripts.now) texts
        → length texts ≤ queues_of x.geometry
        → (for : StandsFor x v)
        → AreWithin x for.top
        → ((options.fail ≢ None) × (result ≡ 5)) ⊎ IsUnlessFailed 0 result }
    ensures refused_where { (bytes : List ℕ) (e : FileFault)
        → Tells (F.state files.old).contents name.now (Some bytes)
        → HasFault bytes (Some e)
        → IsUnlessFailed 3 result }
    ensures bad_script_where { (bytes : List ℕ) (x : Image)
        → Tells (F.state files.old).contents name.now (Some bytes)
        → IsRead x bytes
        → HoldBadScript (F.state files.old).contents (map (λ s. s.now) scripts.now)
        → IsUnlessFailed 2 result }
    ensures too_many_where { (bytes : List ℕ) (x : Image) (texts : List ReadScript)
        → Tells (F.state files.old).contents name.now (Some bytes)
        → IsRead x bytes
        → HoldScripts (F.state files.old).contents (map (λ s. s.now) scripts.now) texts
        → queues_of x.geometry < length texts
        → IsUnlessFailed 2 result }
    ensures no_volume_where { (bytes : List ℕ) (x : Image) (texts : List ReadScript)
        → Tells (F.state files.old).contents name.now (Some bytes)
        → IsRead x bytes
        → HoldScripts (F.state files.old).contents (map (λ s. s.now) scripts.now) texts
        → length texts ≤ queues_of x.geometry
        → HasNoVolume x
        → IsUnlessFailed 3 result }
    ensures limit_where { (bytes : List ℕ) (x : Image) (texts : List ReadScript) (ds : List Descriptor)
        (top n : ℕ)
        → Tells (F.state files.old).contents name.now (Some bytes)
        → IsRead x bytes
        → HoldScripts (F.state files.old).contents (map (λ s. s.now) scripts.now) texts
        → length texts ≤ queues_of x.geometry
        → Reads x ds top
        → IsFirstAbove x top n
        → IsUnlessFailed 3 result }
{
    run_or_say(rt, alloc, name, scripts, options, files, out, gate)
}
