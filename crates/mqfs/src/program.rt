// The program: the command that words ask, over files and an output.
ghost use Rattle.std.specs.Prelude.{◌≡◌, ◌≢◌, ◌⊎◌, ℕ, List, Some, map};
ghost use Rattle.std.specs.String.{string_bytes};
ghost use Rattle.mq_command_io.specs.Ending.{EndsWith, IsUnlessFailed};
ghost use Rattle.mq_run_laws.specs.Recovering.{EveryInterleavingIsRecovered};
ghost use Rattle.mq_cli.specs.Asked.{Asked, HasScript, HasSmallNumbers, asked, asked_of};
ghost use Rattle.mqfs.specs.Course.{IsOutOfMemory};
ghost use Rattle.mqfs.specs.Decided.{Decides, RunsThere};
ghost use Rattle.mqfs.specs.Does.{DoesAudit, DoesBlocks, DoesCat, DoesCheck, DoesDump, DoesFormat};
ghost use Rattle.mqfs.specs.Does.{DoesGen, DoesHelp, DoesLoose, DoesLs, DoesRecover, DoesReplicate};
ghost use Rattle.mqfs.specs.Does.{DoesRun, DoesVersion};
ghost use Rattle.mqfs.specs.Does.{EndsSaying, IsRefused, KeepsFiles, TellsFaults, TellsUsage};
ghost use Rattle.mqfs.specs.Program.{IsSaid, IsStatus};
ghost use Rattle.mqfs.specs.Says.{Says};

mod help;
mod scripts;
mod workload;

use self::help::{say_help, say_version};
use self::scripts::run_script_files;
use self::workload::run_workload;
use mq_calls::Gate;
use mq_cli::{Command, WordsRefusal, read_command};
use mq_command_blocks::run_blocks;
use mq_command_images::{Numbers, audit, cat, check, dump, format, ls, recover};
use mq_command_io::{USAGE, say, say_memory};
use mq_command_loose::run_loose;
use mq_command_replicate::run_replicate;
use mq_outside::{Files, Sink};
use mq_run_laws::every_interleaving_is_recovered;
use std::alloc::Global;
use std::sync::Wait;
use std::thread::Threads;

// The line of the words that are no command.
const USAGE_LINE: &[u8] =
    b"usage: mqfs blocks|format|run|recover|ls|cat|gen|dump|check|audit|replicate|loose\n";

// Runs a command. Draws of `recover` and `loose` come from 0 where no pick is given.
fn run<F: Files, K: Sink, R: Threads + Wait + Sync, G: Gate + Sync>(
    rt: &R,
    alloc: Global,
    command: Command,
    files: &mut F,
    out: &mut K,
    gate: &G,
) -> u8
    requires small { HasSmallNumbers command }
    requires script { HasScript command }
    ensures ends { (status : ℕ)
        × (text : List ℕ)
        × Says (asked command.entry) (F.state files.old) (F.state files.new) status text
        × EndsWith status text result (K.state out.old) (K.state out.new) }
    ensures decided { (status : ℕ)
        → Decides (asked command.entry) (F.state files.old).contents status
        → IsUnlessFailed status result }
    ensures runs { RunsThere (asked command.entry) (F.state files.old).contents
        → (result ≡ 5) ⊎ IsUnlessFailed 0 result }
{
    match command {
        Command::Blocks {
            file,
            options,
            save,
            trace,
        } => run_blocks(alloc, file, options, save, trace, files, out),
        Command::Format {
            image,
            queues,
            area,
            meta,
            zone,
        } => {
            let numbers = Numbers {
                queues,
                area,
                meta,
                zone,
            };
            format(alloc, image, numbers, files, out)
        }
        Command::Run {
            image,
            scripts,
            options,
        } => run_script_files(rt, alloc, image, &scripts, options, files, out, gate),
        Command::Recover { image, cut, pick } => {
            recover(alloc, image, cut, pick.unwrap_or(0), files, out)
        }
        Command::Ls { image } => ls(alloc, image, files, out),
        Command::Cat { image, path } => cat(alloc, image, &path, files, out),
        Command::Gen {
            seed,
            threads,
            groups,
            save,
        } => run_workload(rt, alloc, seed, threads, groups, save, files, out, gate),
        Command::Dump { image } => dump(alloc, image, files, out),
        Command::Check { image } => check(alloc, image, files, out),
        Command::Audit { trace } => audit(alloc, trace, files, out),
        Command::Replicate { file, seed, save } => {
            run_replicate(alloc, file, seed.unwrap_or(0), save, files, out)
        }
        Command::Loose {
            file,
            cut,
            pick,
            save,
        } => run_loose(alloc, file, cut, pick.unwrap_or(0), save, files, out),
        Command::Help(topic) => say_help(topic, out),
        Command::Version => say_version(out),
    }
}

// Reads the words, and runs the command that they ask.
fn read_and_run<F: Files, K: Sink, R: Threads + Wait + Sync, G: Gate + Sync>(
    rt: &R,
    alloc: Global,
    words: &[String],
    files: &mut F,
    out: &mut K,
    gate: &G,
) -> u8
    ensures ends { EndsSaying (map string_bytes words.now) (F.state files.old) (F.state files.new)
        (K.state out.old) (K.state out.new) result }
    ensures decided { (a : Asked) (status : ℕ)
        → asked_of (map string_bytes words.now) ≡ Some a
        → Decides a (F.state files.old).contents status
        → IsUnlessFailed status result }
    ensures runs { (a : Asked)
        → asked_of (map string_bytes words.now) ≡ Some a
        → RunsThere a (F.state files.old).contents
        → (result ≡ 5) ⊎ IsUnlessFailed 0 result }
{
    match read_command(alloc, words) {
        Ok(command) => run(rt, alloc, command, files, out, gate),
        Err(WordsRefusal::Unknown) => say(USAGE, USAGE_LINE, out),
        Err(WordsRefusal::OutOfMemory) => say_memory(out),
    }
}

/// The program: runs the command of the words, which are those after its name, over files and an output.
/// The sessions of `run` and `gen` play their scripts on threads, and pass the gate on their way. The
/// status is 0 for done, 1 for words that are no command, 2 for a text, a script or a trace that is refused
/// or for more scripts than queues, 3 for an image, a geometry or a path that is refused, 4 for a fault of
/// a file or the output or a file that is too long, 5 where the command of the drive was executed that
/// `run` had to let fail, and 6 for out of memory.
pub fn mqfs<F: Files, K: Sink, R: Threads + Wait + Sync, G: Gate + Sync>(
    rt: &R,
    alloc: Global,
    words: &[String],
    files: &mut F,
    out: &mut K,
    gate: &G,
) -> u8
    ensures status { IsStatus result }
    // What there is to say of what the words ask, with which status, is `Says`, by a definition for each
    // command. One such text was to be said, and at most that is.
    ensures ends { EndsSaying (map string_bytes words.now) (F.state files.old) (F.state files.new)
        (K.state out.old) (K.state out.new) result }
    // At every status but 4 and 6 the text of that status was said whole.
    ensures said { result ≢ 4
        → result ≢ 6
        → IsSaid (map string_bytes words.now) (F.state files.old) (F.state files.new)
        (K.state out.old) (K.state out.new) result }
    // The words are no command.
    ensures usage { TellsUsage (map string_bytes words.now) (F.state files.old) (F.state files.new)
        (K.state out.old) (K.state out.new) result }
    // A file of the words holds bytes that are refused, or there are too many scripts.
    ensures refused { result ≡ 2
        → IsRefused (map string_bytes words.now) (F.state files.old) (F.state files.new)
        (K.state out.old) (K.state out.new) }
    // A file or the output failed, or a file was too long: what failed, and what is then left.
    ensures fault { TellsFaults (map string_bytes words.now) (F.state files.old) (F.state files.new)
        (K.state out.old) (K.state out.new) result }
    // Memory ran out: what the names then hold, and what the output is.
    ensures memory { result ≡ 6
        → IsOutOfMemory (map string_bytes words.now) (F.state files.old) (F.state files.new)
        (K.state out.old) (K.state out.new) }
    // Which names are loaded, and which may change.
    ensures names { KeepsFiles (map string_bytes words.now) (F.state files.old) (F.state files.new)
        (K.state out.old) (K.state out.new) result }
    // Of every interleaving of queue events and every power cut between two of them.
    ensures journal { EveryInterleavingIsRecovered }
    // Each command: what was said, what decides the status, which names were loaded and saved, and what
    // else holds of it.
    ensures blocks { DoesBlocks (map string_bytes words.now) (F.state files.old) (F.state files.new)
        (K.state out.old) (K.state out.new) result }
    ensures format { DoesFormat (map string_bytes words.now) (F.state files.old) (F.state files.new)
        (K.state out.old) (K.state out.new) result }
    ensures run { DoesRun (map string_bytes words.now) (F.state files.old) (F.state files.new)
        (K.state out.old) (K.state out.new) result }
    ensures recover { DoesRecover (map string_bytes words.now) (F.state files.old) (F.state files.new)
        (K.state out.old) (K.state out.new) result }
    ensures ls { DoesLs (map string_bytes words.now) (F.state files.old) (F.state files.new)
        (K.state out.old) (K.state out.new) result }
    ensures cat { DoesCat (map string_bytes words.now) (F.state files.old) (F.state files.new)
        (K.state out.old) (K.state out.new) result }
    ensures generate { DoesGen (map string_bytes words.now) (F.state files.old) (F.state files.new)
        (K.state out.old) (K.state out.new) result }
    ensures dump { DoesDump (map string_bytes words.now) (F.state files.old) (F.state files.new)
        (K.state out.old) (K.state out.new) result }
    ensures check { DoesCheck (map string_bytes words.now) (F.state files.old) (F.state files.new)
        (K.state out.old) (K.state out.new) result }
    ensures audit { DoesAudit (map string_bytes words.now) (F.state files.old) (F.state files.new)
        (K.state out.old) (K.state out.new) result }
    ensures replicate { DoesReplicate (map string_bytes words.now) (F.state files.old) (F.state files.new)
        (K.state out.old) (K.state out.new) result }
    ensures loose { DoesLoose (map string_bytes words.now) (F.state files.old) (F.state files.new)
        (K.state out.old) (K.state out.new) result }
    ensures help { DoesHelp (map string_bytes words.now) (F.state files.old) (F.state files.new)
        (K.state out.old) (K.state out.new) result }
    ensures version { DoesVersion (map string_bytes words.now) (F.state files.old) (F.state files.new)
        (K.state out.old) (K.state out.new) result }
{
    every_interleaving_is_recovered();
    read_and_run(rt, alloc, words, files, out, gate)
}
