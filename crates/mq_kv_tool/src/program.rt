// The program: the command that words ask, over files and an output.
ghost use Rattle.std.specs.Prelude.{◌≡◌, ◌≢◌, ◌⊎◌, ℕ, List, Some, map};
ghost use Rattle.std.specs.String.{string_bytes};
ghost use Rattle.mq_command_io.specs.Ending.{EndsWith, IsUnlessFailed};
ghost use Rattle.mq_kv_cli.specs.Asked.{Asked, HasSmallNumbers, apply as asked_apply, asked, asked_of, make as asked_make};
ghost use Rattle.mq_kv_cli.specs.declared.command.ApplyOptions.{ApplyOptions};
ghost use Rattle.mq_kv_text.specs.Reports.{usage_text};
ghost use Rattle.mq_kv_tool.specs.Decided.{Decides};
ghost use Rattle.mq_kv_tool.specs.Outcome.{HasApplied, HasMade, IsFault, IsMisreadFile, IsOutOfMemory};
ghost use Rattle.mq_kv_tool.specs.Program.{AreUnknown, IsSaid, IsStatus, IsToSay, IsTooLong, KeepsNames, TakesFor};
ghost use Rattle.mq_kv_tool.specs.Says.{Says, kv_options};
ghost use Rattle.mq_outside.specs.Outside.{Held, Rose, appended};

use crate::applying::apply;
use crate::help::{say_help, say_version};
use crate::making::make;
use mq_cli::WordsRefusal;
use mq_command_io::{USAGE, say, say_memory};
use mq_kv_cli::{ApplyOptions, Command, read_command};
use mq_kv_run::KvOptions;
use mq_kv_text::print_usage;
use mq_outside::{Files, Sink};
use std::alloc::Global;
use std::sync::Wait;

// What the options ask of a run. Draws come from 0 where no pick is given.
fn options_of(options: ApplyOptions) -> KvOptions
    ensures { result ≡ kv_options options }
{
    KvOptions {
        cut: options.cut,
        pick: options.pick.unwrap_or(0),
    }
}

// Runs a command.
fn run<F: Files, K: Sink, R: Wait>(
    rt: &R,
    alloc: Global,
    command: Command,
    files: &mut F,
    out: &mut K,
) -> u8
    requires small { HasSmallNumbers command }
    ensures ends { (status : ℕ)
        × (text : List ℕ)
        × Says (asked command.entry) (F.state files.old) (F.state files.new) status text
        × EndsWith status text result (K.state out.old) (K.state out.new) }
    ensures decided { (status : ℕ)
        → Decides (asked command.entry) (F.state files.old).contents status
        → IsUnlessFailed status result }
{
    match command {
        Command::New { image } => make(alloc, image, files, out),
        Command::Apply {
            image,
            file,
            options,
        } => apply(rt, alloc, image, file, options_of(options), files, out),
        Command::Help(topic) => say_help(topic, out),
        Command::Version => say_version(out),
    }
}

// Reads the words, and runs the command that they ask.
fn read_and_run<F: Files, K: Sink, R: Wait>(
    rt: &R,
    alloc: Global,
    words: &[String],
    files: &mut F,
    out: &mut K,
) -> u8
    ensures ends { (status : ℕ)
        × (text : List ℕ)
        × IsToSay (map string_bytes words.now) (F.state files.old) (F.state files.new) status text
        × EndsWith status text result (K.state out.old) (K.state out.new) }
    ensures decided { (a : Asked) (status : ℕ)
        → asked_of (map string_bytes words.now) ≡ Some a
        → Decides a (F.state files.old).contents status
        → IsUnlessFailed status result }
{
    match read_command(alloc, words) {
        Ok(command) => run(rt, alloc, command, files, out),
        Err(WordsRefusal::Unknown) => say(USAGE, print_usage().as_bytes(), out),
        Err(WordsRefusal::OutOfMemory) => say_memory(out),
    }
}

/// The program: runs the command of the words, which are those after its name, over files and an output. The
/// status is 0 for done, 1 for words that are no command, 2 for a file of groups that is refused, 3 for an image that
/// is refused, 4 for a fault of a file or the output or a file that is too long, and 6 for out of memory.
pub fn kv<F: Files, K: Sink, R: Wait>(
    rt: &R,
    alloc: Global,
    words: &[String],
    files: &mut F,
    out: &mut K,
) -> u8
    ensures status { IsStatus result }
    // What there is to say of what the words ask, with which status, is `Says`, by a definition for each
    // command. One such text was to be said, and at most that is.
    ensures ends { (status : ℕ)
        × (text : List ℕ)
        × IsToSay (map string_bytes words.now) (F.state files.old) (F.state files.new) status text
        × EndsWith status text result (K.state out.old) (K.state out.new) }
    // At every status but 4 and 6 the text of that status was said whole.
    ensures said { result ≢ 4
        → result ≢ 6
        → IsSaid (map string_bytes words.now) (F.state files.old) (F.state files.new) (K.state out.old)
        (K.state out.new) result }
    // What the files hold decides the status, 4 and 6 aside.
    ensures decided { (a : Asked) (status : ℕ)
        → asked_of (map string_bytes words.now) ≡ Some a
        → Decides a (F.state files.old).contents status
        → IsUnlessFailed status result }
    // Whatever files tell that they hold decides this status, 4 and 6 aside.
    ensures covered { (a : Asked) (held : Held)
        → asked_of (map string_bytes words.now) ≡ Some a
        → (F.state files.old).contents ≡ Some held
        → Decides a (Some held) result ⊎ ((result ≡ 4) ⊎ (result ≡ 6)) }
    // `new`: at the status 0 the name holds a drive of zeros.
    ensures made { (image : List ℕ)
        → asked_of (map string_bytes words.now) ≡ Some (asked_make image)
        → result ≡ 0
        → HasMade image (F.state files.old) (F.state files.new) (K.state out.old) (K.state out.new) }
    // `apply`: at the status 0 the groups were run on the image, the image that this left is saved, and its report is
    // the output.
    ensures applied { (image file : List ℕ) (options : ApplyOptions)
        → asked_of (map string_bytes words.now) ≡ Some (asked_apply image file options)
        → result ≡ 0
        → HasApplied image file options (F.state files.old) (F.state files.new) (K.state out.old)
        (K.state out.new) }
    // The words are no command.
    ensures usage { result ≡ 1
        → AreUnknown (map string_bytes words.now)
        × ((K.state out.new).contents ≡ appended (K.state out.old).contents usage_text)
        × (F.state files.new ≡ F.state files.old) }
    ensures usage_where { AreUnknown (map string_bytes words.now) → IsUnlessFailed 1 result }
    // The words are those of `apply`, and the file holds bytes that are refused.
    ensures misread { result ≡ 2
        → IsMisreadFile (map string_bytes words.now) (F.state files.old) (K.state out.old)
        (K.state out.new) }
    // A file or the output failed, or a file was too long.
    ensures fault { result ≡ 4
        → Rose (F.state files.old).faults (F.state files.new).faults
        ⊎ (Rose (K.state out.old).faults (K.state out.new).faults
        ⊎ IsTooLong (map string_bytes words.now) (F.state files.old) (F.state files.new)) }
    ensures fault_where { result ≢ 4
        → ((F.state files.new).faults ≡ (F.state files.old).faults)
        × ((K.state out.new).faults ≡ (K.state out.old).faults) }
    // What failed, what the names then hold, and what the output is.
    ensures fault_at { result ≡ 4
        → IsFault (map string_bytes words.now) (F.state files.old) (F.state files.new) (K.state out.old)
        (K.state out.new) }
    // Memory ran out: what the names then hold, and what the output is.
    ensures memory { result ≡ 6
        → IsOutOfMemory (map string_bytes words.now) (F.state files.old) (F.state files.new)
        (K.state out.old) (K.state out.new) }
    ensures takes { result ≢ 4 → result ≢ 6 → TakesFor (map string_bytes words.now) (F.state files.old)
        (F.state files.new) }
    // No name changes but the image that the words save, and none at the statuses 1, 2 and 3.
    ensures names { KeepsNames (map string_bytes words.now) (F.state files.old) (F.state files.new) }
    ensures contents { (result ≡ 1) ⊎ ((result ≡ 2) ⊎ (result ≡ 3))
        → (F.state files.new).contents ≡ (F.state files.old).contents }
{
    read_and_run(rt, alloc, words, files, out)
}
