// What words ask.
ghost use Rattle.std.specs.Prelude.{◌≡◌, ◌≤◌, ◌<◌, ◌⊎◌, None, Some, IfOk, IfSome, MatchResult, length, map, option_map};
ghost use Rattle.std.specs.String.{string_bytes};
ghost use Rattle.clap.specs.Words.{all_of, first_of, found_of, rows_of};
ghost use Rattle.mq_cli.specs.Asked.{HasScript, HasSmallNumbers, NamesCommand, Reads, ReadsOrFails, are_one_name, asked, asked_by, asked_of, failing_option, number_from, some_words, word_in};
ghost use Rattle.mq_cli.specs.declared.verb.Verb.TheVariants as verb;

use crate::command::{BlocksOptions, Command, FailingCommand, RunFlags};
use crate::first::{First, read_first};
use crate::found::{found_name, found_number, found_word};
use crate::numbers::{
    GROUPS_END, NUMBER_END, THREADS_END, geometry_word, number_in_bounds, optional_command,
};
use crate::parse::{command_for, parse_words};
use crate::path::path_of;
use crate::refusal::WordsRefusal;
use crate::verb::{Verb, read_verb};
use clap::ArgMatches;
use std::alloc::Global;

// The command of a port that an option names.
fn failing(matches: &ArgMatches, id: &str) -> Result<Option<FailingCommand>, WordsRefusal>
    ensures small { IfOk result (λ o. IfSome o NamesCommand) }
    ensures reads { MatchResult result
        (λ f. failing_option (first_of id.now (rows_of (found_of matches.now))) ≡ Some f)
        (λ e. (e ≡ WordsRefusal.Unknown)
        × (failing_option (first_of id.now (rows_of (found_of matches.now))) ≡ None)) }
{
    optional_command(found_word(matches, id))
}

// A number of a geometry.
fn word(matches: &ArgMatches, id: &str) -> Result<u32, WordsRefusal>
    ensures { MatchResult result (λ n. word_in (first_of id.now (rows_of (found_of matches.now))) ≡ Some n)
        (λ e. (e ≡ WordsRefusal.Unknown)
        × (word_in (first_of id.now (rows_of (found_of matches.now))) ≡ None)) }
{
    geometry_word(found_word(matches, id))
}

// A number that has to be in these bounds: not below the least, and below the limit.
fn bounded(matches: &ArgMatches, id: &str, least: u64, limit: u64) -> Result<u64, WordsRefusal>
    ensures small { IfOk result (λ n. (least ≤ n) × (n < limit)) }
    ensures reads { MatchResult result
        (λ n. number_from least limit (first_of id.now (rows_of (found_of matches.now))) ≡ Some n)
        (λ e. (e ≡ WordsRefusal.Unknown)
        × (number_from least limit (first_of id.now (rows_of (found_of matches.now))) ≡ None)) }
{
    number_in_bounds(least, limit, found_word(matches, id))
}

// The words of a name, of which there is at least one.
fn words_of<'a>(
    alloc: Global,
    matches: &ArgMatches<'a>,
    id: &str,
) -> Result<Vec<&'a str>, WordsRefusal>
    ensures some { IfOk result (λ v. 1 ≤ length v.items) }
    ensures reads { MatchResult result
        (λ v. some_words (all_of id.now (rows_of (found_of matches.now))) ≡ Some (map (λ s. s.now) v.items))
        (λ e. (e ≡ WordsRefusal.OutOfMemory) ⊎ ((e ≡ WordsRefusal.Unknown)
        × (some_words (all_of id.now (rows_of (found_of matches.now))) ≡ None))) }
{
    let Some(words) = matches.get_strs(id) else {
        return Err(WordsRefusal::Unknown);
    };
    if words.is_empty() {
        return Err(WordsRefusal::Unknown);
    }
    Ok(words.to_vec(alloc)?)
}

// Whether both names are given, and are the same.
fn is_one_name(save: Option<&str>, trace: Option<&str>) -> bool
    ensures { result ≡ are_one_name (option_map (λ s. s.now) save.entry) (option_map (λ s. s.now) trace.entry) }
{
    match (save, trace) {
        (Some(save), Some(trace)) => save == trace,
        _ => false,
    }
}

// What is found of `blocks` asks.
fn blocks<'a>(matches: &ArgMatches<'a>) -> Result<Command<'a>, WordsRefusal>
    ensures asks { Reads asked (asked_by verb.Blocks (rows_of (found_of matches.now))) result }
    ensures small { IfOk result HasSmallNumbers }
    ensures script { IfOk result HasScript }
{
    let file = found_name(matches, "file")?;
    let cut = found_number(matches, "cut")?;
    let pick = found_number(matches, "pick")?;
    let again = found_number(matches, "again")?;
    let save = found_word(matches, "save");
    let trace = found_word(matches, "trace");
    if is_one_name(save, trace) {
        return Err(WordsRefusal::Unknown);
    }
    Ok(Command::Blocks {
        file,
        options: BlocksOptions { cut, pick, again },
        save,
        trace,
    })
}

// What is found of `format` asks.
fn format<'a>(matches: &ArgMatches<'a>) -> Result<Command<'a>, WordsRefusal>
    ensures asks { Reads asked (asked_by verb.Format (rows_of (found_of matches.now))) result }
    ensures small { IfOk result HasSmallNumbers }
    ensures script { IfOk result HasScript }
{
    let image = found_name(matches, "image")?;
    let queues = word(matches, "queues")?;
    let area = word(matches, "area")?;
    let meta = word(matches, "meta")?;
    let zone = word(matches, "zone")?;
    Ok(Command::Format {
        image,
        queues,
        area,
        meta,
        zone,
    })
}

// What is found of `run` asks.
fn run<'a>(alloc: Global, matches: &ArgMatches<'a>) -> Result<Command<'a>, WordsRefusal>
    ensures asks { ReadsOrFails asked (asked_by verb.Run (rows_of (found_of matches.now))) result }
    ensures small { IfOk result HasSmallNumbers }
    ensures script { IfOk result HasScript }
{
    let image = found_name(matches, "image")?;
    let cut = found_number(matches, "cut")?;
    let pick = found_number(matches, "pick")?;
    let fail = failing(matches, "fail")?;
    let scripts = words_of(alloc, matches, "scripts")?;
    Ok(Command::Run {
        image,
        scripts,
        options: RunFlags { cut, pick, fail },
    })
}

// What is found of `recover` asks.
fn recover<'a>(matches: &ArgMatches<'a>) -> Result<Command<'a>, WordsRefusal>
    ensures asks { Reads asked (asked_by verb.Recover (rows_of (found_of matches.now))) result }
    ensures small { IfOk result HasSmallNumbers }
    ensures script { IfOk result HasScript }
{
    let image = found_name(matches, "image")?;
    let cut = found_number(matches, "cut")?;
    let pick = found_number(matches, "pick")?;
    Ok(Command::Recover { image, cut, pick })
}

// What is found of `cat` asks.
fn cat<'a>(alloc: Global, matches: &ArgMatches<'a>) -> Result<Command<'a>, WordsRefusal>
    ensures asks { ReadsOrFails asked (asked_by verb.Cat (rows_of (found_of matches.now))) result }
    ensures small { IfOk result HasSmallNumbers }
    ensures script { IfOk result HasScript }
{
    let image = found_name(matches, "image")?;
    let word = found_name(matches, "path")?;
    let path = path_of(alloc, word)?;
    Ok(Command::Cat { image, path })
}

// What is found of `gen` asks.
fn workload<'a>(matches: &ArgMatches<'a>) -> Result<Command<'a>, WordsRefusal>
    ensures asks { Reads asked (asked_by verb.Gen (rows_of (found_of matches.now))) result }
    ensures small { IfOk result HasSmallNumbers }
    ensures script { IfOk result HasScript }
{
    let seed = bounded(matches, "seed", 0, NUMBER_END)?;
    let threads = bounded(matches, "threads", 1, THREADS_END)?;
    let groups = bounded(matches, "groups", 0, GROUPS_END)?;
    Ok(Command::Gen {
        seed,
        threads: threads as u32,
        groups: groups as u32,
        save: found_word(matches, "save"),
    })
}

// What is found of `replicate` asks.
fn replicate<'a>(matches: &ArgMatches<'a>) -> Result<Command<'a>, WordsRefusal>
    ensures asks { Reads asked (asked_by verb.Replicate (rows_of (found_of matches.now))) result }
    ensures small { IfOk result HasSmallNumbers }
    ensures script { IfOk result HasScript }
{
    let file = found_name(matches, "file")?;
    let seed = found_number(matches, "seed")?;
    let save = found_word(matches, "save");
    Ok(Command::Replicate { file, seed, save })
}

// What is found of `loose` asks.
fn loose<'a>(matches: &ArgMatches<'a>) -> Result<Command<'a>, WordsRefusal>
    ensures asks { Reads asked (asked_by verb.Loose (rows_of (found_of matches.now))) result }
    ensures small { IfOk result HasSmallNumbers }
    ensures script { IfOk result HasScript }
{
    let file = found_name(matches, "file")?;
    let cut = found_number(matches, "cut")?;
    let pick = found_number(matches, "pick")?;
    let save = found_word(matches, "save");
    Ok(Command::Loose {
        file,
        cut,
        pick,
        save,
    })
}

// What is found of a command asks.
fn command_of<'a>(
    alloc: Global,
    verb: Verb,
    matches: &ArgMatches<'a>,
) -> Result<Command<'a>, WordsRefusal>
    ensures asks { ReadsOrFails asked (asked_by verb (rows_of (found_of matches.now))) result }
    ensures small { IfOk result HasSmallNumbers }
    ensures script { IfOk result HasScript }
{
    match verb {
        Verb::Blocks => blocks(matches),
        Verb::Format => format(matches),
        Verb::Run => run(alloc, matches),
        Verb::Recover => recover(matches),
        Verb::Ls => {
            let image = found_name(matches, "image")?;
            Ok(Command::Ls { image })
        }
        Verb::Cat => cat(alloc, matches),
        Verb::Gen => workload(matches),
        Verb::Dump => {
            let image = found_name(matches, "image")?;
            Ok(Command::Dump { image })
        }
        Verb::Check => {
            let image = found_name(matches, "image")?;
            Ok(Command::Check { image })
        }
        Verb::Audit => {
            let trace = found_name(matches, "trace")?;
            Ok(Command::Audit { trace })
        }
        Verb::Replicate => replicate(matches),
        Verb::Loose => loose(matches),
    }
}

/// The command that the words after the program's name spell.
pub fn read_command<'a>(alloc: Global, words: &'a [String]) -> Result<Command<'a>, WordsRefusal>
    ensures asks { ReadsOrFails asked (asked_of (map string_bytes words.now)) result }
    ensures small { IfOk result HasSmallNumbers }
    ensures script { IfOk result HasScript }
{
    let [word, rest @ ..] = words else {
        return Err(WordsRefusal::Unknown);
    };
    match read_first(read_verb(word), word, rest)? {
        First::Help(topic) => Ok(Command::Help(topic)),
        First::Version => Ok(Command::Version),
        First::Command(verb) => {
            let command = command_for(alloc, verb)?;
            let matches = parse_words(command, words)?;
            command_of(alloc, verb, &matches)
        }
    }
}
