// What words ask.
ghost use Rattle.std.specs.Prelude.{IfOk, map};
ghost use Rattle.std.specs.String.{string_bytes};
ghost use Rattle.clap.specs.Words.{found_of, rows_of};
ghost use Rattle.mq_cli.specs.Asked.{Reads, ReadsOrFails};
ghost use Rattle.mq_kv_cli.specs.Asked.{HasSmallNumbers, asked, asked_by, asked_of};
ghost use Rattle.mq_kv_cli.specs.declared.verb.Verb.TheVariants as verb;

use crate::command::{ApplyOptions, Command};
use crate::parse::command_for;
use crate::verb::{Verb, read_verb};
use clap::ArgMatches;
use mq_cli::{First, WordsRefusal, found_name, found_number, parse_words, read_first};
use std::alloc::Global;

// What is found of `new` asks.
fn new_image<'a>(matches: &ArgMatches<'a>) -> Result<Command<'a>, WordsRefusal>
    ensures asks { Reads asked (asked_by verb.New (rows_of (found_of matches.now))) result }
    ensures small { IfOk result HasSmallNumbers }
{
    let image = found_name(matches, "image")?;
    Ok(Command::New { image })
}

// What is found of `apply` asks.
fn apply<'a>(matches: &ArgMatches<'a>) -> Result<Command<'a>, WordsRefusal>
    ensures asks { Reads asked (asked_by verb.Apply (rows_of (found_of matches.now))) result }
    ensures small { IfOk result HasSmallNumbers }
{
    let image = found_name(matches, "image")?;
    let file = found_name(matches, "file")?;
    let cut = found_number(matches, "cut")?;
    let pick = found_number(matches, "pick")?;
    Ok(Command::Apply {
        image,
        file,
        options: ApplyOptions { cut, pick },
    })
}

// What is found of a command asks.
fn command_of<'a>(verb: Verb, matches: &ArgMatches<'a>) -> Result<Command<'a>, WordsRefusal>
    ensures asks { Reads asked (asked_by verb (rows_of (found_of matches.now))) result }
    ensures small { IfOk result HasSmallNumbers }
{
    match verb {
        Verb::New => new_image(matches),
        Verb::Apply => apply(matches),
    }
}

/// The command that the words after the program's name spell.
pub fn read_command<'a>(alloc: Global, words: &'a [String]) -> Result<Command<'a>, WordsRefusal>
    ensures asks { ReadsOrFails asked (asked_of (map string_bytes words.now)) result }
    ensures small { IfOk result HasSmallNumbers }
{
    let [word, rest @ ..] = words else {
        return Err(WordsRefusal::Unknown);
    };
    match read_first(read_verb(word), word, rest)? {
        First::Help(topic) => Ok(Command::Help(topic)),
        First::Version => Ok(Command::Version),
        First::Command(verb) => {
            let command = command_for(alloc, verb)?;
            let matches = parse_words(command, words)?;
            command_of(verb, &matches)
        }
    }
}
