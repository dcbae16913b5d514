// Words as `clap` reads them.
ghost use Rattle.std.specs.Prelude.{◌≡◌, ◌≢◌, ◌⊎◌, [], true, IfErr, IfOk, None, map, option_map};
ghost use Rattle.std.specs.String.{string_bytes};
ghost use Rattle.clap.specs.Words.{app_of, fault_of, found_of, is_simple, is_simple_and_free, kind_of, matches_of, rows_of};
ghost use Rattle.mq_cli.specs.Syntax.{app_for, app_with};

use crate::refusal::WordsRefusal;
use crate::syntax::{names, options, repeated};
use crate::verb::Verb;
use clap::error::ErrorKind;
use clap::{Arg, ArgAction, ArgMatches, Command};
use std::alloc::{AllocError, Global};

// A command with these names, each of which has to stand as one word, and no option.
fn with_names<'a>(
    alloc: Global,
    verb: &'a str,
    names: &[&'a str],
) -> Result<Command<'a>, AllocError>
    ensures { IfOk result (λ c. app_of c ≡ app_with verb.now (map (λ s. s.now) names.now) None []) }
{
    let mut command = Command::new(alloc, verb).disable_help_flag(true);
    for name in names {
        let name = Arg::new(alloc, name).required(true).action(ArgAction::Set);
        command = command.arg(name)?;
    }
    Ok(command)
}

// The same with a last name, if there is one, which has to stand as one word or more.
fn with_all_names<'a>(
    alloc: Global,
    verb: &'a str,
    names: &[&'a str],
    repeated: Option<&'a str>,
) -> Result<Command<'a>, AllocError>
    ensures { IfOk result (λ c. app_of c ≡ app_with verb.now (map (λ s. s.now) names.now)
        (option_map (λ s. s.now) repeated.entry) []) }
{
    let command = with_names(alloc, verb, names)?;
    match repeated {
        None => Ok(command),
        Some(name) => {
            let name = Arg::new(alloc, name)
                .required(true)
                .action(ArgAction::Append);
            command.arg(name)
        }
    }
}

/// A command with these names and options, each option with a value.
pub fn with_words<'a>(
    alloc: Global,
    verb: &'a str,
    names: &[&'a str],
    repeated: Option<&'a str>,
    options: &[&'a str],
) -> Result<Command<'a>, AllocError>
    ensures { IfOk result (λ c. app_of c ≡ app_with verb.now (map (λ s. s.now) names.now)
        (option_map (λ s. s.now) repeated.entry) (map (λ s. s.now) options.now)) }
{
    let mut command = with_all_names(alloc, verb, names, repeated)?;
    for option in options {
        let option = Arg::new(alloc, option).long(option).action(ArgAction::Set);
        command = command.arg(option)?;
    }
    Ok(command)
}

/// The command of a verb.
pub fn command_for<'a>(alloc: Global, verb: Verb) -> Result<Command<'a>, AllocError>
    ensures { IfOk result (λ c. app_of c ≡ app_for verb) }
{
    with_words(
        alloc,
        verb.name(),
        names(verb),
        repeated(verb),
        options(verb),
    )
}

/// What `clap` finds in words, of which the first is the command's name.
pub fn parse_words<'a>(
    command: Command<'a>,
    words: &'a [String],
) -> Result<ArgMatches<'a>, WordsRefusal>
    requires free { is_simple_and_free (app_of command) ≡ true }
    requires simple { is_simple (app_of command) ≡ true }
    ensures taken { IfOk result (λ _. fault_of (app_of command.entry) (map string_bytes words.now) ≡ []) }
    ensures rows { IfOk result (λ m. rows_of (found_of m) ≡ matches_of (app_of command.entry)
        (map string_bytes words.now)) }
    ensures refused { IfErr result (λ e. (e ≡ WordsRefusal.OutOfMemory) ⊎ ((e ≡ WordsRefusal.Unknown)
        × (fault_of (app_of command.entry) (map string_bytes words.now) ≢ []))) }
{
    match command.try_get_matches_from(words) {
        Ok(matches) => Ok(matches),
        Err(error) => match error.kind() {
            ErrorKind::OutOfMemory => Err(WordsRefusal::OutOfMemory),
            _ => Err(WordsRefusal::Unknown),
        },
    }
}
