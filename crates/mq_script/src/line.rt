// A line: a request, or the end of a group.
ghost use Rattle.std.specs.Prelude.{◌≡◌};
ghost use Rattle.std.specs.List.{list_all};
ghost use Rattle.mq_block_text.specs.Words.{is_plain};
ghost use Rattle.mq_script.specs.Answers.{Agrees};
ghost use Rattle.mq_script.specs.Lines.{a_path, two_paths, a_path_and_a_number, a_path_and_two_numbers};
ghost use Rattle.mq_script.specs.Lines.{a_path_a_number_and_data, an_end, arguments_in, line_in};
ghost use Rattle.mq_script.specs.Words.{words_after};

use crate::data::read_data;
use crate::group::End;
use crate::path::read_path;
use crate::refusal::{LineRefusal, ScriptCause};
use crate::verb::{Verb, read_verb};
use crate::words::{cut_word, one_word, three_words, two_words, two_words_and_rest};
use mq_block_text::number_of;
use mq_tree::{Bytes, Path, Request};
use std::alloc::Global;

/// What a line says.
#[derive(Drop)]
pub enum Line {
    Asks(Request),
    Ends(End),
}

fn read_one_path(alloc: Global, rest: Option<&[u8]>) -> Result<Path, LineRefusal>
    ensures { Agrees (a_path (words_after rest.entry)) result }
{
    let Some(path) = one_word(rest) else {
        return Err(LineRefusal::Cause(ScriptCause::Arguments));
    };
    read_path(alloc, path)
}

fn read_two_paths(alloc: Global, rest: Option<&[u8]>) -> Result<(Path, Path), LineRefusal>
    ensures { Agrees (two_paths (words_after rest.entry)) result }
{
    let Some((from, to)) = two_words(rest) else {
        return Err(LineRefusal::Cause(ScriptCause::Arguments));
    };
    let from = read_path(alloc, from)?;
    let to = read_path(alloc, to)?;
    Ok((from, to))
}

fn read_path_and_number(alloc: Global, rest: Option<&[u8]>) -> Result<(Path, u64), LineRefusal>
    ensures { Agrees (a_path_and_a_number (words_after rest.entry)) result }
{
    let Some((path, number)) = two_words(rest) else {
        return Err(LineRefusal::Cause(ScriptCause::Arguments));
    };
    let path = read_path(alloc, path)?;
    match number_of(number) {
        Some(number) => Ok((path, number)),
        None => Err(LineRefusal::Cause(ScriptCause::Number)),
    }
}

fn read_path_and_numbers(
    alloc: Global,
    rest: Option<&[u8]>,
) -> Result<(Path, u64, u64), LineRefusal>
    ensures { Agrees (a_path_and_two_numbers (words_after rest.entry)) result }
{
    let Some((path, from, count)) = three_words(rest) else {
        return Err(LineRefusal::Cause(ScriptCause::Arguments));
    };
    let path = read_path(alloc, path)?;
    let Some(from) = number_of(from) else {
        return Err(LineRefusal::Cause(ScriptCause::Number));
    };
    match number_of(count) {
        Some(count) => Ok((path, from, count)),
        None => Err(LineRefusal::Cause(ScriptCause::Number)),
    }
}

fn read_path_number_and_data(
    alloc: Global,
    rest: Option<&[u8]>,
) -> Result<(Path, u64, Bytes), LineRefusal>
    ensures { Agrees (a_path_a_number_and_data (words_after rest.entry)) result }
{
    let Some((path, number, bytes)) = two_words_and_rest(rest) else {
        return Err(LineRefusal::Cause(ScriptCause::Arguments));
    };
    let path = read_path(alloc, path)?;
    let Some(number) = number_of(number) else {
        return Err(LineRefusal::Cause(ScriptCause::Number));
    };
    let bytes = read_data(alloc, bytes)?;
    Ok((path, number, bytes))
}

/// A request of this kind, or this end.
fn read_arguments(alloc: Global, verb: Verb, rest: Option<&[u8]>) -> Result<Line, LineRefusal>
    ensures { Agrees (arguments_in verb (words_after rest.entry)) result }
{
    let request = match verb {
        Verb::Mkdir => Request::Mkdir(read_one_path(alloc, rest)?),
        Verb::Create => Request::Create(read_one_path(alloc, rest)?),
        Verb::Unlink => Request::Unlink(read_one_path(alloc, rest)?),
        Verb::Rmdir => Request::Rmdir(read_one_path(alloc, rest)?),
        Verb::List => Request::List(read_one_path(alloc, rest)?),
        Verb::Stat => Request::Stat(read_one_path(alloc, rest)?),
        Verb::Write => {
            let (path, offset, bytes) = read_path_number_and_data(alloc, rest)?;
            Request::Write(path, offset, bytes)
        }
        Verb::Truncate => {
            let (path, size) = read_path_and_number(alloc, rest)?;
            Request::Truncate(path, size)
        }
        Verb::Rename => {
            let (from, to) = read_two_paths(alloc, rest)?;
            Request::Rename(from, to)
        }
        Verb::Link => {
            let (from, to) = read_two_paths(alloc, rest)?;
            Request::Link(from, to)
        }
        Verb::Read => {
            let (path, offset, count) = read_path_and_numbers(alloc, rest)?;
            Request::Read(path, offset, count)
        }
        Verb::Fsync => return read_end(End::Fsync, rest),
        Verb::Fatomic => return read_end(End::Fatomic, rest),
        Verb::Ask => return read_end(End::Ask, rest),
    };
    Ok(Line::Asks(request))
}

/// The end of a group, with nothing after it.
fn read_end(end: End, rest: Option<&[u8]>) -> Result<Line, LineRefusal>
    ensures { Agrees (an_end end (words_after rest.entry)) result }
{
    match rest {
        Some(_) => Err(LineRefusal::Cause(ScriptCause::Arguments)),
        None => Ok(Line::Ends(end)),
    }
}

/// Whether all bytes are spaces or visible characters of ASCII.
fn are_plain(text: &[u8]) -> bool
    ensures { result ≡ list_all is_plain text.now }
{
    text.iter().all(|b| *b >= b' ' && *b <= b'~')
}

/// What a line says.
pub fn read_line(alloc: Global, text: &[u8]) -> Result<Line, LineRefusal>
    ensures { Agrees (line_in text.now) result }
{
    if !are_plain(text) {
        return Err(LineRefusal::Cause(ScriptCause::Bytes));
    }
    let (word, rest) = cut_word(text);
    match read_verb(word) {
        Some(verb) => read_arguments(alloc, verb, rest),
        None => Err(LineRefusal::Cause(ScriptCause::Verb)),
    }
}
