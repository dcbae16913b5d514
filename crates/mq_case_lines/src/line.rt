// The lines of a table, and what each of them asks.
use crate::spelled::{repeated, unescaped, words_of};
use std::alloc::{AllocError, AllocFailed, Global};

/// What a line asks.
#[derive(Drop)]
pub enum Line {
    /// Nothing: an empty line, or one that begins with `#`.
    Nothing,
    /// A new case, in which no file is there.
    Case,
    /// That loads and saves of the case fail, by their numbers from 1.
    Fail(Vec<u64>),
    /// That puts of the next call fail, by their numbers from 1.
    Puts(Vec<u64>),
    /// That a file changes.
    Change(Change),
    /// That calls are of this program from here on.
    Program(Program),
    /// A call of the program with these words.
    Call { words: Vec<String>, shown: Shown },
    /// What is said of files.
    Question(Question),
}

/// How a file changes.
#[derive(Drop)]
pub enum Change {
    /// It has these bytes.
    Make {
        name: String,
        bytes: Vec<u8>,
    },
    /// These bytes stand over its own, from an offset on.
    Edit {
        name: String,
        offset: usize,
        bytes: Vec<u8>,
    },
    /// It is a copy of another one, or of the first bytes of that.
    Copy {
        from: String,
        to: String,
        count: Option<usize>,
    },
}

/// What is asked of files.
#[derive(Drop)]
pub enum Question {
    /// Whether two of them have the same bytes.
    Same {
        one: String,
        other: String,
    },
    /// The length and the sum of one.
    Told(String),
    /// Bytes of one, from an offset on.
    Bytes {
        name: String,
        offset: usize,
        count: usize,
    },
}

/// A program that is called.
#[derive(Clone, Copy)]
pub enum Program {
    /// `mqfs`.
    FileSystem,
    /// `mq_kv_tool`.
    Store,
}

/// What is printed of the output of a call.
#[derive(Clone, Copy)]
pub enum Shown {
    /// All of it.
    Whole,
    /// Its last line.
    LastLine,
}

/// Why a line is not followed.
#[derive(Drop, PartialEq)]
pub enum LineRefusal {
    /// Its first word is none of a table's.
    Verb,
    /// Its other words are fewer or more than its first word has, or one of them is not in its form.
    Form,
    /// It does not stand right after its case.
    Late,
    /// It names a file that is not there, or bytes past a file's end.
    Place,
    /// The case asks that this change of a file fails.
    Save,
    /// The memory doesn't suffice.
    OutOfMemory,
}

impl From<AllocError> for LineRefusal {
    fn from(_: AllocError) -> Self {
        LineRefusal::OutOfMemory
    }
}

impl<T: Drop> From<AllocFailed<T>> for LineRefusal {
    fn from(_: AllocFailed<T>) -> Self {
        LineRefusal::OutOfMemory
    }
}

// The number that a word spells.
fn number(word: &str) -> Result<usize, LineRefusal> {
    match word.parse::<usize>() {
        Ok(number) => Ok(number),
        Err(_) => Err(LineRefusal::Form),
    }
}

// The numbers of a line: at least one.
fn numbers(alloc: Global, text: &str) -> Result<Vec<u64>, LineRefusal> {
    let mut numbers = Vec::new(alloc);
    for word in text.split_whitespace() {
        match word.parse::<u64>() {
            Ok(number) => numbers.push(number)?,
            Err(_) => return Err(LineRefusal::Form),
        }
    }
    if numbers.is_empty() {
        return Err(LineRefusal::Form);
    }
    Ok(numbers)
}

// The bytes of hexadecimal digits: at least one.
fn hex_bytes(alloc: Global, digits: &str) -> Result<Vec<u8>, LineRefusal> {
    match hex::decode(alloc, digits) {
        Ok(bytes) if !bytes.is_empty() => Ok(bytes),
        _ => Err(LineRefusal::Form),
    }
}

// The one byte of two hexadecimal digits.
fn hex_byte(alloc: Global, digits: &str) -> Result<u8, LineRefusal> {
    let bytes = hex_bytes(alloc, digits)?;
    match bytes.as_slice() {
        [byte] => Ok(*byte),
        _ => Err(LineRefusal::Form),
    }
}

// A name: at least one byte, and no space.
fn name(alloc: Global, word: &str) -> Result<String, LineRefusal> {
    if word.is_empty() || word.contains(' ') {
        return Err(LineRefusal::Form);
    }
    Ok(String::from_str(alloc, word)?)
}

// The text before the first space, and the rest after it.
fn cut(text: &str) -> (&str, &str) {
    text.split_once(' ').unwrap_or((text, ""))
}

fn make(alloc: Global, rest: &str) -> Result<Line, LineRefusal> {
    let (word, text) = cut(rest);
    Ok(Line::Change(Change::Make {
        name: name(alloc, word)?,
        bytes: unescaped(alloc, text.as_bytes())?,
    }))
}

fn zeros(alloc: Global, rest: &str) -> Result<Line, LineRefusal> {
    let (word, count) = cut(rest);
    Ok(Line::Change(Change::Make {
        name: name(alloc, word)?,
        bytes: repeated(alloc, number(count)?, 0)?,
    }))
}

fn edit(alloc: Global, rest: &str) -> Result<Line, LineRefusal> {
    let (word, rest) = cut(rest);
    let (offset, digits) = cut(rest);
    Ok(Line::Change(Change::Edit {
        name: name(alloc, word)?,
        offset: number(offset)?,
        bytes: hex_bytes(alloc, digits)?,
    }))
}

fn fill(alloc: Global, rest: &str) -> Result<Line, LineRefusal> {
    let (word, rest) = cut(rest);
    let (offset, rest) = cut(rest);
    let (count, digits) = cut(rest);
    let byte = hex_byte(alloc, digits)?;
    Ok(Line::Change(Change::Edit {
        name: name(alloc, word)?,
        offset: number(offset)?,
        bytes: repeated(alloc, number(count)?, byte)?,
    }))
}

fn copy(alloc: Global, rest: &str) -> Result<Line, LineRefusal> {
    let (from, rest) = cut(rest);
    let (to, count) = cut(rest);
    let count = match count {
        "" => None,
        word => Some(number(word)?),
    };
    Ok(Line::Change(Change::Copy {
        from: name(alloc, from)?,
        to: name(alloc, to)?,
        count,
    }))
}

fn call(alloc: Global, rest: &str, shown: Shown) -> Result<Line, LineRefusal> {
    Ok(Line::Call {
        words: words_of(alloc, rest)?,
        shown,
    })
}

fn program_of(name: &str) -> Result<Line, LineRefusal> {
    match name {
        "mqfs" => Ok(Line::Program(Program::FileSystem)),
        "mq_kv_tool" => Ok(Line::Program(Program::Store)),
        _ => Err(LineRefusal::Form),
    }
}

fn same(alloc: Global, rest: &str) -> Result<Line, LineRefusal> {
    let (one, other) = cut(rest);
    Ok(Line::Question(Question::Same {
        one: name(alloc, one)?,
        other: name(alloc, other)?,
    }))
}

fn told(alloc: Global, rest: &str) -> Result<Line, LineRefusal> {
    Ok(Line::Question(Question::Told(name(alloc, rest)?)))
}

fn bytes(alloc: Global, rest: &str) -> Result<Line, LineRefusal> {
    let (word, rest) = cut(rest);
    let (offset, count) = cut(rest);
    Ok(Line::Question(Question::Bytes {
        name: name(alloc, word)?,
        offset: number(offset)?,
        count: number(count)?,
    }))
}

/// Reads a line of a table.
pub fn read_line(alloc: Global, text: &str) -> Result<Line, LineRefusal> {
    let (verb, rest) = cut(text);
    match verb {
        "case" => Ok(Line::Case),
        "fail" => Ok(Line::Fail(numbers(alloc, rest)?)),
        "puts" => Ok(Line::Puts(numbers(alloc, rest)?)),
        "program" => program_of(rest),
        "file" => make(alloc, rest),
        "zeros" => zeros(alloc, rest),
        "edit" => edit(alloc, rest),
        "fill" => fill(alloc, rest),
        "copy" => copy(alloc, rest),
        ">" => call(alloc, rest, Shown::Whole),
        "last" => call(alloc, rest, Shown::LastLine),
        "same" => same(alloc, rest),
        "told" => told(alloc, rest),
        "bytes" => bytes(alloc, rest),
        _ if text.is_empty() || text.starts_with('#') => Ok(Line::Nothing),
        _ => Err(LineRefusal::Verb),
    }
}
