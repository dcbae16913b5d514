//! The program `mqfs`: its words, its files and its standard output, handed to the library.
#![tactic(auto)]

use mq_calls::Open;
use mq_command_io::say_memory;
use mq_outside::{RealFiles, RealSink};
use mqfs::mqfs;
use std::io::ErrorKind;
use std::process::ExitCode;
use std::rt::Env;
use std::{env, io};

/// The words after the program's name. A word that is not UTF-8 is an error.
fn words_after_name<R: Env + AllocGlobal>(rt: &R) -> io::Result<Vec<String>> {
    let mut words = Vec::new(rt.alloc());
    for word in env::args(rt)?.skip(1) {
        words.push(word)?;
    }
    Ok(words)
}

fn main(rt: HostRuntime) -> ExitCode {
    let mut files = RealFiles::new(&rt);
    let mut out = RealSink::new(rt.stdout());
    let words = match words_after_name(&rt) {
        Ok(words) => words,
        Err(e) if e.kind() == ErrorKind::OutOfMemory => return ExitCode::from(say_memory(&mut out)),
        // A word that is not text is no command, and neither is no word.
        Err(_) => Vec::new(rt.alloc()),
    };
    let status = mqfs(&rt, rt.alloc(), &words, &mut files, &mut out, &Open);
    ExitCode::from(status)
}
