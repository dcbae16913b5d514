//! Follows tables of cases: calls of the programs `mqfs` and `mq_kv_tool` over files and an output in memory, and
//! what each of them comes to. The tables are the files that the program's words name.
#![tactic(auto)]

mod table;

use crate::table::Table;
use std::io::{BufWriter, Write};
use std::rt::Files;
use std::sync::Wait;
use std::thread::Threads;
use std::{env, fs, io};

/// Writes what the lines of one table come to, under a heading with the table's name.
fn follow_table<R: Files + Threads + Wait + Sync + AllocGlobal, W: Write>(
    rt: &R,
    name: &str,
    out: &mut W,
) -> io::Result<()> {
    let text = fs::read_to_string(rt, name)?;
    let mut table = Table::new(rt.alloc());
    let heading = format!(in rt.alloc(); "table {name}\n")?;
    out.write_all(heading.as_bytes())?;
    for line in text.lines() {
        let said = table.follow(rt, line)?;
        out.write_all(said.as_bytes())?;
    }
    Ok(())
}

fn main(rt: HostRuntime) -> io::Result<()> {
    let mut out = BufWriter::new(rt.alloc(), rt.stdout())?;
    for name in env::args(&rt)?.skip(1) {
        follow_table(&rt, name.as_str(), &mut out)?;
    }
    out.flush()
}
