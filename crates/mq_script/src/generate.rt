// The scripts of a generated workload.
ghost use Rattle.std.specs.Prelude.{◌≡◌, ◌∷◌, [], ◌<◌, ◌≤◌, ◌^◌, IfOk, decimal};
ghost use Rattle.mq_script.specs.Workloads.{directory_of, file_of, generator_of, requests_of, end_of, script_of, workload_of};

use crate::group::{End, Group, Script};
use itoa::Buffer;
use mq_blocks::OutOfMemory;
use mq_tree::{Bytes, Name, Path, Request};
use rand_core::SeedableRng;
use rand_core::utils::NextWord;
use rand_pcg::Lcg128Xsl64;
use std::alloc::Global;

/// A letter and a number.
fn numbered(alloc: Global, letter: u8, number: u64) -> Result<Name, OutOfMemory>
    ensures { IfOk result (λ name. name ≡ letter ∷ decimal number) }
{
    let mut digits = Buffer::new();
    let mut name = Vec::new(alloc);
    name.push(letter)?;
    name.extend_from_slice(digits.format(number).as_bytes())?;
    Ok(Name(name))
}

/// The path of a thread's directory.
fn directory(alloc: Global, thread: u32) -> Result<Path, OutOfMemory>
    ensures { IfOk result (λ path. path ≡ directory_of thread) }
{
    let mut names = Vec::new(alloc);
    names.push(numbered(alloc, b't', u64::from(thread))?)?;
    Ok(Path(names))
}

/// The path of a file in the directory of a thread.
fn file(alloc: Global, thread: u32, number: u64) -> Result<Path, OutOfMemory>
    ensures { IfOk result (λ path. path ≡ file_of thread number) }
{
    let mut names = Vec::new(alloc);
    names.push(numbered(alloc, b't', u64::from(thread))?)?;
    names.push(numbered(alloc, b'f', number)?)?;
    Ok(Path(names))
}

/// The requests that a word chooses.
fn chosen(alloc: Global, thread: u32, word: u64) -> Result<Vec<Request>, OutOfMemory>
    ensures { IfOk result (λ v. v.items ≡ requests_of thread word) }
{
    let number = word % 16;
    let count = word / 64 % 9000;
    let path = file(alloc, thread, number)?;
    let mut requests = Vec::new(alloc);
    match word / 16 % 4 {
        0 | 1 => {
            let byte = (word / (1 << 40) % 256) as u8;
            let bytes = Vec::from_elem(alloc, byte, count as usize)?;
            requests.push(Request::Create(path))?;
            let path = file(alloc, thread, number)?;
            let offset = word / (1 << 20) % 20_000;
            requests.push(Request::Write(path, offset, Bytes(bytes)))?;
        }
        2 => requests.push(Request::Truncate(path, count))?,
        _ => requests.push(Request::Unlink(path))?,
    }
    Ok(requests)
}

fn end_at(number: u32, groups: u32) -> End
    ensures { result ≡ end_of number groups }
{
    if number % 4 == 0 || number == groups {
        End::Fsync
    } else {
        End::Fatomic
    }
}

/// The script of a thread.
fn thread_script(alloc: Global, seed: u64, thread: u32, groups: u32) -> Result<Script, OutOfMemory>
    ensures { IfOk result (λ s. s ≡ script_of seed thread groups) }
{
    let mut rng = Lcg128Xsl64::seed_from_u64(seed.wrapping_add(u64::from(thread)));
    let mut first = Vec::new(alloc);
    first.push(Request::Mkdir(directory(alloc, thread)?))?;
    let mut all = Vec::new(alloc);
    all.push(Group {
        requests: first,
        end: End::Fsync,
    })?;
    for number in 0..groups {
        let requests = chosen(alloc, thread, rng.next_word())?;
        let end = end_at(number + 1, groups);
        all.push(Group { requests, end })?;
    }
    Ok(Script { groups: all })
}

/// A script for each thread, by a generator of its own.
pub fn workload(
    alloc: Global,
    seed: u64,
    threads: u32,
    groups: u32,
) -> Result<Vec<Script>, OutOfMemory>
    ensures { IfOk result (λ v. v.items ≡ workload_of seed threads groups) }
{
    let mut scripts = Vec::new(alloc);
    for thread in 0..threads {
        scripts.push(thread_script(alloc, seed, thread, groups)?)?;
    }
    Ok(scripts)
}
