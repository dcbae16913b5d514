// Files and a sink over the system. Their contracts say nothing of what they hold.
ghost use Rattle.std.specs.Prelude.{◌≡◌, ◌<◌, ◌≤◌, ◌++◌, None, length, take, OnOk, IfOk, IfErr, IfSome, IsErr, IsErrOf, MatchResult};
ghost use Rattle.std.specs.Io.KnownBytes.{Appends, Keeps};
ghost use Rattle.mq_outside.specs.Outside.{LoadCause, LoadTakes, PutCause, SaveCause, load_limit};

use super::counts::counted;
use super::traits::{Files, LOAD_LIMIT, LoadRefusal, PutRefusal, SaveRefusal, Sink};
use std::alloc::Global;
use std::fs::File;
use std::io::{ErrorKind, Read, Write};
use std::{io, rt};

// How many bytes are read at a time.
const CHUNK: usize = 16_384;

// Takes what is left of a file, by reads into the chunk.
fn read_rest<F: Read>(
    file: &mut F,
    chunk: &mut [u8],
    bytes: &mut Vec<u8>,
) -> Result<(), LoadRefusal>
    requires short { length bytes.old.items ≤ load_limit }
    requires room { 0 < length chunk.old }
    ensures within { OnOk result (length bytes.new.items ≤ load_limit) }
    ensures over { IsErrOf result LoadRefusal.TooLong → load_limit < length bytes.new.items }
    ensures all { OnOk result (IfSome (F.remaining file.old)
        (λ rest. bytes.new.items ≡ bytes.old.items ++ rest)) }
{
    for _ in 0..u64::MAX {
        match file.read(chunk) {
            Ok(0) => return Ok(()),
            Ok(n) => {
                if bytes.extend_from_slice(&chunk[..n]).is_err() {
                    return Err(LoadRefusal::OutOfMemory);
                }
                if bytes.len() as u64 > LOAD_LIMIT {
                    return Err(LoadRefusal::TooLong);
                }
            }
            Err(e) => match e.kind() {
                ErrorKind::Interrupted => {}
                ErrorKind::OutOfMemory => return Err(LoadRefusal::OutOfMemory),
                _ => return Err(LoadRefusal::Failed),
            },
        }
    }
    Err(LoadRefusal::Failed)
}

// Takes the bytes of a reader that was to be opened.
fn read_opened<F: Read + Drop>(
    opened: io::Result<F>,
    bytes: &mut Vec<u8>,
) -> Result<(), LoadRefusal>
    requires { length bytes.old.items ≤ load_limit }
    ensures within { OnOk result (length bytes.new.items ≤ load_limit) }
    ensures over { IsErrOf result LoadRefusal.TooLong → load_limit < length bytes.new.items }
    ensures refused { IsErr opened → IsErr result × (bytes.new ≡ bytes.old) }
    ensures all { IfOk opened (λ f. OnOk result
        (IfSome (F.remaining f) (λ rest. bytes.new.items ≡ bytes.old.items ++ rest))) }
{
    match opened {
        Ok(mut file) => {
            let mut chunk = [0; CHUNK];
            read_rest(&mut file, &mut chunk, bytes)
        }
        Err(e) if e.kind() == ErrorKind::OutOfMemory => Err(LoadRefusal::OutOfMemory),
        Err(_) => Err(LoadRefusal::Failed),
    }
}

// Takes the bytes of the file with this name. On success a file was opened and read to its end.
fn read_file<R: rt::Files>(rt: &R, name: &str, bytes: &mut Vec<u8>) -> Result<(), LoadRefusal>
    requires { length bytes.old.items ≤ load_limit }
    ensures within { OnOk result (length bytes.new.items ≤ load_limit) }
    ensures over { IsErrOf result LoadRefusal.TooLong → load_limit < length bytes.new.items }
    ensures all { OnOk result ((opened : R.File) × IfSome (R.File.Read.remaining opened)
        (λ rest. bytes.new.items ≡ bytes.old.items ++ rest)) }
{
    read_opened(File::open(rt, name), bytes)
}

// Writes all the bytes. Whatever goes wrong is a fault, since the file's old bytes are gone.
fn write_whole<W: Write>(file: &mut W, bytes: &[u8]) -> Result<(), SaveRefusal>
    ensures all { OnOk result (Appends (W.contents file.old) (W.contents file.new) bytes.now) }
    ensures refusal { IfErr result (λ e. e ≡ SaveRefusal.Failed) }
{
    if file.write_all(bytes).is_err() {
        return Err(SaveRefusal::Failed);
    }
    if file.flush().is_err() {
        return Err(SaveRefusal::Failed);
    }
    Ok(())
}

// Writes all the bytes to a writer, if it could be made, and gives it back.
fn write_made<W: Write + Drop>(made: io::Result<W>, bytes: &[u8]) -> Result<W, SaveRefusal>
    ensures refused { IsErr made → IsErr result }
    ensures all { IfOk made (λ old. IfOk result
        (λ new. Appends (W.contents old) (W.contents new) bytes.now)) }
{
    match made {
        Ok(mut file) => {
            write_whole(&mut file, bytes)?;
            Ok(file)
        }
        Err(e) if e.kind() == ErrorKind::OutOfMemory => Err(SaveRefusal::OutOfMemory),
        Err(_) => Err(SaveRefusal::Failed),
    }
}

// Makes the file with this name hold the bytes, and gives it back. On success a file was made, and
// all the bytes were written to it.
fn write_file<R: rt::Files>(rt: &R, name: &str, bytes: &[u8]) -> Result<R::File, SaveRefusal>
    ensures all { IfOk result (λ new. (made : R.File) × Appends (R.File.Write.contents made)
        (R.File.Write.contents new) bytes.now) }
{
    write_made(File::create(rt, name), bytes)
}

/// The files of a runtime.
#[derive(Drop)]
pub struct RealFiles<R: rt::Files> {
    rt: R,
    faults: u64,
    taken: u64,
}

impl<R: rt::Files> RealFiles<R> {
    pub fn new(rt: R) -> RealFiles<R>
        ensures faults { (⟦<RealFiles<R> as Files>⟧.state result).faults ≡ 0 }
        ensures taken { (⟦<RealFiles<R> as Files>⟧.state result).taken ≡ 0 }
        ensures contents { (⟦<RealFiles<R> as Files>⟧.state result).contents ≡ None }
    {
        RealFiles {
            rt,
            faults: 0,
            taken: 0,
        }
    }
}

impl<R: rt::Files> Files for RealFiles<R> {
    ghost state = { λ f. record { contents = None; faults = f.faults; taken = f.taken; tried = None } };

    fn load(&mut self, alloc: Global, name: &str) -> Result<Vec<u8>, LoadRefusal>
        ensures within { IfOk result (λ v. length v.items ≤ load_limit) }
        ensures cause { LoadCause result self.old.faults self.new.faults }
        ensures takes { LoadTakes result self.old.taken self.new.taken }
        ensures all { IfOk result (λ v. (opened : R.File) × IfSome (R.File.Read.remaining opened)
            (λ rest. v.items ≡ rest)) }
    {
        let mut bytes = Vec::new(alloc);
        let answer = read_file(&self.rt, name, &mut bytes);
        self.taken = self.taken.saturating_add(bytes.len() as u64);
        match answer {
            Ok(()) => Ok(bytes),
            Err(LoadRefusal::Failed) => {
                self.faults = counted(self.faults);
                Err(LoadRefusal::Failed)
            }
            Err(refusal) => Err(refusal),
        }
    }

    fn save(&mut self, name: &str, bytes: &[u8]) -> Result<(), SaveRefusal>
        ensures cause { SaveCause result self.old.faults self.new.faults }
        ensures takes { self.new.taken ≡ self.old.taken }
        ensures all { OnOk result ((made : R.File) × (left : R.File)
            × Appends (R.File.Write.contents made) (R.File.Write.contents left) bytes.now) }
    {
        match write_file(&self.rt, name, bytes) {
            Ok(_) => Ok(()),
            Err(SaveRefusal::Failed) => {
                self.faults = counted(self.faults);
                Err(SaveRefusal::Failed)
            }
            Err(SaveRefusal::OutOfMemory) => Err(SaveRefusal::OutOfMemory),
        }
    }
}

// Writes the first bytes of the piece.
fn write_some<W: Write>(writer: &mut W, bytes: &[u8]) -> Result<usize, PutRefusal>
    ensures some { IfOk result (λ n. (1 ≤ n) × (n ≤ length bytes.now)) }
    ensures wrote { MatchResult result (λ n. Appends (W.contents writer.old) (W.contents writer.new)
        (take n bytes.now)) (λ _. Keeps (W.contents writer.old) (W.contents writer.new)) }
{
    for _ in 0..u64::MAX {
        match writer.write(bytes) {
            Ok(0) => return Err(PutRefusal::Failed),
            Ok(n) => return Ok(n),
            Err(e) => match e.kind() {
                ErrorKind::Interrupted => {}
                ErrorKind::OutOfMemory => return Err(PutRefusal::OutOfMemory),
                _ => return Err(PutRefusal::Failed),
            },
        }
    }
    Err(PutRefusal::Failed)
}

/// A writer of std, as standard output. A write that accepts no byte is a fault.
#[derive(Drop)]
pub struct RealSink<W: Write> {
    writer: W,
    faults: u64,
}

impl<W: Write> RealSink<W> {
    pub fn new(writer: W) -> RealSink<W>
        ensures faults { (⟦<RealSink<W> as Sink>⟧.state result).faults ≡ 0 }
        ensures contents { (⟦<RealSink<W> as Sink>⟧.state result).contents ≡ None }
    {
        RealSink { writer, faults: 0 }
    }
}

impl<W: Write> Sink for RealSink<W> {
    ghost state = { λ s. record { contents = None; faults = s.faults } };

    fn put(&mut self, bytes: &[u8]) -> Result<usize, PutRefusal>
        requires { 0 < length bytes.now }
        ensures some { IfOk result (λ n. (1 ≤ n) × (n ≤ length bytes.now)) }
        ensures wrote { MatchResult result (λ n. Appends (W.contents self.old.writer)
            (W.contents self.new.writer) (take n bytes.now))
            (λ _. Keeps (W.contents self.old.writer) (W.contents self.new.writer)) }
        ensures cause { PutCause result self.old.faults self.new.faults }
    {
        match write_some(&mut self.writer, bytes) {
            Ok(n) => Ok(n),
            Err(PutRefusal::Failed) => {
                self.faults = counted(self.faults);
                Err(PutRefusal::Failed)
            }
            Err(PutRefusal::OutOfMemory) => Err(PutRefusal::OutOfMemory),
        }
    }
}
