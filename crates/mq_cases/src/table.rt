// Following the lines of a table.
use mq_case_lines::{Change, Line, LineRefusal, Program, Question, Shown, read_line, sum_of};
use mq_kv_tool::call_kv;
use mq_outside::{Files, MemFiles, MemSink, SaveRefusal};
use mqfs::call_mqfs;
use std::alloc::{AllocError, Global};
use std::sync::Wait;
use std::thread::Threads;

/// What lines made of a file that is saved once another line follows, so that many changes of a large
/// file cost one save.
#[derive(Drop)]
struct Draft {
    name: String,
    bytes: Vec<u8>,
}

/// The files of a case, and what is to fail in it.
#[derive(Drop)]
pub struct Table {
    alloc: Global,
    /// The program that is called.
    program: Program,
    files: MemFiles,
    draft: Option<Draft>,
    /// Whether loads and saves are to fail: then each change is saved at once.
    is_failing: bool,
    /// The puts of the next call that fail.
    puts: Vec<u64>,
    /// The number of the line that was followed last, from 1.
    line: u64,
    /// Whether that line began a case.
    is_fresh: bool,
}

// What is printed of a refusal.
fn cause_of(refusal: &LineRefusal) -> &'static str {
    match refusal {
        LineRefusal::Verb => "no such verb",
        LineRefusal::Form => "not in the form of its verb",
        LineRefusal::Late => "not right after its case",
        LineRefusal::Place => "no such file or bytes",
        LineRefusal::Save => "not saved",
        LineRefusal::OutOfMemory => "no memory",
    }
}

// Writes bytes over others from an offset on, where all those are there.
fn overwrite(held: &mut Vec<u8>, offset: usize, bytes: &[u8]) -> Result<(), LineRefusal> {
    if offset.saturating_add(bytes.len()) > held.len() {
        return Err(LineRefusal::Place);
    }
    for (k, byte) in bytes.iter().enumerate() {
        if let Some(place) = held.get_mut(offset.saturating_add(k)) {
            *place = *byte;
        }
    }
    Ok(())
}

impl Table {
    /// A table of which no line was followed.
    pub fn new(alloc: Global) -> Table {
        Table {
            alloc,
            program: Program::FileSystem,
            files: MemFiles::new(alloc, Vec::new(alloc), Vec::new(alloc)),
            draft: None,
            is_failing: false,
            puts: Vec::new(alloc),
            line: 0,
            is_fresh: false,
        }
    }

    // Forgets all files. The loads and saves with these numbers fail from now on.
    fn begin(&mut self, fail: Vec<u64>) {
        self.draft = None;
        self.is_failing = !fail.is_empty();
        self.files = MemFiles::new(self.alloc, Vec::new(self.alloc), fail);
        self.puts.clear();
    }

    fn held(&self, name: &str) -> Result<&[u8], LineRefusal> {
        match self.files.get(name) {
            Some(bytes) => Ok(bytes),
            None => Err(LineRefusal::Place),
        }
    }

    fn save(&mut self, name: &str, bytes: &[u8]) -> Result<(), LineRefusal> {
        match self.files.save(name, bytes) {
            Ok(()) => Ok(()),
            Err(SaveRefusal::Failed) => Err(LineRefusal::Save),
            Err(SaveRefusal::OutOfMemory) => Err(LineRefusal::OutOfMemory),
        }
    }

    // Saves the draft.
    fn settle(&mut self) -> Result<(), LineRefusal> {
        match self.draft.take() {
            Some(draft) => self.save(draft.name.as_str(), &draft.bytes),
            None => Ok(()),
        }
    }

    // Takes out the draft of a file, or begins one.
    fn take_draft(&mut self, name: &str) -> Result<Draft, LineRefusal> {
        if let Some(draft) = self.draft.take() {
            if draft.name.as_str() == name {
                return Ok(draft);
            }
            self.save(draft.name.as_str(), &draft.bytes)?;
        }
        let bytes = Vec::from_slice(self.alloc, self.held(name)?)?;
        let name = String::from_str(self.alloc, name)?;
        Ok(Draft { name, bytes })
    }

    fn edit(&mut self, name: &str, offset: usize, bytes: &[u8]) -> Result<(), LineRefusal> {
        let mut draft = self.take_draft(name)?;
        let went = overwrite(&mut draft.bytes, offset, bytes);
        if self.is_failing {
            went?;
            return self.save(name, &draft.bytes);
        }
        self.draft = Some(draft);
        went
    }

    fn copy(&mut self, from: &str, to: &str, count: Option<usize>) -> Result<(), LineRefusal> {
        let held = self.held(from)?;
        let kept = match count {
            None => held,
            Some(count) => match held.get(..count) {
                Some(first) => first,
                None => return Err(LineRefusal::Place),
            },
        };
        let copy = Vec::from_slice(self.alloc, kept)?;
        self.save(to, &copy)
    }

    fn change(&mut self, change: &Change) -> Result<(), LineRefusal> {
        match change {
            Change::Make { name, bytes } => {
                self.settle()?;
                self.save(name.as_str(), bytes)
            }
            Change::Edit {
                name,
                offset,
                bytes,
            } => self.edit(name.as_str(), *offset, bytes),
            Change::Copy { from, to, count } => {
                self.settle()?;
                self.copy(from.as_str(), to.as_str(), *count)
            }
        }
    }

    // Whether two files have the same bytes.
    fn same(&self, one: &str, other: &str) -> Result<String, LineRefusal> {
        let said = if self.held(one)? == self.held(other)? {
            "same"
        } else {
            "different"
        };
        Ok(format!(in self.alloc; "{said} {one} {other}\n")?)
    }

    // The length and the sum of a file, or that there is none.
    fn told(&self, name: &str) -> Result<String, LineRefusal> {
        match self.files.get(name) {
            Some(bytes) => {
                let count = bytes.len();
                let sum = sum_of(bytes);
                Ok(format!(in self.alloc; "{name} {count} {sum:016x}\n")?)
            }
            None => Ok(format!(in self.alloc; "{name} absent\n")?),
        }
    }

    // The bytes of a file in hexadecimal.
    fn bytes(&self, name: &str, offset: usize, count: usize) -> Result<String, LineRefusal> {
        let held = self.held(name)?;
        let Some(rest) = held.get(offset..) else {
            return Err(LineRefusal::Place);
        };
        let Some(bytes) = rest.get(..count) else {
            return Err(LineRefusal::Place);
        };
        let digits = hex::encode(self.alloc, bytes)?;
        Ok(format!(in self.alloc; "bytes {name} {offset} {digits}\n")?)
    }

    fn answer(&self, question: &Question) -> Result<String, LineRefusal> {
        match question {
            Question::Same { one, other } => self.same(one.as_str(), other.as_str()),
            Question::Told(name) => self.told(name.as_str()),
            Question::Bytes {
                name,
                offset,
                count,
            } => self.bytes(name.as_str(), *offset, *count),
        }
    }

    // Calls the program: the line, what is shown of the output, and the status.
    fn call<R: Threads + Wait + Sync>(
        &mut self,
        rt: &R,
        text: &str,
        words: &[String],
        shown: Shown,
    ) -> Result<String, LineRefusal> {
        let mut out = MemSink::new(self.alloc, Vec::from_slice(self.alloc, &self.puts)?);
        let status = match self.program {
            Program::FileSystem => call_mqfs(rt, self.alloc, words, &mut self.files, &mut out),
            Program::Store => call_kv(rt, self.alloc, words, &mut self.files, &mut out),
        };
        self.puts.clear();
        let output = String::from_utf8_lossy(self.alloc, out.written())?;
        match shown {
            Shown::Whole => Ok(format!(in self.alloc; "{text}\n{output}status {status}\n")?),
            Shown::LastLine => {
                let last = output.lines().last().unwrap_or("");
                Ok(format!(in self.alloc; "{text}\n{last}\nstatus {status}\n")?)
            }
        }
    }

    // Does what a line asks, and gives what is printed of it.
    fn act<R: Threads + Wait + Sync>(&mut self, rt: &R, text: &str) -> Result<String, LineRefusal> {
        let was_fresh = self.is_fresh;
        self.is_fresh = false;
        match read_line(self.alloc, text)? {
            Line::Nothing => self.is_fresh = was_fresh,
            Line::Case => {
                self.begin(Vec::new(self.alloc));
                self.is_fresh = true;
                return Ok(format!(in self.alloc; "\n{text}\n")?);
            }
            Line::Fail(_) if !was_fresh => return Err(LineRefusal::Late),
            Line::Fail(calls) => self.begin(calls),
            Line::Puts(puts) => self.puts = puts,
            Line::Program(program) => self.program = program,
            Line::Change(change) => self.change(&change)?,
            Line::Call { words, shown } => {
                self.settle()?;
                return self.call(rt, text, &words, shown);
            }
            Line::Question(question) => {
                self.settle()?;
                return self.answer(&question);
            }
        }
        Ok(String::new(self.alloc))
    }

    /// Does what a line asks, and gives what is printed of it. A line that is not followed is printed with
    /// its number and the cause.
    pub fn follow<R: Threads + Wait + Sync>(
        &mut self,
        rt: &R,
        text: &str,
    ) -> Result<String, AllocError> {
        self.line = self.line.saturating_add(1);
        match self.act(rt, text) {
            Ok(said) => Ok(said),
            Err(LineRefusal::OutOfMemory) => Err(AllocError),
            Err(refusal) => {
                let line = self.line;
                let cause = cause_of(&refusal);
                format!(in self.alloc; "line {line}, {cause}: {text}\n")
            }
        }
    }
}
