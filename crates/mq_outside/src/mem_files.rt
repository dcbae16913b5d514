// Files in memory.
ghost use Rattle.std.specs.Prelude.{◌≡◌, ◌≢◌, ◌+◌, ◌≤◌, ◌↔◌, ◌⊎◌, ◌==◌, true, [], length, min, None, Some, IfOk, IsErrOf, MatchResult};
ghost use Rattle.std.specs.List.{list_any};
ghost use Rattle.std.specs.Option.{option_map};
ghost use Rattle.mq_outside.specs.Outside.{CopyRefused, Holds, LoadCause, LoadRefused, LoadTakes, SaveCause, Saves, count_end, Tells, held_in, load_limit, certain_in};

use super::counts::Schedule;
use super::names;
use super::names::Named;
use super::traits::{Files, LOAD_LIMIT, LoadRefusal, SaveRefusal};
use std::alloc::Global;

// A copy of what a name holds, and its bytes counted as taken.
fn take_copy(taken: &mut u64, alloc: Global, bytes: &[u8]) -> Result<Vec<u8>, LoadRefusal>
    ensures gives { MatchResult result (λ v. v.items ≡ bytes.now) (λ e. CopyRefused e bytes.now) }
    ensures within { IfOk result (λ v. length v.items ≤ load_limit) }
    ensures takes { LoadTakes result taken.old taken.new }
{
    let count = bytes.len() as u64;
    *taken = taken.saturating_add(count);
    if count > LOAD_LIMIT {
        return Err(LoadRefusal::TooLong);
    }
    match Vec::from_slice(alloc, bytes) {
        Ok(copy) => Ok(copy),
        Err(_) => Err(LoadRefusal::OutOfMemory),
    }
}

/// Files in memory, of which chosen calls fail. A load of an absent name fails, too.
#[derive(Drop)]
pub struct MemFiles {
    alloc: Global,
    entries: Vec<Named>,
    schedule: Schedule,
    taken: u64,
}

impl MemFiles {
    /// Files with these names and their bytes; of two with one name, the first counts. `fail` lists
    /// the calls that have to fail, counted from 1 over loads and saves alike.
    pub fn new(alloc: Global, names: Vec<(String, Vec<u8>)>, fail: Vec<u64>) -> MemFiles
        ensures contents { (⟦<MemFiles as Files>⟧.state result).contents ≡ Some (held_in names.items) }
        ensures fail { result.schedule.fail ≡ fail }
        ensures calls { result.schedule.calls ≡ 0 }
        ensures faults { (⟦<MemFiles as Files>⟧.state result).faults ≡ 0 }
        ensures taken { (⟦<MemFiles as Files>⟧.state result).taken ≡ 0 }
    {
        MemFiles {
            alloc,
            entries: names,
            schedule: Schedule::new(fail),
            taken: 0,
        }
    }

    /// What the name holds.
    pub fn get(&self, name: &str) -> Option<&[u8]>
        ensures { Tells (⟦<MemFiles as Files>⟧.state self.now).contents name.now
            (option_map (λ bytes. bytes.now) result) }
    {
        names::held(self.entries.as_slice(), name)
    }
}

impl Files for MemFiles {
    ghost state = { λ f. record {
      contents = Some (held_in f.entries.items);
      faults = f.schedule.faults;
      taken = f.taken;
      tried = None;
    } };

    fn load(&mut self, alloc: Global, name: &str) -> Result<Vec<u8>, LoadRefusal>
        ensures gives { MatchResult result (λ v. Holds
            (Some (held_in self.old.entries.items)) name.now v.items)
            (λ e. LoadRefused e (Some (held_in self.old.entries.items)) name.now) }
        ensures within { IfOk result (λ v. length v.items ≤ load_limit) }
        ensures cause { LoadCause result self.old.schedule.faults self.new.schedule.faults }
        ensures takes { LoadTakes result self.old.taken self.new.taken }
        ensures names { self.new.entries.items ≡ self.old.entries.items }
        ensures failed { IsErrOf result LoadRefusal.Failed
            ↔ ((list_any (λ n. n == self.new.schedule.calls) self.old.schedule.fail.items ≡ true)
            ⊎ (held_in self.old.entries.items name.now ≡ None)) }
        ensures calls { self.new.schedule.calls ≡ min (self.old.schedule.calls + 1) count_end }
        ensures fail { self.new.schedule.fail ≡ self.old.schedule.fail }
    {
        if self.schedule.call() {
            return Err(LoadRefusal::Failed);
        }
        match names::held(self.entries.as_slice(), name) {
            Some(bytes) => take_copy(&mut self.taken, alloc, bytes),
            None => {
                self.schedule.count_fault();
                Err(LoadRefusal::Failed)
            }
        }
    }

    fn save(&mut self, name: &str, bytes: &[u8]) -> Result<(), SaveRefusal>
        ensures names { Saves result (Some (held_in self.old.entries.items))
            (Some (held_in self.new.entries.items)) name.now bytes.now }
        ensures cause { SaveCause result self.old.schedule.faults self.new.schedule.faults }
        ensures takes { self.new.taken ≡ self.old.taken }
        ensures failed { IsErrOf result SaveRefusal.Failed
            ↔ (list_any (λ n. n == self.new.schedule.calls) self.old.schedule.fail.items ≡ true) }
        ensures calls { self.new.schedule.calls ≡ min (self.old.schedule.calls + 1) count_end }
        ensures fail { self.new.schedule.fail ≡ self.old.schedule.fail }
    {
        if self.schedule.call() {
            return Err(SaveRefusal::Failed);
        }
        match names::put(&mut self.entries, self.alloc, name, bytes) {
            Ok(()) => Ok(()),
            Err(_) => Err(SaveRefusal::OutOfMemory),
        }
    }
}

/// Files in memory whose calls never fail: each name holds bytes, none until it is saved.
#[derive(Drop)]
pub struct SureFiles {
    alloc: Global,
    entries: Vec<Named>,
    taken: u64,
}

impl SureFiles {
    /// Files of which every name holds no bytes yet.
    pub fn new(alloc: Global) -> SureFiles
        ensures contents { (⟦<SureFiles as Files>⟧.state result).contents ≡ Some (λ _. Some []) }
        ensures taken { (⟦<SureFiles as Files>⟧.state result).taken ≡ 0 }
    {
        SureFiles {
            alloc,
            entries: Vec::new(alloc),
            taken: 0,
        }
    }

    /// What the name holds.
    pub fn get(&self, name: &str) -> Option<&[u8]>
        ensures { Tells (⟦<SureFiles as Files>⟧.state self.now).contents name.now
            (option_map (λ bytes. bytes.now) result) }
    {
        Some(names::held(self.entries.as_slice(), name).unwrap_or(&[]))
    }
}

impl Files for SureFiles {
    ghost state = { λ f. record {
      contents = Some (certain_in f.entries.items);
      faults = 0;
      taken = f.taken;
      tried = None;
    } };

    fn load(&mut self, alloc: Global, name: &str) -> Result<Vec<u8>, LoadRefusal> {
        let bytes = names::held(self.entries.as_slice(), name).unwrap_or(&[]);
        take_copy(&mut self.taken, alloc, bytes)
    }

    fn save(&mut self, name: &str, bytes: &[u8]) -> Result<(), SaveRefusal> {
        match names::put(&mut self.entries, self.alloc, name, bytes) {
            Ok(()) => Ok(()),
            Err(_) => Err(SaveRefusal::OutOfMemory),
        }
    }
}
