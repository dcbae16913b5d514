// The names of a directory, as a map.
ghost use Rattle.std.specs.Prelude.{◌≡◌, ◌≢◌, IfOk, [], length, map};
ghost use Rattle.std.specs.Bool.{MatchBool};
ghost use Rattle.mq_tree.specs.Directories.{Adds, Has, Leads};
ghost use Rattle.mq_tree.specs.ListText.{entries_in, entry_of_link};
ghost use Rattle.mq_tree.specs.Volume.{find};

use crate::slots::Link;
use mq_blocks::OutOfMemory;
use std::alloc::Global;
use std::collections::BTreeMap;
use std::marker::Model;

/// The inodes under the names of a directory, in rising order of names.
#[derive(Drop)]
pub struct Directory {
    links: BTreeMap<Vec<u8>, u32>,
}

impl Model for Directory {
    ghost use Rattle.std.specs.Prelude.{List, Option};
    ghost use Rattle.mq_layout.specs.Slots.{Entry};
    ghost use Rattle.mq_tree.specs.Directories.{as_slots};

    ghost Value = { List (Option Entry) };

    ghost view = { λ d. as_slots d.links.entries };
}

impl Directory {
    pub fn new(alloc: Global) -> Directory
        ensures { result ≡ [] }
    {
        Directory {
            links: BTreeMap::new(alloc),
        }
    }

    /// Adds a name, and returns whether it was not there before.
    pub fn add(&mut self, alloc: Global, name: &[u8], inode: u32) -> Result<bool, OutOfMemory>
        ensures is_new { IfOk result (λ is_new. MatchBool is_new (Adds self.old self.new name.now inode)
            (Has self.old name.now)) }
        ensures leads { IfOk result (λ _. Leads self.old self.new name.now inode) }
    {
        let key = Vec::from_slice(alloc, name)?;
        let before = self.links.insert(key, inode)?;
        Ok(before.is_none())
    }

    /// The inode under a name.
    pub fn get(&self, name: &[u8]) -> Option<u32>
        ensures { result ≡ find name.now self.now }
    {
        self.links.get(name).copied()
    }

    /// Whether it has no names.
    pub fn is_empty(&self) -> bool
        ensures { MatchBool result (self.now ≡ []) (self.now ≢ []) }
    {
        self.links.is_empty()
    }

    /// The number of names.
    pub fn len(&self) -> usize
        ensures { result ≡ length (entries_in self.now) }
    {
        self.links.len()
    }

    /// The names with their inodes, in rising order of names.
    pub fn links(&self, alloc: Global) -> Result<Vec<Link<'_>>, OutOfMemory>
        ensures { IfOk result (λ links. map entry_of_link links.items ≡ entries_in self.now) }
    {
        let mut found = Vec::with_capacity(alloc, self.links.len())?;
        for (name, inode) in self.links.iter() {
            found.push(Link {
                inode: *inode,
                name,
            })?;
        }
        Ok(found)
    }
}
