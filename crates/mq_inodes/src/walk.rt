// Walking along a path.
ghost use Rattle.std.specs.Prelude.{◌≡◌, IfErr, IfOk};
ghost use Rattle.mq_inodes.specs.MissingPages.{HasVolume, MissingOf, OfEach};
ghost use Rattle.mq_inodes.specs.Walks.{HoldsPlace, IsDirectory, LeadsPast, LooksIn, LooksUnder, named, placed};
ghost use Rattle.mq_tree.specs.Requests.{enter as enter_found, target as target_of, walk as walk_of};
ghost use Rattle.mq_tree.specs.Volume.{body, find as find_name, slots_of, way};

use crate::lack::Missing;
use crate::opened::Opened;
use crate::working::Working;
use mq_tree::{Fault, Name, Path};
use std::alloc::Global;

/// The kind of a directory.
pub const DIRECTORY: u8 = 2;

/// What a path names.
#[derive(Clone, Copy)]
pub enum Target {
    Root,
    /// Nothing: walking to it is refused.
    Lost(Fault),
    /// Its last name in a directory, with the inode that is found under it.
    In { directory: u32, found: Option<u32> },
}

/// What a path names, with the directory in which its last name stands.
#[derive(Drop)]
pub enum Place {
    Root,
    /// Nothing: walking to it is refused.
    Lost(Fault),
    /// Its last name in a directory, with the inode that is found under it. If there is none, also the
    /// first unused slot of the directory.
    In {
        directory: Opened,
        found: Option<u32>,
        unused: Option<u32>,
    },
}

impl<'a> Working<'a> {
    /// The inode under a name of a directory.
    pub(crate) fn lookup(&self, alloc: Global, d: u32, name: &Name) -> Result<Option<u32>, Missing>
        requires possible { HasVolume self.now }
        requires dir { OfEach self.now (λ v. IsDirectory v d) }
        ensures ok { IfOk result (λ found. OfEach self.now
            (λ v. found ≡ find_name name.now (slots_of (body v d)))) }
        ensures lack { IfErr result (MissingOf self.now (λ v b. LooksIn self.now.geometry v d b)) }
    {
        let inode = self.inode(alloc, d)?;
        let blocks = self.directory(alloc, d, &inode)?;
        Ok(self.find(&blocks, &name.0))
    }

    /// Enters the directory under a name of a directory.
    fn enter(&self, alloc: Global, d: u32, name: &Name) -> Result<Result<u32, Fault>, Missing>
        requires possible { HasVolume self.now }
        requires dir { OfEach self.now (λ v. IsDirectory v d) }
        ensures ok { IfOk result (λ entered. OfEach self.now
            (λ v. entered ≡ enter_found v (find_name name.now (slots_of (body v d))))) }
        ensures lack { IfErr result (MissingOf self.now
            (λ v b. LooksUnder self.now.geometry v d name.now b)) }
    {
        let Some(i) = self.lookup(alloc, d, name)? else {
            return Ok(Err(Fault::NotFound));
        };
        let inode = self.inode(alloc, i)?;
        if inode.kind == DIRECTORY {
            Ok(Ok(i))
        } else {
            Ok(Err(Fault::NotDir))
        }
    }

    /// Follows all these names, from the root on.
    fn walk(&self, alloc: Global, names: &[Name]) -> Result<Result<u32, Fault>, Missing>
        requires { HasVolume self.now }
        ensures ok { IfOk result (λ end. OfEach self.now (λ v. end ≡ walk_of v (way names.now))) }
        ensures lack { IfErr result (MissingOf self.now
            (λ v b. LeadsPast self.now.geometry v (way names.now) b)) }
    {
        let mut at = 0;
        for name in names {
            match self.enter(alloc, at, name)? {
                Ok(i) => at = i,
                Err(fault) => return Ok(Err(fault)),
            }
        }
        Ok(Ok(at))
    }

    /// What a path names, with the directory of its last name, which is held.
    pub fn place(&self, alloc: Global, path: &Path) -> Result<Place, Missing>
        requires { HasVolume self.now }
        ensures ok { IfOk result (λ place. OfEach self.now
            (λ v. placed (way path.now) place ≡ target_of v (way path.now))) }
        ensures holds { IfOk result (HoldsPlace self.now) }
        ensures lack { IfErr result (MissingOf self.now
            (λ v b. LeadsPast self.now.geometry v (way path.now) b)) }
    {
        let Some((last, names)) = path.0.split_last() else {
            return Ok(Place::Root);
        };
        let d = match self.walk(alloc, names)? {
            Ok(d) => d,
            Err(fault) => return Ok(Place::Lost(fault)),
        };
        let directory = self.open_directory(alloc, d)?;
        let (found, unused) = self.search_names(&directory.blocks, &last.0);
        Ok(Place::In {
            directory,
            found,
            unused,
        })
    }

    /// What a path names.
    pub fn target(&self, alloc: Global, path: &Path) -> Result<Target, Missing>
        requires { HasVolume self.now }
        ensures ok { IfOk result (λ target. OfEach self.now
            (λ v. named (way path.now) target ≡ target_of v (way path.now))) }
        ensures lack { IfErr result (MissingOf self.now
            (λ v b. LeadsPast self.now.geometry v (way path.now) b)) }
    {
        Ok(match self.place(alloc, path)? {
            Place::Root => Target::Root,
            Place::Lost(fault) => Target::Lost(fault),
            Place::In {
                directory,
                found,
                ..
            } => Target::In {
                directory: directory.number,
                found,
            },
        })
    }
}
