// What a path names.
ghost use Rattle.std.specs.Prelude.{◌≡◌, IfErr, IfOk};
ghost use Rattle.std.specs.List.{list_all};
ghost use Rattle.mq_exec.specs.Reads.{IsNamedOrRefused, NamesLeadPast, number_of};
ghost use Rattle.mq_inodes.specs.MissingPages.{HasVolume, MissingOf, OfEach};
ghost use Rattle.mq_layout.specs.Names.{is_name};

use mq_inodes::{Missing, Target, Working};
use mq_layout::{Inode, is_good_name};
use mq_tree::{Fault, Path};
use std::alloc::Global;

/// The number of an inode, and its fields.
#[derive(Clone, Copy)]
pub struct Subject {
    pub number: u32,
    pub inode: Inode,
}

/// Whether each name of a path is good.
pub fn is_good_path(path: &Path) -> bool
    ensures { result ≡ list_all is_name path.now }
{
    for name in &path.0 {
        if !is_good_name(&name.0) {
            return false;
        }
    }
    true
}

/// The inode that a request reads at its path.
fn number_at(target: Target) -> Result<u32, Fault>
    ensures { result ≡ number_of target }
{
    match target {
        Target::Root => Ok(0),
        Target::Lost(fault) => Err(fault),
        Target::In { found, .. } => found.ok_or(Fault::NotFound),
    }
}

/// What a path names, or why a request on it is refused. Its names are tested before any page.
pub fn find_subject(
    alloc: Global,
    working: &Working,
    path: &Path,
) -> Result<Result<Subject, Fault>, Missing>
    requires { HasVolume working.now }
    ensures ok { IfOk result (λ found. OfEach working.now (λ v. IsNamedOrRefused v path.now found)) }
    ensures lack { IfErr result (MissingOf working.now
        (λ v b. NamesLeadPast working.now.geometry v path.now b)) }
{
    if !is_good_path(path) {
        return Ok(Err(Fault::BadName));
    }
    match number_at(working.target(alloc, path)?) {
        Ok(number) => Ok(Ok(Subject {
            number,
            inode: working.inode(alloc, number)?,
        })),
        Err(fault) => Ok(Err(fault)),
    }
}
