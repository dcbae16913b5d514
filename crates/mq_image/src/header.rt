// The head of a file, and the lengths of its parts.
ghost use Rattle.std.specs.Prelude.{◌≡◌, ◌≤◌, ◌<◌, ◌+◌, ◌*◌, None, Ok, Result, Some, IfErr, IfOk, length};
ghost use Rattle.mq_image.specs.Faults.{Finds, HasShape, IsGeometryIn, unless, short_fault, header_fault};
ghost use Rattle.mq_image.specs.Faults.{length_fault, extra_fault, geometry_fault, count_in, blocks_end};
ghost use Rattle.mq_image.specs.Reads.{IsHeaderIn};
ghost use Rattle.mq_blocks.specs.Geometry.{blocks_of_drive};
ghost use Rattle.mq_blocks.specs.declared.geometry.GeometryRefusal.{GeometryRefusal};

use crate::fault::FileFault;
use crate::version::{end_of_rings, is_known};
use mq_blocks::Geometry;
use mq_blocks::bytes::{u32_at, u64_at};

/// The number of bytes of a block and its Lba.
pub const RECORD: usize = 4_100;

pub const MAGIC: &[u8; 8] = b"MQFSIMG1";

/// The header of a file.
#[derive(Clone, Copy)]
pub struct Header {
    pub version: u32,
    pub geometry: Geometry,
    pub base: u64,
}

/// Refuses with this fault unless the test passes.
pub fn check(passes: bool, fault: FileFault) -> Result<(), FileFault>
    ensures { Finds (unless passes fault) result }
{
    if passes { Ok(()) } else { Err(fault) }
}

/// Refuses a file that is shorter than this.
pub fn check_length(file: &[u8], need: u64) -> Result<(), FileFault>
    ensures { Finds (short_fault need file.now) result }
{
    let have = file.len() as u64;
    check(need <= have, FileFault::Short { need, have })
}

/// Refuses bytes after the last block.
pub fn check_extra(file: &[u8], end: usize) -> Result<(), FileFault>
    requires { end ≤ length file.now }
    ensures { Finds (extra_fault end file.now) result }
{
    let bytes = (file.len() - end) as u64;
    check(file.len() <= end, FileFault::Extra { bytes })
}

/// The geometry in the header of a file.
fn read_geometry(file: &[u8]) -> Result<Geometry, FileFault>
    requires { 40 ≤ length file.now }
    ensures is { IfOk result (IsGeometryIn file.now) }
    ensures refused { IfErr result (λ e. (shape : Result Geometry GeometryRefusal)
        → HasShape file.now shape
        → geometry_fault shape ≡ Some e) }
{
    let queues = u32_at(file, 12);
    let area = u32_at(file, 16);
    let meta = u32_at(file, 20);
    let zone = u32_at(file, 24);
    Ok(Geometry::new(queues, area, meta, zone)?)
}

/// The header of a file, or its first fault.
#[tactic(auto, unfolding(crate::specs::Faults::header_fault))]
pub fn read_header(file: &[u8]) -> Result<Header, FileFault>
    ensures read { IfOk result (IsHeaderIn file.now) }
    ensures refused { IfErr result (λ e. (shape : Result Geometry GeometryRefusal)
        → HasShape file.now shape
        → header_fault shape file.now ≡ Some e) }
{
    check_length(file, 40)?;
    check(
        u64_at(file, 0) == u64::from_le_bytes(*MAGIC),
        FileFault::Magic,
    )?;
    let version = u32_at(file, 8);
    check(is_known(version), FileFault::Version { found: version })?;
    let geometry = read_geometry(file)?;
    let reserved = u32_at(file, 28);
    check(reserved == 0, FileFault::Reserved { found: reserved })?;
    Ok(Header {
        version,
        geometry,
        base: u64_at(file, 32),
    })
}

/// The number of blocks in a file with this header, once the file is found to have them.
#[tactic(auto, unfolding(crate::specs::Faults::length_fault))]
pub fn read_count(file: &[u8], header: &Header) -> Result<u32, FileFault>
    requires head { IsHeaderIn file.now header.now }
    ensures finds { Finds (length_fault header.now.geometry file.now) result }
    ensures is { IfOk result (λ count. count ≡ count_in file.now) }
    ensures most { IfOk result (λ count. count ≤ blocks_of_drive header.now.geometry) }
    ensures room { IfOk result (λ count. blocks_end file.now ≤ length file.now) }
{
    let geometry = header.geometry;
    let count_at = end_of_rings(header.version, geometry.queues());
    check_length(file, count_at as u64 + 4)?;
    let count = u32_at(file, count_at);
    check(
        count <= namespace_size(geometry),
        FileFault::Count { found: count },
    )?;
    check_length(file, count_at as u64 + 4 + RECORD as u64 * u64::from(count))?;
    Ok(count)
}

/// The number of blocks of the namespace.
pub fn namespace_size(geometry: Geometry) -> u32
    ensures is { result ≡ blocks_of_drive geometry }
    ensures most { result ≤ 294912 }
{
    geometry.queues() * geometry.area() + geometry.homes()
}
