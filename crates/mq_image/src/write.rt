// Writing the file of an image.
ghost use Rattle.std.specs.Prelude.{◌≡◌, ◌≤◌, ◌<◌, ◌+◌, ◌*◌, ◌^◌, ◌++◌, ℕ, length, IfOk, take, drop};
ghost use Rattle.std.specs.List.{All, flat_map};
ghost use Rattle.std.specs.Int.{to_le_bytes, w32, w64};
ghost use Rattle.mq_blocks.specs.Geometry.{area_of};
ghost use Rattle.mq_nvme.specs.Dwords.{dword_bytes};
ghost use Rattle.mq_image.specs.Drives.{IsDrive};
ghost use Rattle.mq_image.specs.File.{HasArea, all_blocks, areas, file_bytes, header_bytes, image_bytes};
ghost use Rattle.mq_image.specs.File.{kept, namespace, one_of, record_bytes, record_count, records};
ghost use Rattle.mq_image.specs.File.{ring_bytes, written_version, zones};

use crate::header::{MAGIC, RECORD};
use crate::image::DriveImage;
use crate::place::is_zeros;
use crate::version::{VERSION, end_of_rings};
use mq_blocks::{Block, Geometry, OutOfMemory};
use mq_drive::PortImage;
use mq_nvme::Entry;
use std::alloc::Global;

/// The file of an image.
pub fn write_image(alloc: Global, image: &DriveImage) -> Result<Vec<u8>, OutOfMemory>
    requires { IsDrive image.now }
    ensures { IfOk result (λ v. v.items ≡ image_bytes image.now) }
{
    write_image_over(Vec::new(alloc), image)
}

/// The file of an image, in the memory of bytes that are no longer needed: those of the file from which the
/// image was read have about the same length.
pub fn write_image_over(bytes: Vec<u8>, image: &DriveImage) -> Result<Vec<u8>, OutOfMemory>
    requires { IsDrive image.now }
    ensures { IfOk result (λ v. v.items ≡ image_bytes image.now) }
{
    let geometry = image.geometry;
    let queues = geometry.queues() as usize;
    write_ports(
        bytes,
        geometry,
        &image.ports[..queues],
        &image.ports[queues],
    )
}

fn write_ports(
    bytes: Vec<u8>,
    geometry: Geometry,
    queues: &[PortImage],
    root: &PortImage,
) -> Result<Vec<u8>, OutOfMemory>
    requires few { length queues.now ≤ 16 }
    requires areas { All (HasArea geometry) queues.now }
    requires size { length (namespace geometry queues.now root.now) ≤ 294912 }
    ensures { IfOk result (λ v. v.items ≡ file_bytes written_version geometry queues.now root.now) }
{
    let count = count_ports(queues) + count_port(root);
    let length = end_of_rings(VERSION, queues.len() as u32) + 4 + RECORD * count as usize;
    let mut file = bytes;
    file.clear();
    file.reserve_exact(length)?;
    put_header(&mut file, geometry, root.base)?;
    put_rings(&mut file, queues)?;
    put_u32(&mut file, count)?;
    let meta = put_areas(&mut file, geometry, queues)?;
    let zones = put_span(&mut file, meta, &root.blocks)?;
    put_zones(&mut file, zones, geometry, queues)?;
    Ok(file)
}

// How many blocks the file keeps.
fn count_span(blocks: &[Option<Block>]) -> u32
    requires { length blocks.now < 2 ^ 32 }
    ensures is { result ≡ record_count blocks.now }
    ensures most { result ≤ length blocks.now }
{
    let mut count = 0;
    for block in blocks {
        count += count_one(block);
    }
    count
}

fn count_one(block: &Option<Block>) -> u32
    ensures is { result ≡ one_of (kept block.now) }
    ensures most { result ≤ 1 }
{
    match block {
        Some(block) => { if is_zeros(block.bytes()) { 0 } else { 1 } }
        None => 0,
    }
}

fn count_port(port: &PortImage) -> u32
    requires { length port.now.blocks < 2 ^ 32 }
    ensures is { result ≡ record_count port.now.blocks }
    ensures most { result ≤ length port.now.blocks }
{
    count_span(&port.blocks)
}

fn count_ports(ports: &[PortImage]) -> u32
    requires { length (all_blocks ports.now) < 2 ^ 32 }
    ensures is { result ≡ record_count (all_blocks ports.now) }
    ensures most { result ≤ length (all_blocks ports.now) }
{
    let mut count = 0;
    for port in ports {
        count += count_port(port);
    }
    count
}

fn put_bytes(file: &mut Vec<u8>, bytes: &[u8]) -> Result<(), OutOfMemory>
    ensures { IfOk result (λ _. file.new.items ≡ file.old.items ++ bytes.now) }
{
    file.extend_from_slice(bytes)?;
    Ok(())
}

fn put_u32(file: &mut Vec<u8>, number: u32) -> Result<(), OutOfMemory>
    ensures { IfOk result (λ _. file.new.items ≡ file.old.items ++ to_le_bytes w32 number) }
{
    put_bytes(file, &number.to_le_bytes())
}

fn put_u64(file: &mut Vec<u8>, number: u64) -> Result<(), OutOfMemory>
    ensures { IfOk result (λ _. file.new.items ≡ file.old.items ++ to_le_bytes w64 number) }
{
    put_bytes(file, &number.to_le_bytes())
}

fn put_header(file: &mut Vec<u8>, geometry: Geometry, base: u64) -> Result<(), OutOfMemory>
    ensures { IfOk result (λ _. file.new.items ≡ file.old.items ++ header_bytes written_version geometry base) }
{
    put_bytes(file, MAGIC)?;
    put_u32(file, VERSION)?;
    put_u32(file, geometry.queues())?;
    put_u32(file, geometry.area())?;
    put_u32(file, geometry.meta())?;
    put_u32(file, geometry.zone())?;
    put_u32(file, 0)?;
    put_u64(file, base)?;
    Ok(())
}

fn put_ring(file: &mut Vec<u8>, port: &PortImage) -> Result<(), OutOfMemory>
    ensures { IfOk result (λ _. file.new.items ≡ file.old.items ++ ring_bytes port.now) }
{
    put_u64(file, port.doorbell)?;
    put_u64(file, port.head)?;
    put_slots(file, &port.slots)?;
    Ok(())
}

fn put_slots(file: &mut Vec<u8>, slots: &[Entry]) -> Result<(), OutOfMemory>
    ensures { IfOk result (λ _. file.new.items ≡ file.old.items ++ flat_map dword_bytes slots.now) }
{
    for entry in slots {
        put_bytes(file, &entry.to_bytes())?;
    }
    Ok(())
}

fn put_rings(file: &mut Vec<u8>, queues: &[PortImage]) -> Result<(), OutOfMemory>
    ensures { IfOk result (λ _. file.new.items ≡ file.old.items ++ flat_map ring_bytes queues.now) }
{
    for port in queues {
        put_ring(file, port)?;
    }
    Ok(())
}

fn put_record(file: &mut Vec<u8>, lba: u32, block: &Option<Block>) -> Result<(), OutOfMemory>
    ensures { IfOk result (λ _. file.new.items ≡ file.old.items ++ record_bytes lba (kept block.now)) }
{
    let Some(block) = block else {
        return Ok(());
    };
    let bytes = block.bytes();
    if is_zeros(bytes) {
        return Ok(());
    }
    put_u32(file, lba)?;
    put_bytes(file, bytes)?;
    Ok(())
}

// Appends the blocks from an Lba on, and returns the Lba after them.
fn put_span(file: &mut Vec<u8>, lba: u32, blocks: &[Option<Block>]) -> Result<u32, OutOfMemory>
    requires { lba + length blocks.now < 2 ^ 32 }
    ensures bytes { IfOk result (λ _. file.new.items ≡ file.old.items ++ records lba blocks.now) }
    ensures end { IfOk result (λ end. end ≡ lba + length blocks.now) }
{
    for (k, block) in blocks.iter().enumerate() {
        put_record(file, lba + k as u32, block)?;
    }
    Ok(lba + blocks.len() as u32)
}

fn area_blocks(port: &PortImage, area: u32) -> &[Option<Block>]
    requires { area ≤ length port.now.blocks }
    ensures { result.now ≡ take area port.now.blocks }
{
    &port.blocks[..area as usize]
}

fn zone_blocks(port: &PortImage, area: u32) -> &[Option<Block>]
    requires { area ≤ length port.now.blocks }
    ensures { result.now ≡ drop area port.now.blocks }
{
    &port.blocks[area as usize..]
}

// Appends the blocks of the areas, and returns the Lba after them.
fn put_areas(
    file: &mut Vec<u8>,
    geometry: Geometry,
    queues: &[PortImage],
) -> Result<u32, OutOfMemory>
    requires areas { All (HasArea geometry) queues.now }
    requires size { length (areas geometry queues.now) < 2 ^ 32 }
    ensures bytes { IfOk result (λ _. file.new.items ≡ file.old.items ++ records 0
        (areas geometry queues.now)) }
    ensures end { IfOk result (λ end. end ≡ length (areas geometry queues.now)) }
{
    let mut lba = 0;
    for port in queues {
        lba = put_span(file, lba, area_blocks(port, geometry.area()))?;
    }
    Ok(lba)
}

// Appends the blocks of the zones, from this Lba on.
fn put_zones(
    file: &mut Vec<u8>,
    first: u32,
    geometry: Geometry,
    queues: &[PortImage],
) -> Result<(), OutOfMemory>
    requires areas { All (HasArea geometry) queues.now }
    requires size { first + length (zones geometry queues.now) < 2 ^ 32 }
    ensures { IfOk result (λ _. file.new.items ≡ file.old.items ++ records first
        (zones geometry queues.now)) }
{
    let mut lba = first;
    for port in queues {
        lba = put_span(file, lba, zone_blocks(port, geometry.area()))?;
    }
    Ok(())
}
