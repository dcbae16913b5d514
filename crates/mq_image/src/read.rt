// Reading the file of an image.
ghost use Rattle.std.specs.Prelude.{◌≡◌, ◌⊎◌, ◌<◌, ◌≤◌, ◌+◌, ◌*◌, ◌^◌, None, Ok, Some, IfErr, IfOk, IsErrOf, MatchResult};
ghost use Rattle.std.specs.Prelude.{length, slice_index_or, slice_set};
ghost use Rattle.std.specs.List.{All};
ghost use Rattle.mq_blocks.specs.Geometry.{queues_of, area_of, zone_size, blocks_of_drive};
ghost use Rattle.mq_blocks.specs.Journal.{no_image};
ghost use Rattle.mq_image.specs.Drives.{IsRead};
ghost use Rattle.mq_image.specs.Faults.{FindsFirst, HasFault, IsGeometryIn, Refuses, RefusesIn, body_fault};
ghost use Rattle.mq_image.specs.Faults.{fault_of, words_fault};
ghost use Rattle.mq_image.specs.File.{ring_size, rings_end};
ghost use Rattle.mq_image.specs.Places.{IsInside, fault_left};
ghost use Rattle.mq_image.specs.Reads.{AreAreasRead, ArePortsRead, AreStored, AreZonesRead, IsAreaPort, IsAreaRead};
ghost use Rattle.mq_image.specs.Reads.{IsHeaderIn, with_zone};

use crate::fault::FileFault;
use crate::header::{Header, check_extra, namespace_size, read_count, read_header};
use crate::image::DriveImage;
use crate::old::{check_words, move_rings};
use crate::place::Place;
use crate::ring::read_slots;
use crate::version::{OLD_VERSION, end_of_rings, slots_in};
use mq_blocks::Block;
use mq_blocks::bytes::u64_at;
use mq_drive::PortImage;
use std::alloc::Global;

/// The image whose file these bytes are. If they are not such a file, the fault names the first
/// test that failed. Each block is copied once, and a block of zeros takes no memory.
pub fn read_image(alloc: Global, bytes: &[u8]) -> Result<DriveImage, FileFault>
    ensures sound { IfOk result (λ x. IsRead x bytes.now) }
    ensures finds { FindsFirst bytes.now result }
    ensures exact { (e : FileFault)
        → HasFault bytes.now (Some e)
        → IsErrOf result e ⊎ IsErrOf result FileFault.OutOfMemory }
{
    read_file(alloc, bytes)
}

fn read_file(alloc: Global, bytes: &[u8]) -> Result<DriveImage, FileFault>
    ensures sound { IfOk result (λ x. IsRead x bytes.now) }
    ensures finds { MatchResult result (λ x. IsGeometryIn bytes.now x.geometry
        × (fault_of (Ok x.geometry) bytes.now ≡ None)) (RefusesIn bytes.now) }
{
    let header = read_header(bytes)?;
    let stored = read_stored(alloc, bytes, &header)?;
    let ports = renew(alloc, bytes, &header, stored)?;
    Ok(DriveImage {
        geometry: header.geometry,
        ports,
    })
}

// The ports as they stand in the file.
fn read_stored(alloc: Global, file: &[u8], header: &Header) -> Result<Vec<PortImage>, FileFault>
    requires head { IsHeaderIn file.now header.now }
    ensures sound { IfOk result (λ v. AreStored header.now.version header.now.geometry file.now v.items) }
    ensures finds { MatchResult result (λ _. body_fault header.now.geometry file.now ≡ None)
        (Refuses (body_fault header.now.geometry file.now)) }
{
    let count = read_count(file, header)?;
    let mut place = first_place(header, count);
    let ports = read_ports(alloc, file, header, &mut place)?;
    check_extra(file, place.end()?)?;
    Ok(ports)
}

// The ports of the image: rings of version 1 move to today's depth.
fn renew(
    alloc: Global,
    file: &[u8],
    header: &Header,
    ports: Vec<PortImage>,
) -> Result<Vec<PortImage>, FileFault>
    requires head { IsHeaderIn file.now header.now }
    requires stored { AreStored header.now.version header.now.geometry file.now ports.items }
    ensures sound { IfOk result (λ v. IsRead
        (record { geometry = header.now.geometry; ports = v.items }) file.now) }
    ensures finds { MatchResult result (λ _. words_fault header.now.version file.now ≡ None)
        (Refuses (words_fault header.now.version file.now)) }
{
    if header.version != OLD_VERSION {
        return Ok(ports);
    }
    let mut ports = ports;
    let queues = header.geometry.queues();
    check_words(file, queues)?;
    move_rings(alloc, &mut ports, queues)?;
    Ok(ports)
}

fn first_place(header: &Header, count: u32) -> Place
    ensures { result ≡ record {
      at = rings_end header.now.version (queues_of header.now.geometry) + 4;
      left = count;
      index = 0;
      lba = 0;
      size = blocks_of_drive header.now.geometry;
    } }
{
    let geometry = header.geometry;
    let at = end_of_rings(header.version, geometry.queues()) + 4;
    Place::new(at, count, namespace_size(geometry))
}

// The images of all ports.
fn read_ports(
    alloc: Global,
    file: &[u8],
    header: &Header,
    place: &mut Place,
) -> Result<Vec<PortImage>, FileFault>
    requires inside { IsInside place.old file.now }
    requires rings { rings_end header.now.version (queues_of header.now.geometry) ≤ length file.now }
    requires start { place.old.lba ≡ 0 }
    requires size { place.old.size ≡ blocks_of_drive header.now.geometry }
    requires base { header.now.base < 2 ^ 64 }
    ensures { MatchResult result (λ v. ArePortsRead header.now.version header.now.geometry header.now.base
        file.now place.old place.new v.items) (Refuses (fault_left place.old file.now)) }
{
    let mut ports = read_queues(alloc, file, header, place)?;
    let blocks = place.span(alloc, file, header.geometry.meta(), 0)?;
    read_zones(alloc, file, header, place, &mut ports)?;
    ports.push(PortImage {
        doorbell: 0,
        head: 0,
        base: header.base,
        slots: Vec::new(alloc),
        blocks,
    })?;
    Ok(ports)
}

// A queue's words and ring, and the blocks of its area.
fn read_port(
    alloc: Global,
    file: &[u8],
    header: &Header,
    queue: u32,
    place: &mut Place,
) -> Result<PortImage, FileFault>
    requires few { queue < 16 }
    requires room { rings_end header.now.version queue + ring_size header.now.version ≤ length file.now }
    requires inside { IsInside place.old file.now }
    requires more { place.old.lba + area_of header.now.geometry ≤ place.old.size }
    ensures { MatchResult result (IsAreaRead header.now.version header.now.geometry file.now queue
        place.old place.new) (Refuses (fault_left place.old file.now)) }
{
    let geometry = header.geometry;
    let at = end_of_rings(header.version, queue);
    let doorbell = u64_at(file, at);
    let head = u64_at(file, at + 8);
    let slots = read_slots(alloc, file, at + 16, slots_in(header.version))?;
    let blocks = place.span(alloc, file, geometry.area(), geometry.zone())?;
    Ok(PortImage {
        doorbell,
        head,
        base: 0,
        slots,
        blocks,
    })
}

// The queues' words and rings, and the blocks of their areas.
fn read_queues(
    alloc: Global,
    file: &[u8],
    header: &Header,
    place: &mut Place,
) -> Result<Vec<PortImage>, FileFault>
    requires inside { IsInside place.old file.now }
    requires rings { rings_end header.now.version (queues_of header.now.geometry) ≤ length file.now }
    requires more { place.old.lba + queues_of header.now.geometry * area_of header.now.geometry
        ≤ place.old.size }
    ensures { MatchResult result (λ v. AreAreasRead header.now.version header.now.geometry file.now
        (queues_of header.now.geometry) place.old place.new v.items)
        (Refuses (fault_left place.old file.now)) }
{
    let queues = header.geometry.queues();
    let mut ports = Vec::with_capacity(alloc, queues as usize + 1)?;
    for queue in 0..queues {
        ports.push(read_port(alloc, file, header, queue, place)?)?;
    }
    Ok(ports)
}

// The blocks of the zones, after those of the areas.
fn read_zones(
    alloc: Global,
    file: &[u8],
    header: &Header,
    place: &mut Place,
    ports: &mut Vec<PortImage>,
) -> Result<(), FileFault>
    requires inside { IsInside place.old file.now }
    requires few { length ports.old.items ≡ queues_of header.now.geometry }
    requires areas { All (λ p. IsAreaPort header.now.version header.now.geometry p) ports.old.items }
    requires more { place.old.lba + queues_of header.now.geometry * zone_size header.now.geometry
        ≤ place.old.size }
    ensures { MatchResult result (λ _. AreZonesRead header.now.version header.now.geometry file.now
        (queues_of header.now.geometry) place.old place.new ports.old.items ports.new.items)
        (Refuses (fault_left place.old file.now)) }
{
    for queue in 0..ports.len() {
        let zone = place.span(alloc, file, header.geometry.zone(), 0)?;
        add_zone(ports, queue, zone)?;
    }
    Ok(())
}

fn add_zone(
    ports: &mut Vec<PortImage>,
    queue: usize,
    zone: Vec<Option<Block>>,
) -> Result<(), FileFault>
    requires { queue < length ports.old.items }
    ensures ports { IfOk result (λ _. ports.new.items ≡ slice_set ports.old.items queue
        (with_zone (slice_index_or ports.old.items queue no_image) zone.items)) }
    ensures refused { IfErr result (λ e. e ≡ FileFault.OutOfMemory) }
{
    extend_port(&mut ports[queue], zone)
}

fn extend_port(port: &mut PortImage, zone: Vec<Option<Block>>) -> Result<(), FileFault>
    ensures port { IfOk result (λ _. port.new ≡ with_zone port.old zone.items) }
    ensures refused { IfErr result (λ e. e ≡ FileFault.OutOfMemory) }
{
    let mut zone = zone;
    port.blocks.append(&mut zone)?;
    Ok(())
}
