// The lines of refusals.
ghost use Rattle.std.specs.Prelude.{◌≡◌, IfOk};
ghost use Rattle.std.specs.String.{string_bytes};
ghost use Rattle.mq_command_images.specs.Lines.{chain_line, corrupt_line, drive_line, file_line, geometry_line, image_geometry_line, path_line, volume_line};

use crate::names::{name_of_corrupt, name_of_descriptor, name_of_entry, name_of_fault};
use mq_blocks::GeometryRefusal;
use mq_image::FileFault;
use mq_image_ops::StandingRefusal;
use mq_recover::{ChainRefusal, ImageFault};
use mq_tree::{CorruptCause, Fault};
use std::alloc::{AllocError, Global};

pub fn line_of_geometry(alloc: Global, refusal: GeometryRefusal) -> Result<String, AllocError>
    ensures { IfOk result (λ s. string_bytes s ≡ geometry_line refusal) }
{
    match refusal {
        GeometryRefusal::Queues { found } => format!(in alloc; "geometry Queues {found}\n"),
        GeometryRefusal::Area { found } => format!(in alloc; "geometry Area {found}\n"),
        GeometryRefusal::Homes { meta, zone } => {
            format!(in alloc; "geometry Homes {meta} {zone}\n")
        }
    }
}

// The line of an image whose geometry is none.
fn line_of_shape(alloc: Global, refusal: GeometryRefusal) -> Result<String, AllocError>
    ensures { IfOk result (λ s. string_bytes s ≡ image_geometry_line refusal) }
{
    match refusal {
        GeometryRefusal::Queues { found } => format!(in alloc; "image Geometry Queues {found}\n"),
        GeometryRefusal::Area { found } => format!(in alloc; "image Geometry Area {found}\n"),
        GeometryRefusal::Homes { meta, zone } => {
            format!(in alloc; "image Geometry Homes {meta} {zone}\n")
        }
    }
}

pub fn line_of_file(alloc: Global, fault: FileFault) -> Result<String, AllocError>
    ensures { IfOk result (λ s. string_bytes s ≡ file_line fault) }
{
    match fault {
        FileFault::Short { need, have } => format!(in alloc; "image Short {need} {have}\n"),
        FileFault::Magic => String::from_str(alloc, "image Magic\n"),
        FileFault::Version { found } => format!(in alloc; "image Version {found}\n"),
        FileFault::Geometry(refusal) => line_of_shape(alloc, refusal),
        FileFault::Reserved { found } => format!(in alloc; "image Reserved {found}\n"),
        FileFault::Count { found } => format!(in alloc; "image Count {found}\n"),
        FileFault::Order { index } => format!(in alloc; "image Order {index}\n"),
        FileFault::Zero { lba } => format!(in alloc; "image Zero {lba}\n"),
        FileFault::Extra { bytes } => format!(in alloc; "image Extra {bytes}\n"),
        FileFault::OldWords { queue } => format!(in alloc; "image Bad queue {queue} Words\n"),
        FileFault::OutOfMemory => String::from_str(alloc, "memory\n"),
    }
}

// The line of a queue that is not readable.
fn line_of_chain(alloc: Global, queue: u32, refusal: ChainRefusal) -> Result<String, AllocError>
    ensures { IfOk result (λ s. string_bytes s ≡ chain_line queue refusal) }
{
    match refusal {
        ChainRefusal::Entry(cause) => {
            let name = name_of_entry(cause);
            format!(in alloc; "image Bad queue {queue} Entry {name}\n")
        }
        ChainRefusal::Descriptor { number, cause } => {
            let name = name_of_descriptor(cause);
            format!(in alloc; "image Bad queue {queue} Descriptor {number} {name}\n")
        }
        ChainRefusal::Words => format!(in alloc; "image Bad queue {queue} Words\n"),
        ChainRefusal::Commit => format!(in alloc; "image Bad queue {queue} Commit\n"),
        ChainRefusal::AreaPlace { .. } => format!(in alloc; "image Bad queue {queue} AreaPlace\n"),
        ChainRefusal::Span { .. } => format!(in alloc; "image Bad queue {queue} Span\n"),
        ChainRefusal::Limit { .. } => format!(in alloc; "image Bad queue {queue} Limit\n"),
        ChainRefusal::OutOfMemory => String::from_str(alloc, "memory\n"),
    }
}

pub fn line_of_drive(alloc: Global, fault: ImageFault) -> Result<String, AllocError>
    ensures { IfOk result (λ s. string_bytes s ≡ drive_line fault) }
{
    match fault {
        ImageFault::Bad { queue, cause } => line_of_chain(alloc, queue.0, cause),
        ImageFault::Twice {
            number,
            first,
            second,
        } => {
            let number = number.0;
            let first = first.0;
            let second = second.0;
            format!(in alloc; "image Twice {number} queues {first} {second}\n")
        }
        ImageFault::Limit { base } => format!(in alloc; "image Limit {base}\n"),
        ImageFault::OutOfMemory => String::from_str(alloc, "memory\n"),
    }
}

// The line of blocks that have no tree.
fn line_of_corrupt(alloc: Global, cause: CorruptCause, block: u32) -> Result<String, AllocError>
    ensures { IfOk result (λ s. string_bytes s ≡ corrupt_line cause block) }
{
    let name = name_of_corrupt(cause);
    format!(in alloc; "image Corrupt {name} block {block}\n")
}

pub fn line_of_volume(alloc: Global, refusal: StandingRefusal) -> Result<String, AllocError>
    ensures { IfOk result (λ s. string_bytes s ≡ volume_line refusal) }
{
    match refusal {
        StandingRefusal::Image(fault) => line_of_drive(alloc, fault),
        StandingRefusal::Corrupt { cause, block } => line_of_corrupt(alloc, cause, block.0),
        StandingRefusal::OutOfMemory => String::from_str(alloc, "memory\n"),
    }
}

pub fn line_of_path(alloc: Global, fault: Fault) -> Result<String, AllocError>
    ensures { IfOk result (λ s. string_bytes s ≡ path_line fault) }
{
    let name = name_of_fault(fault);
    format!(in alloc; "path {name}\n")
}
