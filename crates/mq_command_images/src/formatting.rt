// `format`: a new image that holds the empty file system.
ghost use Rattle.std.specs.Prelude.{◌≡◌, ◌⊎◌, ℕ, List, IfErr, IfOk};
ghost use Rattle.mq_blocks.specs.declared.geometry.Geometry.{Geometry as Shape};
ghost use Rattle.mq_command_images.specs.Commands.{Formats, RefusesNumbers, numbers_of};
ghost use Rattle.mq_command_images.specs.Lines.{geometry_line};
ghost use Rattle.mq_command_io.specs.Ending.{EndsWith, IsUnlessFailed, memory_line};
ghost use Rattle.mq_image.specs.File.{DriveImage, image_bytes};
ghost use Rattle.mq_image_ops.specs.Empty.{IsEmptyDrive};

use crate::answer::save_and_say;
use crate::lines::line_of_geometry;
use mq_blocks::{Geometry, GeometryRefusal, OutOfMemory};
use mq_command_io::{IMAGE, say, say_memory};
use mq_image::write_image;
use mq_image_ops::format_drive;
use mq_outside::{Files, Sink};
use std::alloc::Global;

/// The four numbers of a geometry, which may be out of range.
#[derive(Clone, Copy, PartialEq, Eq)]
pub struct Numbers {
    pub queues: u32,
    pub area: u32,
    pub meta: u32,
    pub zone: u32,
}

// The geometry of these numbers.
fn shape(numbers: Numbers) -> Result<Geometry, GeometryRefusal>
    ensures ok { IfOk result (λ g. numbers_of g ≡ numbers) }
    ensures refused { IfErr result (RefusesNumbers numbers) }
{
    Geometry::new(numbers.queues, numbers.area, numbers.meta, numbers.zone)
}

// The file of the image that holds the empty file system.
fn empty_file(alloc: Global, geometry: Geometry) -> Result<Vec<u8>, OutOfMemory>
    ensures { IfOk result (λ v. (x : DriveImage) × IsEmptyDrive geometry x × (v.items ≡ image_bytes x)) }
{
    let image = format_drive(alloc, geometry)?;
    write_image(alloc, &image)
}

// Says why the numbers are no geometry, or that memory ran out for that.
fn say_refused<K: Sink>(alloc: Global, refusal: GeometryRefusal, out: &mut K) -> u8
    ensures { EndsWith 3 (geometry_line refusal) result (K.state out.old) (K.state out.new)
        ⊎ EndsWith 6 memory_line result (K.state out.old) (K.state out.new) }
{
    match line_of_geometry(alloc, refusal) {
        Ok(line) => say(IMAGE, line.as_bytes(), out),
        Err(_) => say_memory(out),
    }
}

/// `format NAME QUEUES AREA META ZONE`: makes the name hold the image of a fresh drive with the empty file
/// system. Before the image is saved, only the line of a refusal is printed.
pub fn format<F: Files, K: Sink>(
    alloc: Global,
    name: &str,
    numbers: Numbers,
    files: &mut F,
    out: &mut K,
) -> u8
    ensures ends { (status : ℕ)
        × (text : List ℕ)
        × Formats numbers name.now (F.state files.old) (F.state files.new) status text
        × EndsWith status text result (K.state out.old) (K.state out.new) }
    ensures done_where { (g : Shape) → numbers_of g ≡ numbers → IsUnlessFailed 0 result }
    ensures refused_where { (e : GeometryRefusal) → RefusesNumbers numbers e → IsUnlessFailed 3 result }
{
    let geometry = match shape(numbers) {
        Ok(geometry) => geometry,
        Err(refusal) => return say_refused(alloc, refusal, out),
    };
    match empty_file(alloc, geometry) {
        Ok(file) => save_and_say(name, &file, b"formatted\n", files, out),
        Err(_) => say_memory(out),
    }
}
