// `new`: a new image with an empty store.
ghost use Rattle.std.specs.Prelude.{◌≡◌, ℕ, List, IfOk};
ghost use Rattle.mq_blocks.specs.Geometry.{area_of, meta_of, queues_of, zone_size};
ghost use Rattle.mq_command_io.specs.Ending.{EndsWith, IsUnlessFailed};
ghost use Rattle.mq_kv_tool.specs.Makes.{IsNewFile, IsNewShape, Makes};

use mq_blocks::{Geometry, OutOfMemory};
use mq_command_io::{DONE, save_or_say, say, say_memory};
use mq_image::write_image;
use mq_image_ops::blank_drive;
use mq_kv_text::print_new;
use mq_outside::{Files, Sink};
use std::alloc::Global;

// The geometry of a new image.
fn new_shape() -> Geometry
    ensures { IsNewShape result }
{
    match Geometry::new(1, 1024, 64, 1) {
        Ok(geometry) => geometry,
        Err(_) => unreachable!(),
    }
}

// The file of a new image.
fn new_file(alloc: Global) -> Result<Vec<u8>, OutOfMemory>
    ensures { IfOk result (λ v. IsNewFile v.items) }
{
    let image = blank_drive(alloc, new_shape())?;
    write_image(alloc, &image)
}

/// `new NAME`: makes the name hold the image of a fresh drive of zeros, on which the store is empty. Before it is
/// saved, only the line of a refusal is printed.
pub fn make<F: Files, K: Sink>(alloc: Global, name: &str, files: &mut F, out: &mut K) -> u8
    ensures ends { (status : ℕ)
        × (text : List ℕ)
        × Makes name.now (F.state files.old) (F.state files.new) status text
        × EndsWith status text result (K.state out.old) (K.state out.new) }
{
    let Ok(file) = new_file(alloc) else {
        return say_memory(out);
    };
    match save_or_say(name, &file, files, out) {
        Ok(()) => say(DONE, print_new().as_bytes(), out),
        Err(status) => status,
    }
}
