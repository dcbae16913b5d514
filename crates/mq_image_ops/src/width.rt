// That the numbers and blocks of an image fit its file.
ghost use Rattle.std.specs.Prelude.{◌≡◌, ◌<◌, ◌^◌, ℕ};
ghost use Rattle.std.specs.List.{All};
ghost use Rattle.mq_image.specs.Drives.{HasWidths};
ghost use Rattle.mq_image.specs.File.{IsBlockSized};
ghost use Rattle.mq_nvme.specs.Dwords.{AreDwords};

use mq_blocks::Block;
use mq_drive::PortImage;
use mq_image::DriveImage;
use mq_nvme::Entry;

/// The numbers and blocks of an image in memory have the widths that its file gives them, since their types
/// have them. A call changes nothing: it looks once at each word, each slot and whether each block is
/// present.
pub fn an_image_fits_its_file(image: &DriveImage)
    ensures { All (λ p. HasWidths p) image.now.ports }
{
    for port in &image.ports {
        port_fits(port);
    }
}

fn port_fits(port: &PortImage)
    ensures { HasWidths port.now }
{
    let _doorbell = port.doorbell;
    let _head = port.head;
    let _base = port.base;
    slots_fit(&port.slots);
    blocks_fit(&port.blocks);
}

fn slots_fit(slots: &[Entry])
    ensures { All (λ e. AreDwords 16 e) slots.now }
{
    for entry in slots {
        let _bytes = entry.to_bytes();
    }
}

fn blocks_fit(blocks: &[Option<Block>])
    ensures { All IsBlockSized blocks.now }
{
    for block in blocks {
        block_fits(block);
    }
}

fn block_fits(block: &Option<Block>)
    ensures { IsBlockSized block.now }
{
    if let Some(block) = block {
        let _bytes = block.bytes();
    }
}
