// The bits of the bitmaps of zones.
ghost use Rattle.std.specs.Prelude.{◌≡◌, ◌<◌, ◌≤◌};
ghost use Rattle.std.specs.List.{count_by};
ghost use Rattle.mq_blocks.specs.Geometry.{homes_of, meta_of};
ghost use Rattle.mq_check.specs.Totals.{all_blocks};
ghost use Rattle.mq_tree.specs.Laid.{is_marked as is_marked_in};

use mq_blocks::{Block, Geometry, QueueNo};
use mq_layout::{bit, zone_bitmap};

/// Whether the bit of a block of a zone is set. An absent bitmap is zeros.
fn is_marked(geometry: Geometry, blocks: &[Option<Block>], b: u32) -> bool
    requires low { meta_of geometry ≤ b }
    requires high { b < homes_of geometry }
    ensures { result ≡ is_marked_in geometry blocks.now b }
{
    let place = b - geometry.meta();
    let zone = QueueNo(place / geometry.zone());
    match blocks.get(zone_bitmap(geometry, zone).0 as usize) {
        Some(Some(bitmap)) => bit(bitmap, place % geometry.zone()),
        _ => false,
    }
}

/// The number of blocks of zones whose bit is set.
pub fn marked_blocks(geometry: Geometry, blocks: &[Option<Block>]) -> u32
    ensures { result ≡ count_by (is_marked_in geometry blocks.now) (all_blocks geometry) }
{
    let mut count = 0;
    for b in geometry.meta()..geometry.homes() {
        if is_marked(geometry, blocks, b) {
            count += 1;
        }
    }
    count
}
