// The blocks of an empty file system.
ghost use Rattle.std.specs.Prelude.{◌≡◌, ◌<◌};
ghost use Rattle.mq_blocks.specs.Geometry.{homes_of};
ghost use Rattle.mq_layout.specs.Empty.{empty_block};

use crate::inode::{Inode, write_inode};
use crate::places::{SUPERBLOCK, inode_bitmap, table_first};
use crate::superblock::write_super;
use mq_blocks::bytes::put;
use mq_blocks::{Block, BlockNo, Geometry};

/// The root of an empty file system: a directory without blocks.
const EMPTY_ROOT: Inode = Inode {
    kind: 2,
    links: 1,
    size: 0,
    direct: [0; 12],
    indirect: 0,
};

/// Makes a block that home block of an empty file system, whatever it held.
#[tactic(auto, unfolding(crate::specs::Empty::empty_block))]
pub fn format_block(geometry: Geometry, b: BlockNo, into: &mut Block)
    requires { b < homes_of geometry }
    ensures { into.new ≡ empty_block geometry b }
{
    into.clear();
    if b == SUPERBLOCK {
        write_super(geometry, into);
    } else if b == inode_bitmap(geometry) {
        put(into.bytes_mut(), 0, &[1]);
    } else if b == table_first(geometry) {
        write_inode(into, 0, &EMPTY_ROOT);
    }
}
