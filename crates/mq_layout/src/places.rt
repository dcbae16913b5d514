// What lies where in the metadata region, and how much fits.
ghost use Rattle.std.specs.Prelude.{◌≡◌, ◌<◌};
ghost use Rattle.mq_blocks.specs.Geometry.{meta_of, queues_of};
ghost use Rattle.mq_layout.specs.Places.{inode_bitmap as inode_bitmap_of, zone_bitmap as zone_bitmap_of};
ghost use Rattle.mq_layout.specs.Places.{inode_block as inode_block_of, inode_place as inode_place_of};
ghost use Rattle.mq_layout.specs.Places.{inodes_of, table_first as table_first_of};

use mq_blocks::{BlockNo, Geometry, QueueNo};

/// The greatest size of a file in bytes: 12 blocks, and 1,024 through the indirect block.
pub const FILE_LIMIT: u64 = 4_243_456;

/// The greatest number of names in a directory.
pub const NAMES_LIMIT: u32 = 15_540;

pub const INODES_PER_BLOCK: u32 = 32;

/// The number of slots of a directory's block.
pub const SLOTS_PER_BLOCK: u32 = 15;

/// The number of pointers of an indirect block.
pub const POINTERS_PER_BLOCK: u32 = 1024;

pub const SUPERBLOCK: BlockNo = BlockNo(0);

/// The bitmap of a queue's zone.
pub fn zone_bitmap(geometry: Geometry, zone: QueueNo) -> BlockNo
    requires { zone < queues_of geometry }
    ensures { result ≡ zone_bitmap_of zone }
{
    BlockNo(1 + zone.0)
}

/// The bitmap of the inodes.
pub fn inode_bitmap(geometry: Geometry) -> BlockNo
    ensures { result ≡ inode_bitmap_of geometry }
{
    BlockNo(1 + geometry.queues())
}

/// The first block of the inode table, which goes to the end of the metadata region.
pub fn table_first(geometry: Geometry) -> BlockNo
    ensures { result ≡ table_first_of geometry }
{
    BlockNo(2 + geometry.queues())
}

/// The number of inodes.
pub fn inodes(geometry: Geometry) -> u32
    ensures { result ≡ inodes_of geometry }
{
    (INODES_PER_BLOCK * (geometry.meta() - table_first(geometry).0)).min(32768)
}

/// The block of the inode table in which an inode stands.
pub fn inode_block(geometry: Geometry, inode: u32) -> BlockNo
    requires { inode < inodes_of geometry }
    ensures is { result ≡ inode_block_of geometry inode }
    ensures inside { result < meta_of geometry }
{
    BlockNo(table_first(geometry).0 + inode / INODES_PER_BLOCK)
}

/// The place of an inode in its block of the inode table.
pub fn inode_place(inode: u32) -> u32
    ensures is { result ≡ inode_place_of inode }
    ensures inside { result < 32 }
{
    inode % INODES_PER_BLOCK
}
