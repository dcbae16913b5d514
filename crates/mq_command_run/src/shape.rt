// The drive of a workload.
ghost use Rattle.std.specs.Prelude.{◌≤◌};
ghost use Rattle.mq_command_run.specs.Generated.{IsShape};

use mq_blocks::Geometry;

const AREA: u32 = 1024;

/// The number of blocks of metadata beside a bitmap for each queue: the superblock, the bitmap of the
/// inodes, and 16 blocks of the inode table.
const MORE_META: u32 = 18;

const ZONE: u32 = 256;

/// The geometry of a drive with a queue for each thread.
pub fn shape(threads: u32) -> Geometry
    requires { (1 ≤ threads) × (threads ≤ 16) }
    ensures { IsShape threads result }
{
    match Geometry::new(threads, AREA, threads + MORE_META, ZONE) {
        Ok(geometry) => geometry,
        Err(_) => unreachable!(),
    }
}
