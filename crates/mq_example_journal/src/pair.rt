// The two blocks, as a recovery leaves them.
ghost use Rattle.std.specs.Prelude.{◌<◌};
ghost use Rattle.mq_blocks.specs.Geometry.{homes_of};
ghost use Rattle.mq_recover.specs.Drives.{IsQuiescentDrive, drive_of};

use crate::journal::{FIRST, SECOND};
use mq_blocks::{Block, Geometry};
use mq_drive::{Port, Ports};
use mq_recover::{RecoverRefusal, read_home, recover};
use std::alloc::Global;

/// How many commits recovery found, and the two blocks that they left.
#[derive(Drop)]
pub struct Pair {
    pub prefix: u64,
    pub first: Block,
    pub second: Block,
}

/// Recovers a drive through its ports, and reads the two blocks.
pub fn recover_pair<P: Port>(
    alloc: Global,
    geometry: Geometry,
    ports: &mut Ports<P>,
) -> Result<Pair, RecoverRefusal>
    requires still { IsQuiescentDrive geometry (drive_of P.state ports.old) }
    requires homes { 20 < homes_of geometry }
{
    let mut first = Block::zeroed(alloc)?;
    let mut second = Block::zeroed(alloc)?;
    let found = recover(alloc, geometry, ports)?;
    read_home(geometry, ports, FIRST, &mut first);
    read_home(geometry, ports, SECOND, &mut second);
    Ok(Pair {
        prefix: found.prefix,
        first,
        second,
    })
}
