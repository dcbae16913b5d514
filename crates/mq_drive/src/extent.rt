// Where the blocks of a port lie.
ghost use Rattle.std.specs.Prelude.{◌≡◌, ◌<◌, ◌≤◌, ◌+◌, ◌^◌, ℕ};
ghost use Rattle.mq_drive.specs.Roles.{id_of, queue_in};
ghost use Rattle.mq_drive.specs.Slots.{index_in};
ghost use Rattle.mq_drive.specs.Start.{IsRole, area_first_of, area_size_of, homes_first_of, homes_size_of, number_of};

use crate::Role;
use mq_blocks::{Geometry, Lba};

/// Consecutive blocks of the namespace.
#[derive(Clone, Copy)]
pub struct Extent {
    pub first: u32,
    pub size: u32,
}

/// The index of a block of a port among its blocks.
pub fn block_index(area: Extent, homes: Extent, lba: Lba) -> usize
    requires low { area.first ≤ lba }
    ensures { result ≡ index_in area.first area.size homes.first lba }
{
    if lba.0 < homes.first {
        (lba.0 - area.first) as usize
    } else {
        area.size as usize + (lba.0 - homes.first) as usize
    }
}

/// The number of a role's port: that of the queue, or the number of queues for the root.
pub fn port_number(role: Role, geometry: Geometry) -> u32
    ensures { result ≡ number_of geometry role }
{
    match role {
        Role::Queue(queue) => queue.0,
        Role::Root => geometry.queues(),
    }
}

/// The identifier of a submission queue: the queue's number plus 1, or 0 for the root.
pub fn queue_id(role: Role, geometry: Geometry) -> u32
    requires { IsRole geometry role }
    ensures small { result < 2 ^ 16 }
    ensures is { result ≡ id_of (queue_in role) }
{
    match role {
        Role::Queue(queue) => {
            prove!(queue.0 < geometry.queues());
            queue.0 + 1
        }
        Role::Root => 0,
    }
}

/// The blocks of a role.
pub fn extents(geometry: Geometry, role: Role) -> (Extent, Extent)
    requires { IsRole geometry role }
    ensures area_first { result.0.first ≡ area_first_of geometry role }
    ensures area_size { result.0.size ≡ area_size_of geometry role }
    ensures homes_first { result.1.first ≡ homes_first_of geometry role }
    ensures homes_size { result.1.size ≡ homes_size_of geometry role }
    ensures order { result.0.first + result.0.size ≤ result.1.first }
    ensures end { result.1.first + result.1.size ≤ 2 ^ 32 }
{
    let homes = geometry.queues() * geometry.area();
    match role {
        Role::Queue(queue) => (
            Extent {
                first: queue.0 * geometry.area(),
                size: geometry.area(),
            },
            Extent {
                first: homes + geometry.meta() + queue.0 * geometry.zone(),
                size: geometry.zone(),
            },
        ),
        Role::Root => (
            Extent { first: 0, size: 0 },
            Extent {
                first: homes,
                size: geometry.meta(),
            },
        ),
    }
}
