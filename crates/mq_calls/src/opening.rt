// A file system is opened on a desk, over the ports of a drive that was recovered.
ghost use Rattle.std.specs.Prelude.{◌≡◌, ◌≤◌, ◌+◌, ◌^◌, ℕ, [], IfOk, IfErr, Some, length, slice_get, vec_len, vec_capacity};
ghost use Rattle.std.specs.List.{All};
ghost use Rattle.mq_blocks.specs.Geometry.{homes_of, queues_of};
ghost use Rattle.mq_recover.specs.Drives.{drive_of};
ghost use Rattle.mq_turns.specs.AtDesk.{AtDesk, view, start_of, chairs_of};
ghost use Rattle.mq_calls.specs.Helpers.{IsNewHelper};
ghost use Rattle.mq_calls.specs.Opening.{IsEquipped, IsNewSession, IsOpenedOver, MayOpen, first_cells};

mod cells;

use crate::machine::FileMachine;
use crate::session::{Mqfs, Session};
use crate::settling::Helper;
use cells::make_cells;
use mq_blocks::{Geometry, OutOfMemory};
use mq_drive::{Port, Ports};
use mq_pages::{Held, PageCell};
use mq_queue_side::{Root, open_sides};
use mq_recover::Standing;
use mq_revoke::Placement;
use mq_sessions::{equip, open_desk, seat, set_apart};
use mq_turns::Machine;
use std::alloc::Global;

// What an opening takes memory for before it takes a port: the cells, and what the sessions and the helpers
// need.
#[derive(Drop)]
struct Provisions<P: Port + Drop>
where
    FileMachine<P>: Machine,
{
    cells: Vec<PageCell>,
    kits: Vec<(Held, Placement)>,
    sessions: Vec<Session<P>>,
    helpers: Vec<Helper<P>>,
}

// Takes that memory.
fn provide<P: Port + Drop>(
    alloc: Global,
    geometry: Geometry,
    standing: Standing,
    sessions: u32,
    helpers: u32,
) -> Result<Provisions<P>, OutOfMemory>
    requires whole { length standing.blocks.items ≡ homes_of geometry }
    ensures cells { IfOk result (λ r. r.cells.items ≡ first_cells geometry
        standing.blocks.items standing.base) }
    ensures kits { IfOk result (λ r. (vec_len r.kits ≡ sessions)
        × All (λ kit. IsEquipped geometry kit.0) r.kits.items) }
    ensures room { IfOk result (λ r. (r.sessions.items ≡ []) × (sessions ≤ vec_capacity r.sessions)) }
    ensures helpers { IfOk result (λ r. (r.helpers.items ≡ []) × (helpers ≤ vec_capacity r.helpers)) }
{
    Ok(Provisions {
        cells: make_cells(alloc, geometry, standing)?,
        kits: equip(alloc, geometry, sessions)?,
        sessions: Vec::with_capacity(alloc, sessions as usize)?,
        helpers: Vec::with_capacity(alloc, helpers as usize)?,
    })
}

impl<P: Port + Drop> Mqfs<P> {
    /// Opens a file system over the ports of a drive that was recovered, whose map is that of what stands
    /// there, with `sessions` sessions, the i-th on the i-th queue, and with `helpers` helpers. What stands
    /// there is moved, and not copied. On out of memory the ports are given back.
    pub fn open_with(
        alloc: Global,
        geometry: Geometry,
        ports: Ports<P>,
        standing: Standing,
        sessions: u32,
        helpers: u32,
    ) -> Result<(Mqfs<P>, Vec<Session<P>>, Vec<Helper<P>>), (Ports<P>, OutOfMemory)>
        requires drive { MayOpen geometry (drive_of P.state ports) standing }
        requires base { standing.base ≤ 2 ^ 62 }
        requires sessions { (1 ≤ sessions) × (sessions ≤ queues_of geometry) }
        requires helpers { helpers ≤ 16 }
        ensures desk { IfOk result (λ r. IsOpenedOver P.state P.faults geometry ports standing
            (start_of r.0.desk)) }
        ensures chairs { IfOk result (λ r. chairs_of r.0.desk ≡ sessions + helpers) }
        ensures geometry { IfOk result (λ r. r.0.geometry ≡ geometry) }
        ensures count { IfOk result (λ r. vec_len r.1 ≡ sessions) }
        ensures each { IfOk result (λ r. (i : ℕ) (s : _)
            → slice_get r.1.items i ≡ Some s
            → AtDesk r.0.desk s.chair
            × IsNewSession geometry (start_of r.0.desk) i s.queue s.calls s.wanted.items s.held
            (view s.chair)) }
        ensures helpers { IfOk result (λ r. vec_len r.2 ≡ helpers) }
        ensures idle { IfOk result (λ r. (i : ℕ) (h : _)
            → slice_get r.2.items i ≡ Some h
            → AtDesk r.0.desk h.chair
            × IsNewHelper (start_of r.0.desk) (sessions + i) (view h.chair)) }
        ensures err { IfErr result (λ e. (e.0.queues.items ≡ ports.queues.items) × (e.0.root ≡ ports.root)) }
    {
        let base = standing.base;
        let Ok(provisions) = provide(alloc, geometry, standing, sessions, helpers) else {
            return Err((ports, OutOfMemory));
        };
        let Ports { queues, root } = ports;
        let (sides, spare) = match open_sides(alloc, geometry, queues) {
            Ok(opened) => opened,
            Err((queues, full)) => return Err((Ports { queues, root }, full)),
        };
        let Provisions {
            cells,
            kits,
            sessions: seats,
            helpers: aides,
        } = provisions;
        let root = Root::open(root);
        match open_desk(alloc, cells, sides, root, base, sessions + helpers, spare) {
            Ok((desk, chairs)) => {
                let (chairs, aided) = set_apart(chairs, sessions, aides);
                let seated = seat(alloc, chairs, kits, seats);
                Ok((Mqfs { desk, geometry }, seated, aided))
            }
            Err(refused) => Err(refused),
        }
    }

    /// As `open_with` without a helper.
    pub fn open(
        alloc: Global,
        geometry: Geometry,
        ports: Ports<P>,
        standing: Standing,
        sessions: u32,
    ) -> Result<(Mqfs<P>, Vec<Session<P>>), (Ports<P>, OutOfMemory)>
        requires drive { MayOpen geometry (drive_of P.state ports) standing }
        requires base { standing.base ≤ 2 ^ 62 }
        requires sessions { (1 ≤ sessions) × (sessions ≤ queues_of geometry) }
        ensures desk { IfOk result (λ r. IsOpenedOver P.state P.faults geometry ports standing
            (start_of r.0.desk)) }
        ensures chairs { IfOk result (λ r. chairs_of r.0.desk ≡ sessions) }
        ensures geometry { IfOk result (λ r. r.0.geometry ≡ geometry) }
        ensures count { IfOk result (λ r. vec_len r.1 ≡ sessions) }
        ensures each { IfOk result (λ r. (i : ℕ) (s : _)
            → slice_get r.1.items i ≡ Some s
            → AtDesk r.0.desk s.chair
            × IsNewSession geometry (start_of r.0.desk) i s.queue s.calls s.wanted.items s.held
            (view s.chair)) }
        ensures err { IfErr result (λ e. (e.0.queues.items ≡ ports.queues.items) × (e.0.root ≡ ports.root)) }
    {
        match Mqfs::open_with(alloc, geometry, ports, standing, sessions, 0) {
            Ok((files, sessions, _)) => Ok((files, sessions)),
            Err(refused) => Err(refused),
        }
    }
}
