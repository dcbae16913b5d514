// A store is opened on a desk, over the ports of a drive that was recovered.
ghost use Rattle.std.specs.Prelude.{◌≡◌, ◌≤◌, ◌^◌, ℕ, [], IfOk, IfErr, Some, length, slice_get, vec_len, vec_capacity};
ghost use Rattle.std.specs.List.{All};
ghost use Rattle.mq_blocks.specs.Geometry.{homes_of, meta_of, queues_of};
ghost use Rattle.mq_kv.specs.Opening.{AreFormed, IsNotOpened, IsOpenedOver, MayOpen, first_cells};
ghost use Rattle.mq_kv.specs.Seats.{IsEquipped, IsNewSession};
ghost use Rattle.mq_recover.specs.Drives.{drive_of};
ghost use Rattle.mq_turns.specs.AtDesk.{AtDesk, view, start_of, chairs_of};

use crate::cells::make_cells;
use crate::checking::check_buckets;
use crate::refusal::KvOpenRefusal;
use crate::session::{Kv, KvMachine, KvSession};
use mq_blocks::{Geometry, OutOfMemory};
use mq_drive::{Port, Ports};
use mq_kv_entries::KvGroups;
use mq_pages::{Held, PageCell};
use mq_queue_side::{Root, open_sides};
use mq_recover::Standing;
use mq_revoke::Placement;
use mq_sessions::{equip, open_desk, seat};
use mq_turns::Machine;
use std::alloc::Global;

// What an opening takes memory for before it takes a port: the cells, and what the sessions need.
#[derive(Drop)]
struct Provisions<P: Port + Drop>
where
    KvMachine<P>: Machine,
{
    cells: Vec<PageCell>,
    kits: Vec<(Held, Placement)>,
    sessions: Vec<KvSession<P>>,
}

// Takes that memory.
fn provide<P: Port + Drop>(
    alloc: Global,
    geometry: Geometry,
    standing: Standing,
    sessions: u32,
) -> Result<Provisions<P>, OutOfMemory>
    requires whole { length standing.blocks.items ≡ homes_of geometry }
    ensures cells { IfOk result (λ r. r.cells.items ≡ first_cells geometry
        standing.blocks.items standing.base) }
    ensures kits { IfOk result (λ r. (vec_len r.kits ≡ sessions)
        × All (λ kit. IsEquipped geometry kit.0) r.kits.items) }
    ensures room { IfOk result (λ r. (r.sessions.items ≡ []) × (sessions ≤ vec_capacity r.sessions)) }
{
    Ok(Provisions {
        cells: make_cells(alloc, geometry, standing)?,
        kits: equip(alloc, geometry, sessions)?,
        sessions: Vec::with_capacity(alloc, sessions as usize)?,
    })
}

impl<P: Port + Drop> Kv<P> {
    // Opens a store whose buckets are in their form.
    fn open_formed(
        alloc: Global,
        geometry: Geometry,
        ports: Ports<P>,
        standing: Standing,
        sessions: u32,
    ) -> Result<(Kv<P>, Vec<KvSession<P>>), Ports<P>>
        requires drive { MayOpen geometry (drive_of P.state ports) standing }
        requires formed { AreFormed (meta_of geometry) standing.blocks.items }
        requires base { standing.base ≤ 2 ^ 62 }
        requires sessions { (1 ≤ sessions) × (sessions ≤ queues_of geometry) }
        ensures desk { IfOk result (λ r. IsOpenedOver P.state P.faults geometry ports standing
            (start_of r.0.desk)) }
        ensures chairs { IfOk result (λ r. chairs_of r.0.desk ≡ sessions) }
        ensures geometry { IfOk result (λ r. r.0.geometry ≡ geometry) }
        ensures count { IfOk result (λ r. vec_len r.1 ≡ sessions) }
        ensures each { IfOk result (λ r. (i : ℕ) (s : _)
            → slice_get r.1.items i ≡ Some s
            → AtDesk r.0.desk s.chair
            × IsNewSession geometry (start_of r.0.desk) i s.queue s.calls s.wanted.items s.held
            (view s.chair)) }
        ensures err { IfErr result (λ e. (e.queues.items ≡ ports.queues.items) × (e.root ≡ ports.root)) }
    {
        let base = standing.base;
        let Ok(provisions) = provide(alloc, geometry, standing, sessions) else {
            return Err(ports);
        };
        let Ports { queues, root } = ports;
        let (sides, spare) = match open_sides(alloc, geometry, queues) {
            Ok(opened) => opened,
            Err((queues, _)) => return Err(Ports { queues, root }),
        };
        let Provisions {
            cells,
            kits,
            sessions: seats,
        } = provisions;
        let root = Root::open(root);
        match open_desk::<P, KvGroups>(alloc, cells, sides, root, base, sessions, spare) {
            Ok((desk, chairs)) => {
                let seated = seat(alloc, chairs, kits, seats);
                Ok((Kv { desk, geometry }, seated))
            }
            Err((ports, _)) => Err(ports),
        }
    }

    /// Opens a store over the ports of a drive that was recovered, whose map is that of what stands there, with
    /// `sessions` sessions, the i-th on the i-th queue. What stands there is moved, and not copied. A refusal
    /// gives the ports back.
    pub fn open(
        alloc: Global,
        geometry: Geometry,
        ports: Ports<P>,
        standing: Standing,
        sessions: u32,
    ) -> Result<(Kv<P>, Vec<KvSession<P>>), (Ports<P>, KvOpenRefusal)>
        requires drive { MayOpen geometry (drive_of P.state ports) standing }
        requires base { standing.base ≤ 2 ^ 62 }
        requires sessions { (1 ≤ sessions) × (sessions ≤ queues_of geometry) }
        ensures formed { IfOk result (λ _. AreFormed (meta_of geometry) standing.blocks.items) }
        ensures desk { IfOk result (λ r. IsOpenedOver P.state P.faults geometry ports standing
            (start_of r.0.desk)) }
        ensures chairs { IfOk result (λ r. chairs_of r.0.desk ≡ sessions) }
        ensures geometry { IfOk result (λ r. r.0.geometry ≡ geometry) }
        ensures count { IfOk result (λ r. vec_len r.1 ≡ sessions) }
        ensures each { IfOk result (λ r. (i : ℕ) (s : _)
            → slice_get r.1.items i ≡ Some s
            → AtDesk r.0.desk s.chair
            × IsNewSession geometry (start_of r.0.desk) i s.queue s.calls s.wanted.items s.held
            (view s.chair)) }
        ensures err { IfErr result (λ e. (e.0.queues.items ≡ ports.queues.items) × (e.0.root ≡ ports.root)) }
        ensures refused { IfErr result (λ e. IsNotOpened geometry standing.blocks.items e.1) }
    {
        if let Err(refusal) = check_buckets(geometry, &standing.blocks) {
            return Err((ports, refusal));
        }
        match Kv::open_formed(alloc, geometry, ports, standing, sessions) {
            Ok(opened) => Ok(opened),
            Err(ports) => Err((ports, KvOpenRefusal::OutOfMemory)),
        }
    }
}
