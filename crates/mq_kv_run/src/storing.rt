// A run on a store over the ports of a drive, from its opening to the end of its desk.
ghost use Rattle.std.specs.Prelude.{◌≡◌, ◌⊎◌, ◌≤◌, ◌^◌, [], ◌∷◌, IfErr, IfOk};
ghost use Rattle.mq_blocks.specs.Geometry.{meta_of};
ghost use Rattle.mq_kv.specs.Opening.{AreFormed, IsNotOpened, IsOpenedOver, MayOpen};
ghost use Rattle.mq_kv.specs.Seats.{IsNewSession};
ghost use Rattle.mq_kv_entries.specs.Group.{store_group};
ghost use Rattle.mq_kv_run.specs.Played.{EndsBy, HasPlayedStore, HasRunStore};
ghost use Rattle.mq_kv_run.specs.Refusals.{IsUnopened};
ghost use Rattle.mq_recover.specs.Drives.{drive_of};
ghost use Rattle.mq_sessions.specs.Calls.{IsReady};
ghost use Rattle.mq_tie.specs.Closed.{HasRun};
ghost use Rattle.mq_turns.specs.AtDesk.{AtDesk, chairs_of, start_of, view};

use crate::playing::play_groups;
use crate::refusal::KvRunRefusal;
use mq_blocks::{Geometry, OutOfMemory, TxNo};
use mq_drive::{Port, Ports};
use mq_journal::CheckpointRefusal;
use mq_kv::{Kv, KvOpenRefusal, KvSession};
use mq_kv_entries::KvEntry;
use mq_kv_text::{GroupReport, KvGroup};
use mq_recover::Standing;
use mq_tie::{Ended, close_desk};
use std::alloc::Global;
use std::sync::Wait;

/// What a run leaves of the ports of a drive, and what is reported of it.
#[derive(Drop)]
pub struct StoreEnd<P: Port> {
    pub ports: Ports<P>,
    pub reports: Vec<GroupReport>,
    /// The result of the checkpoint at the end, if one was asked for.
    pub finished: Option<Result<TxNo, CheckpointRefusal>>,
}

// Why no groups are run where no store is opened.
fn refusal_of(refusal: KvOpenRefusal) -> KvRunRefusal
    ensures { IsUnopened refusal result }
{
    match refusal {
        KvOpenRefusal::Bucket { block, offset } => KvRunRefusal::Bucket { block, offset },
        KvOpenRefusal::OutOfMemory => KvRunRefusal::OutOfMemory,
    }
}

// Makes a checkpoint, if one is asked for.
fn finish_store<P: Port + Drop, R: Wait>(
    rt: &R,
    alloc: Global,
    store: &Kv<P>,
    session: &mut KvSession<P>,
    finish: bool,
) -> Option<Result<TxNo, CheckpointRefusal>>
    requires desk { AtDesk store.now.desk session.old.chair }
    requires ready { IsReady store_group store.now.geometry session.old.queue session.old.calls
        session.old.held (view session.old.chair) }
    ensures desk { AtDesk store.now.desk session.new.chair }
    ensures ready { IsReady store_group store.now.geometry session.new.queue session.new.calls
        session.new.held (view session.new.chair) }
    ensures ended { EndsBy P.state P.faults finish result (view session.old.chair)
        (view session.new.chair) }
{
    if !finish {
        return None;
    }
    Some(store.checkpoint(rt, alloc, session))
}

// Ends the desk of a store, whose only session this is.
fn close_store<P: Port + Drop>(
    alloc: Global,
    store: Kv<P>,
    session: KvSession<P>,
) -> Result<Ended<P, KvEntry>, OutOfMemory>
    requires desk { AtDesk store.desk session.chair }
    requires ready { IsReady store_group store.geometry session.queue session.calls session.held
        (view session.chair) }
    requires all { chairs_of store.desk ≡ 1 }
    ensures { IfOk result (λ e. HasRun P.state P.faults store_group (start_of store.desk)
        (view session.chair ∷ []) e) }
{
    let mut sessions = Vec::with_capacity(alloc, 1)?;
    sessions.push(session)?;
    match store.into_desk(alloc, sessions) {
        Ok((desk, chairs)) => match close_desk(alloc, desk, chairs) {
            Ok(ended) => Ok(ended),
            Err(_) => Err(OutOfMemory),
        },
        Err(_) => Err(OutOfMemory),
    }
}

// Why no groups are run on ports where no store is opened. The ports are dropped.
fn drop_ports<P: Port + Drop>(refused: (Ports<P>, KvOpenRefusal)) -> KvRunRefusal
    ensures { IsUnopened refused.1 result }
{
    refusal_of(refused.1)
}

// Opens the store on the ports of a drive, with one session.
fn open_store<P: Port + Drop>(
    alloc: Global,
    geometry: Geometry,
    ports: Ports<P>,
    standing: Standing,
) -> Result<(Kv<P>, KvSession<P>), KvRunRefusal>
    requires drive { MayOpen geometry (drive_of P.state ports) standing }
    requires base { standing.base ≤ 2 ^ 62 }
    ensures formed { IfOk result (λ _. AreFormed (meta_of geometry) standing.blocks.items) }
    ensures desk { IfOk result (λ r. IsOpenedOver P.state P.faults geometry ports standing
        (start_of r.0.desk)) }
    ensures chairs { IfOk result (λ r. chairs_of r.0.desk ≡ 1) }
    ensures geometry { IfOk result (λ r. r.0.geometry ≡ geometry) }
    ensures session { IfOk result (λ r. AtDesk r.0.desk r.1.chair
        × IsNewSession geometry (start_of r.0.desk) 0 r.1.queue r.1.calls r.1.wanted.items r.1.held
        (view r.1.chair)) }
    ensures refused { IfErr result (λ e. (why : _) × IsUnopened why e
        × IsNotOpened geometry standing.blocks.items why) }
{
    match Kv::open(alloc, geometry, ports, standing, 1) {
        Ok((store, mut sessions)) => match sessions.pop() {
            Some(session) => Ok((store, session)),
            None => unreachable!(),
        },
        Err(refused) => Err(drop_ports(refused)),
    }
}

// Plays groups on a store that was opened, with `finish` makes a checkpoint, and ends.
fn play_store<P: Port + Drop, R: Wait>(
    rt: &R,
    alloc: Global,
    store: Kv<P>,
    mut session: KvSession<P>,
    groups: &[KvGroup],
    finish: bool,
) -> Result<StoreEnd<P>, OutOfMemory>
    requires desk { AtDesk store.desk session.chair }
    requires ready { IsReady store_group store.geometry session.queue session.calls session.held
        (view session.chair) }
    requires all { chairs_of store.desk ≡ 1 }
    ensures { IfOk result (HasPlayedStore P.Port P.state P.faults store.geometry (start_of store.desk)
        session.queue (view session.chair) groups.now finish) }
{
    let reports = play_groups(rt, alloc, &store, &mut session, groups)?;
    let finished = finish_store(rt, alloc, &store, &mut session, finish);
    let ended = close_store(alloc, store, session)?;
    let (ports, _) = ended.into_ports();
    Ok(StoreEnd {
        ports,
        reports,
        finished,
    })
}

/// Opens the store on the ports of a drive that was recovered, plays groups on one session, with `finish` makes a
/// checkpoint, and ends. On out of memory everything is dropped.
pub fn run_store<P: Port + Drop, R: Wait>(
    rt: &R,
    alloc: Global,
    geometry: Geometry,
    ports: Ports<P>,
    standing: Standing,
    groups: &[KvGroup],
    finish: bool,
) -> Result<StoreEnd<P>, KvRunRefusal>
    requires drive { MayOpen geometry (drive_of P.state ports) standing }
    requires base { standing.base ≤ 2 ^ 62 }
    ensures ok { IfOk result (HasRunStore P.Port P.state P.faults geometry ports standing groups.now
        finish) }
    ensures refused { IfErr result (λ e. (e ≡ KvRunRefusal.OutOfMemory)
        ⊎ ((why : _) × IsUnopened why e × IsNotOpened geometry standing.blocks.items why)) }
{
    let (store, session) = open_store(alloc, geometry, ports, standing)?;
    Ok(play_store(rt, alloc, store, session, groups, finish)?)
}
