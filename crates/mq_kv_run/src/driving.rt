// Groups are played on the ports of a drive.
ghost use Rattle.std.specs.Prelude.{◌≡◌, IfErr, IfOk};
ghost use Rattle.mq_image_run.specs.Drives.{AreKept, IsReady};
ghost use Rattle.mq_kv_run.specs.Drives.{IsNotPlayed, PlaysGroups};

use crate::refusal::KvRunRefusal;
use crate::storing::{StoreEnd, run_store};
use mq_blocks::{Geometry, TxNo};
use mq_drive::{EmuPort, Ports};
use mq_journal::CheckpointRefusal;
use mq_kv::find_store;
use mq_kv_entries::KvGroups;
use mq_kv_text::{GroupReport, KvGroup};
use mq_tie::a_closed_desk_keeps_its_ports;
use std::alloc::Global;
use std::sync::Wait;

/// What is reported of groups that were played on a drive.
#[derive(Drop)]
pub struct Played {
    pub reports: Vec<GroupReport>,
    /// The result of the checkpoint at the end, if one was asked for.
    pub finished: Option<Result<TxNo, CheckpointRefusal>>,
}

/// Plays groups over the ports of a drive and the store that stands there, with `finish` to a checkpoint.
pub fn play_on_ports<'f, R: Wait>(
    rt: &R,
    alloc: Global,
    geometry: Geometry,
    ports: Ports<EmuPort<'f>>,
    groups: &[KvGroup],
    finish: bool,
) -> Result<(Played, Ports<EmuPort<'f>>), KvRunRefusal>
    requires { IsReady geometry ports }
    ensures ok { IfOk result (λ r. PlaysGroups geometry groups.now finish ports.entry r.0 r.1) }
    ensures kept { IfOk result (λ r. AreKept geometry ports.entry r.1) }
    ensures refused { IfErr result (IsNotPlayed geometry ports.entry) }
{
    let standing = find_store(alloc, geometry, &ports)?;
    let end = run_store(rt, alloc, geometry, ports, standing, groups, finish)?;
    a_closed_desk_keeps_its_ports::<EmuPort<'_>, KvGroups>();
    let StoreEnd {
        ports,
        reports,
        finished,
    } = end;
    Ok((Played { reports, finished }, ports))
}
