// Writing copies home, the base past them, and the heads to the doorbells.
ghost use Rattle.std.specs.Prelude.{◌≡◌, ◌<◌, ◌≤◌, ℕ, OnOk, OnErr, IfErr, IsNone, length, map};
ghost use Rattle.mq_blocks.specs.Drive.{IsHome, IsQuiescent};
ghost use Rattle.mq_blocks.specs.Geometry.{homes_of, home_lba, zone_of};
ghost use Rattle.mq_ledger.specs.State.{port_at};
ghost use Rattle.mq_drive.specs.Steps.{OffCause};
ghost use Rattle.mq_recover.specs.Drives.{ArePorts, drive_of, faults_on};
ghost use Rattle.mq_recover.specs.RecoverHomes.{AreBelow, GivesHome, GivesOne, CanMove, AreCutMoves, after_raise, after_move, IsCutRaise, IsCutMove};
ghost use Rattle.mq_recover.specs.RecoverCauses.{HasHomeCause, HasDriveCause, HasMoveCause};
ghost use Rattle.mq_recover.specs.Events.{after_events, home_events, StopsAt};

use crate::refusal::RecoverRefusal;
use mq_blocks::{Block, BlockNo, Geometry, TxNo};
use mq_drive::{HomeStep, Off, Port, Ports};
use std::collections::VecDeque;

// Writes blocks home, each through the port of its zone.
pub fn write_homes<P: Port>(
    geometry: Geometry,
    ports: &mut Ports<P>,
    writes: VecDeque<(BlockNo, Block)>,
) -> Result<(), RecoverRefusal>
    requires ports { ArePorts geometry (drive_of P.state ports.old) }
    requires below { AreBelow (homes_of geometry) writes.items }
    ensures ok { OnOk result (drive_of P.state ports.new ≡ after_events geometry
        (drive_of P.state ports.old) (home_events writes.items)) }
    ensures drive { IfErr result (λ e. StopsAt geometry e
        (drive_of P.state ports.old) (home_events writes.items)
        (drive_of P.state ports.new)) }
    ensures cause { HasDriveCause geometry result
        (faults_on P.faults ports.old)
        (faults_on P.faults ports.new) }
{
    let mut writes = writes;
    while let Some((b, block)) = writes.pop_front() {
        write_one(geometry, ports, b, block)?;
    }
    Ok(())
}

// Writes one block home.
fn write_one<P: Port>(
    geometry: Geometry,
    ports: &mut Ports<P>,
    b: BlockNo,
    block: Block,
) -> Result<(), RecoverRefusal>
    requires ports { ArePorts geometry (drive_of P.state ports.old) }
    requires below { b < homes_of geometry }
    ensures gives { GivesOne geometry (zone_of geometry b)
        (drive_of P.state ports.old) b block result
        (drive_of P.state ports.new) }
    ensures cause { HasDriveCause geometry result
        (faults_on P.faults ports.old)
        (faults_on P.faults ports.new) }
{
    match geometry.zone_of(b) {
        None => write_through(geometry, &mut ports.root, b, block),
        Some(q) => write_through(geometry, &mut ports.queues[q.0 as usize], b, block),
    }
}

// Writes one block home through its port.
fn write_through<P: Port>(
    geometry: Geometry,
    port: &mut P,
    b: BlockNo,
    block: Block,
) -> Result<(), RecoverRefusal>
    requires below { b < homes_of geometry }
    requires home { IsHome (P.state port.old) (home_lba geometry b) }
    ensures gives { GivesHome geometry (P.state port.old) b block result (P.state port.new) }
    ensures cause { HasHomeCause geometry result (P.faults port.old) (P.faults port.new) }
{
    match port.write_home(geometry.home(b), block)? {
        HomeStep::Done => Ok(()),
        HomeStep::Error { status } => Err(RecoverRefusal::Failed { block: b, status }),
    }
}

// Stores and flushes the base where it changes.
pub fn raise_base<P: Port>(root: &mut P, base: TxNo) -> Result<(), Off>
    requires root { IsNone (P.state root.old).queue }
    requires quiet { IsQuiescent (P.state root.old) }
    requires low { (P.state root.old).base ≤ base }
    ensures ok { OnOk result (P.state root.new ≡ after_raise (P.state root.old) base) }
    ensures cut { OnErr result (IsCutRaise (P.state root.old) base (P.state root.new)) }
    ensures cause { OffCause result (P.faults root.old) (P.faults root.new) }
{
    if root.base() == base.0 {
        return Ok(());
    }
    root.store_base(base.0)?;
    root.flush()
}

// Stores each head at its doorbell and flushes it, where it is not there.
pub fn move_heads<P: Port>(queues: &mut [P]) -> Result<(), Off>
    requires { (q : ℕ) → q < length queues.old → CanMove (port_at (map P.state queues.old) q) }
    ensures ok { OnOk result (map P.state queues.new ≡ map after_move (map P.state queues.old)) }
    ensures cut { OnErr result (AreCutMoves (map P.state queues.old) (map P.state queues.new)) }
    ensures cause { HasMoveCause result (map P.faults queues.old) (map P.faults queues.new) }
{
    for queue in queues {
        move_head(queue)?;
    }
    Ok(())
}

// Stores the head at the doorbell and flushes it, where it is not there.
fn move_head<P: Port>(queue: &mut P) -> Result<(), Off>
    requires { CanMove (P.state queue.old) }
    ensures ok { OnOk result (P.state queue.new ≡ after_move (P.state queue.old)) }
    ensures cut { OnErr result (IsCutMove (P.state queue.old) (P.state queue.new)) }
    ensures cause { OffCause result (P.faults queue.old) (P.faults queue.new) }
{
    let doorbell = queue.doorbell();
    if queue.head() == doorbell {
        return Ok(());
    }
    queue.store_head(doorbell)?;
    queue.flush()
}
