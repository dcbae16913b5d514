// One transaction on a side that one thread owns.
ghost use Rattle.std.specs.Prelude.{◌≡◌, ◌<◌, ◌≤◌, ◌+◌, ◌-◌, ◌^◌, [], None, OnOk, length, vec_len, vec_capacity};
ghost use Rattle.mq_blocks.specs.Drive.{IsBoundKept, counted, staged_end};
ghost use Rattle.mq_blocks.specs.Geometry.{queues_of};
ghost use Rattle.mq_blocks.specs.Journal.{number_limit};
ghost use Rattle.mq_blocks.specs.Limits.{usable_depth};
ghost use Rattle.mq_queue_side.specs.Commits.{descriptor_size, further_of};
ghost use Rattle.mq_queue_side.specs.Side.{side_state};
ghost use Rattle.mq_queue_side.specs.Stored.{next_in, rows_of};
ghost use Rattle.mq_replica.specs.Committing.{CommitCause, Commits};

use mq_blocks::TxNo;
use mq_drive::Port;
use mq_queue_side::{Cause, Prepared, QueueSide};

/// Numbers a prepared transaction that writes nothing directly, sends it and drains the side. Whatever is
/// known, the side is then one of the history with it; on success it is done.
pub fn commit<Q: Port>(
    side: &mut QueueSide<Q, ()>,
    prepared: Prepared,
    number: TxNo,
) -> Result<TxNo, Cause>
    requires reserved { vec_len side.old.stored < vec_capacity side.old.stored }
    requires places { next_in (rows_of side.old.stored.items)
        + (length prepared.logged + further_of prepared) < 2 ^ 62 }
    requires queue { side.old.pmr.queue < queues_of side.old.pmr.geometry }
    requires number { 1 ≤ number }
    requires none { side.old.kept ≡ None }
    requires plain { prepared.direct ≡ [] }
    requires room { length prepared.logged + length prepared.direct
        + descriptor_size (length prepared.logged) (length prepared.revoked)
        ≤ usable_depth - (staged_end (Q.state side.old.pmr.port) - (Q.state side.old.pmr.port).head) }
    requires end { staged_end (Q.state side.old.pmr.port) + (length prepared.logged + length prepared.direct
        + descriptor_size (length prepared.logged) (length prepared.revoked)) ≤ number_limit }
    ensures commits { Commits (side_state Q.state Q.faults side.old) (rows_of side.old.stored.items)
        prepared number result (side_state Q.state Q.faults side.new) (rows_of side.new.stored.items) }
    ensures cause { CommitCause result (Q.faults side.old.pmr.port) (Q.faults side.new.pmr.port) }
    ensures none { OnOk result (side.new.kept ≡ None) }
    ensures rings { OnOk result ((Q.state side.new.pmr.port).rings
        ≡ counted (Q.state side.old.pmr.port).rings 1) }
    ensures bound { IsBoundKept (Q.state side.old.pmr.port) (Q.state side.new.pmr.port) }
{
    let numbered = side.numbered(prepared, number, ());
    match side.send(numbered) {
        Ok(_) => side.drain(),
        Err(_) => Err(Cause::Off),
    }
}
