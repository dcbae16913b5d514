// What the plan of a group's writes is made of.
ghost use Rattle.std.specs.Prelude.{◌≡◌, map, IfOk};
ghost use Rattle.mq_sessions.specs.Plans.{PagesTellPlans};
ghost use Rattle.mq_sessions.specs.Plans.{planned_with};

use mq_blocks::{OutOfMemory, TxNo};
use mq_desk_laws::JournalValues;
use mq_pages::{Held, Kind, Write};
use mq_revoke::Planned;
use std::alloc::Global;

// What the rule of placing asks of one write. A block that isn't held counts as not free.
fn plan_write(held: &Held, write: &Write) -> Planned
    ensures { result ≡ planned_with held.now.cells write.now }
{
    let (was_free, version, last_logged) = match held.get(write.block) {
        Some(cell) => (cell.content.is_none(), cell.version, cell.last_logged),
        None => (false, TxNo(0), TxNo(0)),
    };
    Planned {
        block: write.block,
        is_data: matches!(write.kind, Kind::Data),
        was_free,
        version,
        last_logged,
    }
}

/// For each block that a group writes, what the rule of placement needs to know, from the pages that its
/// session holds.
pub(crate) fn plan_writes(
    alloc: Global,
    held: &Held,
    writes: &[Write],
) -> Result<Vec<Planned>, OutOfMemory>
    ensures { IfOk result (λ ps. ps.items ≡ map (planned_with held.now.cells) writes.now) }
{
    let mut planned = Vec::with_capacity(alloc, writes.len())?;
    for write in writes {
        planned.push(plan_write(held, write))?;
    }
    Ok(planned)
}

/// On a desk over the ports of a drive, the cells of the pages that a session holds give what the history
/// says of the blocks that a group writes.
pub fn held_pages_tell_plans<J: JournalValues>()
    ensures { PagesTellPlans J.values J.group }
{}
