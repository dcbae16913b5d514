// What holds of groups that were done on held pages.
ghost use Rattle.mq_calls.specs.EntryLaws.{WritesRise, PlacementsPlan};
ghost use Rattle.mq_calls.specs.EntryLaws.{EntriesTellCommits, EntriesTellPlans};
ghost use Rattle.mq_calls.specs.EntryLaws.{DoneGroupsDo, DoneGroupsMayBeDrawn, DoneGroupsAsk};
ghost use Rattle.mq_calls.specs.EntryLaws.{DoneGroupsMay, DoneGroupsFit};

use crate::entry::FileEntry;
use mq_desk_laws::JournalValues;
use mq_revoke::a_plan_meets_the_guard;

/// What a group writes is in rising order of home blocks, as its plan asks. A placement of it is a plan
/// by which a queue's side may prepare it.
pub fn a_done_group_may_be_prepared()
    ensures order { WritesRise }
    ensures plan { PlacementsPlan }
{}

/// What is prepared of a group's writes by its plan is what the transaction of its entry logs, writes
/// directly and revokes, and each block goes where the plan says.
pub fn an_entry_tells_its_commit()
    ensures commit { EntriesTellCommits }
    ensures plan { EntriesTellPlans }
{}

/// A group that was done on a map, and changed something, does on it what its entry says: the replies are
/// the entry's, its transaction writes and frees just what it changes, and the next volume lies on the map
/// after it.
pub fn a_done_group_does()
    ensures { DoneGroupsDo }
{}

/// The journal allows the transaction of a group that was done on the map of what is known, where its
/// writes are placed by a plan over that.
pub fn a_done_group_may_be_drawn()
    ensures { DoneGroupsMayBeDrawn }
{
    a_plan_meets_the_guard();
}

/// A group that was done on a map, and is not drawn, since it changes nothing or too much, ran there.
pub fn a_done_group_asks()
    ensures { DoneGroupsAsk }
{}

/// On a desk over the ports of a drive: a group that was done on the map at the newest number may be drawn
/// where its writes are placed by a plan over what is known, and may be read where it isn't drawn.
pub fn a_group_meets_the_rule<J: JournalValues<Entry = FileEntry>>()
    ensures may { DoneGroupsMay J.values }
    ensures fits { DoneGroupsFit J.values }
{
    a_done_group_may_be_drawn();
}
