// What holds of the groups that a session runs on the pages that it holds.
ghost use Rattle.mq_calls.specs.Laws.{DoneGroupsStand, ReadingGroupsChangeNothing};
ghost use Rattle.mq_turns.specs.AtDesk.{start_of};

use crate::machine::FileMachine;
use mq_drive::Port;
use mq_turns::Desk;

/// A group that is done on the pages that a session holds is done on the map at the newest number, whatever
/// is drawn meanwhile.
pub fn a_done_group_stands<P: Port + Drop>(desk: &Desk<FileMachine<P>>)
    ensures { DoneGroupsStand P.state P.faults (start_of desk.now) }
{
    let _ = desk;
}

/// A group of requests none of which may change the tree writes nothing and frees nothing.
pub fn a_reading_group_changes_nothing()
    ensures { ReadingGroupsChangeNothing }
{}
