// What holds of the pages that a session holds.
ghost use Rattle.mq_sessions.specs.Laws.{CellsAreCurrent, PagesAreOfTheMap};
ghost use Rattle.mq_sessions.specs.Laws.{PagesFollowStep, PagesStayAtGiveBack, PagesStayAtStep, PagesStayAtTake};
ghost use Rattle.mq_sessions.specs.Laws.{DrawnPagesAreHeld, NoPageIsLeft};

use mq_desk_laws::JournalValues;
use mq_drive::Port;
use mq_journal::Groups;
use mq_pages::PageCell;
use mq_queue_side::QueueSide;
use mq_turns::Machine;

/// Whatever is known by now, each cell that a session holds is what the machine says of its page.
pub fn held_pages_are_current<M: Machine<Page = PageCell>>()
    ensures { CellsAreCurrent M.meaning }
{
    M::obeys();
}

/// Over a journal the contents of such cells are those of the map at the newest number.
pub fn current_pages_are_of_the_map<J: JournalValues>()
    ensures { PagesAreOfTheMap J.values J.group }
{}

/// The pages of a session stay held while it takes another turn or gives one back, and at a step of its own
/// that is about other turns: a draw that leaves the pages alone, a store of a mark, a charge. A step that
/// is about them gives them other cells.
pub fn held_pages_stay<M: Machine<Page = PageCell>>()
    ensures take { PagesStayAtTake M.meaning }
    ensures give_back { PagesStayAtGiveBack M.meaning }
    ensures step { PagesStayAtStep M.meaning }
    ensures follow { PagesFollowStep M.meaning }
{}

/// The pages that a session holds when it draws a number on a side stay held: by what it then knows, each
/// cell is what the transaction of its group made of it. A page that the group leaves alone keeps its cell.
pub fn drawn_pages_are_held<P: Port + Drop, G: Groups>(side: &QueueSide<P, G::Entry>)
    ensures { DrawnPagesAreHeld P.state P.faults G.group side.now }
{
    let _ = side;
}

/// A session that gives back its pages, and the one other turn that it holds, then holds nothing.
pub fn no_page_is_left<M: Machine<Page = PageCell>>()
    ensures { NoPageIsLeft M.meaning }
{}
