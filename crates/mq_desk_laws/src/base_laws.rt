// What holds of bases, and of what makes them.
ghost use Rattle.mq_desk_laws.specs.BaseLaws.{GrowthGoesOn, BasesStay, FrontsStay};
ghost use Rattle.mq_desk_laws.specs.BaseLaws.{KeptMapsAreBases, FirstBasesAreBases, GreaterBasesAreBases};
ghost use Rattle.mq_desk_laws.specs.BaseLaws.{PagesBegin, PagesGoOn, PagesStay, PagesEnd};
ghost use Rattle.mq_desk_laws.specs.BaseLaws.{NotesMakeABase, StoppedPagesMakeABase};
ghost use Rattle.mq_desk_laws.specs.BaseLaws.{DoneQueuesReachTheFront, DoneQueuesStay, CellsAreNumbered};
ghost use Rattle.mq_desk_laws.specs.BaseLaws.{WaitingPagesWereLogged, WaitingPagesAreAboveBases, HomeWritesBegin};
ghost use Rattle.mq_desk_laws.specs.BaseLaws.{RootHomeWritesBegin, HomeWritesEnd, RootHomeWritesEnd};
ghost use Rattle.mq_desk_laws.specs.BaseLaws.{ToldLogsHold, ToldSidesHold, ToldRootsHold, OtherSidesHold};
ghost use Rattle.mq_desk_laws.specs.BaseLaws.{OtherRootsHold, ToldPagesAreNumbered};
ghost use Rattle.mq_desk_laws.specs.BaseLaws.{BasesAreStored, BasesAreFlushed, RaisedLogsHold, RaisedSidesHold};
ghost use Rattle.mq_desk_laws.specs.BaseLaws.{RaisedRootsHold};

/// What is known grows while transactions are drawn and done, home writes end, and the base word is
/// raised. A base stays one, and the front never falls.
pub fn a_base_stays()
    ensures base { BasesStay }
    ensures front { FrontsStay }
    ensures on { GrowthGoesOn }
{}

/// A number from the first base up to the front, whose whole map is kept at home, is a base. So are the
/// base at an opening and the greater of two bases.
pub fn a_kept_map_is_a_base()
    ensures kept { KeptMapsAreBases }
    ensures first { FirstBasesAreBases }
    ensures greater { GreaterBasesAreBases }
{}

/// A number up to the front becomes a base page by page, in rising order of blocks, while others draw,
/// settle and write home.
pub fn pages_make_a_base()
    ensures begin { PagesBegin }
    ensures next { PagesGoOn }
    ensures stay { PagesStay }
    ensures end { PagesEnd }
{}

/// A number is a base where each page needed no home write at some moment, none of them before the
/// number was done.
pub fn notes_make_a_base()
    ensures { NotesMakeABase }
{}

/// The last number is a base where all numbers are done and no page waits for a home write.
pub fn stopped_pages_make_a_base()
    ensures { StoppedPagesMakeABase }
{}

/// A number that was drawn, and up to which each queue is done, is not above the front, and each queue
/// stays done up to it.
pub fn done_queues_reach_the_front()
    ensures front { DoneQueuesReachTheFront }
    ensures stay { DoneQueuesStay }
{}

/// The numbers of a page's cell - the last change of its block, the last that logged it, and the last
/// whose content came home - are what the definition of a base needs of a page.
pub fn a_cell_is_numbered()
    ensures { CellsAreNumbered }
{}

/// A page that waits for a home write was logged by its last change, which is done, and is above each
/// base: so above the flushed and the stored base of the root, whoever holds it.
pub fn a_waiting_page_was_logged_last()
    ensures logged { WaitingPagesWereLogged }
    ensures above { WaitingPagesAreAboveBases }
{}

/// A home write of a waiting page keeps the invariant of its port, of a queue as of the root: once it
/// has begun, even if it then fails or is cut off; and once it has ended, when the block certainly holds
/// at home the bytes that were written.
pub fn a_home_write_keeps_its_port()
    ensures begin { HomeWritesBegin }
    ensures begin_root { RootHomeWritesBegin }
    ensures end { HomeWritesEnd }
    ensures end_root { RootHomeWritesEnd }
{}

/// Once it is known that a page's content was written home, the history, the page, its port and each
/// other port keep their invariants.
pub fn a_home_write_is_told()
    ensures log { ToldLogsHold }
    ensures side { ToldSidesHold }
    ensures root { ToldRootsHold }
    ensures other_side { OtherSidesHold }
    ensures other_root { OtherRootsHold }
    ensures page { ToldPagesAreNumbered }
{}

/// The root's port may store a base, or the stored one again where that is greater, and flush it.
pub fn a_base_is_stored()
    ensures stored { BasesAreStored }
    ensures flushed { BasesAreFlushed }
{}

/// The base word may be raised to a base up to the one that the root's port has flushed.
pub fn a_base_is_raised()
    ensures log { RaisedLogsHold }
    ensures side { RaisedSidesHold }
    ensures root { RaisedRootsHold }
{}
