// What holds of the rule of a desk over ports.
ghost use Rattle.mq_desk_laws.specs.Laws.{PagesStay, SidesStay, RootsStay};
ghost use Rattle.mq_desk_laws.specs.Laws.{DrawsAreRuled, DrawsTouchTheirSides, PagesShowDraws, MapsStayGood};
ghost use Rattle.mq_desk_laws.specs.Laws.{OpeningsAreRuled, JournalsGrow, NotesAreTold};
ghost use Rattle.mq_desk_laws.specs.Laws.{CellsAreNumbered, CellsWait, NotedPagesWereBrought};
ghost use Rattle.mq_desk_laws.specs.Laws.{ClaimsAreRuled, SidesShowClaims, ClaimsReachTheFront};
ghost use Rattle.mq_desk_laws.specs.Laws.{HomeWritesAreRuled, PagesShowHomeWrites};
ghost use Rattle.mq_desk_laws.specs.Laws.{RaisesAreRuled, RootsShowRaises};
ghost use Rattle.mq_desk_laws.specs.Laws.{ChargesAreRuled, SidesShowCharges, RootsShowCharges};

use crate::values::JournalValues;

/// A page, a side or the root still satisfies its rule when more is known, if nothing of that is about it.
pub fn values_stay<J: JournalValues>()
    ensures page { PagesStay J.values J.group }
    ensures side { SidesStay J.values J.group }
    ensures root { RootsStay J.values J.group }
{}

/// A group that may be drawn keeps the history legal and the base word a base, and changes its queue's
/// side. A page shows what it made of the block. Groups run on the map after each legal history.
pub fn a_draw_keeps_the_rule<J: JournalValues>()
    ensures ok { DrawsAreRuled J.values J.group }
    ensures side { DrawsTouchTheirSides J.values J.group }
    ensures page { PagesShowDraws J.values J.group }
    ensures map { MapsStayGood J.values J.group }
{}

/// The values with which a desk is opened over a journal in which nothing was drawn satisfy the rule, so
/// that a desk may be made of them.
pub fn an_opening_is_ruled<J: JournalValues>()
    ensures { OpeningsAreRuled J.values J.group }
{}

/// What the journal knows grows with what is known on the desk. A noted home write is known to the journal,
/// and the numbers of a cell are those of a page.
pub fn the_journal_grows_with_the_desk<J: JournalValues>()
    ensures grows { JournalsGrow J.values J.group }
    ensures told { NotesAreTold J.values J.group }
    ensures page { CellsAreNumbered J.values J.group }
    ensures waits { CellsWait J.values J.group }
    ensures noted { NotedPagesWereBrought J.values J.group }
{}

/// Numbers that were drawn may be claimed to be done by a side whose head is past those of its queue. A
/// number up to which all are claimed is not above the front.
pub fn claims_keep_the_rule<J: JournalValues>()
    ensures ok { ClaimsAreRuled J.values J.group }
    ensures side { SidesShowClaims J.values J.group }
    ensures front { ClaimsReachTheFront J.values J.group }
{}

/// The home write of a page that waits for it may be noted, and the page then says so.
pub fn a_home_write_keeps_the_rule<J: JournalValues>()
    ensures ok { HomeWritesAreRuled J.values J.group }
    ensures page { PagesShowHomeWrites J.values J.group }
{}

/// The base word may be raised to a base that the root has flushed.
pub fn a_raised_base_keeps_the_rule<J: JournalValues>()
    ensures ok { RaisesAreRuled J.values J.group }
    ensures root { RootsShowRaises J.values J.group }
{}

/// A report may be made of each port; it changes nothing else that the rule needs. The side or the root
/// keeps its rule if its port has gained a fault of the kind that is charged to it, and the named one since
/// the opening; a side, if its own record says so, too.
pub fn charges_keep_the_rule<J: JournalValues>()
    ensures ok { ChargesAreRuled J.values J.group }
    ensures side { SidesShowCharges J.values J.group }
    ensures root { RootsShowCharges J.values J.group }
{}
