// What holds of the parts of a journal that nobody holds.
ghost use Rattle.mq_state_laws.specs.Laws.{PartsHaveTheFacts, PartsAreLawful, LeastMarksAreLawful};
ghost use Rattle.mq_state_laws.specs.Laws.{HeadsReachTheFront};
ghost use Rattle.mq_state_laws.specs.Laws.{LeastMarksAreMany, LeastMarksAreUndone, LeastMarksAreLeast};
ghost use Rattle.mq_state_laws.specs.Laws.{FactsHaveParts, PartsAreTheState};
ghost use Rattle.mq_state_laws.specs.Laws.{WaitingPagesMayGoHome, BasesMayBeStored};
ghost use Rattle.mq_state_laws.specs.Laws.{CutsAreReadable, ReadingsFindAPrefix, StandingsFindAPrefix};
ghost use Rattle.mq_state_laws.specs.Laws.{RecoveriesFindAPrefix, TopsWereDrawn};

/// The facts about the history, about each port by itself and about both bases make one lawful state:
/// whatever a power cut leaves of the ports is readable, reaches a number from the front to the newest one,
/// and stands for the map after this number. The marks may be the words, or each queue's least number that
/// isn't done.
pub fn parts_are_lawful()
    ensures facts { PartsHaveTheFacts }
    ensures lawful { PartsAreLawful }
    ensures least { LeastMarksAreLawful }
    ensures front { HeadsReachTheFront }
{}

/// Each queue's mark is its least number that isn't done, and `u64::MAX` where all are.
pub fn marks_are_the_least_undone()
    ensures many { LeastMarksAreMany }
    ensures undone { LeastMarksAreUndone }
    ensures least { LeastMarksAreLeast }
{}

/// Every state that has the facts is made of such parts.
pub fn a_lawful_state_has_parts()
    ensures parts { FactsHaveParts }
    ensures state { PartsAreTheState }
{}

/// A page that waits for its home write may be written home, and a base may be stored, by the rules of the
/// machine.
pub fn parts_allow_home_writes_and_bases()
    ensures page { WaitingPagesMayGoHome }
    ensures base { BasesMayBeStored }
{}

/// Whatever a power cut leaves of the parts is readable. What `stands` and `recover` read of it reaches a
/// number from the front to the newest one, at or above each acknowledged one, and stands for the map
/// after this number. No image shows a number above the newest one.
pub fn recovery_finds_a_prefix()
    ensures readable { CutsAreReadable }
    ensures read { ReadingsFindAPrefix }
    ensures standing { StandingsFindAPrefix }
    ensures recovered { RecoveriesFindAPrefix }
    ensures top { TopsWereDrawn }
{}
