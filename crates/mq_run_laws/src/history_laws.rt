// What holds of legal runs and of cuts.
ghost use Rattle.mq_run_laws.specs.HistoryLaws.{SoundVolumesLie, VolumesHaveOneMap, MapsHaveOneVolume};
ghost use Rattle.mq_run_laws.specs.HistoryLaws.{StandingVolumesStand};
ghost use Rattle.mq_run_laws.specs.HistoryLaws.{ChangesHaveACount, ChangesHaveOneCount, ChangesAreOfHomes, FewBlocksHaveOneMore};
ghost use Rattle.mq_run_laws.specs.HistoryLaws.{EachNumberHasACommit, LinesHaveNumbersWithin, NumbersNeverFall};
ghost use Rattle.mq_run_laws.specs.HistoryLaws.{GoodCommitsAreRung};
ghost use Rattle.mq_run_laws.specs.HistoryLaws.{ImagesStartOnce, CutsStartTheNextRun, CleanCutsAreAtHome};
ghost use Rattle.mq_run_laws.specs.HistoryLaws.{EachVolumeStartsARun, EachRunHasACut};
ghost use Rattle.mq_run_laws.specs.HistoryLaws.{HistoriesLie, EntriesChangeTheVolume, EntriesAskOnTheVolume};
ghost use Rattle.mq_run_laws.specs.HistoryLaws.{QuietEntriesStay, QuietEntriesStayOnMaps};
ghost use Rattle.mq_run_laws.specs.HistoryLaws.{HistoriesAreRuns, VolumesAtNumbersLie, HistoriesEndAtTheNewest};
ghost use Rattle.mq_run_laws.specs.HistoryLaws.{TheSmallRunIsLegal, TheSmallRunIsAnswered, TheSmallRunIsCut};
ghost use Rattle.mq_run_laws.specs.HistoryLaws.{NoLineIsLeftOut, NoAnswerIsLeftOut, NoGroupIsAnsweredTwice};
ghost use Rattle.mq_run_laws.specs.HistoryLaws.{NoCommitIsARead, NoRepliesAreSwapped, NoNumberComesTwice};
ghost use Rattle.mq_run_laws.specs.HistoryLaws.{NoSmallGroupIsLarge, NoGroupChangesByItself, NoChangeIsAsked};
ghost use Rattle.mq_run_laws.specs.HistoryLaws.{NoLaterOneStopsAGroup, NoReachedOneFails, NoOtherStatusFails, NoAskIsStopped};
ghost use Rattle.mq_run_laws.specs.HistoryLaws.{SpelledScriptsAreOfBytes, LogsDo, LogsLead};

use mq_calls::FileEntry;
use mq_desk_laws::JournalValues;

/// A sound volume lies on exactly one map, and no other volume lies on that map. Where a volume stands on
/// an image, each block of each of its maps does.
pub fn a_volume_has_one_map()
    ensures some { SoundVolumesLie }
    ensures map { VolumesHaveOneMap }
    ensures volume { MapsHaveOneVolume }
    ensures stands { StandingVolumesStand }
{}

/// A change from one sound volume to another writes a definite number of blocks, which is at most the
/// number of home blocks. Where one block of a descriptor has room for so many, its commit has one entry more.
pub fn a_change_has_a_count()
    ensures some { ChangesHaveACount }
    ensures one { ChangesHaveOneCount }
    ensures few { ChangesAreOfHomes }
    ensures entries { FewBlocksHaveOneMore }
{}

/// A run has a commit for each number from the base on to the last, and no other numbers; they never fall
/// along the lines. A commit that was answered `ok` has moved the doorbell of its queue.
pub fn each_number_has_its_commit()
    ensures commit { EachNumberHasACommit }
    ensures within { LinesHaveNumbersWithin }
    ensures order { NumbersNeverFall }
    ensures rung { GoodCommitsAreRung }
{}

/// An image starts a run with one base and one volume. What a run leaves starts the next one with the
/// volume for which the cut stands, and with a base not above the last number. There are such images: each
/// sound volume starts a run, and each run that ends in one has a clean cut.
pub fn a_run_goes_on()
    ensures once { ImagesStartOnce }
    ensures next { CutsStartTheNextRun }
    ensures clean { CleanCutsAreAtHome }
    ensures starts { EachVolumeStartsARun }
    ensures cut { EachRunHasACut }
{}

/// Entries that do what they say, one after another on a map on which a volume lies, lead from volume to
/// volume: after each of them the volume after its group lies on the map. So the lines that report them are
/// a run. An entry that was read, and neither writes nor frees, leaves the volume as it is.
pub fn a_history_is_a_run()
    ensures laid { HistoriesLie }
    ensures changes { EntriesChangeTheVolume }
    ensures asks { EntriesAskOnTheVolume }
    ensures stays { QuietEntriesStay }
    ensures stays_on { QuietEntriesStayOnMaps }
    ensures run { HistoriesAreRuns }
    ensures at { VolumesAtNumbersLie }
    ensures newest { HistoriesEndAtTheNewest }
{}

/// The log of a desk, from its last entry back, is such a history on the map at the opening.
pub fn a_log_is_a_history<J: JournalValues<Entry = FileEntry>>()
    ensures does { LogsDo J.values }
    ensures leads { LogsLead J.values }
{}

/// What the scripts that are spelled by texts write are bytes.
pub fn spelled_scripts_are_of_bytes()
    ensures { SpelledScriptsAreOfBytes }
{}

/// The run of one group that makes a directory and a file is legal, answered and cut; and what might be
/// reported of it in its place is refused.
pub fn a_small_run()
    ensures legal { TheSmallRunIsLegal }
    ensures answered { TheSmallRunIsAnswered }
    ensures cut { TheSmallRunIsCut }
    ensures no_line { NoLineIsLeftOut }
    ensures no_answers { NoAnswerIsLeftOut }
    ensures once { NoGroupIsAnsweredTwice }
    ensures no_read { NoCommitIsARead }
    ensures no_swap { NoRepliesAreSwapped }
    ensures no_twice { NoNumberComesTwice }
    ensures no_large { NoSmallGroupIsLarge }
    ensures no_changes { NoGroupChangesByItself }
    ensures no_ask { NoChangeIsAsked }
    ensures no_later { NoLaterOneStopsAGroup }
    ensures no_reached { NoReachedOneFails }
    ensures no_status { NoOtherStatusFails }
    ensures no_stopped_ask { NoAskIsStopped }
{}
