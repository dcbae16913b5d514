// What holds of a run of scripts.
ghost use Rattle.mq_run_laws.specs.Causes.{RunsAreBacked};
ghost use Rattle.mq_run_laws.specs.Images.{RunsKeepTheirPromise};
ghost use Rattle.mq_run_laws.specs.Laws.{AcknowledgedNumbersAreDone, DoorbellsAreRung, EndsAreCuts, FinishedEndsAreClean};
ghost use Rattle.mq_run_laws.specs.Laws.{RefusalsAreBacked, RefusalsAreCaused, RunsAreAnswered, RunsAreLegal};
ghost use Rattle.mq_run_laws.specs.Recovering.{EveryInterleavingIsRecovered};
ghost use Rattle.mq_run_laws.specs.Sums.{RefusalsAreChargedOnce};

use mq_drive::Port;

/// The commits and reads of a run are a legal list, from the volume and the base at its opening on.
pub fn a_run_is_legal<P: Port>()
    ensures { RunsAreLegal P.Port P.state P.faults }
{}

/// The answers of a run are one for each group of a prefix of each script, with the number of its line.
pub fn a_run_is_answered<P: Port>()
    ensures { RunsAreAnswered P.Port P.state P.faults }
{}

/// Whatever a power cut leaves of the ports after a run is a cut of its history: it reaches a number that
/// is not below any that `fsync` has answered, and the volume at this number stands there. After a
/// checkpoint at the end it is clean.
pub fn a_run_is_cut<P: Port>()
    ensures done { AcknowledgedNumbersAreDone P.Port P.state P.faults }
    ensures cut { EndsAreCuts P.Port P.state P.faults }
    ensures clean { FinishedEndsAreClean P.Port P.state P.faults }
{}

/// The doorbell of each queue has gone on by the entries of its commits in a prefix of the lines, which has
/// every commit that was answered `ok`.
pub fn a_run_is_rung<P: Port>()
    ensures { DoorbellsAreRung P.Port P.state P.faults }
{}

/// Each refusal of a run has its cause in the scripts and the history: a transaction that failed, or by which a
/// queue was stopped, is a commit among the lines, and no image of the ports at the end reaches it.
pub fn a_refusal_is_caused<P: Port>()
    ensures { RefusalsAreCaused P.Port P.state P.faults }
{}

/// Each refusal of a run for a port's cause is backed by a port: a fault that it has gained is the cause of
/// the report, or it has as many as a count of 64 bits can say.
pub fn a_refusal_is_backed<P: Port>()
    ensures { RefusalsAreBacked P.Port P.state P.faults }
{}

/// Of each kind of faults, the refusals of a run that charge one to a port, that of the checkpoint at the end among
/// them, are together at most as many as those that all ports have gained; or a port has as many as a count of 64
/// bits can say.
pub fn a_refusal_is_charged_once<P: Port>()
    ensures { RefusalsAreChargedOnce P.Port P.state P.faults }
{}

/// A refusal of a run on an image for a drive's cause comes from what was asked of the drive: the power went
/// off, since it had to go off after a number of events and all of them happened; or the command failed that
/// had to fail, on the port that was named for it, and the refusal names its transaction or its block. For a
/// home write that failed, and for a status, this is not said where the power went off and a port has as many
/// faults as a count of 64 bits can say.
pub fn a_refusal_on_an_image_is_backed()
    ensures { RunsAreBacked }
{}

/// A run on an image reports a legal list of commits and reads, from the volume and the base that recovery
/// of the old image gives on, and the answers of its lines; and the new image is a cut of this history,
/// with all that `fsync` has answered. If the report says that it is clean, it is. Where neither a cut nor a
/// failing command is asked for and memory runs out for no group, it is complete.
pub fn a_run_on_an_image_keeps_its_promise()
    ensures { RunsKeepTheirPromise }
{}

/// Along every run of allowed events of the journal, on any number of queues, before, between and after the
/// events: whatever a power cut leaves is readable and reaches a number at or above each acknowledged one;
/// and recovery of it, which may be cut and begun again any number of times, leaves on the home blocks the
/// blocks after the transactions up to this number, and a drive on which the journal may begin again.
pub fn every_interleaving_is_recovered()
    ensures { EveryInterleavingIsRecovered }
{}
