// What holds of a run.
ghost use Rattle.mq_run.specs.Laws.{FinishedRunsAreClean, RunsKeepTheirPorts, StopsAreBacked};
ghost use Rattle.mq_run.specs.Rings.{RunsRingOnce};

use mq_drive::Port;

/// The ports that a run gives back are still those of the drive: each is the port of its role, with the
/// fuse that it had before, and the same of its commands and home writes fails.
pub fn a_run_keeps_its_ports<P: Port>()
    ensures { RunsKeepTheirPorts P.Port P.state P.faults }
{}

/// If the checkpoint at the end of a run returns a base, that is the last number drawn, and the base of the
/// root's port, so that no transaction is above it.
pub fn a_finished_run_is_clean<P: Port>()
    ensures { FinishedRunsAreClean P.Port P.state P.faults }
{}

/// Where the drive refused the checkpoint at the end of a run, one of its ports is the cause: since the run
/// began it has gained the fault that the refusal names, or it has as many faults as a count of 64 bits can
/// say.
pub fn a_stopped_run_is_backed<P: Port>()
    ensures { StopsAreBacked P.Port P.state P.faults }
{}

/// Each port of a queue that a run gives back has rung once for each commit that its session sent. Home
/// writes aside, at most 2n + 4 events happened on it for each commit of n entries that the run reports of
/// the session, and one for each fault of the port, unless these are as many as a count of 64 bits can say.
pub fn a_run_rings_once_for_each_commit<P: Port>()
    ensures { RunsRingOnce P.Port P.state P.faults }
{}
