// What holds of each run of a workload.
ghost use Rattle.mq_command_run.specs.Generated.{WorkloadsAreRefusedForMemory};

use mq_run_laws::a_run_on_an_image_keeps_its_promise;

/// Where a group of a workload is refused on the empty file system of a fresh drive, memory ran out for it: the
/// power stays on, no command fails, no group asks, and none writes more blocks than a transaction may.
pub fn a_workload_is_refused_only_for_memory()
    ensures { WorkloadsAreRefusedForMemory }
{
    a_run_on_an_image_keeps_its_promise();
}
