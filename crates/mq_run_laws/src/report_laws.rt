// What holds of what a run reports.
ghost use Rattle.mq_run_laws.specs.ReportLaws.{ImageRunsMayBeReported, LegalListsHaveFitReplies, RunsAreInOrder};

use mq_drive::Port;

/// The lines and the answers of a run stand in the order of a report.
pub fn a_run_is_in_order<P: Port>()
    ensures { RunsAreInOrder P.Port P.state P.faults }
{}

/// The replies of a run from a sound volume on are bytes and good names.
pub fn a_run_has_fit_replies()
    ensures { LegalListsHaveFitReplies }
{}

/// What a run on an image reports has its order, and its replies are bytes and good names. So the text of its
/// report has one reading.
pub fn a_run_on_an_image_may_be_reported()
    ensures { ImageRunsMayBeReported }
{}
