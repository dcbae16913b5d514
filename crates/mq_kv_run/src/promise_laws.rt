// What holds of a run of groups on an image.
ghost use Rattle.mq_kv_run.specs.Promise.{RunsKeepTheirPromise};

/// A run of groups on an image keeps its promise: what is reported of the groups is what they come to on the store
/// that stands there, and the new image is a cut of this history, with all that is reported.
pub fn a_run_keeps_its_promise()
    ensures { RunsKeepTheirPromise }
{}
