// What holds of what is reported of groups.
ghost use Rattle.mq_kv_run.specs.Stores.{CommitsRunOnTheStore, GroupsLeaveTheStore};

/// Groups that are reported so run one after another on the store in the buckets, each with its replies. One that
/// was cut off, and committed all the same, has run on the store before it.
pub fn reported_groups_run_on_the_store()
    ensures groups { GroupsLeaveTheStore }
    ensures commit { CommitsRunOnTheStore }
{}
