// What a group of operations depends on.
ghost use Rattle.mq_kv_entries.specs.GroupLaws.{GroupsLookAtTheirBuckets};

/// A group's replies and what it makes of each bucket depend on the buckets of its keys alone, and it leaves
/// all others as they are.
pub fn a_group_looks_at_its_buckets()
    ensures { GroupsLookAtTheirBuckets }
{}
