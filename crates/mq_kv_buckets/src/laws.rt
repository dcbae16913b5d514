// What holds of buckets.
ghost use Rattle.mq_kv_buckets.specs.Laws.{BucketsHaveTheirRecords, NothingIsBad, OneIsBad};
ghost use Rattle.mq_kv_buckets.specs.Laws.{GroupsRunOnTheStore, OperationsAreOnTheStore, RepliesAreOfTheStore};

/// A bucket has the records that it was made of, and no others.
pub fn a_bucket_has_its_records()
    ensures { BucketsHaveTheirRecords }
{}

/// Nothing is wrong in a bucket, and in no bytes are two offsets the first at which something is.
pub fn one_offset_is_the_first_bad()
    ensures never { NothingIsBad }
    ensures one { OneIsBad }
{}

/// Operations on buckets are operations on the map from keys to values that these hold: each is answered as the
/// store answers it and leaves the store after it, one by one and one after another.
pub fn buckets_are_a_store()
    ensures replies { RepliesAreOfTheStore }
    ensures each { OperationsAreOnTheStore }
    ensures groups { GroupsRunOnTheStore }
{}
