// What a run reports.
use mq_blocks::TxNo;
use mq_kv_buckets::KvReply;
use std::marker::Model;

/// A group that was committed, or that read only.
#[derive(Drop)]
pub struct SyncedGroup {
    /// One for each operation, in order.
    pub replies: Vec<KvReply>,
    /// The number that the group drew, or that of the last one before it.
    pub at: TxNo,
}

impl Model for SyncedGroup {
    ghost use Rattle.mq_kv_text.specs.Synced.{Synced};

    ghost Value = { Synced };

    ghost view = { λ g. record { replies = g.replies.items; at = g.at } };
}

/// What is reported of a group.
#[derive(Drop)]
pub enum GroupReport {
    Synced(SyncedGroup),
    /// The group writes so many blocks, and was refused.
    Large { count: u32 },
    /// The power failed before the group was durable.
    Off,
}

/// How a run ended.
#[derive(Clone, Copy, PartialEq, Eq)]
pub enum LastLine {
    /// Everything up to this number, which is the base, was written home.
    Clean(TxNo),
    /// The power was cut after this number of events.
    Cut(u64),
}

/// What a run reports: its groups in order, and how it ended.
#[derive(Drop)]
pub struct KvReport {
    pub groups: Vec<GroupReport>,
    pub last: LastLine,
}

impl Model for KvReport {
    ghost use Rattle.mq_kv_text.specs.Reports.{Report};

    ghost Value = { Report };

    ghost view = { λ r. record { groups = r.groups.items; last = r.last } };
}
