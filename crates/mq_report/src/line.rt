// What a run reports.
use mq_blocks::{BlockNo, TxNo};
use mq_queue_side::Refusal;
use mq_script::End;
use mq_tree::Reply;
use std::marker::Model;

/// A group that was carried out: the commit of this number, or a read on the volume at this number.
#[derive(Drop)]
pub struct Line {
    pub number: TxNo,
    /// Whether the group drew the number.
    pub commit: bool,
    pub session: u32,
    /// The number of the group among those of the session, counted from 0.
    pub group: u32,
    pub end: End,
    /// In the order of the requests.
    pub replies: Vec<Reply>,
}

impl Model for Line {
    ghost use Rattle.mq_report.specs.Lines.{Line as Entry};

    ghost Value = { Entry };

    ghost view = { λ l. record {
      number = l.number;
      commit = l.commit;
      session = l.session;
      group = l.group;
      end = l.end;
      replies = l.replies.items;
    } };
}

/// The answer to a group: the number of its line, or why it was refused.
#[derive(Clone, Copy, PartialEq, Eq)]
pub struct Told {
    pub session: u32,
    pub group: u32,
    pub end: End,
    pub answer: Result<TxNo, Refusal>,
}

/// How a run ended.
#[derive(Clone, Copy, PartialEq, Eq)]
pub enum Last {
    /// Everything up to this number, which is the base, was written home.
    Clean(TxNo),
    /// The power was cut after this number of events.
    Cut(u64),
    /// The checkpoint at the end was refused, because a command of this transaction failed.
    StoppedTx(TxNo),
    /// The checkpoint at the end was refused, because the home write of this block failed.
    StoppedBlock(BlockNo),
}
