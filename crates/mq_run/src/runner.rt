// A session and its helper, with what they need while the script of the session is played.
use crate::halves::Halves;
use mq_blocks::QueueNo;
use mq_calls::{Aide, User};
use mq_notices::{HelperEnd, SessionEnd};
use mq_report::{Line, Told};
use mq_turns::Machine;

/// A session, the answers to its groups so far, and the lines of those that were read.
#[derive(Drop)]
pub(crate) struct Runner<M: Machine> {
    pub(crate) user: User<M>,
    pub(crate) told: Vec<Told>,
    pub(crate) reads: Vec<Line>,
}

/// A helper, and the queue whose side it drains.
#[derive(Drop)]
pub(crate) struct Assistant<M: Machine> {
    pub(crate) helper: Aide<M>,
    pub(crate) queue: QueueNo,
}

/// A session at its end of a line of notices.
#[derive(Drop)]
pub(crate) struct SessionHalf<M: Machine> {
    pub(crate) announcing: SessionEnd,
    pub(crate) runner: Runner<M>,
}

/// A helper at its end of a line of notices.
#[derive(Drop)]
pub(crate) struct HelperHalf<M: Machine> {
    pub(crate) listening: HelperEnd,
    pub(crate) assistant: Assistant<M>,
}

/// A session and its helper, each at its end of a line of notices.
pub(crate) type Pair<M> = Halves<SessionHalf<M>, HelperHalf<M>>;
