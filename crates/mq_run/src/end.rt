// What a run leaves.
use mq_blocks::TxNo;
use mq_calls::Placed;
use mq_drive::{Port, Ports};
use mq_journal::CheckpointRefusal;
use mq_pages::PageCell;
use mq_report::{Line, Told};

/// What a run of scripts leaves, and what it reports.
#[derive(Drop)]
pub struct RunEnd<P: Port> {
    /// The ports of the drive, once no chair holds anything.
    pub ports: Ports<P>,
    /// The commits and the reads, by number, the commit before the reads, and these by session and group.
    pub entries: Vec<Line>,
    /// The answer to each group, by session and group.
    pub answers: Vec<Told>,
    /// The cells of the home blocks.
    pub pages: Vec<PageCell>,
    /// Where the blocks of each commit went, in number order.
    pub placed: Vec<Placed>,
    /// The last number drawn, or the base at the opening.
    pub next: TxNo,
    /// The result of the checkpoint at the end, if one was asked for.
    pub finished: Option<Result<TxNo, CheckpointRefusal>>,
    /// For each session the numbers of its notices, by their indexes.
    pub served: Vec<Vec<TxNo>>,
}
