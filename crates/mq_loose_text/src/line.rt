// The lines of a text of the loose order.
use mq_block_text::BlockLine;
use mq_blocks::QueueNo;
use std::marker::Model;

/// A line: a commit of items on a queue, or a drain of a queue.
#[derive(Drop)]
pub enum LooseLine {
    Commit(QueueNo, BlockLine),
    Done(QueueNo),
}

/// The lines of a text, in order.
#[derive(Drop)]
pub struct LooseText(pub Vec<LooseLine>);

impl Model for LooseText {
    ghost use Rattle.std.specs.Prelude.{List};
    ghost use Rattle.mq_loose_text.specs.declared.line.LooseLine.{LooseLine};

    ghost Value = { List LooseLine };

    ghost view = { λ t. t.0.items };
}
