// What holds of a side while others draw, and where a claim is made.
ghost use Rattle.mq_queue_side.specs.Laws.{Opening, Planning, Fitting, Numbering, Storing, OwnDraw, OtherDraws, DrawCounts, HasItems, Claiming, Changing, Reaching, DoneBefore, BelowHead, Bound};

/// A side on which nothing was drawn is a side of a journal whose history has no transaction of its queue.
pub fn a_new_side_is_one()
    ensures { Opening }
{}

/// A placement of a transaction's writes is a plan by which they may be prepared.
pub fn a_placement_is_a_plan()
    ensures { Planning }
{}

/// A transaction that fits has the room that a draw needs. After a draw each side, including those of other
/// queues, is a side of the grown history. What is numbered next is the transaction's commit, and its items
/// are those of the entries that come next.
pub fn a_draw_keeps_sides()
    ensures fitting { Fitting }
    ensures numbering { Numbering }
    ensures own { OwnDraw }
    ensures others { OtherDraws }
    ensures counts { DrawCounts }
    ensures items { HasItems }
{}

/// What is noted of a transaction that is drawn makes it one of those that are stored.
pub fn a_number_is_stored<E>()
    ensures { Storing E }
{}

/// What is known of the journal may change: more may be known to be done, of the side's own queue up to the
/// last number of which the side knows it. Beyond that, a side depends only on the facts about its port.
pub fn a_claim_keeps_sides()
    ensures done { Claiming }
    ensures changed { Changing }
{}

/// A drain that ends without a fault has reached the last transaction that was drawn on the queue, where
/// all of them were rung. One that ends with a failure has reached each transaction before the one that it
/// names. What it has reached stands below the flushed head.
pub fn a_drain_reaches()
    ensures last { Reaching }
    ensures before { DoneBefore }
    ensures below { BelowHead }
{}

/// At most 2n + 4 events happen for each transaction of n entries, and one for each fault.
pub fn events_are_bounded()
    ensures { Bound }
{}
