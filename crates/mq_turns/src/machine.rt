// What a desk requires of the values that lie on it.

/// The values of a desk, the entries of its history, and what they mean.
pub trait Machine {
    ghost use Rattle.mq_turns.specs.Meaning.{AreLaws, Meaning};

    type Page: Drop;

    type Side: Drop;

    type Root: Drop;

    /// A transaction: the requests, the replies, and what it writes.
    type Entry;

    ghost meaning: { Meaning Self.Page Self.Side Self.Root Self.Entry };

    /// The definitions of this trait obey the laws of a desk. A call does nothing.
    fn obeys()
        ensures { AreLaws meaning };
}
