// The values on a desk over ports, and the groups that are drawn there.

/// What the sides and the root on a desk show, and what a group does.
pub trait JournalValues {
    ghost use Rattle.mq_desk_laws.specs.Groups.{GroupView};
    ghost use Rattle.mq_desk_laws.specs.Values.{Values};

    type Side: Drop;

    type Root: Drop;

    /// A group, with its replies and its writes.
    type Entry;

    ghost values: { Values Self.Side Self.Root Self.Entry };

    ghost group: { GroupView Self.Entry };
}
