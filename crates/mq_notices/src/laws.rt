// What the rule of a queue says, in the words of the protocol.
ghost use Rattle.mq_notices.specs.Protocol.{RulesAreProtocols};

/// Where the rule holds, the queue has notices with consecutive indexes that end right below the number of
/// pushes. The indexes that the session and the helper have taken are two rising lists without a common
/// index, and together just the indexes below the first in the queue, or all where it is empty.
pub fn the_rule_is_the_protocol()
    ensures { RulesAreProtocols }
{}
