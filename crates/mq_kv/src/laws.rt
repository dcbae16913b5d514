// What holds of a store whose desk was closed.
ghost use Rattle.mq_kv.specs.Laws.{CommitsAreExact, CommitsAreOfTheStore, DrawnGroupsAreInTheHistory, ReadsAreOfTheStore, RecoveriesHoldAPrefix, StandingsHoldAPrefix};

use mq_drive::Port;
use mq_state_laws::recovery_finds_a_prefix;

/// Whatever a power cut leaves of the ports: after recovery the home blocks hold the store after the first
/// groups that were committed, in number order, with every group among them whose session was answered that it
/// is durable. So does what stands there before the recovery.
pub fn recovery_finds_a_store<P: Port>()
    ensures recovered { RecoveriesHoldAPrefix P.Port P.state P.faults }
    ensures standing { StandingsHoldAPrefix P.Port P.state P.faults }
{
    recovery_finds_a_prefix();
}

/// Each reply is the store's at its place in the history: those of a group that was committed are the store's
/// after the groups of all lesser numbers, and those of one that was read the store's at its number. They are
/// exactly those of the buckets then. What a session drew stands in the history at its number.
pub fn replies_are_of_the_store<P: Port>()
    ensures draws { DrawnGroupsAreInTheHistory P.Port P.state P.faults }
    ensures commits { CommitsAreOfTheStore P.Port P.state P.faults }
    ensures exact { CommitsAreExact P.Port P.state P.faults }
    ensures reads { ReadsAreOfTheStore P.Port P.state P.faults }
{}
