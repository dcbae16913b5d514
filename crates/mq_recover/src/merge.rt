// The transactions of the chains of all queues, by rising number.
ghost use Rattle.std.specs.Prelude.{◌≡◌, ◌<◌, ◌^◌, ℕ, List, ◌∷◌, length, IfOk, IfErr, MatchOption};
ghost use Rattle.std.specs.List.{sum_by};
ghost use Rattle.mq_blocks.specs.Descriptor.{Descriptor as Text};
ghost use Rattle.mq_recover.specs.Merges.{AreMerged, IsMerging, RefusesTwice};

use crate::chain::Chain;
use crate::oldest::find_oldest;
use crate::refusal::ImageFault;
use mq_area::Descriptor;

/// Takes the transaction with the least number out of these chains; None where all are empty. Called
/// until then, it gives the transactions of all chains in rising order of numbers, and is refused at
/// the first number that stands twice.
pub fn take_oldest(chains: &mut Vec<Chain>) -> Result<Option<Descriptor>, ImageFault>
    requires { length chains.old.items < 2 ^ 32 }
    ensures ok { (homes base : ℕ) (all : List (List Text)) (taken : List Text)
        → IsMerging homes base all chains.old.items taken
        → IfOk result (λ o. MatchOption o (AreMerged homes base all taken)
        (λ d. IsMerging homes base all chains.new.items (d ∷ taken))) }
    ensures twice { (homes base : ℕ) (all : List (List Text)) (taken : List Text)
        → IsMerging homes base all chains.old.items taken
        → IfErr result (RefusesTwice all) }
    ensures fewer { IfOk result (λ o. MatchOption o (Unit {0})
        (λ _. sum_by length chains.new.items < sum_by length chains.old.items)) }
{
    let Some(queue) = find_oldest(chains)? else {
        return Ok(None);
    };
    Ok(chains[queue.0 as usize].transactions.pop())
}
