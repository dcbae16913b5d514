// The oldest of the transactions that stand at the ends of chains.
ghost use Rattle.std.specs.Prelude.{◌≡◌, ◌<◌, ◌+◌, ◌^◌, List, length, IfOk, IfErr, MatchOption};
ghost use Rattle.mq_blocks.specs.Descriptor.{Descriptor as Text};
ghost use Rattle.mq_recover.specs.Ends.{EndsWith, AreEmpty, IsOldest, IsLeast, RefusesEnds};
ghost use Rattle.mq_recover.specs.Recover.{chain_at};

use crate::chain::Chain;
use crate::refusal::ImageFault;
use mq_blocks::{QueueNo, TxNo};

// The least number that ends a chain, and the least two queues whose chains end with it.
#[derive(Clone, Copy, PartialEq, Eq)]
pub struct Least {
    pub number: u64,
    pub first: QueueNo,
    pub second: Option<QueueNo>,
}

impl Least {
    // The same with the end of the next queue's chain.
    fn join(self, number: u64, queue: QueueNo) -> Least
        ensures { (chains : List (List Text))
            → IsLeast queue chains self
            → EndsWith (chain_at chains queue) number
            → IsLeast (queue + 1) chains result }
    {
        if number < self.number {
            return Least {
                number,
                first: queue,
                second: None,
            };
        }
        if number > self.number {
            return self;
        }
        match self.second {
            Some(_) => self,
            None => Least {
                second: Some(queue),
                ..self
            },
        }
    }
}

// The queue whose chain ends with the least number, where no two end with it; None where all chains
// are empty.
pub fn find_oldest(chains: &[Chain]) -> Result<Option<QueueNo>, ImageFault>
    requires { length chains.now < 2 ^ 32 }
    ensures oldest { IfOk result (λ o. MatchOption o (AreEmpty (length chains.now) chains.now)
        (IsOldest chains.now)) }
    ensures twice { IfErr result (RefusesEnds chains.now) }
{
    let Some(least) = least_end(chains) else {
        return Ok(None);
    };
    match least.second {
        None => Ok(Some(least.first)),
        Some(second) => Err(ImageFault::Twice {
            number: TxNo(least.number),
            first: least.first,
            second,
        }),
    }
}

// The least end of all chains.
fn least_end(chains: &[Chain]) -> Option<Least>
    requires { length chains.now < 2 ^ 32 }
    ensures { MatchOption result (AreEmpty (length chains.now) chains.now)
        (IsLeast (length chains.now) chains.now) }
{
    let mut least: Option<Least> = None;
    for (q, chain) in chains.iter().enumerate() {
        if let Some(end) = chain.transactions.last() {
            let number = end.number;
            let queue = QueueNo(q as u32);
            least = Some(match least {
                None => Least {
                    number,
                    first: queue,
                    second: None,
                },
                Some(least) => least.join(number, queue),
            });
        }
    }
    least
}
