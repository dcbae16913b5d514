// A link that loses and repeats what is sent, as a seed's words decide.
ghost use Rattle.std.specs.Prelude.{◌≡◌};
ghost use Rattle.mq_command_replicate.specs.Links.{arrival_of};

use rand_core::utils::NextWord;
use rand_pcg::Lcg128Xsl64;

/// After so many losses in a row what is sent next comes through.
const LOSSES_IN_A_ROW: u32 = 64;

/// How often it comes through what is sent.
#[derive(Clone, Copy, PartialEq, Eq)]
pub enum Arrival {
    Once,
    Twice,
}

/// Sends something over the link until it comes through: how often it then does. Each word decides about one
/// sending.
pub fn send(words: &mut Lcg128Xsl64) -> Arrival
    ensures arrival { result ≡ (arrival_of words.old).0 }
    ensures words { words.new ≡ (arrival_of words.old).1 }
{
    for _ in 0..LOSSES_IN_A_ROW {
        match words.next_word() % 4 {
            0 => {}
            1 => return Arrival::Twice,
            _ => return Arrival::Once,
        }
    }
    Arrival::Once
}
