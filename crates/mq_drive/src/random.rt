// What an emulated port leaves to chance.
ghost use Rattle.std.specs.Prelude.{◌≡◌, ◌⊎◌, ◌<◌, ℕ, Some};
ghost use Rattle.mq_drive.specs.Choices.{generator_of, chosen, either_of, next_bytes, next_slot, torn};

use mq_blocks::Block;
use mq_nvme::Entry;
use rand_core::SeedableRng;
use rand_core::utils::{NextWord, fill_bytes_via_u64};
use rand_pcg::Lcg128Xsl64;

/// The generator of the port of this number.
#[tactic(auto, unfolding(crate::specs::Choices::generator_of))]
pub fn generator(seed: u64, number: u32) -> Lcg128Xsl64
    ensures { result ≡ generator_of seed number }
{
    Lcg128Xsl64::seed_from_u64(seed.wrapping_add(u64::from(number)))
}

/// An index below `n`. If there is a choice, it takes one word of the generator.
#[tactic(auto, unfolding(crate::specs::Choices::chosen))]
pub fn choose(rng: &mut Lcg128Xsl64, n: usize) -> usize
    requires { 0 < n }
    ensures below { result < n }
    ensures chosen { (result, rng.new) ≡ chosen n rng.old }
{
    if n == 1 {
        return 0;
    }
    (rng.next_word() % n as u64) as usize
}

/// One of two words. If they differ, it takes one word of the generator.
#[tactic(auto, unfolding(crate::specs::Choices::either_of))]
pub fn either(rng: &mut Lcg128Xsl64, old: u64, new: u64) -> u64
    ensures one { (result ≡ old) ⊎ (result ≡ new) }
    ensures chosen { (result, rng.new) ≡ either_of old new rng.old }
{
    if old == new {
        return old;
    }
    if rng.next_word() % 2 == 1 { new } else { old }
}

/// The old entry, the new one, or the generator's next 64 bytes.
pub fn either_entry(rng: &mut Lcg128Xsl64, old: Entry, new: Entry) -> Entry
    ensures { (result, rng.new) ≡ torn next_slot old new rng.old }
{
    match rng.next_word() % 3 {
        0 => old,
        1 => new,
        _ => next_entry(rng),
    }
}

// The entry of the next 64 bytes.
fn next_entry(rng: &mut Lcg128Xsl64) -> Entry
    ensures { (result, rng.new) ≡ next_slot rng.old }
{
    let mut bytes = [0; 64];
    fill_bytes_via_u64(rng, &mut bytes);
    Entry::from_bytes(&bytes)
}

/// The block of the next 4,096 bytes, in place of another.
pub fn next_block(rng: &mut Lcg128Xsl64, block: Block) -> Block
    ensures { (result, rng.new) ≡ next_bytes 4096 rng.old }
{
    let mut block = block;
    fill_bytes_via_u64(rng, block.bytes_mut());
    block
}
