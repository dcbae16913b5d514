// Submission queue entries.
ghost use Rattle.std.specs.Prelude.{◌≡◌, ◌+◌, ◌*◌, ◌^◌, ℕ, List};

use crate::dwords::{Dwords, read_dwords, write_dwords};
use crate::fields::{ReqTxCommit, SlbaHigh, SlbaLow, TxHigh, TxLow};
use std::marker::Model;

/// A submission queue entry (NVM Express 1.4, "Submission Queue Entry"): command dwords 0 to 15.
#[derive(Clone, Copy, PartialEq, Eq)]
pub struct Entry {
    dwords: [u32; 16],
}

impl Model for Entry {
    ghost use Rattle.std.specs.Prelude.{ℕ, List};

    ghost Value = { List ℕ };

    ghost view = { λ e. e.dwords };

    ghost inverse = { λ dwords. record { dwords = dwords } };
}

impl Dwords for Entry {
    ghost count = { 16 };

    ghost dwords = { λ e. e };

    fn dword(&self, at: usize) -> u32 {
        self.dwords[at]
    }

    fn set_dword(&mut self, at: usize, value: u32) {
        self.dwords[at] = value;
    }
}

impl Entry {
    ghost use Rattle.mq_nvme.specs.Entry.{blank, tx_of, lba_of, is_commit};
    ghost use Rattle.mq_nvme.specs.Dwords.{AreDwords, dword_bytes};

    /// An entry of zeros.
    #[tactic(auto, unfolding(crate::specs::Entry::blank))]
    pub fn zeroed() -> Entry
        ensures { result ≡ blank }
    {
        Entry { dwords: [0; 16] }
    }

    /// The number of the transaction, of dwords 2 and 3.
    #[tactic(auto, using(crate::proofs::FieldReadings::whole), unfolding(crate::specs::Entry::tx_of, crate::specs::Field::get_field, crate::specs::Field::bits_of))]
    pub fn tx(&self) -> u64
        ensures { result ≡ tx_of self.now }
    {
        joined(TxLow::get(self), TxHigh::get(self))
    }

    /// The starting logical block, of dwords 10 and 11.
    #[tactic(auto, using(crate::proofs::FieldReadings::whole), unfolding(crate::specs::Entry::lba_of, crate::specs::Field::get_field, crate::specs::Field::bits_of))]
    pub fn lba(&self) -> u64
        ensures { result ≡ lba_of self.now }
    {
        joined(SlbaLow::get(self), SlbaHigh::get(self))
    }

    /// Whether this is the last request of its transaction, by bit 17 of dword 12.
    #[tactic(auto, unfolding(crate::specs::Entry::is_commit, crate::specs::Field::get_field, crate::specs::Field::bits_of))]
    pub fn is_commit(&self) -> bool
        ensures { result ≡ is_commit self.now }
    {
        ReqTxCommit::get(self) == 1
    }

    /// The entry as it lies in memory.
    pub fn to_bytes(&self) -> [u8; 64]
        ensures dwords { AreDwords 16 self.now }
        ensures bytes { result ≡ dword_bytes self.now }
    {
        let mut bytes = [0; 64];
        write_dwords(&self.dwords, &mut bytes);
        bytes
    }

    /// The entry that lies in memory as these bytes.
    pub fn from_bytes(bytes: &[u8; 64]) -> Entry
        ensures dwords { AreDwords 16 result }
        ensures bytes { dword_bytes result ≡ bytes.now }
        ensures round_trip { (e : List ℕ) → AreDwords 16 e → dword_bytes e ≡ bytes.now → result ≡ e }
    {
        let mut dwords = [0; 16];
        read_dwords(bytes, &mut dwords);
        Entry { dwords }
    }
}

// The number of two dwords.
pub(crate) fn joined(low: u32, high: u32) -> u64
    ensures { result ≡ low + 2 ^ 32 * high }
{
    u64::from(low) + (u64::from(high) << 32)
}
