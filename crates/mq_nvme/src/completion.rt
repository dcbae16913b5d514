// Completion queue entries.
ghost use Rattle.std.specs.Prelude.{◌≡◌, ◌<◌, ◌^◌, ℕ, List};
ghost use Rattle.mq_nvme.specs.Completion.{completion_of, status_of};

use crate::dwords::{Dwords, read_dwords, write_dwords};
use crate::fields::{Ccid, Phase, SqHead, SqId, Status};
use std::marker::Model;

/// A completion queue entry (NVM Express 1.4, "Completion Queue Entry"): dwords 0 to 3.
#[derive(Clone, Copy, PartialEq, Eq)]
pub struct Completion {
    dwords: [u32; 4],
}

impl Model for Completion {
    ghost use Rattle.std.specs.Prelude.{ℕ, List};

    ghost Value = { List ℕ };

    ghost view = { λ c. c.dwords };

    ghost inverse = { λ dwords. record { dwords = dwords } };
}

impl Dwords for Completion {
    ghost count = { 4 };

    ghost dwords = { λ c. c };

    fn dword(&self, at: usize) -> u32 {
        self.dwords[at]
    }

    fn set_dword(&mut self, at: usize, value: u32) {
        self.dwords[at] = value;
    }
}

impl Completion {
    ghost use Rattle.mq_nvme.specs.Dwords.{AreDwords, dword_bytes};

    /// The entry as it lies in memory.
    pub fn to_bytes(&self) -> [u8; 16]
        ensures dwords { AreDwords 4 self.now }
        ensures bytes { result ≡ dword_bytes self.now }
    {
        let mut bytes = [0; 16];
        write_dwords(&self.dwords, &mut bytes);
        bytes
    }

    /// The entry that lies in memory as these bytes.
    pub fn from_bytes(bytes: &[u8; 16]) -> Completion
        ensures dwords { AreDwords 4 result }
        ensures bytes { dword_bytes result ≡ bytes.now }
        ensures round_trip { (c : List ℕ) → AreDwords 4 c → dword_bytes c ≡ bytes.now → result ≡ c }
    {
        let mut dwords = [0; 4];
        read_dwords(bytes, &mut dwords);
        Completion { dwords }
    }
}

/// The content of the completion of a command.
#[derive(Clone, Copy, PartialEq, Eq)]
pub struct Ended {
    /// The submission queue's head.
    pub sq_head: u16,
    pub sq_id: u16,
    /// The command's identifier.
    pub cid: u16,
    pub phase: bool,
    /// Bits 31:17 of dword 3. Success is 0.
    pub status: u16,
}

/// The status Write Fault (NVM Express 1.4, "Media and Data Integrity Errors"): status code type
/// 2, status code 80h.
pub const WRITE_FAULT: u16 = 640;

/// The completion queue entry of a command.
#[tactic(auto, unfolding(crate::specs::Completion::completion_of, crate::specs::Completion::status_of))]
pub fn completion_of(ended: &Ended) -> Completion
    requires { ended.now.status < 2 ^ 15 }
    ensures is { result ≡ completion_of ended.now }
    ensures status { status_of result ≡ ended.now.status }
{
    let mut completion = Completion { dwords: [0; 4] };
    SqHead::set(&mut completion, u32::from(ended.sq_head));
    SqId::set(&mut completion, u32::from(ended.sq_id));
    Ccid::set(&mut completion, u32::from(ended.cid));
    Phase::set(&mut completion, u32::from(ended.phase));
    Status::set(&mut completion, u32::from(ended.status));
    completion
}

/// The status of a completed command, which is 0 for success.
#[tactic(auto, using(crate::proofs::FieldReadings::status_is))]
pub fn status_of(completion: &Completion) -> u16
    ensures { result ≡ status_of completion.now }
{
    Status::get(completion) as u16
}
