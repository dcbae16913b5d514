// Write commands.
ghost use Rattle.std.specs.Prelude.{◌≡◌, ◌<◌, ◌≤◌, ◌↔◌, ◌==◌, ◌||◌, ◌+◌, ◌/◌, ◌%◌, ◌^◌, IfOk, None, slice_index};
ghost use Rattle.mq_blocks.specs.Limits.{depth};
ghost use Rattle.mq_nvme.specs.Entry.{entry_of, request_of, flags, block_rules, common_rules, command_rules, first_refusal, refusal_of, IsWrite};

use crate::fields::{
    Cid, Fua, Fuse, LimitedRetry, MptrHigh, MptrLow, Nlb, Nsid, Opcode, Prp1High, Prp1Low,
    Prp2High, Prp2Low, Psdt, ReqTx, ReqTxCommit, SlbaHigh, SlbaLow, TxHigh, TxLow,
};
use crate::{Dwords, Entry, Field};
use mq_blocks::RING_DEPTH;

// What the standard reserves of command dword 0: bits 13:10.
type Reserved = Field<0, 10, 4>;

// Bits 29:18 of dword 12: a write's protection information and directive type, and what the standard
// reserves beside them.
type Unused = Field<12, 18, 12>;

/// A write of one logical block to namespace 1 from a slot's buffer, as a request of a transaction.
#[derive(Clone, Copy, PartialEq, Eq)]
pub struct WriteReq {
    /// The number of the transaction, from 1 on.
    pub tx: u64,
    /// The slot of the submission queue, below the ring's depth, which is the command identifier too.
    pub slot: u16,
    /// The starting logical block.
    pub lba: u64,
    /// Whether this is the last request of the transaction.
    pub commit: bool,
}

/// Why an entry is no such write, with what was found instead.
#[derive(Clone, Copy, PartialEq, Eq)]
pub enum EntryRefusal {
    Opcode { found: u32 },
    Namespace { found: u32 },
    /// The zero-based number of logical blocks.
    Count { found: u32 },
    /// A dword in which some other bit is wrong, and its value.
    Flags { dword: u32, value: u32 },
}

/// The entry of a write (NVM Express 1.4, "Write command"): opcode 01h in namespace 1 with Force
/// Unit Access, whose PRP entry 1 names the slot's 4,096 bytes. Of what the standard reserves,
/// dwords 2 and 3 have the number of the transaction, and dword 12 has bit 17 in the last request
/// of the transaction and bit 16 in the ones before it.
#[tactic(auto, unfolding(crate::specs::Entry::entry_of))]
pub fn write_of(req: &WriteReq) -> Entry
    requires slot { req.now.slot < depth }
    requires tx { 1 ≤ req.now.tx }
    ensures is { result ≡ entry_of req.now }
    ensures write { IsWrite result req.now }
{
    let slot = u32::from(req.slot);
    let mut entry = Entry::zeroed();
    Opcode::set(&mut entry, 1);
    Cid::set(&mut entry, slot);
    Nsid::set(&mut entry, 1);
    TxLow::set(&mut entry, (req.tx % (1 << 32)) as u32);
    TxHigh::set(&mut entry, (req.tx >> 32) as u32);
    Prp1Low::set(&mut entry, 4096 * slot);
    SlbaLow::set(&mut entry, (req.lba % (1 << 32)) as u32);
    SlbaHigh::set(&mut entry, (req.lba >> 32) as u32);
    ReqTx::set(&mut entry, u32::from(!req.commit));
    ReqTxCommit::set(&mut entry, u32::from(req.commit));
    Fua::set(&mut entry, 1);
    entry
}

/// Reads an entry that `write_of` wrote. Any other is refused by its first cause, in the order of
/// `EntryRefusal`, with dwords in rising order.
pub fn read_write(entry: &Entry) -> Result<WriteReq, EntryRefusal>
    ensures read { IfOk result (λ r. IsWrite entry.now r) }
    ensures write { (r : WriteReq) → IsWrite entry.now r → result ≡ Ok r }
    ensures refused { (e : EntryRefusal) → ((result ≡ Err e) ↔ (refusal_of entry.now ≡ Some e)) }
{
    match refusal(entry) {
        Some(cause) => Err(cause),
        None => Ok(request(entry)),
    }
}

// The request of an entry that is not refused.
#[tactic(auto, using(crate::proofs::FieldReadings::slot_is), unfolding(crate::specs::Entry::request_of))]
fn request(entry: &Entry) -> WriteReq
    requires { refusal_of entry.now ≡ None }
    ensures fields { result ≡ request_of entry.now }
    ensures write { IsWrite entry.now result }
{
    WriteReq {
        tx: entry.tx(),
        slot: Cid::get(entry) as u16,
        lba: entry.lba(),
        commit: entry.is_commit(),
    }
}

// The first cause to refuse an entry.
fn refusal(entry: &Entry) -> Option<EntryRefusal>
    ensures { result ≡ refusal_of entry.now }
{
    if let Some(cause) = block_refusal(entry) {
        return Some(cause);
    }
    if let Some(cause) = common_refusal(entry) {
        return Some(cause);
    }
    command_refusal(entry)
}

// The refusal of what isn't a write of one logical block to namespace 1.
#[tactic(auto, using(crate::proofs::FieldReadings::block_fields), unfolding(crate::specs::Entry::block_rules))]
fn block_refusal(entry: &Entry) -> Option<EntryRefusal>
    ensures { result ≡ first_refusal block_rules entry.now }
{
    let opcode = Opcode::get(entry);
    if opcode != 1 {
        return Some(EntryRefusal::Opcode { found: opcode });
    }
    let namespace = Nsid::get(entry);
    if namespace != 1 {
        return Some(EntryRefusal::Namespace { found: namespace });
    }
    let count = Nlb::get(entry);
    if count != 0 {
        return Some(EntryRefusal::Count { found: count });
    }
    None
}

// Whether a command is neither fused nor by SGLs.
#[tactic(auto, unfolding(crate::specs::Field::get_field, crate::specs::Field::bits_of))]
fn is_plain(entry: &Entry) -> bool
    ensures { result ≡ (slice_index entry.now 0 / 256 % 256 == 0) }
{
    Fuse::get(entry) == 0 && Psdt::get(entry) == 0 && Reserved::get(entry) == 0
}

// The refusal by the rest of the dwords that all commands have.
#[tactic(auto, using(crate::proofs::FieldReadings::slot_is), unfolding(crate::specs::Entry::common_rules))]
fn common_refusal(entry: &Entry) -> Option<EntryRefusal>
    ensures { result ≡ first_refusal common_rules entry.now }
{
    if !is_plain(entry) {
        return Some(flags(entry, 0));
    }
    let slot = Cid::get(entry);
    if slot >= RING_DEPTH {
        return Some(flags(entry, 0));
    }
    if entry.tx() == 0 {
        return Some(flags(entry, 2));
    }
    if MptrLow::get(entry) != 0 {
        return Some(flags(entry, 4));
    }
    if MptrHigh::get(entry) != 0 {
        return Some(flags(entry, 5));
    }
    if Prp1Low::get(entry) != 4096 * slot {
        return Some(flags(entry, 6));
    }
    if Prp1High::get(entry) != 0 {
        return Some(flags(entry, 7));
    }
    if Prp2Low::get(entry) != 0 {
        return Some(flags(entry, 8));
    }
    if Prp2High::get(entry) != 0 {
        return Some(flags(entry, 9));
    }
    None
}

// Whether a write has Force Unit Access and one of the two marks of a transaction's requests.
#[tactic(auto, unfolding(crate::specs::Field::get_field, crate::specs::Field::bits_of))]
fn is_marked(entry: &Entry) -> bool
    ensures { result ≡ ((slice_index entry.now 12 / 65536 == 2 ^ 14 + 1) ||
        (slice_index entry.now 12 / 65536 == 2 ^ 14 + 2)) }
{
    Fua::get(entry) == 1
        && LimitedRetry::get(entry) == 0
        && Unused::get(entry) == 0
        && ReqTx::get(entry) != ReqTxCommit::get(entry)
}

// The refusal by the rest of a write's own dwords.
#[tactic(auto, unfolding(crate::specs::Entry::command_rules))]
fn command_refusal(entry: &Entry) -> Option<EntryRefusal>
    ensures { result ≡ first_refusal command_rules entry.now }
{
    if !is_marked(entry) {
        return Some(flags(entry, 12));
    }
    if entry.dword(13) != 0 {
        return Some(flags(entry, 13));
    }
    if entry.dword(14) != 0 {
        return Some(flags(entry, 14));
    }
    if entry.dword(15) != 0 {
        return Some(flags(entry, 15));
    }
    None
}

fn flags(entry: &Entry, dword: usize) -> EntryRefusal
    requires { dword < 16 }
    ensures { result ≡ flags dword entry.now }
{
    EntryRefusal::Flags {
        dword: dword as u32,
        value: entry.dword(dword),
    }
}
