//! The fields of entries. Those of submission entries that only a write has are from NVM Express
//! 1.4, "Write command"; a number of two dwords has its low dword first.
use crate::Field;

/// Opcode (OPC): bits 7:0 of command dword 0 ("Submission Queue Entry").
pub type Opcode = Field<0, 0, 8>;

/// Fused Operation (FUSE): bits 9:8 of command dword 0.
pub type Fuse = Field<0, 8, 2>;

/// PRP or SGL for Data Transfer (PSDT): bits 15:14 of command dword 0.
pub type Psdt = Field<0, 14, 2>;

/// Command Identifier (CID): bits 31:16 of command dword 0.
pub type Cid = Field<0, 16, 16>;

/// Namespace Identifier (NSID): dword 1.
pub type Nsid = Field<1, 0, 32>;

/// This project's own: the low half of the transaction's number, in dword 2, which the standard
/// reserves.
pub type TxLow = Field<2, 0, 32>;

/// This project's own: the high half of the transaction's number, in dword 3, which the standard
/// reserves.
pub type TxHigh = Field<3, 0, 32>;

/// Metadata Pointer (MPTR): dword 4 is its low half.
pub type MptrLow = Field<4, 0, 32>;

/// Metadata Pointer (MPTR): dword 5 is its high half.
pub type MptrHigh = Field<5, 0, 32>;

/// Data Pointer (DPTR), PRP Entry 1: dword 6 is its low half.
pub type Prp1Low = Field<6, 0, 32>;

/// Data Pointer (DPTR), PRP Entry 1: dword 7 is its high half.
pub type Prp1High = Field<7, 0, 32>;

/// Data Pointer (DPTR), PRP Entry 2: dword 8 is its low half.
pub type Prp2Low = Field<8, 0, 32>;

/// Data Pointer (DPTR), PRP Entry 2: dword 9 is its high half.
pub type Prp2High = Field<9, 0, 32>;

/// Starting LBA (SLBA): dword 10 is its low half ("Write command").
pub type SlbaLow = Field<10, 0, 32>;

/// Starting LBA (SLBA): dword 11 is its high half ("Write command").
pub type SlbaHigh = Field<11, 0, 32>;

/// Number of Logical Blocks (NLB), zero-based: bits 15:0 of dword 12 ("Write command").
pub type Nlb = Field<12, 0, 16>;

/// This project's own: a request of a transaction that isn't its last, by bit 16 of dword 12,
/// which the standard reserves.
pub type ReqTx = Field<12, 16, 1>;

/// This project's own: the last request of a transaction, by bit 17 of dword 12, which the standard
/// reserves.
pub type ReqTxCommit = Field<12, 17, 1>;

/// Force Unit Access (FUA): bit 30 of dword 12 ("Write command").
pub type Fua = Field<12, 30, 1>;

/// Limited Retry (LR): bit 31 of dword 12 ("Write command").
pub type LimitedRetry = Field<12, 31, 1>;

/// SQ Head Pointer (SQHD): bits 15:0 of dword 2 ("Completion Queue Entry").
pub type SqHead = Field<2, 0, 16>;

/// SQ Identifier (SQID): bits 31:16 of dword 2 ("Completion Queue Entry").
pub type SqId = Field<2, 16, 16>;

/// Command Identifier (CID): bits 15:0 of dword 3 ("Completion Queue Entry").
pub type Ccid = Field<3, 0, 16>;

/// Phase Tag (P): bit 16 of dword 3 ("Completion Queue Entry").
pub type Phase = Field<3, 16, 1>;

/// Status Code (SC): bits 24:17 of dword 3 ("Status Field").
pub type StatusCode = Field<3, 17, 8>;

/// Status Code Type (SCT): bits 27:25 of dword 3 ("Status Field").
pub type StatusCodeType = Field<3, 25, 3>;

/// Status Field (SF): bits 31:17 of dword 3 ("Completion Queue Entry"). Its low parts are
/// `StatusCode` and `StatusCodeType`.
pub type Status = Field<3, 17, 15>;
