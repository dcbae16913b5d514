// The fields of each kind of entry, by name.
ghost use Rattle.std.specs.Prelude.{◌≡◌, ◌≢◌, ◌<◌, ◌^◌, ◌↔◌, IsTrue};
ghost use Rattle.mq_nvme.specs.Field.{get_field, set_field, AreSameOutside};
ghost use Rattle.mq_nvme.specs.Fields.{submission_place, completion_place};

use crate::fields::{
    Ccid, Cid, Fua, Fuse, LimitedRetry, MptrHigh, MptrLow, Nlb, Nsid, Opcode, Phase, Prp1High,
    Prp1Low, Prp2High, Prp2Low, Psdt, ReqTx, ReqTxCommit, SlbaHigh, SlbaLow, SqHead, SqId,
    StatusCode, StatusCodeType, TxHigh, TxLow,
};
use crate::{Completion, Entry};

/// A field of submission entries, by the name that it has in `fields`.
#[derive(Clone, Copy, PartialEq, Eq)]
pub enum SubmissionField {
    Opcode,
    Fuse,
    Psdt,
    Cid,
    Nsid,
    TxLow,
    TxHigh,
    MptrLow,
    MptrHigh,
    Prp1Low,
    Prp1High,
    Prp2Low,
    Prp2High,
    SlbaLow,
    SlbaHigh,
    Nlb,
    ReqTx,
    ReqTxCommit,
    Fua,
    LimitedRetry,
}

/// A field of completion entries, by the name that it has in `fields`.
#[derive(Clone, Copy, PartialEq, Eq)]
pub enum CompletionField {
    SqHead,
    SqId,
    Ccid,
    Phase,
    StatusCode,
    StatusCodeType,
}

// The cases of a call to the field that a row names.
macro_rules! by_row {
    (SubmissionField, $row:expr, $call:ident $arguments:tt) => {
        by_row!(@ SubmissionField, $row, $call $arguments,
            Opcode Fuse Psdt Cid Nsid TxLow TxHigh MptrLow MptrHigh Prp1Low Prp1High Prp2Low
            Prp2High SlbaLow SlbaHigh Nlb ReqTx ReqTxCommit Fua LimitedRetry)
    };
    (CompletionField, $row:expr, $call:ident $arguments:tt) => {
        by_row!(@ CompletionField, $row, $call $arguments,
            SqHead SqId Ccid Phase StatusCode StatusCodeType)
    };
    (@ $rows:ident, $row:expr, $call:ident $arguments:tt, $($field:ident)*) => {
        match $row {
            $($rows::$field => $field::$call $arguments,)*
        }
    };
}

impl SubmissionField {
    /// Whether the field can hold a value.
    pub fn fits(self, value: u32) -> bool
        ensures { IsTrue result ↔ (value < 2 ^ (submission_place self).width) }
    {
        by_row!(SubmissionField, self, fits(value))
    }

    /// What the field of an entry holds.
    pub fn get(self, entry: &Entry) -> u32
        ensures { result ≡ get_field (submission_place self) entry.now }
    {
        by_row!(SubmissionField, self, get(entry))
    }

    /// Puts a value into the field of an entry.
    pub fn set(self, entry: &mut Entry, value: u32)
        requires { value < 2 ^ (submission_place self).width }
        ensures is { entry.new ≡ set_field (submission_place self) value entry.old }
        ensures value { get_field (submission_place self) entry.new ≡ value }
        ensures others { AreSameOutside (submission_place self) entry.new entry.old }
    {
        by_row!(SubmissionField, self, set(entry, value))
    }
}

impl CompletionField {
    /// Whether the field can hold a value.
    pub fn fits(self, value: u32) -> bool
        ensures { IsTrue result ↔ (value < 2 ^ (completion_place self).width) }
    {
        by_row!(CompletionField, self, fits(value))
    }

    /// What the field of a completion holds.
    pub fn get(self, completion: &Completion) -> u32
        ensures { result ≡ get_field (completion_place self) completion.now }
    {
        by_row!(CompletionField, self, get(completion))
    }

    /// Puts a value into the field of a completion.
    pub fn set(self, completion: &mut Completion, value: u32)
        requires { value < 2 ^ (completion_place self).width }
        ensures is { completion.new ≡ set_field (completion_place self) value completion.old }
        ensures value { get_field (completion_place self) completion.new ≡ value }
        ensures others { AreSameOutside (completion_place self) completion.new completion.old }
    {
        by_row!(CompletionField, self, set(completion, value))
    }
}

impl Entry {
    /// The entry with another value in one field. Each other field is as it was.
    pub fn fields_apart(&self, field: SubmissionField, other: SubmissionField, value: u32) -> Entry
        requires apart { field ≢ other }
        requires fits { value < 2 ^ (submission_place field).width }
        ensures value { get_field (submission_place field) result ≡ value }
        ensures other { get_field (submission_place other) result ≡ get_field
            (submission_place other) self.now }
        ensures bits { AreSameOutside (submission_place field) result self.now }
    {
        let mut entry = *self;
        field.set(&mut entry, value);
        entry
    }
}

impl Completion {
    /// The completion with another value in one field. Each other field is as it was.
    pub fn fields_apart(
        &self,
        field: CompletionField,
        other: CompletionField,
        value: u32,
    ) -> Completion
        requires apart { field ≢ other }
        requires fits { value < 2 ^ (completion_place field).width }
        ensures value { get_field (completion_place field) result ≡ value }
        ensures other { get_field (completion_place other) result ≡ get_field
            (completion_place other) self.now }
        ensures bits { AreSameOutside (completion_place field) result self.now }
    {
        let mut completion = *self;
        field.set(&mut completion, value);
        completion
    }
}
