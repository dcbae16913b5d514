// What an entry says.
use std::marker::Model;

/// An entry as the machine has it, as plain numbers: its transaction's number, the Lba that it
/// writes, and whether it is the transaction's last.
#[derive(Clone, Copy)]
pub struct PlainEntry {
    pub number: u64,
    pub lba: u64,
    pub commit: bool,
}

impl Model for PlainEntry {
    ghost use Rattle.std.specs.Prelude.{ℕ, ◌<◌, ◌^◌, ◌==◌, List, [], ◌∷◌, slice_index, if◌then◌else◌};

    ghost Value = { List ℕ };

    ghost view = { λ e. e.number ∷ e.lba ∷ (if e.commit then 1 else 0) ∷ [] };

    ghost inverse = { λ l. record { number = slice_index l 0; lba = slice_index l 1; commit = slice_index l 2 == 1 } };
}
