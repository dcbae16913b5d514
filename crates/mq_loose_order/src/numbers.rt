// Rising numbers of transactions.
ghost use Rattle.std.specs.Prelude.{◌≡◌, ◌≤◌, [], OnOk, OnErr, IsTrue, ◌↔◌, drop, length};
ghost use Rattle.mq_loose_order.specs.Rising.{put_at, starts_with, with_number};

use mq_blocks::{OutOfMemory, TxNo};
use std::alloc::Global;
use std::marker::Model;

/// The numbers of transactions.
#[derive(Drop)]
pub struct Numbers(pub Vec<TxNo>);

impl Model for Numbers {
    ghost use Rattle.std.specs.Prelude.{ℕ, List};

    ghost Value = { List ℕ };

    ghost view = { λ n. n.0.items };
}

/// Where the first of these numbers stands that is not below a number, or the end.
fn first_from(numbers: &[TxNo], number: TxNo) -> usize
    ensures inside { result ≤ length numbers.now }
    ensures is { with_number number numbers.now ≡ put_at numbers.now result number }
{
    for (i, other) in numbers.iter().enumerate() {
        if other.0 >= number.0 {
            return i;
        }
    }
    numbers.len()
}

/// Whether a number stands at a place.
fn is_at(numbers: &[TxNo], at: usize, number: TxNo) -> bool
    ensures { result ≡ starts_with number (drop at numbers.now) }
{
    if at >= numbers.len() {
        return false;
    }
    let found = numbers[at];
    found.0 == number.0
}

fn are_same(numbers: &[TxNo], others: &[TxNo]) -> bool
    ensures { IsTrue result ↔ (numbers.now ≡ others.now) }
{
    if numbers.len() != others.len() {
        return false;
    }
    for at in 0..numbers.len() {
        let number = numbers[at];
        let other = others[at];
        if number.0 != other.0 {
            return false;
        }
    }
    true
}

impl Numbers {
    pub fn new(alloc: Global) -> Numbers
        ensures { result ≡ [] }
    {
        Numbers(Vec::new(alloc))
    }

    pub fn as_slice(&self) -> &[TxNo]
        ensures { result.now ≡ self.now }
    {
        &self.0
    }

    /// Puts a number among rising ones, unless it is there.
    pub fn add(&mut self, number: TxNo) -> Result<(), OutOfMemory>
        ensures ok { OnOk result (self.new ≡ with_number number self.old) }
        ensures refused { OnErr result (self.new ≡ self.old) }
    {
        let at = first_from(&self.0, number);
        if is_at(&self.0, at, number) {
            return Ok(());
        }
        self.0.insert(at, number)?;
        Ok(())
    }

    /// Whether these are the same numbers in the same order.
    pub fn is_same(&self, other: &Numbers) -> bool
        ensures { IsTrue result ↔ (self.now ≡ other.now) }
    {
        are_same(&self.0, &other.0)
    }
}
