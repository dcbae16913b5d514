// A machine that is generic in a port, under whose sides ports lie.
ghost use Rattle.std.specs.Prelude.{◌≡◌, ℕ, ◌+◌, ◌%◌, ◌^◌, ◌<◌, ◌≤◌, [], ◌∷◌, All, Some, IfOk, OnOk, length, slice_get, vec_len, vec_capacity};
ghost use Rattle.mq_turns.specs.Desk.{Follows, allotment, fresh};
ghost use Rattle.mq_turns.specs.AtDesk.{AtDesk, view, start_of, chairs_of};
ghost use Rattle.mq_test_turns.specs.Counting.{counting};
ghost use Rattle.mq_test_turns.specs.declared.votes.QueueSide.{QueueSide};
ghost use Rattle.mq_test_turns.specs.declared.votes.Vote.{Vote};

use mq_blocks::{OutOfMemory, QueueNo, TxNo};
use mq_turns::{Chair, Desk, Item, Machine, Turn};
use std::alloc::Global;
use std::marker::PhantomData;
use std::sync::Wait;

/// What counts the votes of a side.
pub trait Port: Drop {
    ghost state: { Self → ℕ };

    /// Counts a vote, modulo 2^64.
    fn bump(&mut self)
        ensures { state self.new ≡ (state self.old + 1) % 18446744073709551616 };
}

/// A port that is a word.
#[derive(Drop)]
pub struct Word {
    pub count: u64,
}

impl Port for Word {
    ghost state = { λ w. w.count };

    fn bump(&mut self) {
        self.count = self.count.wrapping_add(1);
    }
}

/// The side of a queue, with the port that counts its votes.
#[derive(Drop)]
pub struct QueueSide<P: Port> {
    pub port: P,
}

/// A vote on a queue.
#[derive(Clone, Copy)]
pub struct Vote {
    pub queue: QueueNo,
    pub session: u64,
    pub group: u64,
}

/// The machine: its entries are votes, and its root is the base.
pub struct Counting<P> {
    port: PhantomData<P>,
}

impl<P: Port> Machine for Counting<P> {
    type Page = u64;

    type Side = QueueSide<P>;

    type Root = u64;

    type Entry = Vote;

    ghost use Rattle.mq_test_turns.specs.Counting.{counting};
    ghost use Rattle.mq_test_turns.specs.declared.votes.Vote.{Vote};

    ghost meaning = { counting (λ (e : Vote). e.queue) (λ e. e.session) (λ e. e.group) (λ q. P.state q.port) };

    fn obeys() {}
}

/// What a round saw and drew: the counter before and after the draw, and the front before and after the
/// vote was known done.
#[derive(Clone, Copy)]
pub struct Round {
    pub before: TxNo,
    pub number: TxNo,
    pub after: TxNo,
    pub undone: TxNo,
    pub done: TxNo,
}

/// Takes the queue's side, looks, lowers the mark to the next number, draws, looks again, counts the vote on
/// the port, reads the front, raises the mark past the vote, reads the front again, and gives the side back.
pub fn cast<P: Port, R: Wait>(
    rt: &R,
    desk: &Desk<Counting<P>>,
    chair: &mut Chair<Counting<P>>,
    entry: &Vote,
) -> Round
    requires at { AtDesk desk.now chair.old }
    requires queue { entry.now.queue < length (start_of desk.now).sides }
    requires idle { (view chair.old).held ≡ [] }
    requires follows { Follows (counting (λ (e : Vote). e.queue) (λ e. e.session) (λ e. e.group)
        (λ (q : QueueSide P). P.state q.port)) entry.now
        (view chair.old) }
    requires room { length (view chair.old).drawn < allotment (chairs_of desk.now) }
    ensures at { AtDesk desk.now chair.new }
    ensures idle { (view chair.new).held ≡ [] }
    ensures drew { ((view chair.new).drawn ≡ (result.number, entry.now) ∷ (view chair.old).drawn)
        × ((view chair.new).read ≡ (view chair.old).read)
        × ((view chair.new).session ≡ (view chair.old).session) }
{
    let queue = entry.queue;
    let Item::Side(mut side) = desk.take(rt, chair, Turn::Side(queue)) else {
        unreachable!()
    };
    let before = desk.look(chair, None);
    desk.clear(chair, queue, before.0.saturating_add(1));
    let number = desk.draw(chair, queue, entry);
    let after = desk.look(chair, None);
    side.port.bump();
    let undone = desk.front(chair);
    desk.clear(chair, queue, u64::MAX);
    let done = desk.front(chair);
    desk.give_back(chair, Turn::Side(queue), Item::Side(side));
    Round {
        before,
        number,
        after,
        undone,
        done,
    }
}

/// A desk with its chairs.
pub type Opened = (Desk<Counting<Word>>, Vec<Chair<Counting<Word>>>);

/// A desk with the given number of sides, whose ports stand at 0. Its root is the base.
pub fn opened(alloc: Global, sides: u32, base: u64, chairs: u32) -> Result<Opened, OutOfMemory>
    requires { (0 < chairs) × (chairs ≤ 16) × (base ≤ 2 ^ 62) }
    ensures many { IfOk result (λ d. 4294967296 ≤ allotment (chairs_of d.0)) }
    ensures all { IfOk result (λ d. (length (start_of d.0).sides ≡ sides)
        × (chairs_of d.0 ≡ chairs)
        × (vec_len d.1 ≡ chairs)
        × ((i : ℕ) (ch : _)
        → slice_get d.1.items i ≡ Some ch
        → AtDesk d.0 ch × (view ch ≡ fresh (start_of d.0) i))) }
{
    let mut all = Vec::with_capacity(alloc, sides as usize)?;
    for _ in 0..sides {
        all.push_reserved(QueueSide {
            port: Word { count: 0 },
        });
    }
    match Desk::new(alloc, Vec::new(alloc), all, base, TxNo(base), chairs) {
        Ok(made) => Ok(made),
        Err(_) => Err(OutOfMemory),
    }
}
