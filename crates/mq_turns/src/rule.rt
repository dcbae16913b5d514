// What all chairs know together, what one chair knows, and the rule of the desk.
use crate::machine::Machine;
use crate::turn::{Item, Turn};
use atomic_table::TableRule;
use mq_blocks::{BlockNo, QueueNo, TxNo};
use std::collections::LinkedList;
use std::marker::PhantomData;
use std::snapshot::Snapshot;

/// The values that a desk was opened with, and its base. It exists in proofs only.
pub struct Opening<P, Q, R> {
    pub pages: LinkedList<P>,
    pub sides: LinkedList<Q>,
    pub root: R,
    pub base: u64,
}

/// What all chairs know together. It only grows. It exists in proofs only.
pub struct Known<P, Q, R, E> {
    pub opening: Opening<P, Q, R>,
    /// The entries drawn, the newest first. The first that was drawn has the number after the base.
    pub log: LinkedList<E>,
    /// What each store of a mark made known, the newest first.
    pub claims: LinkedList<Claim>,
    /// Home writes that ended: the block, and the number whose content it got.
    pub ended: LinkedList<(BlockNo, u64)>,
    /// The base word.
    pub word: u64,
    /// What was reported of the ports, the newest first.
    pub charges: LinkedList<Charge>,
}

/// What the store of a queue's mark makes known. It exists in proofs only.
pub struct Claim {
    pub queue: QueueNo,
    /// The queue's numbers up to this one are done.
    pub up_to: u64,
    /// The queue's mark from then on.
    pub mark: u64,
}

/// What a chair reports of a port: a refusal, by the fault that it is charged to, or how far its
/// transactions have come.
#[derive(Clone, Copy, PartialEq, Eq)]
pub enum Report {
    /// The port refused a call.
    Off,
    /// A command of the transaction ended with this status.
    Failed { tx: TxNo, status: u16 },
    /// A home write of the block ended with this status.
    FailedHome { block: BlockNo, status: u16 },
    /// The transaction stays undone: its send was cut, or a command of it ended with this status, in
    /// an earlier call.
    Stopped { tx: TxNo, status: Option<u16> },
    /// The transaction was rung.
    Sent(TxNo),
}

/// An entry in the account of a port, which is a side's or the root's.
#[derive(Clone, Copy, PartialEq, Eq)]
pub struct Charge {
    pub port: Turn,
    pub report: Report,
}

/// What a chair has read of marks and base. It exists in proofs only.
pub enum MarkAnswer {
    /// A front.
    Front(TxNo),
    /// A base.
    Base(TxNo),
}

/// What a chair notes at a step of its own. It exists in proofs only.
pub enum Notice<P> {
    /// A home write of the block ended, with the content of the number.
    Home(BlockNo, TxNo),
    /// The state of the page by all that is known now.
    Page(BlockNo, P),
    Charge(Charge),
    /// All numbers up to this one are done: the front that the chair reads.
    Front(TxNo),
}

/// What a chair read of marks and base, and what it noted. It exists in proofs only.
pub struct Reading<P, Q, R, E> {
    /// The number of queues that its sweep over the marks has passed.
    pub swept: u64,
    /// The number up to which the entries of these queues are done.
    pub low: u64,
    /// The number up to which all entries are done, as it found at the end of a sweep.
    pub done: u64,
    /// The greatest base that it knows of.
    pub base: u64,
    /// Pages that it noted, with what was known then, the newest first.
    pub pages: LinkedList<(BlockNo, P, Known<P, Q, R, E>)>,
    /// The fronts and bases that it has read, the newest first.
    pub answers: LinkedList<MarkAnswer>,
    /// What it reported of ports, the newest first.
    pub charged: LinkedList<Charge>,
}

/// What a chair knows. It exists in proofs only.
pub struct ChairView<P, Q, R, E> {
    /// The number of chairs that it stands for: 1, and 0 for a note.
    pub parts: u64,
    /// How its desk was opened; none if it stands for no chair.
    pub opening: Option<Opening<P, Q, R>>,
    /// The chair's place in the list that `Desk::new` gave.
    pub session: u64,
    /// The greatest number that it knows of.
    pub seen: u64,
    /// 0, or 1 more than the slot that it has in hand.
    pub hand: u64,
    /// The slots whose turns it holds, each with what was known at its own last step on it.
    pub held: LinkedList<(u64, Known<P, Q, R, E>)>,
    /// What it drew, with the numbers, the newest first.
    pub drawn: LinkedList<(u64, E)>,
    /// Entries that it read and did not draw, with what was known then, the newest first.
    pub read: LinkedList<(E, Known<P, Q, R, E>)>,
    /// What it read of the other words, and what it noted.
    pub reading: Reading<P, Q, R, E>,
    /// The sessions of the chairs that it stands for.
    pub sessions: LinkedList<u64>,
}

/// How a desk was opened.
#[derive(Drop)]
pub struct Start<M: Machine> {
    pub pages: Snapshot<Vec<M::Page>>,
    pub sides: Snapshot<Vec<M::Side>>,
    pub root: Snapshot<M::Root>,
    pub base: u64,
    pub chairs: u64,
}

pub struct Law<M> {
    machine: PhantomData<M>,
}

pub type Knows<M> = ChairView<
    <M as Machine>::Page,
    <M as Machine>::Side,
    <M as Machine>::Root,
    <M as Machine>::Entry,
>;

impl<M: Machine> TableRule<Option<Item<M>>, Knows<M>, Start<M>> for Law<M> {
    ghost use Rattle.mq_turns.specs.Desk.{Ruled, opening_of, first_view};

    ghost holds = { λ key. Ruled M.meaning (opening_of key) key.chairs };

    ghost first = { λ key. first_view (opening_of key) key.chairs };
}
