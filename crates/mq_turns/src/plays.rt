// What each step on the table shows, and how views are cut and joined.
ghost use Rattle.std.specs.Prelude.{◌≡◌, Option, Some, None};
ghost use Rattle.mq_turns.specs.Desk.{taken, settled, reached, freed, looked, drew_one, blank, others, seated, noted, heard, joined};
ghost use Rattle.mq_turns.specs.Words.{peeked, cleared, based, raised_to, noticed};
ghost use Rattle.mq_turns.specs.declared.rule.Notice.{Notice};

use crate::machine::Machine;
use crate::rule::{ChairView, Knows, Notice};
use crate::turn::Item;
use atomic_table::{Join, Play, Split};
use std::marker::{Brand, PhantomData};

/// The entry of a step. Each call chooses it.
pub(crate) trait Told<E> {
    ghost told: { Option E };
}

impl<E> Told<E> for Brand {
    ghost told = { None };
}

/// The notice that a step gives. Each call chooses it.
pub(crate) trait Notifies<P> {
    ghost notice: { Option (Notice P) };
}

impl<P> Notifies<P> for Brand {
    ghost notice = { None };
}

/// A turn's word becomes 1: the turn is taken, with its slot, where the word was 0.
pub(crate) struct Take<M> {
    machine: PhantomData<M>,
}

impl<M: Machine> Play<Option<Item<M>>, Knows<M>> for Take<M> {
    ghost then = { taken M.meaning };
}

/// The slot that was emptied goes home.
pub(crate) struct Settle;

impl<M: Machine> Play<Option<Item<M>>, Knows<M>> for Settle {
    ghost then = { settled };
}

/// The empty slot of a turn that the chair holds comes into hand.
pub(crate) struct Reach;

impl<M: Machine> Play<Option<Item<M>>, Knows<M>> for Reach {
    ghost then = { reached };
}

/// The slot in hand goes home, and its turn is free.
pub(crate) struct Free;

impl<M: Machine> Play<Option<Item<M>>, Knows<M>> for Free {
    ghost then = { freed };
}

/// The counter is read, and an entry with it, if there is one.
pub(crate) struct Look<M, N> {
    machine: PhantomData<(M, N)>,
}

impl<M: Machine, N: Told<M::Entry>> Play<Option<Item<M>>, Knows<M>> for Look<M, N> {
    ghost then = { looked M.meaning N.told };
}

/// The next number is drawn.
pub(crate) struct Draw<M, N> {
    machine: PhantomData<(M, N)>,
}

impl<M: Machine, N: Told<M::Entry>> Play<Option<Item<M>>, Knows<M>> for Draw<M, N> {
    ghost then = { λ st me n after. (e : M.Entry) → N.told ≡ Some e → drew_one M.meaning e st me n after };
}

/// A queue's mark is read.
pub(crate) struct Peek<M> {
    machine: PhantomData<M>,
}

impl<M: Machine> Play<Option<Item<M>>, Knows<M>> for Peek<M> {
    ghost then = { peeked M.meaning };
}

/// A queue's mark is stored.
pub(crate) struct Clear<M> {
    machine: PhantomData<M>,
}

impl<M: Machine> Play<Option<Item<M>>, Knows<M>> for Clear<M> {
    ghost then = { cleared M.meaning };
}

/// The base is read.
pub(crate) struct ReadBase<M> {
    machine: PhantomData<M>,
}

impl<M: Machine> Play<Option<Item<M>>, Knows<M>> for ReadBase<M> {
    ghost then = { based M.meaning };
}

/// The base is stored.
pub(crate) struct Raise<M> {
    machine: PhantomData<M>,
}

impl<M: Machine> Play<Option<Item<M>>, Knows<M>> for Raise<M> {
    ghost then = { raised_to M.meaning };
}

/// The counter is read, and a notice is given.
pub(crate) struct Notify<M, N> {
    machine: PhantomData<(M, N)>,
}

impl<M: Machine, N: Notifies<M::Page>> Play<Option<Item<M>>, Knows<M>> for Notify<M, N> {
    ghost then = { λ st me n after. (x : Notice M.Page) → N.notice ≡ Some x → noticed M.meaning x st me n after };
}

/// A chair is set apart.
pub(crate) struct Cut;

impl<P, Q, R, E> Split<ChairView<P, Q, R, E>> for Cut {
    ghost left = { others };

    ghost right = { seated };
}

/// A note of what a chair saw and drew, and a chair that hears it.
pub(crate) struct Note;

impl<P, Q, R, E> Split<ChairView<P, Q, R, E>> for Note {
    ghost left = { λ v. v };

    ghost right = { noted };
}

impl<P, Q, R, E> Join<ChairView<P, Q, R, E>> for Note {
    ghost both = { heard };

    ghost spent = { blank };
}

/// Two chairs become one.
pub(crate) struct Glue;

impl<P, Q, R, E> Join<ChairView<P, Q, R, E>> for Glue {
    ghost both = { joined };

    ghost spent = { blank };
}
