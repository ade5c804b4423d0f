//! The rule of a lock's table, and what each kind of step tells.
//!
//! The table has one slot, the value's home, and three words. The turn word is the length of the
//! log, or `u64::MAX` while a seat has the turn. The two waiting words say whether somebody waits
//! for the turn, or rests. Every step is of one of eight kinds: a seat is split or joined, the turn
//! is won, the value is lifted out or laid in, the turn is given, somebody is marked as waiting, or
//! the mark is ended.
use crate::named::Named;
use atomic_table::{Join, Play, Split, TableRule};
use std::marker::PhantomData;

/// What a seat knows. It stands in proofs alone. A spent seat has no name.
pub struct View<N> {
    /// The name of the seat's lock.
    pub name: Option<N>,
    /// How long the log was when the seat last saw it.
    pub seen: u64,
    /// From which length of log the seat has the turn.
    pub turn: Option<u64>,
}

/// What a table is told when it is made: its name, and how long the log is then.
#[derive(Drop)]
pub struct Origin<N: Drop> {
    pub name: N,
    pub seen: u64,
}

/// At most one seat has the turn, and the value at home fits the lock's name.
pub struct OneTurn<F> {
    of: PhantomData<F>,
}

impl<F: Named> TableRule<Option<F>, View<F::Name>, Origin<F::Name>> for OneTurn<F> {
    ghost use Rattle.run_lock.specs.Turns.{Kept, opening_view};

    ghost holds = { λ origin s. Kept F.fits F.log origin.name s };

    ghost first = { λ origin. opening_view origin.name origin.seen };
}

/// A swap that wins the turn, unless a seat has it.
pub struct Win<F> {
    of: PhantomData<F>,
}

impl<F: Named> Play<Option<F>, View<F::Name>> for Win<F> {
    ghost use Rattle.run_lock.specs.Turns.{Wins};

    ghost then = { Wins F.fits F.log };
}

/// A store of the log's length, which gives the turn.
pub struct Give<F> {
    of: PhantomData<F>,
}

impl<F: Named> Play<Option<F>, View<F::Name>> for Give<F> {
    ghost use Rattle.run_lock.specs.Turns.{Gives};

    ghost then = { Gives };
}

/// A step on a waiting word, which changes nothing that a seat knows.
pub struct Note;

impl<S, V> Play<S, V> for Note {
    ghost use Rattle.std.specs.Prelude.{◌≡◌};

    ghost then = { λ step before found after. after ≡ before };
}

/// How a seat is split in two, and how two are joined.
pub struct Cut;

impl<N> Split<View<N>> for Cut {
    ghost use Rattle.run_lock.specs.Turns.{newcomer};

    ghost left = { λ view. view };

    ghost right = { newcomer };
}

impl<N> Join<View<N>> for Cut {
    ghost use Rattle.run_lock.specs.Turns.{both, spent};

    ghost both = { both };

    ghost spent = { spent };
}
