//! The lock, its passes, and the value while it is out.
ghost use Rattle.std.specs.Prelude.{◌≡◌, ◌<◌, ◌≤◌, [], ◌∷◌, length, max, Some, None, IfOk, IfErr, IfSome, IfNone};
ghost use mathlib.Core.List.{IsPrefix};
ghost use Rattle.run_lock.specs.Carries.{carried};
ghost use Rattle.std.specs.Borrow.{sem};

use crate::named::Named;
use crate::rule::{Cut, Give, Note, OneTurn, Origin, View, Win};
use atomic_table::{Refused, Seat, Table};
use std::alloc::{AllocError, AllocFailed, Global};
use std::hint::spin_loop;
use std::snapshot::Snapshot;
use std::sync::Wait;
use std::thread::Parker;

/// The word that is the length of the log, or `OUT`.
const TURN: usize = 0;

/// The turn word while a pass has the turn.
const OUT: u64 = u64::MAX;

/// The word that is odd where somebody may wait for the turn.
const QUEUE: usize = 1;

/// The word that is odd where somebody may rest.
const REST: usize = 2;

/// The low 32 bits of a word, on which a thread parks.
const LOW: u64 = 0xFFFF_FFFF;

/// How often the turn word is looked at before a thread parks.
const LOOKS: u32 = 100;

/// A value that threads take by turns.
pub struct RunLock<F: Named> {
    table: Table<Option<F>, View<F::Name>, Origin<F::Name>, OneTurn<F>, Global>,
    ghost shape: { (table.shared.table_id.words ≡ 3) × (table.shared.table_id.slots ≡ 1) },
}

/// The right to take turns, and how long the log was when its holder last saw it.
#[derive(Drop)]
pub struct Pass<F: Named> {
    place: Place<F, F::Name>,
}

/// What a pass is. It has no bound, so that a `Pass` may be a field of a struct.
#[derive(Drop)]
struct Place<F, N> {
    seat: Seat<Option<F>, View<N>>,
    seen: u64,
    ghost counts: { seat.me.0.seen ≡ seen },
    ghost carries: { seat.me.1 ≡ carried seat.me.0.turn },
}

/// The value while it is out of its lock. It can't be let go: `put` takes it.
pub struct Held<F: Named> {
    value: F,
    taken: Snapshot<F>,
}

impl<F: Named> RunLock<F> {
    ghost use Rattle.run_lock.specs.Passes.{IsPassOf, IsFree, IsSamePass, IsAsBefore, IsSeatOf, IsSameSeat, lock_name, seen_of, turn_of};
    ghost use Rattle.run_lock.specs.Helds.{value_of, value_taken};

    /// A lock of this name round the value, and its first pass, which has seen the value's log.
    /// Where there is no memory the value comes back.
    pub fn new(alloc: Global, name: F::Name, value: F) -> Result<(RunLock<F>, Pass<F>), F>
        requires { F.fits name value }
        ensures name { IfOk result (λ made. lock_name made.0 ≡ name) }
        ensures pass { IfOk result (λ made. IsFree made.0 made.1 × (seen_of made.1 ≡ length (F.log value))) }
        ensures err { IfErr result (λ back. back ≡ value) }
    {
        let seen = value.length();
        let mut slots = Vec::new(alloc);
        if let Err(AllocFailed { value: back }) = slots.push(Some(value)) {
            slots.destroy_empty();
            let Some(value) = back else { unreachable!() };
            return Err(value);
        }
        match Table::new(alloc, &[seen, 0, 0], slots, &Origin { name, seen }) {
            Ok((table, seat)) => Ok((
                RunLock { table },
                Pass {
                    place: Place { seat, seen },
                },
            )),
            Err(Refused { mut slots }) => {
                let Some(Some(value)) = slots.pop() else {
                    unreachable!()
                };
                slots.destroy_empty();
                Err(value)
            }
        }
    }

    /// Takes the turn, and the value with it. It waits while another pass has the turn.
    pub fn take<R: Wait>(&self, rt: &R, pass: &mut Pass<F>) -> Held<F>
        requires { IsFree self.now pass.old }

        // The value is one of the lock's name, and no entry that the pass had seen is missing.
        ensures fits { F.fits (lock_name self.now) (value_of result) }
        ensures grown { seen_of pass.old ≤ length (F.log (value_of result)) }
        ensures taken { value_taken result ≡ value_of result }

        // The pass has the turn from the length of this log, and is otherwise as it was.
        ensures turn { turn_of pass.new ≡ Some (length (F.log (value_of result))) }
        ensures pass { IsSamePass pass.old pass.new × (seen_of pass.new ≡ seen_of pass.old) }
    {
        if let Some(held) = self.try_take(pass) {
            return held;
        }
        self.look();
        for _ in rt.forever() {
            let mark = self.mark(&mut pass.place.seat, QUEUE);
            if let Some(held) = self.try_take(pass) {
                return held;
            }
            self.table.shared.park(rt, QUEUE, mark);
        }
        unreachable!()
    }

    // Takes the turn where nobody has it.
    fn try_take(&self, pass: &mut Pass<F>) -> Option<Held<F>>
        requires { IsFree self.now pass.old }
        ensures fits { IfSome result (λ held. F.fits (lock_name self.now) (value_of held)) }
        ensures grown { IfSome result (λ held. seen_of pass.old ≤ length (F.log (value_of held))) }
        ensures taken { IfSome result (λ held. value_taken held ≡ value_of held) }
        ensures turn { IfSome result (λ held. turn_of pass.new ≡ Some (length (F.log (value_of held)))) }
        ensures none { IfNone result (turn_of pass.new ≡ None) }
        ensures pass { IsSamePass pass.old pass.new × (seen_of pass.new ≡ seen_of pass.old) }
    {
        let shared = &self.table.shared;
        let place = &mut pass.place;
        if shared.swap::<Win<F>>(&mut place.seat, TURN, OUT) == OUT {
            return None;
        }
        let Some(value) = shared.exchange(&mut place.seat, 0, None) else {
            unreachable!()
        };
        Some(Held {
            taken: Snapshot::of(&value),
            value,
        })
    }

    // Looks for a short while whether the turn is given.
    fn look(&self) {
        for _ in 0..LOOKS {
            if self.table.shared.peek(TURN) != OUT {
                return;
            }
            spin_loop();
        }
    }

    /// Puts the value back, and gives the turn.
    pub fn put(&self, pass: &mut Pass<F>, held: Held<F>)
        // The pass is of this lock, and has the turn in which the value was taken.
        requires lock { IsPassOf self.now pass.old }
        requires turn { turn_of pass.old ≡ Some (length (F.log (value_taken held))) }

        // The value is one of the lock's name, and its log begins with what it had when it was taken.
        requires fits { F.fits (lock_name self.now) (value_of held) }
        requires log { IsPrefix (F.log (value_taken held)) (F.log (value_of held)) }

        // The pass has no turn, and has seen the whole log.
        ensures turn { turn_of pass.new ≡ None }
        ensures seen { seen_of pass.new ≡ length (F.log (value_of held)) }
        ensures pass { IsSamePass pass.old pass.new }
    {
        let Held { value, taken: _ } = held;
        let seen = value.length();
        let shared = &self.table.shared;
        let place = &mut pass.place;
        self.lay_in(&mut place.seat, value);
        shared.store::<Give<F>>(&mut place.seat, TURN, seen);
        place.seen = seen;
        if self.unmark(&mut place.seat, QUEUE) {
            shared.wake_one(QUEUE);
        }
    }

    // Lays the value into the slot, from which it was lifted out.
    fn lay_in(&self, seat: &mut Seat<Option<F>, View<F::Name>>, value: F)
        requires { IsSeatOf self.now seat.old × (seat.old.me.1 ≡ (0, None) ∷ []) }
        ensures { IsSeatOf self.now seat.new × (seat.new.me ≡ (seat.old.me.0, (0, Some value) ∷ [])) }
    {
        let was = self.table.shared.exchange(seat, 0, Some(value));
        let None = was else { unreachable!() };
    }

    /// Waits until somebody wakes. It returns at once where the log has grown since the pass saw it,
    /// or where a pass has the turn, and it may return for no reason.
    pub fn rest<R: Wait>(&self, rt: &R, pass: &mut Pass<F>)
        requires { IsPassOf self.now pass.old }
        ensures { IsAsBefore pass.old pass.new }
    {
        let mark = self.mark(&mut pass.place.seat, REST);
        let shared = &self.table.shared;
        if shared.peek(TURN) == pass.place.seen {
            shared.park(rt, REST, mark);
        }
    }

    /// Wakes all that rest.
    pub fn wake(&self, pass: &mut Pass<F>)
        requires { IsPassOf self.now pass.old }
        ensures { IsAsBefore pass.old pass.new }
    {
        if self.unmark(&mut pass.place.seat, REST) {
            self.table.shared.wake_all(REST);
        }
    }

    // Marks that somebody waits on the word, and tells the low bits of what it then is. A thread
    // parks on these, so it doesn't sleep where the mark was ended since.
    fn mark(&self, seat: &mut Seat<Option<F>, View<F::Name>>, word: usize) -> u32
        requires { IsSeatOf self.now seat.old × (0 < word) × (word < 3) }
        ensures { IsSameSeat seat.old seat.new }
    {
        let before = self.table.shared.fetch_or::<Note>(seat, word, 1);
        ((before | 1) & LOW) as u32
    }

    // Ends the mark of a word, and tells whether this call did so: then it has to wake. Where
    // another call ended the mark in between, that call wakes.
    fn unmark(&self, seat: &mut Seat<Option<F>, View<F::Name>>, word: usize) -> bool
        requires { IsSeatOf self.now seat.old × (0 < word) × (word < 3) }
        ensures { IsSameSeat seat.old seat.new }
    {
        let shared = &self.table.shared;
        let marked = shared.peek(word);
        if marked % 2 == 0 {
            return false;
        }
        let ended = marked.wrapping_add(1);
        shared.compare_exchange::<Note>(seat, word, marked, ended) == marked
    }

    /// Ends the lock, and hands out its value. It waits for ever where another pass has the turn.
    pub fn close<R: Wait>(self, rt: &R, pass: Pass<F>) -> F
        requires { IsFree self pass }
        ensures fits { F.fits (lock_name self) result }
        ensures grown { seen_of pass ≤ length (F.log result) }
    {
        let RunLock { table } = self;
        let Pass { place } = pass;
        let Place { seat, seen: _ } = place;
        let mut closed = table.close_with(seat);
        if closed.word(TURN) == OUT {
            // Nobody can give the turn any more.
            let parker = Parker::new();
            for _ in rt.forever() {
                parker.park(rt);
            }
            unreachable!()
        }
        let Some(value) = closed.take(0) else {
            unreachable!()
        };
        closed.free();
        value
    }
}

impl<F: Named> Pass<F> {
    ghost use Rattle.run_lock.specs.Passes.{IsPassOf, IsFree, IsSamePass, IsAsBefore, seen_of, turn_of};

    /// A second pass of the same lock, which has seen as much and has no turn. An `Err` is want of
    /// memory.
    pub fn split(&mut self, lock: &RunLock<F>) -> Result<Pass<F>, AllocError>
        requires { IsPassOf lock.now self.old }
        ensures kept { IsAsBefore self.old self.new }
        ensures other { IfOk result (λ other. IsSamePass self.old other × (turn_of other ≡ None) × (seen_of other ≡ seen_of self.old)) }
    {
        let seat = lock.table.shared.split_seat::<Cut>(&mut self.place.seat);
        Ok(Pass {
            place: Place {
                seat,
                seen: self.place.seen,
            },
        })
    }

    /// Takes in another pass of the lock, which is spent. The kept pass has seen what either had.
    pub fn join(&mut self, lock: &RunLock<F>, other: Pass<F>)
        requires kept { IsFree lock.now self.old }
        requires other { IsFree lock.now other }
        ensures pass { IsSamePass self.old self.new × (turn_of self.new ≡ None) }
        ensures seen { seen_of self.new ≡ max (seen_of self.old) (seen_of other) }
    {
        let Pass { place: other } = other;
        let Place { seat, seen } = other;
        let place = &mut self.place;
        lock.table.shared.join_seat::<Cut>(&mut place.seat, seat);
        place.seen = place.seen.max(seen);
    }
}

impl<F: Named> Held<F> {
    ghost use Rattle.run_lock.specs.Lending.{LendsValue};
    ghost use Rattle.run_lock.specs.Helds.{value_of};

    /// Lends the value. What is written through the result is in the `Held` afterwards.
    pub fn value(&mut self) -> &mut F
        ensures* lends { sem 𝓛 (LendsValue F.row F.Name.row F.Entry.row self.entry result) }
        ensures value { result.now ≡ value_of self.old }
    {
        &mut self.value
    }
}
