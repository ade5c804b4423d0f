//! The state of a run.
ghost use Rattle.std.specs.Prelude.{◌≡◌, ℕ, ◌<◌, ◌≤◌, ◌+◌, ◌-◌, ◌++◌, [], ◌∷◌, true, false, length, reverse, slice_set, IfOk, OnErr, is_some, None, vec_len, vec_capacity};
ghost use Rattle.page_partition.specs.Scan.{left_of, out_of};

use crate::answers::{History, last_flags, values_where};
use crate::decide::decide_all;
use crate::next::{Next, first_waiting, first_with_seat, values_of};
use crate::places::places_of;
use crate::room::make_room;
use crate::slot::Slot;
use crate::start::start_slots;
use adjust_protocol::{ArcList, Claimed, Seated, Settled};
use hash_join::{Built, BuiltList};
use history::Event;
use io_cpu_scheduler::{Decision, Load, machine_after};
use lists::Sequence;
use page_partition::Batch;
use plan_tree::FragmentList;
use rows::{Machine, Rows, StepList};
use run_lock::Named;
use std::alloc::{AllocError, Global};
use std::marker::{Brand, Model, PhantomData};
use std::sync::Arc;

/// What names a run: its fragments, its machine and steps, and, where they are told, the files that it reads.
pub trait RunName {
    ghost use Rattle.master.specs.Meaning.{Meaning};

    ghost meaning: { Meaning };
}

/// The fragments of a run, each with its board, and the history of the run.
#[derive(Drop)]
pub struct Control<K: RunName> {
    slots: Vec<Slot>,
    history: Vec<Event>,
    machine: Machine,
    steps: StepList,
    decision: Decision,
    finishes: u32,
    needed: usize,
    running: Vec<Load>,
    ready: Vec<Load>,
    lasts: Vec<bool>,
    answers: Vec<Arc<Built>>,
    name: PhantomData<K>,
}

impl<K: RunName> Model for Control<K> {
    ghost use Rattle.std.specs.Prelude.{◌-◌, map, vec_len, vec_capacity};
    ghost use Rattle.master.specs.Ledger.{IsKept, Ledger};

    ghost Value = { Ledger };

    ghost view = { λ c. record { log = c.history.items; slots = c.slots.items } };

    ghost invariant = { λ c. IsKept K.meaning c.history.items c.slots.items (record {
      machine = c.machine;
      steps = c.steps;
      decision = c.decision;
      finishes = c.finishes;
      needed = c.needed;
      spare = vec_capacity c.history - vec_len c.history;
      running = vec_capacity c.running;
      ready = vec_capacity c.ready;
      lasts = c.lasts.items;
      answers = map (λ x. x.value) c.answers.items;
      answer_count = vec_len c.answers;
      answer_room = vec_capacity c.answers;
    }) };
}

impl RunName for Brand {
    ghost use Rattle.master.specs.Meaning.{no_run};

    ghost meaning = { no_run };
}

impl<K: RunName> Named for Control<K> {
    ghost use Rattle.master.specs.Ledger.{Fits};

    type Name = PhantomData<K>;

    type Entry = Event;

    ghost fits = { λ name c. Fits K.meaning c };

    ghost log = { λ c. c.log };

    fn length(&self) -> u64 {
        self.history.len() as u64
    }
}

impl<K: RunName> Control<K> {
    ghost use Rattle.master.specs.Boards.{collected_as, with_board};
    ghost use Rattle.master.specs.Calls.{claim_events, moved_at, settle_events, settled_at};
    ghost use Rattle.master.specs.Answers.{Claims, IsRest, NextAnswer, next_events};
    ghost use Rattle.master.specs.Ends.{AreAnswers};
    ghost use Rattle.std.specs.Prelude.{map};
    ghost use Rattle.master.specs.Release.{AreReleased};
    ghost use Rattle.master.specs.Meaning.{run_of};
    ghost use Rattle.history.specs.Allowed.{IsLowest, NoneOpen};
    ghost use Rattle.history.specs.State.{IsOpen, MaySeat, decision_after};
    ghost use Rattle.io_cpu_scheduler.specs.Decisions.{nothing};
    ghost use Rattle.master.specs.Finish.{Finishes};
    ghost use Rattle.master.specs.Gives.{AllGiven};
    ghost use Rattle.master.specs.Starts.{starts};
    ghost use Rattle.io_cpu_scheduler.specs.Limits.{IsMachine, IsStep};
    ghost use Rattle.plan_tree.specs.Pieces.{pieces_of};
    ghost use Rattle.plan_tree.specs.WellFormed.{AreWellFormed};
    ghost use Rattle.std.specs.List.{AllByRecursion};
    ghost use Rattle.master.specs.Content.{AreOuts, IsValue};
    ghost use Rattle.master.specs.Kind.{scan_of};
    ghost use Rattle.master.specs.Ledger.{Fits, at, scans};
    ghost use Rattle.adjust_protocol.specs.Moves as move;
    ghost use Rattle.adjust_protocol.specs.Moves.{IsDue, Makes, is_held};
    ghost use Rattle.adjust_protocol.specs.Answers.{SettleAnswer, claim_moves, settle_moves};
    ghost use Rattle.history.specs.Boards.{rule_by};
    ghost use Rattle.history.specs.declared.event.Event.TheVariants as event;

    /// A run of these fragments on this machine, with the steps by which it changes, and its first
    /// decision. An error is want of memory.
    pub fn new(
        alloc: Global,
        fragments: &FragmentList,
        machine: Machine,
        steps: &StepList,
    ) -> Result<Control<K>, AllocError>
        requires fragments { fragments.now ≡ K.meaning.fragments }
        requires formed { AreWellFormed (pieces_of fragments.now) }
        requires machine { machine ≡ K.meaning.machine }
        requires limits { IsMachine machine }
        requires steps { steps.now ≡ K.meaning.steps }
        requires within { AllByRecursion IsStep steps.now }
        ensures events { IfOk result (λ c. c.log ≡ event.Begin (decision_after (run_of K.meaning) []) ∷ []) }
        ensures slots { IfOk result (λ c. AllGiven (starts fragments.now) (decision_after (run_of K.meaning) []) None c.slots) }
        ensures fits { IfOk result (Fits K.meaning) }
    {
        let mut history = Vec::with_capacity(alloc, 1)?;
        let mut running = Vec::with_capacity(alloc, fragments.len())?;
        let mut ready = Vec::with_capacity(alloc, fragments.len())?;
        let steps = steps.copy(alloc)?;
        let mut slots = start_slots(alloc, fragments.items())?;
        let lasts = last_flags(alloc, fragments.items())?;
        let answers = Vec::with_capacity(alloc, fragments.len())?;
        let first = machine_after(&machine, &steps, 0);
        let (decision, _none) = decide_all(&mut slots, &mut running, &mut ready, &first);
        history.push_reserved(Event::Begin { decision });
        Ok(Control {
            slots,
            history,
            machine,
            steps,
            decision,
            finishes: 0,
            needed: 0,
            running,
            ready,
            lasts,
            answers,
            name: PhantomData,
        })
    }

    /// What the backend does next. The first of these that fits is the answer: `Collect`, of the lowest
    /// fragment whose scan is done and that nobody collects; `Job`, at the lowest running fragment that has
    /// a free role and fewer held ones than it wants, whose least free role is then held, with the
    /// values of what it reads; `Stop`, where
    /// every fragment is finished; `Rest`. An error is want of memory, and the control is as it was.
    pub fn next_job(&mut self, alloc: Global, backend: u32) -> Result<Next, AllocError>
        ensures events { IfOk result (λ a. self.new.log ≡ self.old.log ++ next_events backend a) }
        ensures answer { IfOk result (NextAnswer K.meaning self.old self.new) }
        ensures err { OnErr result (self.new ≡ self.old) }
        ensures fits { Fits K.meaning self.new }
    {
        if let Some(fragment) = first_waiting(&self.slots, &self.decision) {
            return self.collect(alloc, backend, fragment);
        }
        if let Some(fragment) = first_with_seat(&self.slots, &self.decision) {
            return self.seat(alloc, backend, fragment);
        }
        if self.finishes as usize == self.slots.len() {
            return Ok(Next::Stop);
        }
        Ok(Next::Rest)
    }

    // Collects a fragment, the lowest that waits for it.
    fn collect(&mut self, alloc: Global, backend: u32, fragment: u32) -> Result<Next, AllocError>
        requires { IsLowest (run_of K.meaning) (IsOpen (run_of K.meaning) (reverse self.old.log)) fragment }
        ensures events { IfOk result (λ a. self.new.log ≡ self.old.log ++ next_events backend a) }
        ensures answer { IfOk result (NextAnswer K.meaning self.old self.new) }
        ensures err { OnErr result (self.new ≡ self.old) }
        ensures fits { Fits K.meaning self.new }
    {
        make_room(&mut self.history, self.needed)?;
        let slot = &mut self.slots[fragment as usize];
        let Some(parts) = slot.collect(alloc)? else {
            unreachable!();
        };
        self.needed += 2;
        self.history
            .push_reserved(Event::Collect { backend, fragment });
        Ok(Next::Collect { fragment, parts })
    }

    // Seats the least free role of a fragment, the lowest at which one may be.
    fn seat(&mut self, alloc: Global, backend: u32, fragment: u32) -> Result<Next, AllocError>
        requires none { NoneOpen (run_of K.meaning) (reverse self.old.log) }
        requires lowest { IsLowest (run_of K.meaning) (MaySeat (run_of K.meaning) (reverse self.old.log)) fragment }
        ensures events { IfOk result (λ a. self.new.log ≡ self.old.log ++ next_events backend a) }
        ensures answer { IfOk result (NextAnswer K.meaning self.old self.new) }
        ensures err { OnErr result (self.new ≡ self.old) }
        ensures fits { Fits K.meaning self.new }
    {
        make_room(&mut self.history, self.needed)?;
        let reads = self.slots[fragment as usize].inputs();
        let inputs = values_of(alloc, &self.slots, reads)?;
        let slot = &mut self.slots[fragment as usize];
        let Seated::Role(role) = slot.seat() else {
            unreachable!();
        };
        self.needed += 1;
        self.history.push_reserved(Event::Seat {
            backend,
            fragment,
            role,
        });
        Ok(Next::Job {
            fragment,
            role,
            inputs,
        })
    }

    /// Gives up a role that is held and has nothing out.
    pub fn leave(&mut self, fragment: u32, role: u32)
        requires fragment { fragment < length self.old.slots }
        requires role { role < 64 }
        requires held { is_held (scans self.old.slots fragment) role ≡ true }
        requires idle { out_of (scans self.old.slots fragment).scan.marks role ≡ [] }
        ensures events { self.new.log ≡ self.old.log ++ event.Leave fragment role ∷ [] }
        ensures slots { self.new.slots ≡ moved_at self.old.slots fragment (move.Leave role ∷ []) }
        ensures fits { Fits K.meaning self.new }
    {
        let slot = &mut self.slots[fragment as usize];
        slot.leave(role);
        self.needed -= 1;
        self.history.push_reserved(Event::Leave { fragment, role });
    }

    /// Undoes a collection.
    pub fn uncollect(&mut self, fragment: u32)
        requires fragment { fragment < length self.old.slots }
        requires collecting { (scans self.old.slots fragment).collecting ≡ true }
        ensures events { self.new.log ≡ self.old.log ++ event.Uncollect fragment ∷ [] }
        ensures slots { self.new.slots ≡ moved_at self.old.slots fragment (move.Uncollect ∷ []) }
        ensures fits { Fits K.meaning self.new }
    {
        let slot = &mut self.slots[fragment as usize];
        slot.uncollect();
        self.needed -= 2;
        self.history.push_reserved(Event::Uncollect { fragment });
    }

    /// The board's claim, of the machine's batch. An error is want of memory, and the control is as it was.
    pub fn claim(&mut self, alloc: Global, fragment: u32, role: u32) -> Result<Claimed, AllocError>
        requires fragment { fragment < length self.old.slots }
        requires role { role < 64 }
        requires held { is_held (scans self.old.slots fragment) role ≡ true }
        requires idle { out_of (scans self.old.slots fragment).scan.marks role ≡ [] }
        ensures events { IfOk result (λ a. self.new.log ≡ self.old.log ++ claim_events fragment role a) }
        ensures slots { IfOk result (λ a. self.new.slots ≡ moved_at self.old.slots fragment (claim_moves role a)) }
        ensures answer { IfOk result (λ a. Claims K.meaning.machine.batch (scans self.old.slots fragment) role a) }
        ensures err { OnErr result (self.new ≡ self.old) }
        ensures fits { Fits K.meaning self.new }
    {
        make_room(&mut self.history, self.needed)?;
        let most = self.machine.batch;
        let slot = &mut self.slots[fragment as usize];
        let room = Vec::with_capacity(alloc, most.min(slot.left(role)) as usize)?;
        match slot.claim(role, most) {
            Claimed::Batch(batch) => {
                let places = places_of(room, &batch);
                self.needed += 2;
                self.history.push_reserved(Event::Claim {
                    fragment,
                    role,
                    places,
                });
                Ok(Claimed::Batch(batch))
            }
            other => Ok(other),
        }
    }

    /// Deposits these outputs of the first positions of the role's batch, and gives it the others back,
    /// as the board does.
    pub fn settle(&mut self, fragment: u32, role: u32, outputs: ArcList<Rows>) -> Settled
        requires fragment { fragment < length self.old.slots }
        requires role { role < 64 }
        requires some { 0 < length (out_of (scans self.old.slots fragment).scan.marks role) }
        requires count { length outputs ≤ length (out_of (scans self.old.slots fragment).scan.marks role) }
        requires outs { AreOuts K.meaning fragment (out_of (scans self.old.slots fragment).scan.marks role) outputs }
        ensures events { self.new.log ≡ self.old.log ++ settle_events fragment role (length outputs) (scans self.old.slots fragment).asked result }
        ensures slots { self.new.slots ≡ settled_at self.old.slots fragment role outputs result }
        ensures answer { SettleAnswer (scans self.old.slots fragment) (scans self.new.slots fragment) result }
        ensures moves { Makes (rule_by (at self.old.slots fragment).by_entries) 64 (scans self.old.slots fragment) (settle_moves (scans self.old.slots fragment).asked role (length outputs) result) (scans self.new.slots fragment) }
        ensures fits { Fits K.meaning self.new }
    {
        let slot = &mut self.slots[fragment as usize];
        let batch = slot.out(role);
        let count = outputs.len().min(batch.len() as usize) as u32;
        let settled = slot.settle(role, outputs);
        let degree = slot.degree();
        self.needed -= 2;
        self.history.push_reserved(Event::Settle {
            fragment,
            role,
            count,
        });
        if let Settled::Cut(cut) = settled {
            self.history.push_reserved(Event::Divide {
                fragment,
                degree,
                cut,
            });
        }
        settled
    }

    /// The fragment, which is being collected, is finished with this value. In the same step the next
    /// decision is made, what it adds is started, and what runs is asked for its new degree.
    pub fn finish(&mut self, fragment: u32, built: Arc<Built>) -> Decision
        requires fragment { fragment < length self.old.slots }
        requires collecting { (scans self.old.slots fragment).collecting ≡ true }
        requires value { IsValue K.meaning fragment built.value }
        ensures decision { result ≡ decision_after (run_of K.meaning) (event.Finish fragment nothing ∷ reverse self.old.log) }
        ensures finishes { Finishes self.old self.new fragment built.value result }
        ensures fits { Fits K.meaning self.new }
    {
        let slot = &mut self.slots[fragment as usize];
        slot.finish(built);
        self.needed -= 2;
        self.finishes += 1;
        let machine = machine_after(&self.machine, &self.steps, self.finishes);
        let (decision, divide) = decide_all(
            &mut self.slots,
            &mut self.running,
            &mut self.ready,
            &machine,
        );
        self.decision = decision;
        self.history
            .push_reserved(Event::Finish { fragment, decision });
        if let Some(divide) = divide {
            self.history.push_reserved(divide);
        }
        decision
    }

    /// Whether a degree is pending.
    pub fn asked(&self, fragment: u32) -> bool
        requires { fragment < length self.now.slots }
        ensures { result ≡ is_some (scans self.now.slots fragment).asked }
    {
        let slot = &self.slots[fragment as usize];
        slot.is_asked()
    }

    /// Whether the role, below 64, is held.
    pub fn holds(&self, fragment: u32, role: u32) -> bool
        requires fragment { fragment < length self.now.slots }
        requires role { role < 64 }
        ensures { result ≡ is_held (scans self.now.slots fragment) role }
    {
        let slot = &self.slots[fragment as usize];
        slot.holds(role)
    }

    /// The batch that the role, below 64, has out; an empty one where none is.
    pub fn out(&self, fragment: u32, role: u32) -> Batch
        requires fragment { fragment < length self.now.slots }
        requires role { role < 64 }
        ensures { result ≡ out_of (scans self.now.slots fragment).scan.marks role }
    {
        let slot = &self.slots[fragment as usize];
        slot.out(role)
    }

    /// Whether the fragment is being collected.
    pub fn is_collecting(&self, fragment: u32) -> bool
        requires { fragment < length self.now.slots }
        ensures { result ≡ (scans self.now.slots fragment).collecting }
    {
        let slot = &self.slots[fragment as usize];
        slot.is_collecting()
    }

    /// How many fragments the run has.
    pub fn fragment_count(&self) -> u32
        ensures { result ≡ length self.now.slots }
    {
        self.slots.len() as u32
    }

    /// What every control shows between two calls: it fits its name, and where a degree is pending, a batch
    /// of the fragment is out. It does nothing.
    pub fn is_calm(&self)
        ensures fits { Fits K.meaning self.now }
        ensures calm { (f : ℕ) → f < length self.now.slots → IsDue (scans self.now.slots f) → ⊥ }
    {
        let _ = &self.history;
    }

    /// Where nothing is out, held, being collected or pending, and a fragment isn't finished, there is something
    /// to do: `next_job` doesn't answer `Rest`. It does nothing.
    pub fn goes_on(&self)
        ensures { AreReleased self.now.slots → IsRest (run_of K.meaning) (reverse self.now.log) → ⊥ }
    {
        let _ = &self.history;
    }

    /// The events so far, the earliest first. They are legal and leave nothing due, and the boards are
    /// what they say.
    pub fn history(&self) -> &[Event]
        ensures events { result.now ≡ self.now.log }
        ensures fits { Fits K.meaning self.now }
    {
        &self.history
    }

    /// The history, and the answers: where every fragment is finished, the values of the statements' last
    /// fragments, in order of the statements; else none. It takes no memory.
    pub fn into_end(self) -> (History, BuiltList)
        ensures history { result.0 ≡ self.log }
        ensures answers { AreAnswers K.meaning self (map (λ x. x.value) result.1) }
        ensures fits { Fits K.meaning self }
    {
        let Control {
            slots,
            history,
            finishes,
            lasts,
            answers,
            ..
        } = self;
        let history = History::from_vec(history);
        if (finishes as usize) < slots.len() {
            return (history, Sequence::from_vec(answers));
        }
        let answers = values_where(slots, &lasts, answers);
        (history, Sequence::from_vec(answers))
    }
}
