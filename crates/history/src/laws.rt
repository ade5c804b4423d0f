//! What holds of every legal history.
ghost use Rattle.std.specs.Prelude.{◌∷◌, ◌≡◌, ◌≢◌, ◌<◌, ◌≤◌, [], ℕ, false, true, List, length, reverse};
ghost use Rattle.page_partition.specs.Counts.{MakeUp};
ghost use Rattle.adjust_protocol.specs.History as scan;
ghost use Rattle.history.specs.declared.event.Event.{Event};
ghost use Rattle.history.specs.declared.event.Event.TheVariants as event;
ghost use Rattle.io_cpu_scheduler.specs.Decisions.{nothing};
ghost use Rattle.history.specs.Outline.{IsWithin, Run, outline};
ghost use Rattle.history.specs.Projected.{deposited, is_finished, moves_of};
ghost use Rattle.history.specs.State.{is_collecting, left, out, running_loads, setting};
ghost use Rattle.history.specs.Allowed.{IsLegal, NoneDue};
ghost use Rattle.history.specs.Running.{AreOrdered, AtMostTwo, HasNext, IsAsked, IsStill};
ghost use Rattle.history.specs.Printed.{IsLegalLog};
ghost use Rattle.history.specs.Checker.{is_legal};
ghost use Rattle.history.specs.Deposits.{AreByOwners, HaveOwners, IsOnce};

/// In a legal history each position of a finished fragment is deposited exactly once, and whatever is deposited is so by
/// the role that owned it under the division then in force. At every moment what is deposited, out and left of a fragment
/// makes up its scan without a repeat.
pub fn deposit_laws()
    ensures once { (run : Run) (h : List Event) (f : ℕ) → IsLegal run h → is_finished h f ≡ true → IsOnce run h f }
    ensures owners { (run : Run) (h : List Event) (f : ℕ) → IsLegal run h → AreByOwners run h f }
    ensures have_owners { (run : Run) (h : List Event) (f : ℕ) → IsLegal run h → is_finished h f ≡ true → HaveOwners run h f }
    ensures made_up { (run : Run) (h : List Event) (f : ℕ) → IsWithin run → IsLegal run h → f < length run.fragments → MakeUp (outline run f).positions (deposited h f) (out h f) (left run h f) }
{}

/// What a legal history holds of one fragment is a legal history of its scan.
pub fn scan_laws()
    ensures { (run : Run) (h : List Event) (f : ℕ) → IsWithin run → IsLegal run h → f < length run.fragments → scan.IsLegal (setting run h f) (moves_of h f) }
{}

/// At most two fragments run, and beside one that is being collected at most one. Where a fragment isn't finished, and
/// nothing is held, out or being collected, a collect or a seat is allowed next. A finish whose decision gives a running
/// fragment another degree than it wants makes that degree pending.
pub fn running_laws()
    ensures two { (run : Run) (h : List Event) → IsWithin run → IsLegal run h → AtMostTwo run h }
    ensures one { (run : Run) (h : List Event) (f : ℕ) → IsWithin run → IsLegal run h → f < length run.fragments → is_collecting h f ≡ true → length (running_loads run (event.Finish f nothing ∷ h)) ≤ 1 }
    ensures goes_on { (run : Run) (h : List Event) (f : ℕ) → IsWithin run → AreOrdered run → IsLegal run h → h ≢ [] → NoneDue run h → IsStill run h → f < length run.fragments → is_finished h f ≡ false → (backend : ℕ) → HasNext run h backend }
    ensures asked { (run : Run) (h : List Event) → IsAsked run h }
{}

/// The histories that pass the test are the legal ones. A printed history, with the earliest event first, is legal where
/// each of its events is allowed after the events before it.
pub fn test_laws()
    ensures sound { (run : Run) (h : List Event) → is_legal run h ≡ true → IsLegal run h }
    ensures printed { (run : Run) (log : List Event) → IsLegal run (reverse log) → IsLegalLog run log }
    ensures turned { (run : Run) (log : List Event) → IsLegalLog run log → IsLegal run (reverse log) }
    ensures complete { (run : Run) (h : List Event) → IsLegal run h → is_legal run h ≡ true }
{}
