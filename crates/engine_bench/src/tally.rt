//! The small value that threads take turns over.
ghost use Rattle.std.specs.Prelude.{◌≡◌, ◌≤◌, ◌<◌, ◌-◌, ◌^◌};
ghost use mathlib.Core.List.{IsPrefix};
ghost use Rattle.engine_bench.specs.Turns.{entries};

use run_lock::Named;

/// A number of turns, whose log has one entry for each.
#[derive(Drop)]
pub struct Tally {
    pub turns: u64,
    ghost room: { turns < 2 ^ 64 - 1 },
}

impl Tally {
    pub fn new() -> Tally
        ensures { result.turns ≡ 0 }
    {
        Tally { turns: 0 }
    }

    /// Counts a turn, as long as the count fits.
    #[tactic(auto, using(crate::proofs::Growth::grows))]
    pub fn count(&mut self)
        ensures grown { self.old.turns ≤ self.new.turns }
        ensures log { IsPrefix (entries self.old.turns) (entries self.new.turns) }
    {
        if self.turns < u64::MAX - 1 {
            self.turns += 1;
        }
    }
}

/// It fits a least number of turns.
impl Named for Tally {
    type Name = u64;

    type Entry = ();

    ghost fits = { λ least tally. least ≤ tally.turns };

    ghost log = { λ tally. entries tally.turns };

    fn length(&self) -> u64 {
        self.turns
    }
}
