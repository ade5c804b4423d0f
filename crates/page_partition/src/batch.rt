ghost use Rattle.std.specs.Prelude.{◌≡◌, ℕ, ◌<◌, ◌≤◌, [], ◌∷◌, ◌++◌, length, slice_index, slice_index_or};

use std::marker::Model;

/// A list of at most 64 positions, in ascending order.
#[derive(Drop)]
pub struct Batch {
    places: [u32; 64],
    count: u32,
}

impl Model for Batch {
    ghost use Rattle.std.specs.Prelude.{List, ℕ, ◌≤◌, take};

    ghost Value = { List ℕ };

    ghost view = { λ b. take b.count b.places };

    ghost invariant = { λ b. b.count ≤ 64 };
}

impl Batch {
    /// No position.
    pub(crate) fn new() -> Self
        ensures { result ≡ [] }
    {
        Batch {
            places: [0; 64],
            count: 0,
        }
    }

    /// How many positions these are.
    pub fn len(&self) -> u32
        ensures len { result ≡ length self.now }
        ensures most { result ≤ 64 }
    {
        self.count
    }

    /// The position at a place below `len`.
    pub fn get(&self, place: u32) -> u32
        requires { place < length self.now }
        ensures { result ≡ slice_index self.now place }
    {
        self.places[place as usize]
    }

    /// Adds a position at the end, where there are fewer than 64.
    pub(crate) fn push(&mut self, position: u32)
        requires { length self.old < 64 }
        ensures { self.new ≡ self.old ++ position ∷ [] }
    {
        self.places[self.count as usize] = position;
        self.count += 1;
    }

    /// The positions, as a slice.
    pub fn positions(&self) -> &[u32]
        ensures { result.now ≡ self.now }
    {
        &self.places[..self.count as usize]
    }

    /// The first position, or `other` where there is none.
    pub(crate) fn first_or(&self, other: u32) -> u32
        ensures { result ≡ slice_index_or self.now 0 other }
    {
        if self.count > 0 {
            self.places[0]
        } else {
            other
        }
    }

    /// The same positions.
    pub fn copy(&self) -> Batch
        ensures { result ≡ self.now }
    {
        Batch {
            places: self.places,
            count: self.count,
        }
    }
}
