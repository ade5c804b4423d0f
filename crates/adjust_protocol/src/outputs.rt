//! The outputs of a scan's positions.

ghost use Rattle.std.specs.Prelude.{◌≡◌, ℕ, ◌<◌, ◌≤◌, [], ◌∷◌, ◌++◌, length, IfOk, IfErr, OnOk, OnErr, Some, None, replicate, slice_set, slice_index_or, map};
ghost use Rattle.adjust_protocol.specs.Outputs.{present, put_outputs};

use page_partition::Batch;
use std::alloc::{AllocError, AllocFailed, Global};
use std::marker::Model;
use std::sync::Arc;

/// A list of shared values. Contracts see the values.
#[derive(Drop)]
pub struct ArcList<T: Drop> {
    items: Vec<Arc<T>>,
}

impl<T: Drop> Model for ArcList<T> {
    ghost use Rattle.std.specs.Prelude.{List, map};

    ghost Value = { List T };

    ghost view = { λ a. map (λ x. x.value) a.items.items };
}

impl<T: Drop> ArcList<T> {
    /// The empty list. It takes no memory.
    pub fn new(alloc: Global) -> Self
        ensures { result ≡ [] }
    {
        ArcList {
            items: Vec::new(alloc),
        }
    }

    /// The list of these values. It takes no memory.
    pub fn from_vec(items: Vec<Arc<T>>) -> Self
        ensures { result ≡ map (λ x. x.value) items.items }
    {
        ArcList { items }
    }

    /// The values of this list. It takes no memory.
    pub fn into_vec(self) -> Vec<Arc<T>>
        ensures { map (λ x. x.value) result.items ≡ self }
    {
        self.items
    }

    /// How many values there are.
    pub fn len(&self) -> usize
        ensures { result ≡ length self.now }
    {
        self.items.len()
    }

    /// Adds a value at the end, or hands it back where there is no memory.
    pub fn push(&mut self, item: Arc<T>) -> Result<(), Arc<T>>
        ensures ok { OnOk result (self.new ≡ self.old ++ item.value ∷ []) }
        ensures err { OnErr result (self.new ≡ self.old) }
        ensures returned { IfErr result (λ x. x.value ≡ item.value) }
    {
        match self.items.push(item) {
            Ok(()) => Ok(()),
            Err(e) => Err(e.value),
        }
    }

    /// The value at a place below `len`.
    pub fn get(&self, place: usize) -> &Arc<T>
        requires { place < length self.now }
        ensures { result.now.value ≡ slice_index_or self.now place result.now.value }
    {
        &self.items[place]
    }

    /// The whole list.
    pub fn items(&self) -> &[Arc<T>]
        ensures { map (λ x. x.value) result.now ≡ self.now }
    {
        self.items.as_slice()
    }

    /// The same values, shared. An error is want of memory.
    pub fn copy(&self, alloc: Global) -> Result<ArcList<T>, AllocError>
        ensures { IfOk result (λ copy. copy ≡ self.now) }
    {
        let mut items = Vec::with_capacity(alloc, self.items.len())?;
        for item in &self.items {
            items.push(item.clone()?)?;
        }
        Ok(ArcList { items })
    }
}

/// The outputs kept of a scan's positions.
#[derive(Drop)]
pub struct Outputs<T: Drop> {
    slots: Vec<Option<Arc<T>>>,
}

impl<T: Drop> Model for Outputs<T> {
    ghost use Rattle.std.specs.Prelude.{List, map, Option};
    ghost use Rattle.std.specs.Option.{option_map};

    ghost Value = { List (Option T) };

    ghost view = { λ a. map (option_map (λ x. x.value)) a.slots.items };
}

impl<T: Drop> Outputs<T> {
    /// No output of so many positions. An error is want of memory.
    pub fn new(alloc: Global, positions: usize) -> Result<Outputs<T>, AllocError>
        ensures { IfOk result (λ o. o ≡ replicate positions None) }
    {
        let mut slots = Vec::with_capacity(alloc, positions)?;
        for _p in 0..positions {
            slots.push(None)?;
        }
        Ok(Outputs { slots })
    }

    /// Keeps the output of a position.
    pub fn put(&mut self, position: usize, output: Arc<T>)
        requires { position < length self.old }
        ensures { self.new ≡ slice_set self.old position (Some output.value) }
    {
        self.slots[position] = Some(output);
    }

    /// Keeps each output at its place.
    pub fn put_all(&mut self, places: &Batch, outputs: ArcList<T>)
        requires few { length outputs ≤ length places.now }
        requires within { (k : ℕ) → k < length outputs → slice_index_or places.now k 0 < length self.old }
        ensures { self.new ≡ put_outputs places.now outputs self.old }
    {
        let positions = places.positions();
        let mut place = 0;
        for output in outputs.items {
            self.put(positions[place] as usize, output);
            place += 1;
        }
    }

    /// The outputs there are, in order of position, shared.
    pub fn all(&self, alloc: Global) -> Result<ArcList<T>, AllocError>
        ensures { IfOk result (λ all. all ≡ present self.now) }
    {
        let mut items = Vec::with_capacity(alloc, self.slots.len())?;
        for slot in &self.slots {
            let Some(output) = slot else {
                continue;
            };
            items.push(output.clone()?)?;
        }
        Ok(ArcList { items })
    }
}
