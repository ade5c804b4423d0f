//! The rows of a fragment, by position.
ghost use Rattle.std.specs.Prelude.{◌≡◌, ◌<◌, [], ◌∷◌, ◌++◌, ◌==◌, length, map, IfOk, IfErr, OnOk, OnErr, slice_index_or};

use rows::Rows;
use std::alloc::{AllocError, Global};
use std::marker::Model;
use std::sync::Arc;

/// A list of rows for each position, shared. Contracts see the rows.
#[derive(Drop)]
pub struct Parts {
    items: Vec<Arc<Rows>>,
}

impl Model for Parts {
    ghost use Rattle.std.specs.Prelude.{List, map};
    ghost use Rattle.rows.specs.declared.value.Value.{Value as Cell};

    ghost Value = { List (List (List Cell)) };

    ghost view = { λ a. map (λ x. x.value) a.items.items };
}

impl Parts {
    /// The empty list. It takes no memory.
    pub fn new(alloc: Global) -> Parts
        ensures { result ≡ [] }
    {
        Parts {
            items: Vec::new(alloc),
        }
    }

    /// The lists of rows, one for each position. It takes no memory.
    pub fn from_vec(items: Vec<Arc<Rows>>) -> Parts
        ensures { result ≡ map (λ x. x.value) items.items }
    {
        Parts { items }
    }

    /// The lists of rows, one for each position. It takes no memory.
    pub fn into_vec(self) -> Vec<Arc<Rows>>
        ensures { map (λ x. x.value) result.items ≡ self }
    {
        let Parts { items } = self;
        items
    }

    /// Adds the rows of a position at the end, or hands them back where there is no memory.
    pub fn push(&mut self, item: Arc<Rows>) -> Result<(), Arc<Rows>>
        ensures ok { OnOk result (self.new ≡ self.old ++ item.value ∷ []) }
        ensures err { OnErr result (self.new ≡ self.old) }
        ensures returned { IfErr result (λ x. x.value ≡ item.value) }
    {
        match self.items.push(item) {
            Ok(()) => Ok(()),
            Err(refused) => Err(refused.value),
        }
    }

    /// How many positions there are.
    pub fn len(&self) -> usize
        ensures { result ≡ length self.now }
    {
        self.items.len()
    }

    /// Whether there is no position.
    pub fn is_empty(&self) -> bool
        ensures { result ≡ (length self.now == 0) }
    {
        self.items.is_empty()
    }

    /// The rows of a position below `len`.
    pub fn get(&self, place: usize) -> &Arc<Rows>
        requires { place < length self.now }
        ensures { result.now.value ≡ slice_index_or self.now place result.now.value }
    {
        &self.items[place]
    }

    /// The whole list.
    pub fn items(&self) -> &[Arc<Rows>]
        ensures { map (λ x. x.value) result.now ≡ self.now }
    {
        self.items.as_slice()
    }

    /// The same rows, shared. An error is want of memory.
    pub fn copy(&self, alloc: Global) -> Result<Parts, AllocError>
        ensures { IfOk result (λ copy. copy ≡ self.now) }
    {
        let mut items = Vec::with_capacity(alloc, self.items.len())?;
        for item in &self.items {
            items.push(item.clone()?)?;
        }
        Ok(Parts { items })
    }
}
