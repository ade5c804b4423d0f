ghost use Rattle.std.specs.Prelude.{◌≡◌, [], ◌∷◌, ◌++◌, ◌<◌, ◌==◌};
ghost use Rattle.std.specs.Prelude.{IfSome, OnErr, OnOk, length, slice_get};
ghost use Rattle.kept_relations.specs.KeptNames.{place_named};

use crate::{Kept, NoMemory};
use std::alloc::{AllocError, Global};
use std::marker::Model;

/// Kept relations, fewer than 2^32. Contracts see them as their list.
#[derive(Debug, Drop)]
pub struct KeptList {
    items: Vec<Kept>,
}

impl Model for KeptList {
    ghost use Rattle.std.specs.Prelude.{List, length, ◌<◌, ◌^◌};
    ghost use Rattle.kept_relations.specs.declared.kept.Kept.{Kept};

    ghost Value = { List Kept };

    ghost view = { λ it. it.items.items };

    ghost invariant = { λ it. length it.items.items < 2 ^ 32 };
}

fn place_named(items: &[Kept], name: &[u8]) -> Option<usize>
    ensures { result ≡ place_named name.now items.now }
{
    items.iter().position(|kept| kept.name.items() == name)
}

// The place of the relation of a name.
#[tactic(auto, using(crate::proofs::Places::place_within))]
fn place_within(items: &[Kept], name: &[u8]) -> Option<usize>
    ensures place { result ≡ place_named name.now items.now }
    ensures within { IfSome result (λ place. place < length items.now) }
{
    place_named(items, name)
}

impl KeptList {
    /// No relation. It takes no memory.
    pub fn new(alloc: Global) -> KeptList
        ensures { result ≡ [] }
    {
        KeptList {
            items: Vec::new(alloc),
        }
    }

    /// Puts a relation behind the others, none of which has its name. An `Err` changes nothing:
    /// there is no memory, or no number for one more.
    pub fn keep(&mut self, kept: Kept) -> Result<(), NoMemory>
        requires { place_named kept.name self.old ≡ None }
        ensures ok { OnOk result (self.new ≡ self.old ++ kept ∷ []) }
        ensures err { OnErr result (self.new ≡ self.old) }
    {
        if self.items.len() >= u32::MAX as usize {
            return Err(AllocError);
        }
        Ok(self.items.push(kept)?)
    }

    /// The place of the relation of that name, and `None` exactly where there is none. It takes
    /// no memory.
    pub fn find(&self, name: &[u8]) -> Option<u32>
        ensures place { result ≡ place_named name.now self.now }
        ensures within { IfSome result (λ place. place < length self.now) }
    {
        match place_within(self.items.as_slice(), name) {
            Some(place) => Some(place as u32),
            None => None,
        }
    }

    /// How many relations there are.
    pub fn len(&self) -> usize
        ensures { result ≡ length self.now }
    {
        self.items.len()
    }

    /// Whether there is no relation.
    pub fn is_empty(&self) -> bool
        ensures { result ≡ (length self.now == 0) }
    {
        self.items.is_empty()
    }

    /// The relation at a place, counted from 0. There is such a place.
    pub fn get(&self, place: usize) -> &Kept
        requires { place < length self.now }
        ensures { slice_get self.now place ≡ Some result.now }
    {
        &self.items[place]
    }

    /// The relations, in the order in which they were kept.
    pub fn items(&self) -> &[Kept]
        ensures { result.now ≡ self.now }
    {
        self.items.as_slice()
    }
}
