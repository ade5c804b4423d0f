//! The bytes of rows that are to be laid in pages.
ghost use Rattle.std.specs.Prelude.{◌≡◌, [], ◌∷◌, ◌++◌, ◌<◌, length, slice_get, Some, OnOk, OnErr, ◌==◌};
ghost use Rattle.heap_page.specs.Items.{start_of};

use std::alloc::Global;
use std::marker::Model;
use xp_outside::NoMemory;

/// The bytes of rows, in the order in which they are laid, one behind the other in one buffer. Contracts see it as the
/// list of its items' bytes.
#[derive(Debug, Drop)]
pub struct ItemList {
    bytes: Vec<u8>,
    ends: Vec<usize>,
}

impl Model for ItemList {
    ghost use Rattle.std.specs.Prelude.{List, ℕ, length};
    ghost use Rattle.heap_page.specs.Items.{pieces, Ascend};

    ghost Value = { List (List ℕ) };

    ghost view = { λ it. pieces it.bytes.items 0 it.ends.items };

    ghost invariant = { λ it. Ascend 0 it.ends.items (length it.bytes.items) };
}

// Where an item begins: at the end of the one before it.
fn start_of(ends: &[usize], number: usize) -> usize
    requires { number < length ends.now }
    ensures { result ≡ start_of 0 ends.now number }
{
    if number == 0 { 0 } else { ends[number - 1] }
}

impl ItemList {
    /// No item. It takes no memory.
    pub fn new(alloc: Global) -> ItemList
        ensures { result ≡ [] }
    {
        ItemList {
            bytes: Vec::new(alloc),
            ends: Vec::new(alloc),
        }
    }

    /// Puts an item behind the others. An `Err` leaves them as they were.
    pub fn push(&mut self, item: &[u8]) -> Result<(), NoMemory>
        ensures ok { OnOk result (self.new ≡ self.old ++ item.now ∷ []) }
        ensures err { OnErr result (self.new ≡ self.old) }
    {
        self.ends.reserve(1)?;
        self.bytes.extend_from_slice(item)?;
        self.ends.push_reserved(self.bytes.len());
        Ok(())
    }

    /// How many items there are.
    pub fn len(&self) -> usize
        ensures { result ≡ length self.now }
    {
        self.ends.len()
    }

    /// Whether there is no item.
    pub fn is_empty(&self) -> bool
        ensures { result ≡ (length self.now == 0) }
    {
        self.ends.is_empty()
    }

    /// The bytes of an item. They are counted from 0.
    pub fn get(&self, number: usize) -> &[u8]
        requires { number < length self.now }
        ensures { slice_get self.now number ≡ Some result.now }
    {
        let ends = self.ends.as_slice();
        let start = start_of(ends, number);
        &self.bytes[start..ends[number]]
    }
}
