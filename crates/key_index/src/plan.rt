//! The numbers of an index.
ghost use Rattle.std.specs.Prelude.{◌≡◌, ◌<◌, ◌≤◌, All, IfOk, length};
ghost use Rattle.key_index.specs.Entries.{AreEntries};
ghost use Rattle.key_index.specs.Files.{index_of};
ghost use Rattle.key_index.specs.Nodes.{AreKeys, IsLevel};

use crate::level::{first_level, level_above};
use crate::node::Level;
use rows::{ColType, KeyEntry, KeyEntryList, KeyIndex};
use std::alloc::Global;
use xp_outside::NoMemory;

// The highest level of an index that has entries: it has one page.
fn root_level(alloc: Global, entries: &[KeyEntry]) -> Result<Level, NoMemory>
    requires keys { AreKeys entries.now }
    requires slots { All (λ e. e.slot < 65536) entries.now }
    requires some { 0 < length entries.now }
    requires few { length entries.now ≤ 1000000 }
    ensures level { IfOk result (IsLevel entries.now) }
    ensures root { IfOk result (λ level. length level.starts.items ≤ 1) }
{
    let mut level = first_level(alloc, entries)?;
    while level.starts.len() > 1 {
        level = level_above(alloc, entries, &level)?;
    }
    Ok(level)
}

/// The numbers of the index over these entries: its entries, pages and levels, the type of its keys, its file and the
/// pages of the heap file. The entries are in order of key, heap page and slot, at most 1,000,000; each key is of the
/// type, each page one of the heap file's, each slot below 65,536.
pub fn plan_index(
    alloc: Global,
    entries: &KeyEntryList,
    key_type: ColType,
    file: u32,
    heap_pages: u32,
) -> Result<KeyIndex, NoMemory>
    requires { AreEntries key_type heap_pages entries.now }
    ensures { IfOk result (λ index. index ≡ index_of file key_type heap_pages entries.now) }
{
    let mut index = KeyIndex {
        file,
        key_type,
        entries: entries.len() as u32,
        pages: 0,
        height: 0,
        heap_pages,
    };
    if entries.is_empty() {
        return Ok(index);
    }
    let root = root_level(alloc, entries.items())?;
    index.pages = root.base + 1;
    index.height = root.number + 1;
    Ok(index)
}
