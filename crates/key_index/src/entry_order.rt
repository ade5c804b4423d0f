//! The entries of an index and their order.
ghost use Rattle.std.specs.Prelude.{◌≡◌, ◌<◌, MatchBool, length};
ghost use Rattle.std.specs.Str.{is_utf8};
ghost use Rattle.rows.specs.RowBytes.{IsOfType};
ghost use Rattle.key_index.specs.Entries.{AreEntries, Follows, IsEntry, entry_cmp};

use rows::{ColType, KeyEntry, KeyEntryList, Value, compare, is_text};
use std::cmp::Ordering;

/// The order of entries: by key, then by heap page, then by slot.
pub fn compare_entries(a: &KeyEntry, b: &KeyEntry) -> Ordering
    ensures { result ≡ entry_cmp a.now b.now }
{
    compare(&a.key, &b.key).then(a.page.cmp(&b.page).then(a.slot.cmp(&b.slot)))
}

// Whether a key is of the type, and has bytes.
fn is_of_type(key: &Value, key_type: ColType) -> bool
    ensures { MatchBool result (IsOfType key_type key.now) (IsOfType key_type key.now → ⊥) }
{
    match (key_type, key) {
        (ColType::Int4, Value::Number(number)) => i32::try_from(*number).is_ok(),
        (ColType::Text, Value::Word(text)) => {
            text.items().len() <= 2000 && is_text(text.items())
        }
        (ColType::Bool, Value::Truth(_)) => true,
        _ => false,
    }
}

fn is_entry(entry: &KeyEntry, key_type: ColType, heap_pages: u32) -> bool
    ensures { MatchBool result (IsEntry key_type heap_pages entry.now) (IsEntry key_type heap_pages entry.now → ⊥) }
{
    is_of_type(&entry.key, key_type) && entry.page < heap_pages && entry.slot < 65536
}

// Whether the entry at a place isn't below the one before it.
fn follows(entries: &[KeyEntry], place: usize) -> bool
    requires { place < length entries.now }
    ensures { MatchBool result (Follows entries.now place) (Follows entries.now place → ⊥) }
{
    if place == 0 {
        return true;
    }
    compare_entries(&entries[place - 1], &entries[place]).is_le()
}

/// Whether an index can be made over these entries: there are at most 1,000,000, in the order of `compare_entries`, and
/// each has a key of the type, a page of the heap file and a slot below 65,536.
pub fn are_entries(entries: &KeyEntryList, key_type: ColType, heap_pages: u32) -> bool
    ensures { MatchBool result (AreEntries key_type heap_pages entries.now) (AreEntries key_type heap_pages entries.now → ⊥) }
{
    let entries = entries.items();
    if entries.len() > 1_000_000 {
        return false;
    }
    for place in 0..entries.len() {
        if !is_entry(&entries[place], key_type, heap_pages) {
            return false;
        }
        if !follows(entries, place) {
            return false;
        }
    }
    true
}
