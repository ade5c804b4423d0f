//! Pages of entries with numbers as keys. Each entry of a page has the same length, so that one is found by its place.
ghost use Rattle.std.specs.Prelude.{◌≡◌, ◌+◌, ◌<◌, ◌≤◌, ◌^◌, ℕ, List, MatchResult, Some, drop, length, slice_get};
ghost use Rattle.rows.specs.declared.field.ColType.TheVariants.{Int4};
ghost use Rattle.key_index.specs.Aims.{IsFront, Scans, count, passes, seen_item};
ghost use Rattle.key_index.specs.Entries.{Item};
ghost use Rattle.key_index.specs.Fixed.{IsFine, offset_of};
ghost use Rattle.key_index.specs.Readings.{items_in, page_fault};

use crate::aim::Aim;
use crate::page_entry::{Entry, Step};
use crate::reading::{is_counted, read_entry};
use heap_page::{are_zeros, read_short};
use rows::ColType;

// The byte where the entry at a place begins.
fn offset(level: u32, place: u16) -> usize
    ensures { result ≡ offset_of level place }
{
    let size = if level == 0 { 10 } else { 12 };
    20 + size * usize::from(place)
}

// The bytes from an entry on.
fn bytes_from(bytes: &[u8], level: u32, place: u16) -> &[u8]
    requires { offset_of level place ≤ length bytes.now }
    ensures { result.now ≡ drop (offset_of level place) bytes.now }
{
    bytes.split_at(offset(level, place)).1
}

// The entry at a place.
fn entry_at(bytes: &[u8], level: u32, start: u64, place: u16) -> Entry<'_>
    requires there { offset_of level (place + 1) ≤ length bytes.now }
    requires start { start < 2 ^ 32 }
    ensures { (n : ℕ) (items : List Item) (rest : List ℕ) → items_in Int4 level start n (drop 20 bytes.now) ≡ Some (items, rest) → place < n → slice_get items place ≡ Some (seen_item result) }
{
    let rest = bytes_from(bytes, level, place);
    match read_entry(rest, ColType::Int4, level, start + u64::from(place)) {
        Some((entry, _)) => entry,
        None => unreachable!(),
    }
}

// How many entries a page has, or the first rule that it breaks behind its head, as `scan_page` tells it. It reads none of
// the entries.
fn check_fixed(bytes: &[u8], level: u32) -> Result<u16, u32>
    requires { length bytes.now ≡ 8192 }
    ensures { (start : ℕ) → MatchResult result (IsFine level start bytes.now) (λ rule. page_fault Int4 level start bytes.now ≡ Some rule) }
{
    if u32::from(read_short(bytes, 16)) != level {
        return Err(6);
    }
    let len = read_short(bytes, 6);
    if len == 0 || offset(level, len) > bytes.len() {
        return Err(7);
    }
    if !are_zeros(bytes_from(bytes, level, len)) {
        return Err(8);
    }
    Ok(len)
}

// How many entries are counted, where those that are stand in front. Each step looks at one entry, and halves the part of
// the page that is left.
fn search_fixed(bytes: &[u8], level: u32, start: u64, len: u16, aim: Aim<'_>) -> u16
    requires there { offset_of level len ≤ length bytes.now }
    requires start { start < 2 ^ 32 }
    ensures within { result ≤ len }
    ensures counts { (items : List Item) (rest : List ℕ) → items_in Int4 level start len (drop 20 bytes.now) ≡ Some (items, rest) → IsFront (passes aim.entry) items → result ≡ count (passes aim.entry) items }
{
    let mut low = 0u16;
    let mut high = len;
    while low < high {
        let middle = low + (high - low) / 2;
        if is_counted(aim, &entry_at(bytes, level, start, middle)) {
            low = middle + 1;
        } else {
            high = middle;
        }
    }
    low
}

// Counts the entries of a page, or tells the first rule that it breaks, as `scan_page`.
pub(crate) fn scan_fixed<'a>(
    bytes: &'a [u8],
    level: u32,
    start: u64,
    aim: Aim<'_>,
) -> Result<Step<'a>, u32>
    requires whole { length bytes.now ≡ 8192 }
    requires start { start < 2 ^ 32 }
    ensures { MatchResult result (λ step. Scans Int4 level start aim.entry bytes.now step) (λ rule. page_fault Int4 level start bytes.now ≡ Some rule) }
{
    let len = check_fixed(bytes, level)?;
    let count = search_fixed(bytes, level, start, len, aim);
    let entry = entry_at(bytes, level, start, count.saturating_sub(1));
    Ok(Step {
        count: u32::from(count),
        entry,
    })
}
