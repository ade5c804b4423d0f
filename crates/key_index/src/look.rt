//! What a search takes from one page.
ghost use Rattle.std.specs.Prelude.{◌≡◌, ◌+◌, ◌^◌, ◌<◌, ◌≤◌, ℕ, List, Ok, MatchOption, MatchResult, length};
ghost use Rattle.key_index.specs.Aims.{IsFront, chosen, count, first_of, passes, upto_number};
ghost use Rattle.key_index.specs.Entries.{Item};
ghost use Rattle.key_index.specs.Searches.{BreaksAbove, BreaksEntry, BreaksRank, IsEntryAt, IsIndexPage, IsNext, Ranks};

use crate::aim::Aim;
use crate::scan::scan_page;
use rows::KeyIndex;

// The page one level down that a search goes to, and how many entries stand left of it. An `Err` is the first broken rule:
// 6 to 8 as `scan_page`, 9 that the page is one of the index, and that no more entries stand left of it than it has.
pub(crate) fn look_above(
    index: &KeyIndex,
    bytes: &[u8],
    level: u32,
    left: u32,
    aim: Aim<'_>,
) -> Result<(u32, u32), u32>
    requires whole { length bytes.now ≡ 8192 }
    requires level { 0 < level }
    ensures rules { MatchResult result (IsNext index.now level left (passes aim.entry) bytes.now) (BreaksAbove index.now level left (passes aim.entry) bytes.now) }
    ensures told { (page : ℕ) (items : List Item) → IsIndexPage index.now level left page bytes.now items → IsFront (passes aim.entry) items →
        let e = chosen (passes aim.entry) (first_of items) items in MatchResult result (λ next. (next.0 ≡ e.page) × (next.1 ≡ e.left)) (λ rule. ⊥) }
{
    let step = scan_page(bytes, index.key_type, level, u64::from(left), aim)?;
    if step.entry.page >= index.pages || step.entry.left > u64::from(index.entries) {
        return Err(9);
    }
    Ok((step.entry.page, step.entry.left as u32))
}

// The number, where it is no greater than this one.
fn at_most(number: u64, most: u32) -> Option<u32>
    ensures { MatchOption result (most < number) (λ same. (same ≡ number) × (number ≤ most)) }
{
    if number > u64::from(most) {
        return None;
    }
    Some(number as u32)
}

// How many entries a search counts, in this leaf and left of it. Rule 9 is that they are no more than the index has.
pub(crate) fn look_at_rank(
    index: &KeyIndex,
    bytes: &[u8],
    left: u32,
    aim: Aim<'_>,
) -> Result<u32, u32>
    requires whole { length bytes.now ≡ 8192 }
    ensures rules { MatchResult result (λ rank. Ranks index.now left (passes aim.entry) bytes.now rank × (rank ≤ index.now.entries)) (BreaksRank index.now left (passes aim.entry) bytes.now) }
    ensures told { (page : ℕ) (items : List Item) → IsIndexPage index.now 0 left page bytes.now items → IsFront (passes aim.entry) items →
        left + count (passes aim.entry) items ≤ index.now.entries → MatchResult result (λ rank. rank ≡ left + count (passes aim.entry) items) (λ rule. ⊥) }
{
    let step = scan_page(bytes, index.key_type, 0, u64::from(left), aim)?;
    let rank = u64::from(left) + u64::from(step.count);
    match at_most(rank, index.entries) {
        Some(rank) => Ok(rank),
        None => Err(9),
    }
}

// The heap page and the slot of an entry of this leaf. Rule 9 is that the entry is there, and that the heap page is one.
pub(crate) fn look_at_entry(
    index: &KeyIndex,
    bytes: &[u8],
    left: u32,
    number: u32,
) -> Result<(u32, u32), u32>
    requires whole { length bytes.now ≡ 8192 }
    ensures rules { MatchResult result (IsEntryAt index.now left number bytes.now) (BreaksEntry index.now left number bytes.now) }
    ensures told { (page : ℕ) (items : List Item) → IsIndexPage index.now 0 left page bytes.now items → IsFront (upto_number number) items →
        let e = chosen (upto_number number) (first_of items) items in e.left ≡ number → MatchResult result (λ at. (at.0 ≡ e.page) × (at.1 ≡ e.slot)) (λ rule. ⊥) }
{
    let step = scan_page(
        bytes,
        index.key_type,
        0,
        u64::from(left),
        Aim::Number(number),
    )?;
    if step.entry.left != u64::from(number) || step.entry.page >= index.heap_pages {
        return Err(9);
    }
    Ok((step.entry.page, step.entry.slot))
}
