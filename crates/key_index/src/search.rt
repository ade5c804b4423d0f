//! Searches in an index.
ghost use Rattle.std.specs.Prelude.{◌≡◌, ◌<◌, ◌≤◌, ℕ, List, Some, IfErr, IfOk, MatchResult, max, min, slice_get, ◌⊎◌};
ghost use Rattle.heap_page.specs.Sources.{AreCalm};
ghost use Rattle.heap_page.specs.Stores.{fetch_fault};
ghost use Rattle.rows.specs.declared.plain.KeyEntry.{KeyEntry};
ghost use Rattle.key_index.specs.Aims.{below_key, upto_key};
ghost use Rattle.key_index.specs.Entries.{number_below, number_upto};
ghost use Rattle.key_index.specs.Files.{HoldsIndex};
ghost use Rattle.key_index.specs.Intervals.{interval_of, lower_end, upper_end};
ghost use Rattle.key_index.specs.Paths.{HasEntry, HasInterval, HasLower, HasRank, HasUpper, IfBad, IsNarrowed, StopsEntry, StopsInterval, StopsLower, StopsRank, StopsUpper};
ghost use Rattle.key_index.specs.Searches.{HasIndex, IsUsable, NotBad, SearchCause};

use crate::aim::Aim;
use crate::descent::{leaf_entry, rank, reach};
use heap_page::{FetchErr, PageSource};
use rows::{Bound, BoundList, BoundOp, Interval, KeyIndex, Value};
use std::alloc::Global;

/// How many entries have a smaller key. Keys have the order of `compare`: the value may be a number that no key can be,
/// or null, which comes before every key. Whatever the source gives, the answer is at most the number of entries. Where
/// the source tells the pages of some entries, it is how many of them have a smaller key, and no page is bad.
/// `DriveFault` comes only where the drive's count rises. `BadPage` has a page of the index: where `fetch` answered it, or
/// with the first rule that a page breaks: 6 the level is the one expected, 7 there is an entry, and all are there in
/// whole, each key of the key's type, 8 the rest is zero, 9 the page below is one of the index, and no more entries stand
/// left of it, or are counted, than the index has. Where the source tells, an answer has a path of pages from the root
/// to a leaf, each of which breaks no rule and leads to the next, and a bad page is the one at which such a path stops,
/// with the first rule that the told page breaks. Over a page that was fetched it takes no memory.
pub fn rank_low<P: PageSource>(
    alloc: Global,
    index: &KeyIndex,
    pages: &mut P,
    key: &Value,
) -> Result<u32, FetchErr>
    requires file { HasIndex (P.files (P.whole pages.old)) index.now }
    requires some { IsUsable index.now }
    ensures whole { P.whole pages.new ≡ P.whole pages.old }
    ensures counts { (d : ℕ) → P.faults pages.old d ≤ P.faults pages.new d }
    ensures quiet { AreCalm (P.lone (P.whole pages.old)) (fetch_fault result) (P.faults pages.old) (P.faults pages.new) }
    ensures within { IfOk result (λ rank. rank ≤ index.now.entries) }
    ensures told { (f : ℕ → ℕ → List ℕ) (entries : List KeyEntry) → P.image (P.whole pages.old) ≡ Some f → HoldsIndex index.now (f index.now.file) entries →
        MatchResult result (λ rank. rank ≡ number_below key.now entries) NotBad }
    ensures path { (f : ℕ → ℕ → List ℕ) → P.image (P.whole pages.old) ≡ Some f →
        MatchResult result (HasRank index.now (f index.now.file) (below_key key.now)) (IfBad (StopsRank index.now (f index.now.file) (below_key key.now))) }
    ensures err { IfErr result (SearchCause index.now (P.drives (P.whole pages.old)) (P.faults pages.old) (P.faults pages.new)) }
{
    rank(alloc, index, pages, Aim::Below(key))
}

/// How many entries have this key or a smaller one. The rest is as for `rank_low`.
pub fn rank_high<P: PageSource>(
    alloc: Global,
    index: &KeyIndex,
    pages: &mut P,
    key: &Value,
) -> Result<u32, FetchErr>
    requires file { HasIndex (P.files (P.whole pages.old)) index.now }
    requires some { IsUsable index.now }
    ensures whole { P.whole pages.new ≡ P.whole pages.old }
    ensures counts { (d : ℕ) → P.faults pages.old d ≤ P.faults pages.new d }
    ensures quiet { AreCalm (P.lone (P.whole pages.old)) (fetch_fault result) (P.faults pages.old) (P.faults pages.new) }
    ensures within { IfOk result (λ rank. rank ≤ index.now.entries) }
    ensures told { (f : ℕ → ℕ → List ℕ) (entries : List KeyEntry) → P.image (P.whole pages.old) ≡ Some f → HoldsIndex index.now (f index.now.file) entries →
        MatchResult result (λ rank. rank ≡ number_upto key.now entries) NotBad }
    ensures path { (f : ℕ → ℕ → List ℕ) → P.image (P.whole pages.old) ≡ Some f →
        MatchResult result (HasRank index.now (f index.now.file) (upto_key key.now)) (IfBad (StopsRank index.now (f index.now.file) (upto_key key.now))) }
    ensures err { IfErr result (SearchCause index.now (P.drives (P.whole pages.old)) (P.faults pages.old) (P.faults pages.new)) }
{
    rank(alloc, index, pages, Aim::UpTo(key))
}

// The first entry that a bound leaves.
fn find_lower<P: PageSource>(
    alloc: Global,
    index: &KeyIndex,
    pages: &mut P,
    bound: &Bound,
) -> Result<u32, FetchErr>
    requires file { HasIndex (P.files (P.whole pages.old)) index.now }
    requires some { IsUsable index.now }
    ensures whole { P.whole pages.new ≡ P.whole pages.old }
    ensures counts { (d : ℕ) → P.faults pages.old d ≤ P.faults pages.new d }
    ensures quiet { AreCalm (P.lone (P.whole pages.old)) (fetch_fault result) (P.faults pages.old) (P.faults pages.new) }
    ensures within { IfOk result (λ end. end ≤ index.now.entries) }
    ensures told { (f : ℕ → ℕ → List ℕ) (entries : List KeyEntry) → P.image (P.whole pages.old) ≡ Some f → HoldsIndex index.now (f index.now.file) entries →
        MatchResult result (λ end. end ≡ lower_end bound.now.op bound.now.value entries) NotBad }
    ensures path { (f : ℕ → ℕ → List ℕ) → P.image (P.whole pages.old) ≡ Some f →
        MatchResult result (HasLower index.now (f index.now.file) bound.now.op bound.now.value) (IfBad (StopsLower index.now (f index.now.file) bound.now.op bound.now.value)) }
    ensures err { IfErr result (SearchCause index.now (P.drives (P.whole pages.old)) (P.faults pages.old) (P.faults pages.new)) }
{
    match bound.op {
        BoundOp::Equal => rank_low(alloc, index, pages, &bound.value),
        BoundOp::AtLeast => rank_low(alloc, index, pages, &bound.value),
        BoundOp::More => rank_high(alloc, index, pages, &bound.value),
        BoundOp::Less | BoundOp::AtMost => Ok(0),
    }
}

// The first entry behind those that a bound leaves.
fn find_upper<P: PageSource>(
    alloc: Global,
    index: &KeyIndex,
    pages: &mut P,
    bound: &Bound,
) -> Result<u32, FetchErr>
    requires file { HasIndex (P.files (P.whole pages.old)) index.now }
    requires some { IsUsable index.now }
    ensures whole { P.whole pages.new ≡ P.whole pages.old }
    ensures counts { (d : ℕ) → P.faults pages.old d ≤ P.faults pages.new d }
    ensures quiet { AreCalm (P.lone (P.whole pages.old)) (fetch_fault result) (P.faults pages.old) (P.faults pages.new) }
    ensures within { IfOk result (λ end. end ≤ index.now.entries) }
    ensures told { (f : ℕ → ℕ → List ℕ) (entries : List KeyEntry) → P.image (P.whole pages.old) ≡ Some f → HoldsIndex index.now (f index.now.file) entries →
        MatchResult result (λ end. end ≡ upper_end bound.now.op bound.now.value entries) NotBad }
    ensures path { (f : ℕ → ℕ → List ℕ) → P.image (P.whole pages.old) ≡ Some f →
        MatchResult result (HasUpper index.now (f index.now.file) bound.now.op bound.now.value) (IfBad (StopsUpper index.now (f index.now.file) bound.now.op bound.now.value)) }
    ensures err { IfErr result (SearchCause index.now (P.drives (P.whole pages.old)) (P.faults pages.old) (P.faults pages.new)) }
{
    match bound.op {
        BoundOp::Equal => rank_high(alloc, index, pages, &bound.value),
        BoundOp::AtMost => rank_high(alloc, index, pages, &bound.value),
        BoundOp::Less => rank_low(alloc, index, pages, &bound.value),
        BoundOp::More | BoundOp::AtLeast => Ok(index.entries),
    }
}

// Both ends that a bound leaves of an interval.
fn narrow<P: PageSource>(
    alloc: Global,
    index: &KeyIndex,
    pages: &mut P,
    bound: &Bound,
    ends: Interval,
) -> Result<Interval, FetchErr>
    requires file { HasIndex (P.files (P.whole pages.old)) index.now }
    requires some { IsUsable index.now }
    requires ends { (ends.from ≤ index.now.entries) × (ends.upto ≤ index.now.entries) }
    ensures whole { P.whole pages.new ≡ P.whole pages.old }
    ensures counts { (d : ℕ) → P.faults pages.old d ≤ P.faults pages.new d }
    ensures quiet { AreCalm (P.lone (P.whole pages.old)) (fetch_fault result) (P.faults pages.old) (P.faults pages.new) }
    ensures within { IfOk result (λ now. (now.from ≤ index.now.entries) × (now.upto ≤ index.now.entries)) }
    ensures told { (f : ℕ → ℕ → List ℕ) (entries : List KeyEntry) → P.image (P.whole pages.old) ≡ Some f → HoldsIndex index.now (f index.now.file) entries →
        MatchResult result (λ now. (now.from ≡ max ends.from (lower_end bound.now.op bound.now.value entries)) × (now.upto ≡ min ends.upto (upper_end bound.now.op bound.now.value entries))) NotBad }
    ensures path { (f : ℕ → ℕ → List ℕ) → P.image (P.whole pages.old) ≡ Some f →
        MatchResult result (IsNarrowed index.now (f index.now.file) bound.now ends)
        (IfBad (λ bad. StopsLower index.now (f index.now.file) bound.now.op bound.now.value bad ⊎ StopsUpper index.now (f index.now.file) bound.now.op bound.now.value bad)) }
    ensures err { IfErr result (SearchCause index.now (P.drives (P.whole pages.old)) (P.faults pages.old) (P.faults pages.new)) }
{
    let lower = find_lower(alloc, index, pages, bound)?;
    let upper = find_upper(alloc, index, pages, bound)?;
    Ok(Interval {
        from: ends.from.max(lower),
        upto: ends.upto.min(upper),
    })
}

/// The entries that a list of bounds leaves. It goes from the greatest lower end up to the least upper end: a bound `= c`
/// or `>= c` has the lower end `rank_low(c)` and `> c` has `rank_high(c)`; `= c` or `<= c` has the upper end
/// `rank_high(c)` and `< c` has `rank_low(c)`; each other lower end is 0, and each other upper end the number of entries.
/// Where the upper end is the smaller one, no entry is left and both ends are the lower one. Whatever the source gives,
/// `from` is at most `upto`, and that is at most the number of entries. The rest is as for `rank_low`.
pub fn interval<P: PageSource>(
    alloc: Global,
    index: &KeyIndex,
    pages: &mut P,
    bounds: &BoundList,
) -> Result<Interval, FetchErr>
    requires file { HasIndex (P.files (P.whole pages.old)) index.now }
    requires some { IsUsable index.now }
    ensures whole { P.whole pages.new ≡ P.whole pages.old }
    ensures counts { (d : ℕ) → P.faults pages.old d ≤ P.faults pages.new d }
    ensures quiet { AreCalm (P.lone (P.whole pages.old)) (fetch_fault result) (P.faults pages.old) (P.faults pages.new) }
    ensures within { IfOk result (λ found. (found.from ≤ found.upto) × (found.upto ≤ index.now.entries)) }
    ensures told { (f : ℕ → ℕ → List ℕ) (entries : List KeyEntry) → P.image (P.whole pages.old) ≡ Some f → HoldsIndex index.now (f index.now.file) entries →
        MatchResult result (λ found. found ≡ interval_of bounds.now entries) NotBad }
    ensures path { (f : ℕ → ℕ → List ℕ) → P.image (P.whole pages.old) ≡ Some f →
        MatchResult result (HasInterval index.now (f index.now.file) bounds.now) (IfBad (StopsInterval index.now (f index.now.file) bounds.now)) }
    ensures err { IfErr result (SearchCause index.now (P.drives (P.whole pages.old)) (P.faults pages.old) (P.faults pages.new)) }
{
    let mut ends = Interval {
        from: 0,
        upto: index.entries,
    };
    for bound in bounds.items() {
        ends = narrow(alloc, index, pages, bound, ends)?;
    }
    Ok(Interval {
        from: ends.from,
        upto: ends.from.max(ends.upto),
    })
}

/// The heap page and the slot of the entry of this number, counted from 0. Whatever the source gives, the page is one of
/// the heap file's. Where the source tells the pages of some entries, they are those of that entry, and no page is bad.
/// Rule 9 of a leaf is here that it has the entry, and that the entry's page is one of the heap file's. The rest is as
/// for `rank_low`.
pub fn entry<P: PageSource>(
    alloc: Global,
    index: &KeyIndex,
    pages: &mut P,
    number: u32,
) -> Result<(u32, u32), FetchErr>
    requires file { HasIndex (P.files (P.whole pages.old)) index.now }
    requires some { IsUsable index.now }
    requires number { number < index.now.entries }
    ensures whole { P.whole pages.new ≡ P.whole pages.old }
    ensures counts { (d : ℕ) → P.faults pages.old d ≤ P.faults pages.new d }
    ensures quiet { AreCalm (P.lone (P.whole pages.old)) (fetch_fault result) (P.faults pages.old) (P.faults pages.new) }
    ensures within { IfOk result (λ at. at.0 < index.now.heap_pages) }
    ensures told { (f : ℕ → ℕ → List ℕ) (entries : List KeyEntry) (e : KeyEntry) → P.image (P.whole pages.old) ≡ Some f → HoldsIndex index.now (f index.now.file) entries → slice_get entries number ≡ Some e →
        MatchResult result (λ at. (at.0 ≡ e.page) × (at.1 ≡ e.slot)) NotBad }
    ensures path { (f : ℕ → ℕ → List ℕ) → P.image (P.whole pages.old) ≡ Some f →
        MatchResult result (HasEntry index.now (f index.now.file) number) (IfBad (StopsEntry index.now (f index.now.file) number)) }
    ensures err { IfErr result (SearchCause index.now (P.drives (P.whole pages.old)) (P.faults pages.old) (P.faults pages.new)) }
{
    let (page, left) = reach(alloc, index, pages, Aim::Number(number))?;
    leaf_entry(alloc, index, pages, page, left, number)
}
