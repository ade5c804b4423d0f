//! From the root of an index to a leaf.
ghost use Rattle.std.specs.Prelude.{◌≡◌, ◌+◌, ◌<◌, ◌≤◌, ℕ, List, None, Some, IfErr, IfOk, MatchResult};
ghost use Rattle.std.specs.Arc.{arc_value};
ghost use Rattle.heap_page.specs.declared.head.FileKind.TheVariants.{Index};
ghost use Rattle.heap_page.specs.Pages.{head_fault};
ghost use Rattle.heap_page.specs.Sources.{AreCalm};
ghost use Rattle.heap_page.specs.Stores.{fetch_fault};
ghost use Rattle.key_index.specs.Aims.{IsFront, chosen, count, first_of, passes, upto_number};
ghost use Rattle.rows.specs.declared.plain.KeyEntry.{KeyEntry};
ghost use Rattle.key_index.specs.Entries.{Item, items_of};
ghost use Rattle.key_index.specs.Files.{HoldsIndex};
ghost use Rattle.key_index.specs.Paths.{answer_from, HasRank, IfBad, IsBadAbove, IsBadHere, IsFineHead, ReachesLeaf, StopsRank};
ghost use Rattle.key_index.specs.Searches.{BreaksAbove, BreaksEntry, BreaksRank, HasIndex, IsEntryAt, IsIndexPage, IsLeafFor, IsNext, IsUsable, NotBad, Ranks, SearchCause};

use crate::aim::Aim;
use crate::look::{look_above, look_at_entry, look_at_rank};
use heap_page::{BadPage, FetchErr, Page, PageSource};
use rows::KeyIndex;
use std::alloc::Global;
use std::sync::Arc;

// A page of the index.
fn fetch_page<P: PageSource>(
    alloc: Global,
    index: &KeyIndex,
    pages: &mut P,
    page: u32,
) -> Result<Arc<Page>, FetchErr>
    requires file { HasIndex (P.files (P.whole pages.old)) index.now }
    requires page { page < index.now.pages }
    ensures whole { P.whole pages.new ≡ P.whole pages.old }
    ensures counts { (d : ℕ) → P.faults pages.old d ≤ P.faults pages.new d }
    ensures quiet { AreCalm (P.lone (P.whole pages.old)) (fetch_fault result) (P.faults pages.old) (P.faults pages.new) }
    ensures told { (f : ℕ → ℕ → List ℕ) → P.image (P.whole pages.old) ≡ Some f → IfOk result (λ found. arc_value found ≡ f index.now.file page) }
    ensures accepted { (f : ℕ → ℕ → List ℕ) → P.image (P.whole pages.old) ≡ Some f → head_fault Index index.now.file page (f index.now.file page) ≡ None → IfErr result NotBad }
    ensures path { (f : ℕ → ℕ → List ℕ) → P.image (P.whole pages.old) ≡ Some f →
        MatchResult result (λ found. (arc_value found ≡ f index.now.file page) × IsFineHead index.now (f index.now.file) page)
        (IfBad (λ bad. (bad.page ≡ page) × (head_fault Index index.now.file page (f index.now.file page) ≡ Some bad.rule))) }
    ensures err { IfErr result (SearchCause index.now (P.drives (P.whole pages.old)) (P.faults pages.old) (P.faults pages.new)) }
{
    pages.fetch(alloc, index.file, page)
}

// What a search takes from this page, or that the page is bad, with the rule that it breaks.
fn answer_of<T>(index: &KeyIndex, page: u32, looked: Result<T, u32>) -> Result<T, FetchErr>
    ensures { result ≡ answer_from index.now.file page looked }
{
    match looked {
        Ok(taken) => Ok(taken),
        Err(rule) => Err(FetchErr::BadPage(BadPage {
            file: index.file,
            page,
            rule,
        })),
    }
}

// The page one level down that a search goes to, and how many entries stand left of it.
fn step_down<P: PageSource>(
    alloc: Global,
    index: &KeyIndex,
    pages: &mut P,
    page: u32,
    level: u32,
    left: u32,
    aim: Aim<'_>,
) -> Result<(u32, u32), FetchErr>
    requires file { HasIndex (P.files (P.whole pages.old)) index.now }
    requires page { page < index.now.pages }
    requires level { 0 < level }
    ensures whole { P.whole pages.new ≡ P.whole pages.old }
    ensures counts { (d : ℕ) → P.faults pages.old d ≤ P.faults pages.new d }
    ensures quiet { AreCalm (P.lone (P.whole pages.old)) (fetch_fault result) (P.faults pages.old) (P.faults pages.new) }
    ensures within { IfOk result (λ next. (next.0 < index.now.pages) × (next.1 ≤ index.now.entries)) }
    ensures told { (f : ℕ → ℕ → List ℕ) (items : List Item) → P.image (P.whole pages.old) ≡ Some f → IsIndexPage index.now level left page (f index.now.file page) items → IsFront (passes aim.entry) items →
        let e = chosen (passes aim.entry) (first_of items) items in MatchResult result (λ next. (next.0 ≡ e.page) × (next.1 ≡ e.left)) NotBad }
    ensures path { (f : ℕ → ℕ → List ℕ) → P.image (P.whole pages.old) ≡ Some f →
        MatchResult result (λ next. IsFineHead index.now (f index.now.file) page × IsNext index.now level left (passes aim.entry) (f index.now.file page) next)
        (IfBad (IsBadHere index.now (f index.now.file) page (BreaksAbove index.now level left (passes aim.entry) (f index.now.file page)))) }
    ensures err { IfErr result (SearchCause index.now (P.drives (P.whole pages.old)) (P.faults pages.old) (P.faults pages.new)) }
{
    let found = fetch_page(alloc, index, pages, page)?;
    let looked = look_above(index, found.bytes(), level, left, aim);
    answer_of(index, page, looked)
}

// How many entries are counted, in this leaf and left of it.
fn leaf_rank<P: PageSource>(
    alloc: Global,
    index: &KeyIndex,
    pages: &mut P,
    page: u32,
    left: u32,
    aim: Aim<'_>,
) -> Result<u32, FetchErr>
    requires file { HasIndex (P.files (P.whole pages.old)) index.now }
    requires page { page < index.now.pages }
    ensures whole { P.whole pages.new ≡ P.whole pages.old }
    ensures counts { (d : ℕ) → P.faults pages.old d ≤ P.faults pages.new d }
    ensures quiet { AreCalm (P.lone (P.whole pages.old)) (fetch_fault result) (P.faults pages.old) (P.faults pages.new) }
    ensures within { IfOk result (λ rank. rank ≤ index.now.entries) }
    ensures told { (f : ℕ → ℕ → List ℕ) (items : List Item) → P.image (P.whole pages.old) ≡ Some f → IsIndexPage index.now 0 left page (f index.now.file page) items → IsFront (passes aim.entry) items →
        left + count (passes aim.entry) items ≤ index.now.entries → MatchResult result (λ rank. rank ≡ left + count (passes aim.entry) items) NotBad }
    ensures path { (f : ℕ → ℕ → List ℕ) → P.image (P.whole pages.old) ≡ Some f →
        MatchResult result (λ rank. IsFineHead index.now (f index.now.file) page × Ranks index.now left (passes aim.entry) (f index.now.file page) rank)
        (IfBad (IsBadHere index.now (f index.now.file) page (BreaksRank index.now left (passes aim.entry) (f index.now.file page)))) }
    ensures err { IfErr result (SearchCause index.now (P.drives (P.whole pages.old)) (P.faults pages.old) (P.faults pages.new)) }
{
    let found = fetch_page(alloc, index, pages, page)?;
    let looked = look_at_rank(index, found.bytes(), left, aim);
    answer_of(index, page, looked)
}

// The heap page and the slot of an entry of this leaf.
pub(crate) fn leaf_entry<P: PageSource>(
    alloc: Global,
    index: &KeyIndex,
    pages: &mut P,
    page: u32,
    left: u32,
    number: u32,
) -> Result<(u32, u32), FetchErr>
    requires file { HasIndex (P.files (P.whole pages.old)) index.now }
    requires page { page < index.now.pages }
    ensures whole { P.whole pages.new ≡ P.whole pages.old }
    ensures counts { (d : ℕ) → P.faults pages.old d ≤ P.faults pages.new d }
    ensures quiet { AreCalm (P.lone (P.whole pages.old)) (fetch_fault result) (P.faults pages.old) (P.faults pages.new) }
    ensures within { IfOk result (λ at. at.0 < index.now.heap_pages) }
    ensures told { (f : ℕ → ℕ → List ℕ) (items : List Item) → P.image (P.whole pages.old) ≡ Some f → IsIndexPage index.now 0 left page (f index.now.file page) items → IsFront (upto_number number) items →
        let e = chosen (upto_number number) (first_of items) items in e.left ≡ number → MatchResult result (λ at. (at.0 ≡ e.page) × (at.1 ≡ e.slot)) NotBad }
    ensures path { (f : ℕ → ℕ → List ℕ) → P.image (P.whole pages.old) ≡ Some f →
        MatchResult result (λ at. IsFineHead index.now (f index.now.file) page × IsEntryAt index.now left number (f index.now.file page) at)
        (IfBad (IsBadHere index.now (f index.now.file) page (BreaksEntry index.now left number (f index.now.file page)))) }
    ensures err { IfErr result (SearchCause index.now (P.drives (P.whole pages.old)) (P.faults pages.old) (P.faults pages.new)) }
{
    let found = fetch_page(alloc, index, pages, page)?;
    let looked = look_at_entry(index, found.bytes(), left, number);
    answer_of(index, page, looked)
}

// The leaf that a search reaches, and how many entries stand left of it.
pub(crate) fn reach<P: PageSource>(
    alloc: Global,
    index: &KeyIndex,
    pages: &mut P,
    aim: Aim<'_>,
) -> Result<(u32, u32), FetchErr>
    requires file { HasIndex (P.files (P.whole pages.old)) index.now }
    requires some { (0 < index.now.pages) × (0 < index.now.height) }
    ensures whole { P.whole pages.new ≡ P.whole pages.old }
    ensures counts { (d : ℕ) → P.faults pages.old d ≤ P.faults pages.new d }
    ensures quiet { AreCalm (P.lone (P.whole pages.old)) (fetch_fault result) (P.faults pages.old) (P.faults pages.new) }
    ensures within { IfOk result (λ at. at.0 < index.now.pages) }
    ensures told { (f : ℕ → ℕ → List ℕ) (entries : List KeyEntry) → P.image (P.whole pages.old) ≡ Some f → HoldsIndex index.now (f index.now.file) entries → IsFront (passes aim.entry) (items_of entries) →
        MatchResult result (IsLeafFor index.now (f index.now.file) (passes aim.entry) (items_of entries)) NotBad }
    ensures path { (f : ℕ → ℕ → List ℕ) → P.image (P.whole pages.old) ≡ Some f →
        MatchResult result (ReachesLeaf index.now (f index.now.file) (passes aim.entry)) (IfBad (IsBadAbove index.now (f index.now.file) (passes aim.entry))) }
    ensures err { IfErr result (SearchCause index.now (P.drives (P.whole pages.old)) (P.faults pages.old) (P.faults pages.new)) }
{
    let mut page = index.pages - 1;
    let mut left = 0u32;
    for level in (1..index.height).rev() {
        let (next, start) = step_down(alloc, index, pages, page, level, left, aim)?;
        page = next;
        left = start;
    }
    Ok((page, left))
}

// How many entries are counted.
pub(crate) fn rank<P: PageSource>(
    alloc: Global,
    index: &KeyIndex,
    pages: &mut P,
    aim: Aim<'_>,
) -> Result<u32, FetchErr>
    requires file { HasIndex (P.files (P.whole pages.old)) index.now }
    requires some { IsUsable index.now }
    ensures whole { P.whole pages.new ≡ P.whole pages.old }
    ensures counts { (d : ℕ) → P.faults pages.old d ≤ P.faults pages.new d }
    ensures quiet { AreCalm (P.lone (P.whole pages.old)) (fetch_fault result) (P.faults pages.old) (P.faults pages.new) }
    ensures within { IfOk result (λ rank. rank ≤ index.now.entries) }
    ensures told { (f : ℕ → ℕ → List ℕ) (entries : List KeyEntry) → P.image (P.whole pages.old) ≡ Some f → HoldsIndex index.now (f index.now.file) entries → IsFront (passes aim.entry) (items_of entries) →
        MatchResult result (λ rank. rank ≡ count (passes aim.entry) (items_of entries)) NotBad }
    ensures path { (f : ℕ → ℕ → List ℕ) → P.image (P.whole pages.old) ≡ Some f →
        MatchResult result (HasRank index.now (f index.now.file) (passes aim.entry)) (IfBad (StopsRank index.now (f index.now.file) (passes aim.entry))) }
    ensures err { IfErr result (SearchCause index.now (P.drives (P.whole pages.old)) (P.faults pages.old) (P.faults pages.new)) }
{
    if index.entries == 0 {
        return Ok(0);
    }
    let (page, left) = reach(alloc, index, pages, aim)?;
    leaf_rank(alloc, index, pages, page, left, aim)
}
