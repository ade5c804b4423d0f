//! What a position of a fragment gives.
ghost use Rattle.std.specs.Prelude.{◌≡◌, ◌≤◌, ◌<◌, ◌+◌, ℕ, List, IfOk, IfErr, [], ◌∷◌, Some, map, slice_get};
ghost use Rattle.heap_page.specs.Pages.{items_of};
ghost use Rattle.key_index.specs.Files.{HoldsIndex};
ghost use Rattle.key_index.specs.Searches.{HasIndex, IsUsable};
ghost use Rattle.rows.specs.declared.plain.KeyEntry.{KeyEntry};
ghost use Rattle.rows.specs.declared.value.Value.{Value};
ghost use Rattle.rel_meaning.specs.Expression.{expression_of};
ghost use Rattle.plan_tree.specs.Inputs.{input_values};
ghost use Rattle.plan_tree.specs.Pieces.{ending_of, piece_of, piping_of, probing_of};
ghost use Rattle.plan_tree.specs.WellFormed.{AreTests, HasShape};
ghost use Rattle.hash_join.specs.Table.{Table, rows_of};
ghost use Rattle.merge_join.specs.Sides.{IsSide, left_columns, right_columns};
ghost use Rattle.plan_tree.specs.Combining.{AreApart, IsOrdered, merged};
ghost use Rattle.plan_tree.specs.Fragments.{Stored, matched, merge_slices, out, position_rows, slice_of};
ghost use Rattle.plan_tree.specs.Rows.{kept};
ghost use Rattle.pipeline.specs.Ends.{CanFinish, IsPartOf, led_to_end};
ghost use Rattle.pipeline.specs.Entries.{EntryCause, IsEntryFine, slot_rows};
ghost use Rattle.pipeline.specs.Images.{Image, IsHeapFile, StoresRead};
ghost use Rattle.pipeline.specs.Positions.{AreInputs, HasFiles, IsFormed, PositionCause, ReadsFine};
ghost use Rattle.pipeline.specs.Probes.{AreValues};
ghost use Rattle.pipeline.specs.Scans.{ScanCause, passing, scan_fault, scanned};

use crate::entries::run_entry;
use crate::finishing::{finish_rows, kept_rows, scanned_layout};
use crate::heap::run_heap;
use hash_join::{Built, Inputs};
use heap_page::{FetchErr, PageSource};
use merge_join::{merge_slice, merged_layout};
use plan_tree::{Fragment, Source};
use rows::{KeyIndex, KeyPairList, Layout, Row, Rows};
use std::alloc::{AllocError, Global};
use std::sync::Arc;

// What a page of a heap file gives.
fn run_page<P: PageSource>(
    alloc: Global,
    fragment: &Fragment,
    var: u32,
    file: u32,
    page: u32,
    inputs: &[Arc<Built>],
    pages: &mut P,
) -> Result<Rows, FetchErr>
    requires tests { AreTests (scanned var fragment.now.pipe.columns) (map expression_of fragment.now.pipe.tests) }
    requires can { CanFinish (scanned var fragment.now.pipe.columns) (piece_of fragment.now) (map (λ x. x.value) inputs.now) }
    requires page { (count : ℕ) × IsHeapFile (P.files (P.whole pages.old)) file count × (page < count) }
    ensures whole { P.whole pages.new ≡ P.whole pages.old }
    ensures counts { (d : ℕ) → P.faults pages.old d ≤ P.faults pages.new d }
    ensures shape { IfOk result (HasShape fragment.now.layout (ending_of fragment.now.end)) }
    ensures part { IfOk result (λ found. (rows : List (List Value)) × IsPartOf (ending_of fragment.now.end) rows found) }
    ensures fine { (image : Image) → P.image (P.whole pages.old) ≡ Some image → IfOk result (λ rows. scan_fault fragment.now.pipe.columns file page (image file page) ≡ None) }
    ensures told { (image : Image) (values : List (List (List Value))) → P.image (P.whole pages.old) ≡ Some image → AreValues values (map probing_of fragment.now.pipe.probes) (map (λ x. x.value) inputs.now) →
        IfOk result (IsPartOf (ending_of fragment.now.end) (led_to_end values (piece_of fragment.now) (scanned var fragment.now.pipe.columns)
        (passing (scanned var fragment.now.pipe.columns) fragment.now.pipe.columns (map expression_of fragment.now.pipe.tests) (items_of (image file page))))) }
    ensures err { IfErr result (ScanCause fragment.now.pipe.columns (P.image (P.whole pages.old)) (P.drives (P.whole pages.old)) (P.faults pages.old) (P.faults pages.new) file page) }
{
    let rows = run_heap(alloc, &fragment.pipe, var, file, page, pages)?;
    let layout = scanned_layout(alloc, var, &fragment.pipe.columns)?;
    Ok(finish_rows(alloc, fragment, &layout, inputs, rows)?)
}

// What an entry of an index gives.
fn run_index<P: PageSource>(
    alloc: Global,
    fragment: &Fragment,
    var: u32,
    index: &KeyIndex,
    heap_file: u32,
    number: u32,
    inputs: &[Arc<Built>],
    pages: &mut P,
) -> Result<Rows, FetchErr>
    requires tests { AreTests (scanned var fragment.now.pipe.columns) (map expression_of fragment.now.pipe.tests) }
    requires can { CanFinish (scanned var fragment.now.pipe.columns) (piece_of fragment.now) (map (λ x. x.value) inputs.now) }
    requires index { HasIndex (P.files (P.whole pages.old)) index.now }
    requires some { IsUsable index.now }
    requires heap { IsHeapFile (P.files (P.whole pages.old)) heap_file index.now.heap_pages }
    requires number { number < index.now.entries }
    ensures whole { P.whole pages.new ≡ P.whole pages.old }
    ensures counts { (d : ℕ) → P.faults pages.old d ≤ P.faults pages.new d }
    ensures shape { IfOk result (HasShape fragment.now.layout (ending_of fragment.now.end)) }
    ensures part { IfOk result (λ found. (rows : List (List Value)) × IsPartOf (ending_of fragment.now.end) rows found) }
    ensures fine { (image : Image) → P.image (P.whole pages.old) ≡ Some image → IfOk result (λ rows. IsEntryFine fragment.now.pipe.columns index.now image heap_file number) }
    ensures told { (image : Image) (entries : List KeyEntry) (e : KeyEntry) (values : List (List (List Value))) → P.image (P.whole pages.old) ≡ Some image → HoldsIndex index.now (image index.now.file) entries → slice_get entries number ≡ Some e →
        AreValues values (map probing_of fragment.now.pipe.probes) (map (λ x. x.value) inputs.now) →
        IfOk result (IsPartOf (ending_of fragment.now.end) (led_to_end values (piece_of fragment.now) (scanned var fragment.now.pipe.columns)
        (slot_rows (scanned var fragment.now.pipe.columns) fragment.now.pipe.columns (map expression_of fragment.now.pipe.tests) (items_of (image heap_file e.page)) e.slot))) }
    ensures err { IfErr result (EntryCause fragment.now.pipe.columns index.now (P.image (P.whole pages.old)) (P.drives (P.whole pages.old)) (P.faults pages.old) (P.faults pages.new) heap_file number) }
{
    let rows = run_entry(alloc, &fragment.pipe, var, index, heap_file, number, pages)?;
    let layout = scanned_layout(alloc, var, &fragment.pipe.columns)?;
    Ok(finish_rows(alloc, fragment, &layout, inputs, rows)?)
}

// What the one empty row gives.
fn run_one(alloc: Global, fragment: &Fragment, inputs: &[Arc<Built>]) -> Result<Rows, AllocError>
    requires tests { AreTests [] (map expression_of fragment.now.pipe.tests) }
    requires can { CanFinish [] (piece_of fragment.now) (map (λ x. x.value) inputs.now) }
    ensures shape { IfOk result (HasShape fragment.now.layout (ending_of fragment.now.end)) }
    ensures part { IfOk result (λ found. (rows : List (List Value)) × IsPartOf (ending_of fragment.now.end) rows found) }
    ensures output { (values : List (List (List Value))) → AreValues values (map probing_of fragment.now.pipe.probes) (map (λ x. x.value) inputs.now) →
        IfOk result (IsPartOf (ending_of fragment.now.end) (led_to_end values (piece_of fragment.now) [] (kept [] (map expression_of fragment.now.pipe.tests) ([] ∷ [])))) }
{
    let layout = Layout::new(alloc);
    let mut row = Vec::new(alloc);
    row.push(Row::new(alloc))?;
    let rows = Rows::from_vec(row);
    let rows = kept_rows(alloc, fragment.pipe.tests.items(), &layout, rows)?;
    finish_rows(alloc, fragment, &layout, inputs, rows)
}

// What a slice of a merge gives.
fn run_merge(
    alloc: Global,
    fragment: &Fragment,
    keys: &KeyPairList,
    first: &Layout,
    second: &Layout,
    slice: u32,
    left: &Built,
    right: &Built,
    inputs: &[Arc<Built>],
) -> Result<Rows, AllocError>
    requires tests { AreTests (merged first.now second.now) (map expression_of fragment.now.pipe.tests) }
    requires can { CanFinish (merged first.now second.now) (piece_of fragment.now) (map (λ x. x.value) inputs.now) }
    requires left { IsSide first.now (left_columns keys.now) left.now.lists }
    requires right { IsSide second.now (right_columns keys.now) right.now.lists }
    requires first { IsOrdered first.now }
    requires second { IsOrdered second.now }
    requires apart { AreApart first.now second.now }
    requires slice { slice < merge_slices }
    ensures shape { IfOk result (HasShape fragment.now.layout (ending_of fragment.now.end)) }
    ensures part { IfOk result (λ found. (rows : List (List Value)) × IsPartOf (ending_of fragment.now.end) rows found) }
    ensures output { (values : List (List (List Value))) → AreValues values (map probing_of fragment.now.pipe.probes) (map (λ x. x.value) inputs.now) →
        IfOk result (IsPartOf (ending_of fragment.now.end) (led_to_end values (piece_of fragment.now) (merged first.now second.now)
        (kept (merged first.now second.now) (map expression_of fragment.now.pipe.tests) (matched first.now second.now keys.now (slice_of slice (rows_of left.now.lists)) (rows_of right.now.lists))))) }
{
    let layout = merged_layout(alloc, first, second)?;
    let rows = merge_slice(alloc, left, right, first, second, keys, slice)?;
    let rows = kept_rows(alloc, fragment.pipe.tests.items(), &layout, rows)?;
    finish_rows(alloc, fragment, &layout, inputs, rows)
}

// What a position gives, by the source.
fn run_source<P: PageSource>(
    alloc: Global,
    fragment: &Fragment,
    position: u32,
    inputs: &Inputs,
    pages: &mut P,
) -> Result<Rows, FetchErr>
    requires formed { IsFormed (piece_of fragment.now) }
    requires position { position < fragment.now.positions }
    requires inputs { AreInputs (piping_of fragment.now.pipe) (map (λ x. x.value) inputs.now) }
    requires files { HasFiles (P.files (P.whole pages.old)) fragment.now.positions fragment.now.pipe.source }
    ensures whole { P.whole pages.new ≡ P.whole pages.old }
    ensures counts { (d : ℕ) → P.faults pages.old d ≤ P.faults pages.new d }
    ensures shape { IfOk result (HasShape fragment.now.layout (ending_of fragment.now.end)) }
    ensures part { IfOk result (λ found. (rows : List (List Value)) × IsPartOf (ending_of fragment.now.end) rows found) }
    ensures fine { (image : Image) → P.image (P.whole pages.old) ≡ Some image → IfOk result (λ rows. ReadsFine fragment.now.pipe.source fragment.now.pipe.columns image position) }
    ensures rows { (image : Image) (stored : Stored) (values : List (List (List Value))) → P.image (P.whole pages.old) ≡ Some image → StoresRead image stored fragment.now.positions fragment.now.pipe.source →
        input_values values (piece_of fragment.now) ≡ map (λ (t : Table). rows_of t.lists) (map (λ x. x.value) inputs.now) →
        IfOk result (IsPartOf (ending_of fragment.now.end) (position_rows stored values (piece_of fragment.now) position)) }
    ensures err { IfErr result (PositionCause fragment.now.pipe.source fragment.now.pipe.columns (P.image (P.whole pages.old)) (P.drives (P.whole pages.old)) (P.faults pages.old) (P.faults pages.new) position) }
{
    match &fragment.pipe.source {
        Source::One => Ok(run_one(alloc, fragment, inputs.items())?),
        Source::Heap { var, file } => {
            run_page(
                alloc,
                fragment,
                *var,
                *file,
                position,
                inputs.items(),
                pages,
            )
        }
        Source::Index {
            var,
            index,
            heap_file,
            interval,
        } => {
            let _upto = interval.upto;
            let number = interval.from + position;
            run_index(
                alloc,
                fragment,
                *var,
                index,
                *heap_file,
                number,
                inputs.items(),
                pages,
            )
        }
        Source::Merge {
            keys,
            left_layout,
            right_layout,
            ..
        } => {
            let [left, right, rest @ ..] = inputs.items() else {
                unreachable!();
            };
            Ok(run_merge(
                alloc,
                fragment,
                keys,
                left_layout,
                right_layout,
                position,
                left,
                right,
                rest,
            )?)
        }
    }
}

/// What a position of a fragment gives: the rows of its page, entry or slice, or the one empty row, that pass the tests of
/// the pipe, each with the rows of the probes' inputs that have its keys, as the end takes them; an end that folds groups
/// takes the partial of the targets' values. The fragment is well formed and its files are there. There is an input for each
/// that it reads, in order: the two sides of a merge come first. Over told files it gives what the definition of a fragment
/// says. `DriveFault` comes only where the drive's count rises. `BadPage` comes exactly where a fetch answers it, or where a
/// page that is fetched breaks a rule, with the first one: of a heap page rule 9 is that each item used is a row of the
/// columns, and that the slot of an entry is there.
pub fn run_position<P: PageSource>(
    alloc: Global,
    fragment: &Fragment,
    position: u32,
    inputs: &Inputs,
    pages: &mut P,
) -> Result<Rows, FetchErr>
    requires formed { IsFormed (piece_of fragment.now) }
    requires position { position < fragment.now.positions }
    requires inputs { AreInputs (piping_of fragment.now.pipe) (map (λ x. x.value) inputs.now) }
    requires files { HasFiles (P.files (P.whole pages.old)) fragment.now.positions fragment.now.pipe.source }
    ensures whole { P.whole pages.new ≡ P.whole pages.old }
    ensures counts { (d : ℕ) → P.faults pages.old d ≤ P.faults pages.new d }
    ensures shape { IfOk result (HasShape fragment.now.layout (ending_of fragment.now.end)) }
    ensures part { IfOk result (λ found. (rows : List (List Value)) × IsPartOf (ending_of fragment.now.end) rows found) }
    ensures fine { (image : Image) → P.image (P.whole pages.old) ≡ Some image → IfOk result (λ rows. ReadsFine fragment.now.pipe.source fragment.now.pipe.columns image position) }
    ensures output { (image : Image) (stored : Stored) (values : List (List (List Value))) → P.image (P.whole pages.old) ≡ Some image → StoresRead image stored fragment.now.positions fragment.now.pipe.source →
        input_values values (piece_of fragment.now) ≡ map (λ (t : Table). rows_of t.lists) (map (λ x. x.value) inputs.now) →
        IfOk result (λ rows. rows ≡ out stored values (piece_of fragment.now) position) }
    ensures rows { (image : Image) (stored : Stored) (values : List (List (List Value))) → P.image (P.whole pages.old) ≡ Some image → StoresRead image stored fragment.now.positions fragment.now.pipe.source →
        input_values values (piece_of fragment.now) ≡ map (λ (t : Table). rows_of t.lists) (map (λ x. x.value) inputs.now) →
        IfOk result (IsPartOf (ending_of fragment.now.end) (position_rows stored values (piece_of fragment.now) position)) }
    ensures err { IfErr result (PositionCause fragment.now.pipe.source fragment.now.pipe.columns (P.image (P.whole pages.old)) (P.drives (P.whole pages.old)) (P.faults pages.old) (P.faults pages.new) position) }
{
    run_source(alloc, fragment, position, inputs, pages)
}
