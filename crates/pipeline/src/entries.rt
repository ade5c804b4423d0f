//! The row to which an entry of an index leads.
ghost use Rattle.std.specs.Prelude.{◌≡◌, ◌≤◌, ◌<◌, ℕ, List, IfOk, IfErr, None, Some, length, map, slice_get};
ghost use Rattle.std.specs.List.{AllByRecursion};
ghost use Rattle.heap_page.specs.Pages.{items_of};
ghost use Rattle.key_index.specs.Files.{HoldsIndex};
ghost use Rattle.key_index.specs.Searches.{HasIndex, IsUsable};
ghost use Rattle.rows.specs.declared.plain.KeyEntry.{KeyEntry};
ghost use Rattle.rows.specs.Layouts.{IsRowIn};
ghost use Rattle.rel_meaning.specs.Expression.{expression_of};
ghost use Rattle.plan_tree.specs.WellFormed.{AreTests};
ghost use Rattle.pipeline.specs.Entries.{EntryCause, FetchedCause, IsEntryFine, SlotCause, ViewCause, item_fault, slot_fault, slot_rows};
ghost use Rattle.pipeline.specs.Images.{Image, IsHeapFile};
ghost use Rattle.pipeline.specs.Scans.{scanned};

use crate::page_scan::put_row;
use heap_page::{BadPage, FetchErr, PageSource, PageView, read_page};
use key_index::entry;
use plan_tree::Pipe;
use rows::{KeyIndex, RowReader, Rows};
use std::alloc::Global;

// The row in a slot, where the tests are true for it.
fn view_slot(
    alloc: Global,
    pipe: &Pipe,
    var: u32,
    view: &PageView<'_>,
    file: u32,
    page: u32,
    slot: u32,
) -> Result<Rows, FetchErr>
    requires { AreTests (scanned var pipe.now.columns) (map expression_of pipe.now.tests) }
    ensures fine { IfOk result (λ rows. item_fault pipe.now.columns (slice_get view.now slot) ≡ None) }
    ensures rows { IfOk result (λ rows. rows ≡ slot_rows (scanned var pipe.now.columns) pipe.now.columns (map expression_of pipe.now.tests) view.now slot) }
    ensures fit { IfOk result (AllByRecursion (IsRowIn (scanned var pipe.now.columns))) }
    ensures err { IfErr result (ViewCause pipe.now.columns file page slot view.now) }
{
    let mut rows = Vec::new(alloc);
    if slot >= view.count() {
        return Err(FetchErr::BadPage(BadPage {
            file,
            page,
            rule: 9,
        }));
    }
    let reader = RowReader::of(&pipe.columns);
    if !put_row(&mut rows, alloc, pipe, &reader, var, view.item(slot))? {
        return Err(FetchErr::BadPage(BadPage {
            file,
            page,
            rule: 9,
        }));
    }
    Ok(Rows::from_vec(rows))
}

// The row in a slot of a page, where the tests are true for it.
fn scan_slot(
    alloc: Global,
    pipe: &Pipe,
    var: u32,
    bytes: &[u8],
    file: u32,
    page: u32,
    slot: u32,
) -> Result<Rows, FetchErr>
    requires tests { AreTests (scanned var pipe.now.columns) (map expression_of pipe.now.tests) }
    requires whole { length bytes.now ≡ 8192 }
    ensures fine { IfOk result (λ rows. slot_fault pipe.now.columns file page slot bytes.now ≡ None) }
    ensures rows { IfOk result (λ rows. rows ≡ slot_rows (scanned var pipe.now.columns) pipe.now.columns (map expression_of pipe.now.tests) (items_of bytes.now) slot) }
    ensures fit { IfOk result (AllByRecursion (IsRowIn (scanned var pipe.now.columns))) }
    ensures err { IfErr result (SlotCause pipe.now.columns file page slot bytes.now) }
{
    match read_page(bytes, file, page) {
        Ok(view) => view_slot(alloc, pipe, var, &view, file, page, slot),
        Err(rule) => Err(FetchErr::BadPage(BadPage { file, page, rule })),
    }
}

// The row in a slot of a page of a heap file.
fn fetch_slot<P: PageSource>(
    alloc: Global,
    pipe: &Pipe,
    var: u32,
    file: u32,
    page: u32,
    slot: u32,
    pages: &mut P,
) -> Result<Rows, FetchErr>
    requires tests { AreTests (scanned var pipe.now.columns) (map expression_of pipe.now.tests) }
    requires page { (count : ℕ) × IsHeapFile (P.files (P.whole pages.old)) file count × (page < count) }
    ensures whole { P.whole pages.new ≡ P.whole pages.old }
    ensures counts { (d : ℕ) → P.faults pages.old d ≤ P.faults pages.new d }
    ensures fit { IfOk result (AllByRecursion (IsRowIn (scanned var pipe.now.columns))) }
    ensures fine { (image : Image) → P.image (P.whole pages.old) ≡ Some image → IfOk result (λ rows. slot_fault pipe.now.columns file page slot (image file page) ≡ None) }
    ensures told { (image : Image) → P.image (P.whole pages.old) ≡ Some image → IfOk result (λ rows. rows ≡ slot_rows (scanned var pipe.now.columns) pipe.now.columns (map expression_of pipe.now.tests) (items_of (image file page)) slot) }
    ensures err { IfErr result (FetchedCause pipe.now.columns (P.image (P.whole pages.old)) (P.drives (P.whole pages.old)) (P.faults pages.old) (P.faults pages.new) file page slot) }
{
    let found = pages.fetch(alloc, file, page)?;
    scan_slot(alloc, pipe, var, found.bytes(), file, page, slot)
}

// The row to which the entry of this number leads, where the tests are true for it.
pub(crate) fn run_entry<P: PageSource>(
    alloc: Global,
    pipe: &Pipe,
    var: u32,
    index: &KeyIndex,
    heap_file: u32,
    number: u32,
    pages: &mut P,
) -> Result<Rows, FetchErr>
    requires tests { AreTests (scanned var pipe.now.columns) (map expression_of pipe.now.tests) }
    requires index { HasIndex (P.files (P.whole pages.old)) index.now }
    requires some { IsUsable index.now }
    requires heap { IsHeapFile (P.files (P.whole pages.old)) heap_file index.now.heap_pages }
    requires number { number < index.now.entries }
    ensures whole { P.whole pages.new ≡ P.whole pages.old }
    ensures counts { (d : ℕ) → P.faults pages.old d ≤ P.faults pages.new d }
    ensures fit { IfOk result (AllByRecursion (IsRowIn (scanned var pipe.now.columns))) }
    ensures fine { (image : Image) → P.image (P.whole pages.old) ≡ Some image → IfOk result (λ rows. IsEntryFine pipe.now.columns index.now image heap_file number) }
    ensures told { (image : Image) (entries : List KeyEntry) (e : KeyEntry) → P.image (P.whole pages.old) ≡ Some image → HoldsIndex index.now (image index.now.file) entries → slice_get entries number ≡ Some e →
        IfOk result (λ rows. rows ≡ slot_rows (scanned var pipe.now.columns) pipe.now.columns (map expression_of pipe.now.tests) (items_of (image heap_file e.page)) e.slot) }
    ensures err { IfErr result (EntryCause pipe.now.columns index.now (P.image (P.whole pages.old)) (P.drives (P.whole pages.old)) (P.faults pages.old) (P.faults pages.new) heap_file number) }
{
    let (page, slot) = entry(alloc, index, pages, number)?;
    fetch_slot(alloc, pipe, var, heap_file, page, slot, pages)
}
