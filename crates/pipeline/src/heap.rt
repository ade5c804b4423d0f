//! The rows of a position of a heap scan.
ghost use Rattle.std.specs.Prelude.{◌≡◌, ◌≤◌, ◌<◌, ℕ, IfOk, IfErr, None, Some, map};
ghost use Rattle.std.specs.List.{AllByRecursion};
ghost use Rattle.heap_page.specs.Pages.{items_of};
ghost use Rattle.rows.specs.Layouts.{IsRowIn};
ghost use Rattle.rel_meaning.specs.Expression.{expression_of};
ghost use Rattle.plan_tree.specs.WellFormed.{AreTests};
ghost use Rattle.pipeline.specs.Images.{Image, IsHeapFile};
ghost use Rattle.pipeline.specs.Scans.{ScanCause, passing, scan_fault, scanned};

use crate::page_scan::scan_page;
use heap_page::{FetchErr, PageSource};
use plan_tree::Pipe;
use rows::Rows;
use std::alloc::Global;

// The rows of a page of a heap file for which the tests are true, in order of slot.
pub(crate) fn run_heap<P: PageSource>(
    alloc: Global,
    pipe: &Pipe,
    var: u32,
    file: u32,
    page: u32,
    pages: &mut P,
) -> Result<Rows, FetchErr>
    requires tests { AreTests (scanned var pipe.now.columns) (map expression_of pipe.now.tests) }
    requires page { (count : ℕ) × IsHeapFile (P.files (P.whole pages.old)) file count × (page < count) }
    ensures whole { P.whole pages.new ≡ P.whole pages.old }
    ensures counts { (d : ℕ) → P.faults pages.old d ≤ P.faults pages.new d }
    ensures fit { IfOk result (AllByRecursion (IsRowIn (scanned var pipe.now.columns))) }
    ensures fine { (image : Image) → P.image (P.whole pages.old) ≡ Some image → IfOk result (λ rows. scan_fault pipe.now.columns file page (image file page) ≡ None) }
    ensures told { (image : Image) → P.image (P.whole pages.old) ≡ Some image → IfOk result (λ rows. rows ≡ passing (scanned var pipe.now.columns) pipe.now.columns (map expression_of pipe.now.tests) (items_of (image file page))) }
    ensures err { IfErr result (ScanCause pipe.now.columns (P.image (P.whole pages.old)) (P.drives (P.whole pages.old)) (P.faults pages.old) (P.faults pages.new) file page) }
{
    let found = pages.fetch(alloc, file, page)?;
    scan_page(alloc, pipe, var, found.bytes(), file, page)
}
