//! The rows of a heap page that pass tests.
ghost use Rattle.std.specs.Prelude.{◌≡◌, ◌++◌, IfOk, IfErr, None, Some, OnOk, true, is_some, length, map};
ghost use Rattle.std.specs.List.{AllByRecursion};
ghost use Rattle.std.specs.Option.{option_to_list};
ghost use Rattle.heap_page.specs.Pages.{items_of};
ghost use Rattle.rows.specs.RowFields.{row_in};
ghost use Rattle.rel_meaning.specs.Expression.{expression_of};
ghost use Rattle.rows.specs.Layouts.{IsRowIn};
ghost use Rattle.plan_tree.specs.Rows.{kept};
ghost use Rattle.plan_tree.specs.WellFormed.{AreTests};
ghost use Rattle.pipeline.specs.Scans.{ItemCause, PageCause, are_rows, passing, scan_fault, scanned};

use crate::testing::{are_met, read_row};
use heap_page::{BadPage, FetchErr, PageView, read_page};
use plan_tree::Pipe;
use rows::{Row, RowReader, Rows};
use std::alloc::{AllocError, Global};

// Adds the row whose bytes these are, where the tests are true for it. It is false where they are no row.
pub(crate) fn put_row(
    rows: &mut Vec<Row>,
    alloc: Global,
    pipe: &Pipe,
    reader: &RowReader<'_>,
    var: u32,
    item: &[u8],
) -> Result<bool, AllocError>
    requires reader { reader.now ≡ pipe.now.columns }
    requires tests { AreTests (scanned var pipe.now.columns) (map expression_of pipe.now.tests) }
    ensures there { IfOk result (λ there. there ≡ is_some (row_in pipe.now.columns item.now)) }
    ensures rows { OnOk result (rows.new.items ≡ rows.old.items ++ kept (scanned var pipe.now.columns) (map expression_of pipe.now.tests) (option_to_list (row_in pipe.now.columns item.now))) }
    ensures fit { AllByRecursion (IsRowIn (scanned var pipe.now.columns)) rows.old.items → OnOk result (AllByRecursion (IsRowIn (scanned var pipe.now.columns)) rows.new.items) }
{
    let Some(row) = read_row(reader, item) else {
        return Ok(false);
    };
    if are_met(pipe.tests.items(), reader, &row, var) {
        rows.push(row.to_row(alloc)?)?;
    }
    Ok(true)
}

// The rows of a page's items.
fn page_rows(
    alloc: Global,
    pipe: &Pipe,
    var: u32,
    view: &PageView<'_>,
    file: u32,
    page: u32,
) -> Result<Rows, FetchErr>
    requires { AreTests (scanned var pipe.now.columns) (map expression_of pipe.now.tests) }
    ensures all { IfOk result (λ rows. are_rows pipe.now.columns view.now ≡ true) }
    ensures rows { IfOk result (λ rows. rows ≡ passing (scanned var pipe.now.columns) pipe.now.columns (map expression_of pipe.now.tests) view.now) }
    ensures fit { IfOk result (AllByRecursion (IsRowIn (scanned var pipe.now.columns))) }
    ensures err { IfErr result (ItemCause pipe.now.columns file page view.now) }
{
    let mut rows = Vec::new(alloc);
    let reader = RowReader::of(&pipe.columns);
    for slot in 0..view.count() {
        if !put_row(&mut rows, alloc, pipe, &reader, var, view.item(slot))? {
            return Err(FetchErr::BadPage(BadPage {
                file,
                page,
                rule: 9,
            }));
        }
    }
    Ok(Rows::from_vec(rows))
}

// The rows of a page that pass.
pub(crate) fn scan_page(
    alloc: Global,
    pipe: &Pipe,
    var: u32,
    bytes: &[u8],
    file: u32,
    page: u32,
) -> Result<Rows, FetchErr>
    requires tests { AreTests (scanned var pipe.now.columns) (map expression_of pipe.now.tests) }
    requires whole { length bytes.now ≡ 8192 }
    ensures fine { IfOk result (λ rows. scan_fault pipe.now.columns file page bytes.now ≡ None) }
    ensures rows { IfOk result (λ rows. rows ≡ passing (scanned var pipe.now.columns) pipe.now.columns (map expression_of pipe.now.tests) (items_of bytes.now)) }
    ensures fit { IfOk result (AllByRecursion (IsRowIn (scanned var pipe.now.columns))) }
    ensures err { IfErr result (PageCause pipe.now.columns file page bytes.now) }
{
    match read_page(bytes, file, page) {
        Ok(view) => page_rows(alloc, pipe, var, &view, file, page),
        Err(rule) => Err(FetchErr::BadPage(BadPage { file, page, rule })),
    }
}
