//! The rows of one page.
ghost use Rattle.std.specs.Prelude.{◌≡◌, None, IfOk, MatchResult, true};
ghost use Rattle.heap_page.specs.Pages.{fault_of, items_of};
ghost use Rattle.heap_page.specs.declared.errors.FetchErr.TheVariants as fetch;
ghost use Rattle.table_store.specs.Steps.{Added, IsBad};

use crate::row_buffer::RowBuffer;
use heap_page::{BadPage, FetchErr, Page, PageView, read_page};
use rows::{ColumnList, decode_row};
use std::alloc::{AllocError, Global};

// Adds the rows of a page. It is false where an item is no row.
fn add_rows(
    alloc: Global,
    view: &PageView<'_>,
    columns: &ColumnList,
    rows: &mut RowBuffer,
) -> Result<bool, AllocError>
    ensures { IfOk result (Added columns.now view.now rows.old rows.new) }
{
    for slot in 0..view.count() {
        match decode_row(alloc, view.item(slot), columns)? {
            Some(row) => rows.push(row)?,
            None => return Ok(false),
        }
    }
    Ok(true)
}

// Adds the rows of a page that breaks no rule.
pub(crate) fn add_page(
    alloc: Global,
    page: &Page,
    file: u32,
    number: u32,
    columns: &ColumnList,
    rows: &mut RowBuffer,
) -> Result<(), FetchErr>
    ensures { MatchResult result (λ _. (fault_of file number page.now ≡ None) × Added columns.now (items_of page.now) rows.old rows.new true) (IsBad columns.now file number page.now) }
{
    match read_page(page.bytes(), file, number) {
        Ok(view) => {
            if add_rows(alloc, &view, columns, rows)? {
                Ok(())
            } else {
                Err(bad_page(file, number, 9))
            }
        }
        Err(rule) => Err(bad_page(file, number, rule)),
    }
}

fn bad_page(file: u32, page: u32, rule: u32) -> FetchErr
    ensures { result ≡ fetch.BadPage (record { file = file; page = page; rule = rule }) }
{
    FetchErr::BadPage(BadPage { file, page, rule })
}
