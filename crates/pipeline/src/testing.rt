//! Whether an item passes tests, seen where its bytes lie.
ghost use Rattle.std.specs.Prelude.{◌≡◌, IfSome, map};
ghost use Rattle.rows.specs.Layouts.{FitsColumns, column_in};
ghost use Rattle.rows.specs.RowFields.{row_in};
ghost use Rattle.rel_meaning.specs.Expression.{expression_of};
ghost use Rattle.rel_meaning.specs.Meaning.{layout_column};
ghost use Rattle.plan_tree.specs.Conjuncts.{all_met};
ghost use Rattle.plan_tree.specs.WellFormed.{AreTests};
ghost use Rattle.plan_tree.specs.Fragments.{source_layout};
ghost use Rattle.plan_tree.specs.Pieces.{piece_of};
ghost use Rattle.pipeline.specs.Positions.{IsFormed, IsScan};
ghost use Rattle.pipeline.specs.Scans.{item_meets, scanned};

use plan_tree::{Fragment, Pipe, Source};
use rel_meaning::{Expr, meets_view};
use rows::{RowReader, RowView};

// The row whose bytes these are.
pub(crate) fn read_row<'a>(reader: &RowReader<'a>, item: &'a [u8]) -> Option<RowView<'a>>
    ensures row { result ≡ row_in reader.now item.now }
    ensures fits { IfSome result (FitsColumns (map layout_column reader.now)) }
{
    reader.read(item)
}

// Whether all tests are true for a row of a variable.
pub(crate) fn are_met<'a>(
    tests: &'a [Expr],
    reader: &RowReader<'a>,
    row: &RowView<'a>,
    var: u32,
) -> bool
    requires tests { AreTests (scanned var reader.now) (map expression_of tests.now) }
    requires row { FitsColumns (map layout_column reader.now) row.now }
    ensures { result ≡ all_met (map expression_of tests.now) (column_in (scanned var reader.now) row.now) }
{
    for test in tests {
        if !meets_view(test, row, var) {
            return false;
        }
    }
    true
}

// Whether all tests of a pipe are true for the row of a variable whose bytes the item has. It is `None` exactly where the
// item is no row of the columns.
fn item_meets(pipe: &Pipe, var: u32, item: &[u8]) -> Option<bool>
    requires { AreTests (scanned var pipe.now.columns) (map expression_of pipe.now.tests) }
    ensures { result ≡ item_meets (scanned var pipe.now.columns) pipe.now.columns (map expression_of pipe.now.tests) item.now }
{
    let reader = RowReader::of(&pipe.columns);
    match read_row(&reader, item) {
        Some(row) => Some(are_met(pipe.tests.items(), &reader, &row, var)),
        None => None,
    }
}

/// Whether all tests of a fragment's pipe are true for the row whose bytes the item has. It is `None` exactly where the item
/// is no row of the pipe's columns. The fragment scans a heap file or an index. It takes no memory.
pub fn meets(fragment: &Fragment, item: &[u8]) -> Option<bool>
    requires formed { IsFormed (piece_of fragment.now) }
    requires scan { IsScan fragment.now.pipe.source }
    ensures { result ≡ item_meets (source_layout fragment.now.pipe.source fragment.now.pipe.columns) fragment.now.pipe.columns (map expression_of fragment.now.pipe.tests) item.now }
{
    match &fragment.pipe.source {
        Source::Heap { var, .. } => item_meets(&fragment.pipe, *var, item),
        Source::Index { var, .. } => item_meets(&fragment.pipe, *var, item),
        Source::One | Source::Merge { .. } => unreachable!(),
    }
}
