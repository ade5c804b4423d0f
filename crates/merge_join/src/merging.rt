//! The rows of a slice.
ghost use Rattle.std.specs.Prelude.{◌≡◌, ◌<◌, ◌≤◌, ◌+◌, ◌-◌, ◌++◌, [], map, filter, take, drop, length, slice_index_or, IfOk, OnOk};
ghost use Rattle.std.specs.List.{AllByRecursion, list_any};
ghost use Rattle.std.specs.Ordering.{is_eq};
ghost use Rattle.rows.specs.Keys.{keys_match};
ghost use Rattle.rows.specs.Layouts.{IsRowIn};
ghost use Rattle.rows.specs.Values.{is_null};
ghost use Rattle.hash_join.specs.Table.{row_key, rows_of};
ghost use Rattle.plan_tree.specs.Combining.{combined, merged};
ghost use Rattle.plan_tree.specs.Fragments.{matched, merge_slices, slice_of};
ghost use Rattle.merge_join.specs.Sides.{ArePassed, IsSide, IsStart, Rises, left_columns, matches_of, of_key, right_columns, with_each};

use crate::combining::combined_row;
use crate::key::{holds_null, keys_order};
use crate::layouts::merged_layout;
use crate::search::{first_from, first_of};
use crate::slices::slice_start;
use hash_join::Built;
use rows::{KeyPairList, Layout, Row, Rows};
use std::alloc::{AllocError, Global};

// Adds a left row with each right row whose key is equal; they stand side by side from a number on.
fn put_run(
    out: &mut Vec<Row>,
    alloc: Global,
    layout: &Layout,
    a: &Row,
    right: &Built,
    start: u64,
    first: &Layout,
    second: &Layout,
    keys: &KeyPairList,
) -> Result<(), AllocError>
    requires one { length right.now.lists ≡ 1 }
    requires fit { AllByRecursion (IsRowIn second.now) (rows_of right.now.lists) }
    requires left { IsRowIn first.now a.now }
    requires rises { Rises first.now second.now keys.now a.now (rows_of right.now.lists) }
    requires within { start ≤ length (rows_of right.now.lists) }
    requires start { IsStart first.now second.now keys.now a.now (rows_of right.now.lists) start }
    ensures { OnOk result (out.new.items ≡ out.old.items ++ with_each layout.now first.now
        second.now a.now
        (of_key first.now second.now keys.now a.now (rows_of right.now.lists))) }
{
    let count = right.rows();
    for number in start..count {
        let b = right.nth(number);
        if !keys_order(a, b, first, second, keys.items()).is_eq() {
            return Ok(());
        }
        out.push(combined_row(alloc, layout, first, second, a, b)?)?;
    }
    Ok(())
}

// Adds a left row with each right row that has its key, and none where that holds null.
fn put_matches(
    out: &mut Vec<Row>,
    alloc: Global,
    layout: &Layout,
    a: &Row,
    right: &Built,
    start: u64,
    first: &Layout,
    second: &Layout,
    keys: &KeyPairList,
) -> Result<(), AllocError>
    requires one { length right.now.lists ≡ 1 }
    requires fit { AllByRecursion (IsRowIn second.now) (rows_of right.now.lists) }
    requires left { IsRowIn first.now a.now }
    requires rises { Rises first.now second.now keys.now a.now (rows_of right.now.lists) }
    requires within { start ≤ length (rows_of right.now.lists) }
    requires start { IsStart first.now second.now keys.now a.now (rows_of right.now.lists) start }
    ensures { OnOk result (out.new.items ≡ out.old.items ++ with_each layout.now first.now
        second.now a.now
        (matches_of first.now second.now keys.now a.now (rows_of right.now.lists))) }
{
    if holds_null(a, first, keys.items()) {
        return Ok(());
    }
    put_run(out, alloc, layout, a, right, start, first, second, keys)
}

// Adds what a left row matches, and gives the number of the first right row whose key isn't below.
fn put_row(
    out: &mut Vec<Row>,
    alloc: Global,
    layout: &Layout,
    left: &Built,
    number: u64,
    right: &Built,
    start: u64,
    first: &Layout,
    second: &Layout,
    keys: &KeyPairList,
) -> Result<u64, AllocError>
    requires left { IsSide first.now (left_columns keys.now) left.now.lists }
    requires right { IsSide second.now (right_columns keys.now) right.now.lists }
    requires number { number < length (rows_of left.now.lists) }
    requires within { start ≤ length (rows_of right.now.lists) }
    requires passed { ArePassed first.now second.now keys.now (rows_of left.now.lists)
        (rows_of right.now.lists) number start }
    ensures within { IfOk result (λ next. next ≤ length (rows_of right.now.lists)) }
    ensures passed { IfOk result (ArePassed first.now second.now keys.now (rows_of left.now.lists)
        (rows_of right.now.lists) number) }
    ensures added { OnOk result (out.new.items ≡ out.old.items ++ with_each layout.now first.now
        second.now (slice_index_or (rows_of left.now.lists) number [])
        (matches_of first.now second.now keys.now
        (slice_index_or (rows_of left.now.lists) number []) (rows_of right.now.lists))) }
{
    let a = left.nth(number);
    let next = first_from(right, start, a, first, second, keys);
    put_matches(out, alloc, layout, a, right, next, first, second, keys)?;
    Ok(next)
}

// The number of the first right row that isn't below the left row of a number, and 0 where there is
// no such left row.
fn first_start(
    left: &Built,
    number: u64,
    right: &Built,
    first: &Layout,
    second: &Layout,
    keys: &KeyPairList,
) -> u64
    requires left { IsSide first.now (left_columns keys.now) left.now.lists }
    requires right { IsSide second.now (right_columns keys.now) right.now.lists }
    ensures within { result ≤ length (rows_of right.now.lists) }
    ensures passed { ArePassed first.now second.now keys.now (rows_of left.now.lists)
        (rows_of right.now.lists) number result }
{
    if number >= left.rows() {
        return 0;
    }
    first_of(right, left.nth(number), first, second, keys)
}

// Adds what the left rows between two numbers match.
fn put_rows(
    out: &mut Vec<Row>,
    alloc: Global,
    layout: &Layout,
    left: &Built,
    from: u64,
    upto: u64,
    right: &Built,
    first: &Layout,
    second: &Layout,
    keys: &KeyPairList,
) -> Result<(), AllocError>
    requires layout { layout.now ≡ merged first.now second.now }
    requires left { IsSide first.now (left_columns keys.now) left.now.lists }
    requires right { IsSide second.now (right_columns keys.now) right.now.lists }
    requires within { upto ≤ length (rows_of left.now.lists) }
    ensures { OnOk result (out.new.items ≡ out.old.items ++ matched first.now second.now
        keys.now (take (upto - from) (drop from (rows_of left.now.lists)))
        (rows_of right.now.lists)) }
{
    let mut start = first_start(left, from, right, first, second, keys);
    for number in from..upto {
        start = put_row(
            out, alloc, layout, left, number, right, start, first, second, keys,
        )?;
    }
    Ok(())
}

/// Each left row of a slice with each right row that has its keys, none of them null, in the order
/// of the left rows and then of the right ones. The left side is cut into 64 slices, numbered from
/// 0.
/// The rows of each side are of its layout and stand in one list, in the order of its key columns.
/// An error is want of memory.
pub fn merge_slice(
    alloc: Global,
    left: &Built,
    right: &Built,
    left_layout: &Layout,
    right_layout: &Layout,
    keys: &KeyPairList,
    slice: u32,
) -> Result<Rows, AllocError>
    requires left { IsSide left_layout.now (left_columns keys.now) left.now.lists }
    requires right { IsSide right_layout.now (right_columns keys.now) right.now.lists }
    requires slice { slice < merge_slices }
    ensures { IfOk result (λ rows. rows ≡ matched left_layout.now right_layout.now keys.now
        (slice_of slice (rows_of left.now.lists)) (rows_of right.now.lists)) }
{
    let layout = merged_layout(alloc, left_layout, right_layout)?;
    let count = left.rows();
    let from = slice_start(count, slice as u64);
    let upto = slice_start(count, slice as u64 + 1);
    let mut out = Vec::new(alloc);
    put_rows(
        &mut out,
        alloc,
        &layout,
        left,
        from,
        upto,
        right,
        left_layout,
        right_layout,
        keys,
    )?;
    Ok(Rows::from_vec(out))
}
