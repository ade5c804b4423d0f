//! Where the right rows with a key begin.
ghost use Rattle.std.specs.Prelude.{◌≡◌, ◌<◌, ◌≤◌, [], length, slice_index_or};
ghost use Rattle.std.specs.List.{AllByRecursion};
ghost use Rattle.rows.specs.Layouts.{IsRowIn};
ghost use Rattle.hash_join.specs.Table.{rows_of};
ghost use Rattle.merge_join.specs.Sides.{AreBelow, IsStart, Rises, key_order};

use crate::key::keys_order;
use hash_join::Built;
use rows::{KeyPairList, Layout, Row};
use std::cmp::Ordering;

// The order of the key of a right row, by its number, and that of a left row.
fn order_at(
    right: &Built,
    number: u64,
    a: &Row,
    first: &Layout,
    second: &Layout,
    keys: &KeyPairList,
) -> Ordering
    requires one { length right.now.lists ≡ 1 }
    requires fit { AllByRecursion (IsRowIn second.now) (rows_of right.now.lists) }
    requires left { IsRowIn first.now a.now }
    requires within { number < length (rows_of right.now.lists) }
    ensures { result ≡ key_order first.now second.now keys.now a.now
        (slice_index_or (rows_of right.now.lists) number []) }
{
    keys_order(a, right.nth(number), first, second, keys.items())
}

// The number of the first right row whose key isn't below that of a left row, found by halves.
pub(crate) fn first_of(
    right: &Built,
    a: &Row,
    first: &Layout,
    second: &Layout,
    keys: &KeyPairList,
) -> u64
    requires one { length right.now.lists ≡ 1 }
    requires fit { AllByRecursion (IsRowIn second.now) (rows_of right.now.lists) }
    requires left { IsRowIn first.now a.now }
    requires rises { Rises first.now second.now keys.now a.now (rows_of right.now.lists) }
    ensures within { result ≤ length (rows_of right.now.lists) }
    ensures start { IsStart first.now second.now keys.now a.now (rows_of right.now.lists) result }
{
    let mut low = 0;
    let mut high = right.rows();
    while low < high {
        let middle = low + (high - low) / 2;
        if order_at(right, middle, a, first, second, keys).is_lt() {
            low = middle + 1;
        } else {
            high = middle;
        }
    }
    low
}

// The same, in turn from a number on, before which all are below.
pub(crate) fn first_from(
    right: &Built,
    from: u64,
    a: &Row,
    first: &Layout,
    second: &Layout,
    keys: &KeyPairList,
) -> u64
    requires one { length right.now.lists ≡ 1 }
    requires fit { AllByRecursion (IsRowIn second.now) (rows_of right.now.lists) }
    requires left { IsRowIn first.now a.now }
    requires rises { Rises first.now second.now keys.now a.now (rows_of right.now.lists) }
    requires within { from ≤ length (rows_of right.now.lists) }
    requires below { AreBelow first.now second.now keys.now a.now (rows_of right.now.lists) from }
    ensures within { result ≤ length (rows_of right.now.lists) }
    ensures start { IsStart first.now second.now keys.now a.now (rows_of right.now.lists) result }
{
    let count = right.rows();
    for number in from..count {
        if !order_at(right, number, a, first, second, keys).is_lt() {
            return number;
        }
    }
    count
}
