//! Reading one entry of an index page.
ghost use Rattle.std.specs.Prelude.{◌≡◌};
ghost use Rattle.std.specs.Option.{option_map};
ghost use Rattle.rows.specs.RowSeen.{seen};
ghost use Rattle.key_index.specs.Aims.{passes, seen_item, seen_item_front};
ghost use Rattle.key_index.specs.Readings.{item_front, tail_front};

use crate::aim::Aim;
use crate::key::compare_key;
use crate::page_entry::Entry;
use heap_page::{read_long, read_short};
use rows::{ColType, ValueView, typed_front};

// Whether an entry is counted.
pub(crate) fn is_counted(aim: Aim<'_>, entry: &Entry<'_>) -> bool
    ensures { result ≡ passes aim.entry (seen_item entry.now) }
{
    match aim {
        Aim::Below(key) => compare_key(entry.key, key).is_lt(),
        Aim::UpTo(key) => compare_key(entry.key, key).is_le(),
        Aim::Number(number) => entry.left <= u64::from(number),
    }
}

// What follows a key in a leaf.
fn read_leaf_tail<'a>(
    key: ValueView<'a>,
    number: u64,
    bytes: &'a [u8],
) -> Option<(Entry<'a>, &'a [u8])>
    ensures { option_map seen_item_front result ≡ tail_front 0 number (seen key.entry) bytes.now }
{
    if bytes.len() < 6 {
        return None;
    }
    let page = read_long(bytes, 0);
    let slot = u32::from(read_short(bytes, 4));
    Some((
        Entry {
            key,
            page,
            slot,
            left: number,
        },
        bytes.split_at(6).1,
    ))
}

// What follows a key above the leaves.
fn read_node_tail<'a>(key: ValueView<'a>, bytes: &'a [u8]) -> Option<(Entry<'a>, &'a [u8])>
    ensures { option_map seen_item_front result ≡ tail_front 1 0 (seen key.entry) bytes.now }
{
    if bytes.len() < 8 {
        return None;
    }
    let page = read_long(bytes, 0);
    let left = u64::from(read_long(bytes, 4));
    Some((
        Entry {
            key,
            page,
            slot: 0,
            left,
        },
        bytes.split_at(8).1,
    ))
}

fn read_tail<'a>(
    key: ValueView<'a>,
    level: u32,
    number: u64,
    bytes: &'a [u8],
) -> Option<(Entry<'a>, &'a [u8])>
    ensures { option_map seen_item_front result ≡ tail_front level number (seen key.entry) bytes.now }
{
    if level == 0 {
        read_leaf_tail(key, number, bytes)
    } else {
        read_node_tail(key, bytes)
    }
}

// The first entry of some bytes, where it is there in whole, and the bytes behind it.
pub(crate) fn read_entry(
    bytes: &[u8],
    key_type: ColType,
    level: u32,
    number: u64,
) -> Option<(Entry<'_>, &[u8])>
    ensures { option_map seen_item_front result ≡ item_front key_type level number bytes.now }
{
    match typed_front(key_type, bytes) {
        Some((key, rest)) => read_tail(key, level, number, rest),
        None => None,
    }
}
