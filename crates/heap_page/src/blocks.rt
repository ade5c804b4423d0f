//! How many pages a table needs.
ghost use Rattle.std.specs.Prelude.{◌≡◌, ◌<◌, ◌≤◌, ◌+◌, ℕ, List, All, length};
ghost use Rattle.heap_page.specs.Blocks.{ArePages, FitsAlone, blocks_of, item_weight};

use crate::ItemList;
use xp_outside::PAGE;

// How many bytes an item takes: its own and its line pointer.
fn taken(item: &[u8]) -> usize
    requires { FitsAlone item.now }
    ensures { result ≡ item_weight item.now }
{
    4 + item.len()
}

// How many pages a table with an item needs.
fn count_pages(items: &ItemList) -> u32
    requires some { 0 < length items.now }
    requires number { length items.now ≤ 1000000 }
    requires items { All FitsAlone items.now }
    ensures { result ≡ length (blocks_of item_weight 8172 items.now) }
{
    let mut pages = 1u32;
    let mut used = taken(items.get(0));
    for number in 1..items.len() {
        let more = taken(items.get(number));
        if used + more <= PAGE - 20 {
            used += more;
        } else {
            used = more;
            pages += 1;
        }
    }
    pages
}

/// How many pages a table with these items needs. It takes no memory.
pub fn pages_of(items: &ItemList) -> u32
    requires number { length items.now ≤ 1000000 }
    requires items { All FitsAlone items.now }
    ensures { (blocks : List (List (List ℕ))) → ArePages items.now blocks → result ≡ length blocks }
{
    if items.is_empty() {
        0
    } else {
        count_pages(items)
    }
}
