//! Entries of an index, fetched in a random order.
ghost use Rattle.std.specs.Prelude.{◌≡◌, ◌<◌, IsTrue};
ghost use Rattle.key_index.specs.Searches.{HasIndex, IsUsable};

use crate::disk::have_room;
use crate::errors::BenchErr;
use crate::index::{IndexFile, place_of, write_entries};
use buffer_pool::LonePool;
use heap_page::PageSource;
use key_index::entry;
use rows::KeyIndex;
use std::alloc::Global;

// How many pages the pool keeps.
const FRAMES: u32 = 64;

// Whether a search can be made: the index has a page and a level.
fn is_usable(index: &KeyIndex) -> bool
    ensures { IsTrue result → IsUsable index.now }
{
    index.pages > 0 && index.height > 0
}

// The next of the random numbers.
fn next(state: u64) -> u64 {
    state
        .wrapping_mul(6_364_136_223_846_793_005)
        .wrapping_add(1_442_695_040_888_963_407)
}

// Whether the entry of this number is answered with its place.
fn is_right<P: PageSource>(alloc: Global, index: &KeyIndex, pages: &mut P, number: u32) -> bool
    requires file { HasIndex (P.files (P.whole pages.old)) index.now }
    requires some { IsUsable index.now }
    requires number { number < index.now.entries }
    ensures { P.whole pages.new ≡ P.whole pages.old }
{
    match entry(alloc, index, pages, number) {
        Ok(place) => place == place_of(number),
        Err(_) => false,
    }
}

// How many of so many entries are answered right.
fn count_right<P: PageSource>(alloc: Global, index: &KeyIndex, pages: &mut P, count: u32) -> u32
    requires file { HasIndex (P.files (P.whole pages.old)) index.now }
    requires some { IsUsable index.now }
{
    let mut right = 0u32;
    let mut state = 7u64;
    for _call in 0..count {
        state = next(state);
        let Some(number) = ((state >> 33) as u32).checked_rem(index.entries) else {
            return 0;
        };
        if is_right(alloc, index, pages, number) {
            right = right.saturating_add(1);
        }
    }
    right
}

/// Writes an index of so many entries, and fetches `count` of them. It gives how many were
/// answered with their places.
#[tactic(auto, using(crate::proofs::Files::has_index))]
pub fn look_up(alloc: Global, count: u32, size: u32) -> Result<u32, BenchErr> {
    let IndexFile { index, map, drives } = write_entries(alloc, size)?;
    if !is_usable(&index) {
        return Ok(0);
    }
    if !have_room(&map, &drives) {
        return Err(BenchErr::NoRoom);
    }
    let Ok(mut pool) = LonePool::new(alloc, drives, &map, FRAMES) else {
        return Err(BenchErr::NoMemory);
    };
    let right = count_right(alloc, &index, &mut pool, count);
    let _drives = pool.into_drives();
    Ok(right)
}
