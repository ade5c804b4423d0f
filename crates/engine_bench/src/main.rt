//! Parts of the engine, for timing. What it prints is the same whatever the clock says, but where `times` is said.
//!
//! `engine_bench board [times]`: a scan of a million positions runs through eight roles while its degree changes 64 times.
//! `engine_bench control [times]`: a control runs a million positions through four backends, with sixteen decisions.
//! `engine_bench history`: a small run, and its history.
//! `engine_bench named|mutex THREADS TURNS`: so many threads take so many turns each, under the named lock or std's mutex.
//! `engine_bench cached THREADS FETCHES`: so many threads fetch so many pages each through a shared pool that keeps all.
//! `engine_bench entries COUNT [SIZE]`: so many entries of an index with 1,000,000 of them, or with SIZE, are fetched in a
//! random order through a pool of 64 pages.
//! `engine_bench hashes ROWS [times]`: so many keys are looked up in a hash table of as many rows.
//! `engine_bench heap ROWS` writes a heap file of so many rows, and `engine_bench index ROWS` also the index over as many
//! entries.
//! `engine_bench folds ROWS`: so many rows of 1,000 groups, in parts of 330, are made and folded; `engine_bench rows ROWS`
//! makes them alone.
//! Without words it does a little of each.
#![tactic(auto)]

mod board;
mod control;
mod disk;
mod errors;
mod fetches;
mod folds;
mod hashes;
mod heap;
mod index;
mod lock;
mod look_ups;
mod page_scans;
mod tally;

use board::run_boards;
use control::{print_history, run_control};
use errors::BenchErr;
use fetches::fetch_cached;
use folds::{fold_rows, make_rows};
use hashes::run_hashes;
use heap::write_heap;
use index::write_entries;
use lock::{under_mutex, under_named_lock};
use look_ups::look_up;
use std::alloc::Global;
use std::sync::Wait;
use std::thread::Threads;
use std::{env, io};

// The number that stands at a place among the words.
fn number_in(words: &[String], place: usize) -> Option<u32> {
    match words.get(place) {
        Some(word) => word.parse().ok(),
        None => None,
    }
}

// How many pages a heap file and its index have.
fn write_both(alloc: Global, rows: u32) -> Result<u32, BenchErr> {
    let heap = write_heap(alloc, rows)?;
    let index = write_entries(alloc, rows)?;
    Ok(heap.pages.saturating_add(index.index.pages))
}

// Does what the words behind the program's name say, and gives the number to be printed.
fn count<R: Threads + Wait + Sync>(
    rt: &R,
    alloc: Global,
    kind: &str,
    words: &[String],
) -> Result<u64, BenchErr> {
    let Some(first) = number_in(words, 2) else {
        return Err(BenchErr::Unknown);
    };
    let second = number_in(words, 3);
    let turns = u64::from(second.unwrap_or(0));
    match kind {
        "named" => Ok(under_named_lock(rt, alloc, first as usize, turns)?),
        "mutex" => Ok(under_mutex(rt, alloc, first as usize, turns)?),
        "cached" => Ok(u64::from(fetch_cached(rt, alloc, first, second.unwrap_or(0))?)),
        "entries" => Ok(u64::from(look_up(alloc, first, second.unwrap_or(1_000_000))?)),
        "folds" => Ok(fold_rows(alloc, first)?),
        "rows" => Ok(make_rows(alloc, first)?),
        "heap" => Ok(u64::from(write_heap(alloc, first)?.pages)),
        "index" => Ok(u64::from(write_both(alloc, first)?)),
        _ => Err(BenchErr::Unknown),
    }
}

// A little of each, for the stored run of the program.
fn run_all<R: Threads + Wait + Sync>(rt: &R, alloc: Global) -> Result<(u64, u64), BenchErr> {
    let turns = under_named_lock(rt, alloc, 4, 10_000)?;
    let found = look_up(alloc, 1_000, 1_000_000)?;
    Ok((turns, u64::from(found)))
}

fn main(rt: HostRuntime) -> io::Result<()> {
    let words: Vec<String> = env::args(&rt)?.collect(rt.alloc())?;
    let Some(kind) = words.get(1) else {
        run_boards(&rt, false)?;
        run_hashes(&rt, 1_000, false)?;
        run_control(&rt, false)?;
        print_history(&rt)?;
        return match run_all(&rt, rt.alloc()) {
            Ok((turns, found)) => println!(rt; "{turns} turns, {found} entries"),
            Err(error) => println!(rt; "{error}"),
        };
    };
    if kind.as_str() == "board" {
        return run_boards(&rt, words.get(2).is_some());
    }
    if kind.as_str() == "control" {
        return run_control(&rt, words.get(2).is_some());
    }
    if kind.as_str() == "history" {
        return print_history(&rt);
    }
    if kind.as_str() == "hashes" {
        let rows = number_in(words.as_slice(), 2).unwrap_or(0);
        return run_hashes(&rt, rows, words.get(3).is_some());
    }
    match count(&rt, rt.alloc(), kind.as_str(), words.as_slice()) {
        Ok(number) => println!(rt; "{number}"),
        Err(error) => println!(rt; "{error}"),
    }
}
