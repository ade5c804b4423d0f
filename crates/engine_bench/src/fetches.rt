//! Pages of a shared pool that keeps them all, fetched by threads.
ghost use Rattle.std.specs.Prelude.{◌≡◌, ◌<◌, All, IfSome};
ghost use Rattle.heap_page.specs.Maps.{HasPages};
ghost use Rattle.buffer_pool.specs.Seats.{IsSeatOf, pool_map};

use crate::disk::have_room;
use crate::errors::BenchErr;
use crate::heap::{HeapFile, write_heap};
use buffer_pool::{PoolSeat, SharedPool};
use heap_page::PageSource;
use std::alloc::Global;
use std::sync::Wait;
use std::thread;
use std::thread::Threads;
use xp_outside::MemDrive;

// The heap file has so many rows.
const ROWS: u32 = 100_000;

// A thread's seat, the page that it begins with, and how many of its fetches were answered.
#[derive(Drop)]
struct Reader {
    seat: Option<PoolSeat<MemDrive>>,
    first: u32,
    answered: u32,
}

// How many of so many fetches are answered: the pages in turn from the first one on, again and again.
fn fetch_in_turn<P: PageSource>(
    alloc: Global,
    source: &mut P,
    pages: u32,
    first: u32,
    fetches: u32,
) -> u32
    requires some { 0 < pages }
    requires pages { HasPages (P.files (P.whole source.old)) 0 pages }
    ensures { P.whole source.new ≡ P.whole source.old }
{
    let mut answered = 0u32;
    for number in 0..fetches {
        let page = first.wrapping_add(number) % pages;
        if source.fetch(alloc, 0, page).is_ok() {
            answered = answered.saturating_add(1);
        }
    }
    answered
}

// One thread's fetches.
fn read<R: Wait>(
    rt: &R,
    alloc: Global,
    pool: &SharedPool<MemDrive>,
    pages: u32,
    fetches: u32,
    reader: &mut Reader,
)
    requires some { 0 < pages }
    requires seat { IfSome reader.old.seat (IsSeatOf pool.now) }
    requires pages { HasPages (pool_map pool.now).files.items 0 pages }
    ensures { IfSome reader.new.seat (IsSeatOf pool.now) }
{
    let Some(seat) = reader.seat.take() else {
        return;
    };
    let mut source = pool.source(rt, seat);
    reader.answered = fetch_in_turn(alloc, &mut source, pages, reader.first, fetches);
    reader.seat = Some(source.into_seat());
}

// Fetches each page once, so that it is kept.
fn warm<R: Wait>(
    rt: &R,
    alloc: Global,
    pool: &SharedPool<MemDrive>,
    pages: u32,
    seat: PoolSeat<MemDrive>,
) -> PoolSeat<MemDrive>
    requires some { 0 < pages }
    requires seat { IsSeatOf pool.now seat }
    requires pages { HasPages (pool_map pool.now).files.items 0 pages }
    ensures { IsSeatOf pool.now result }
{
    let mut source = pool.source(rt, seat);
    fetch_in_turn(alloc, &mut source, pages, 0, pages);
    source.into_seat()
}

// So many readers, each with a seat and a first page of its own.
fn readers(
    alloc: Global,
    pool: &SharedPool<MemDrive>,
    seat: &mut PoolSeat<MemDrive>,
    count: u32,
) -> Vec<Reader>
    requires { IsSeatOf pool.now seat.old }
    ensures seat { IsSeatOf pool.now seat.new }
    ensures team { All (λ reader. IfSome reader.seat (IsSeatOf pool.now)) result.items }
{
    let mut team = Vec::new(alloc);
    for number in 0..count {
        let Ok(seat) = seat.split(alloc, pool) else {
            break;
        };
        let reader = Reader {
            seat: Some(seat),
            first: number,
            answered: 0,
        };
        if team.push(reader).is_err() {
            break;
        }
    }
    team
}

// Takes back the readers' seats, and gives how many fetches were answered.
fn join_all(pool: &SharedPool<MemDrive>, seat: &mut PoolSeat<MemDrive>, team: Vec<Reader>) -> u32
    requires seat { IsSeatOf pool.now seat.old }
    requires team { All (λ reader. IfSome reader.seat (IsSeatOf pool.now)) team.items }
    ensures { IsSeatOf pool.now seat.new }
{
    let mut answered = 0u32;
    for reader in team {
        answered = answered.saturating_add(reader.answered);
        if let Some(other) = reader.seat {
            seat.join(pool, other);
        }
    }
    answered
}

// How many fetches so many threads get answered.
fn fetch_by_all<R: Threads + Wait + Sync>(
    rt: &R,
    alloc: Global,
    pool: SharedPool<MemDrive>,
    seat: PoolSeat<MemDrive>,
    pages: u32,
    threads: u32,
    fetches: u32,
) -> u32
    requires some { 0 < pages }
    requires seat { IsSeatOf pool seat }
    requires pages { HasPages (pool_map pool).files.items 0 pages }
{
    let mut seat = warm(rt, alloc, &pool, pages, seat);
    let mut team = readers(alloc, &pool, &mut seat, threads);
    thread::for_each_mut(
        rt,
        team.as_mut_slice(),
        threads.max(1) as usize,
        &|_, reader| { read(rt, alloc, &pool, pages, fetches, reader) },
    );
    let answered = join_all(&pool, &mut seat, team);
    let _drives = pool.close(rt, seat);
    answered
}

/// Writes a heap file, and lets one to eight threads fetch so many of its pages each through a pool that keeps them all.
/// It gives how many fetches were answered.
#[tactic(auto, using(crate::proofs::Files::has_pages))]
pub fn fetch_cached<R: Threads + Wait + Sync>(
    rt: &R,
    alloc: Global,
    threads: u32,
    fetches: u32,
) -> Result<u32, BenchErr> {
    let HeapFile { map, drives, pages } = write_heap(alloc, ROWS)?;
    if pages == 0 || !have_room(&map, &drives) {
        return Err(BenchErr::NoRoom);
    }
    let frames = pages.saturating_mul(map.drives);
    let Ok((pool, seat)) = SharedPool::new(rt, alloc, drives, &map, frames) else {
        return Err(BenchErr::NoMemory);
    };
    let threads = threads.clamp(1, 8);
    Ok(fetch_by_all(rt, alloc, pool, seat, pages, threads, fetches))
}
