ghost use Rattle.std.specs.Prelude.{◌≡◌, ◌≤◌, All, IfOk, IfSome, IsTrue, length, vec_len};
ghost use Rattle.heap_page.specs.Maps.{HasPages, IsMap};
ghost use Rattle.heap_page.specs.Stores.{HaveRoom};
ghost use Rattle.xp_outside.specs.Memory.{drive_size};
ghost use Rattle.buffer_pool.specs.Seats.{IsSeatOf, pool_map};

use crate::{LonePool, PoolSeat, Shard, SharedPool};
use heap_page::{BadPage, FetchErr, FileKind, FileMap, Page, PageFile, PageSource};
use lists::Sequence;
use std::alloc::{AllocError, Global};
use std::sync::Wait;
use std::test::Fail;
use std::thread;
use std::thread::Threads;
use xp_outside::{Drive, MemDrive, NoMemory, Rack, WildRack};

// The page of this number: it has one item, the bytes of the number.
fn numbered(alloc: Global, number: u32) -> Result<Page, NoMemory> {
    let mut page = Page::empty(alloc, 0, number)?;
    page.push(&number.to_be_bytes());
    Ok(page)
}

// A drive with so many pages, of which the first two are numbered, and whose listed reads fail.
fn numbered_drive(alloc: Global, pages: u32, fails: Vec<u64>) -> Result<MemDrive, NoMemory>
    ensures { IfOk result (λ drive. drive_size drive ≡ pages) }
{
    let fails = Sequence::from_vec(fails);
    let mut drive = MemDrive::new(alloc, pages, fails, Sequence::new(alloc))?;
    for number in 0..pages.min(2) {
        let page = numbered(alloc, number)?;
        let _ = drive.write(number, page.bytes());
    }
    Ok(drive)
}

// What a fetch answers: 0 for a page, the rule that it breaks, or 99 for a failed drive. A row has the kind of the file
// (0 for a heap file), the file, the page and the address.
fn answer_of(alloc: Global, shard: &mut Shard<MemDrive>, row: &[u8]) -> u32
    requires { 2 ≤ drive_size shard.old.drive }
    ensures { drive_size shard.new.drive ≡ drive_size shard.old.drive }
{
    let [kind, file, page, address, _] = row else {
        return 97;
    };
    let kind = if *kind == 0 {
        FileKind::Heap
    } else {
        FileKind::Index
    };
    if *address >= 2 {
        return 97;
    }
    let address = *address as u32;
    match shard.fetch(alloc, kind, *file as u32, *page as u32, address) {
        Ok(_) => 0,
        Err(FetchErr::BadPage(bad)) => bad.rule,
        Err(FetchErr::DriveFault(_)) => 99,
        Err(FetchErr::NoMemory) => 98,
    }
}

#[test]
fn a_cached_page_is_not_read_again(rt: HostRuntime) -> Result<(), Fail> {
    let alloc = rt.alloc();
    let drive = numbered_drive(alloc, 2, vec![in alloc; 4u64]?)?;
    let Ok(mut shard) = Shard::new(alloc, drive, 1) else {
        return Err(AllocError.into());
    };
    // kind, file, page, address and answer: only the fetches of another address than the last page's read
    let table: &[u8] =
        b"\x00\x00\x00\x00\x00\x00\x00\x00\x00\x00\x00\x01\x00\x00\x04\x01\x00\x00\x00\x01\x00\x00\x01\x01\x00\x00\x00\x00\x00\x00\x00\x00\x01\x01\x63\x00\x00\x00\x00\x00\x00\x00\x02\x01\x05\x00\x00\x00\x00\x00";
    for row in table.chunks(5) {
        let answer = answer_of(alloc, &mut shard, row);
        assert_eq!(rt; Some(answer), row.last().map(|byte| *byte as u32));
    }
    assert_eq!(rt; shard.into_drive().faults(), 1);
    Ok(())
}

// One table of so many pages over two drives.
fn one_table(alloc: Global, pages: u32) -> Result<FileMap, NoMemory>
    ensures map { IfOk result (λ map. IsMap map) }
    ensures drives { IfOk result (λ map. map.drives ≡ 2) }
    ensures pages { IfOk result (λ map. HasPages map.files.items 0 pages) }
{
    let file = PageFile {
        kind: FileKind::Heap,
        pages,
    };
    Ok(FileMap {
        files: vec![in alloc; file]?,
        drives: 2,
    })
}

// Whether each drive has the pages that the map needs.
fn have_room<D: Drive>(map: &FileMap, drives: &[D]) -> bool
    requires map { IsMap map.now }
    requires drives { length drives.now ≡ map.now.drives }
    ensures { IsTrue result → HaveRoom D.Drive map.now drives.now }
{
    for number in 0..map.drives {
        if map.needs(number) > drives[number as usize].capacity() as u64 {
            return false;
        }
    }
    true
}

// Writes the numbered pages of the table to their places, where these are on the drives.
fn write_pages<D: Drive>(
    alloc: Global,
    map: &FileMap,
    drives: &mut [D],
    pages: u32,
) -> Result<(), NoMemory>
    requires map { IsMap map.now }
    requires drives { length drives.old ≡ map.now.drives }
    requires pages { HasPages map.now.files.items 0 pages }
    ensures { length drives.new ≡ length drives.old }
{
    for number in 0..pages {
        let page = numbered(alloc, number)?;
        let (place, address) = map.place(0, number);
        let drive = &mut drives[place as usize];
        if address < drive.capacity() {
            let _ = drive.write(address, page.bytes());
        }
    }
    Ok(())
}

// How many pages of the table are fetched and are the numbered ones.
fn right_pages<P: PageSource>(alloc: Global, source: &mut P, pages: u32) -> u32
    requires { HasPages (P.files (P.whole source.old)) 0 pages }
    ensures { P.whole source.new ≡ P.whole source.old }
{
    let mut right: u32 = 0;
    for number in 0..pages {
        if let Ok(found) = source.fetch(alloc, 0, number) {
            if let Ok(page) = numbered(alloc, number) {
                if found.bytes() == page.bytes() {
                    right = right.saturating_add(1);
                }
            }
        }
    }
    right
}

// Two drives of five pages, of which the first fails at its listed reads.
fn two_drives(alloc: Global, fails: Vec<u64>) -> Result<Vec<MemDrive>, NoMemory>
    ensures { IfOk result (λ drives. vec_len drives ≡ 2) }
{
    let first = numbered_drive(alloc, 5, fails)?;
    let second = numbered_drive(alloc, 5, Vec::new(alloc))?;
    Ok(vec![in alloc; first, second]?)
}

#[test]
fn a_lone_pool_gives_the_pages_of_its_files(rt: HostRuntime) -> Result<(), Fail> {
    let alloc = rt.alloc();
    let map = one_table(alloc, 10)?;
    let mut drives = two_drives(alloc, vec![in alloc; 2u64]?)?;
    write_pages(alloc, &map, &mut drives, 10)?;
    if !have_room(&map, &drives) {
        return Err(AllocError.into());
    }
    let Ok(mut pool) = LonePool::new(alloc, drives, &map, 4) else {
        return Err(AllocError.into());
    };
    assert_eq!(rt; right_pages(alloc, &mut pool, 10), 9);
    assert_eq!(rt; right_pages(alloc, &mut pool, 10), 10);
    let drives = pool.into_drives();
    assert_eq!(rt; drives.len(), 2);
    let failed = drives.iter().filter(|drive| drive.faults() == 1);
    assert_eq!(rt; failed.count(), 1);
    Ok(())
}

#[test]
fn a_wild_drive_gives_a_bad_page(rt: HostRuntime) -> Result<(), Fail> {
    let alloc = rt.alloc();
    let map = one_table(alloc, 10)?;
    let Ok(mut drives) = WildRack::new(5, 8, 1).mount(alloc, 2) else {
        return Err(AllocError.into());
    };
    write_pages(alloc, &map, &mut drives, 10)?;
    if !have_room(&map, &drives) {
        return Err(AllocError.into());
    }
    let Ok(mut pool) = LonePool::new(alloc, drives, &map, 1) else {
        return Err(AllocError.into());
    };
    let bad = BadPage {
        file: 0,
        page: 3,
        rule: 4,
    };
    let answer = pool.fetch(alloc, 0, 3).err();
    assert_eq!(rt; pool.into_drives().len(), 2);
    assert!(rt; answer == Some(FetchErr::BadPage(bad)));
    Ok(())
}

// A thread's seat, and how many of the pages that it fetched were right.
#[derive(Drop)]
struct Reader {
    seat: Option<PoolSeat<MemDrive>>,
    right: u32,
}

fn read_all<R: Wait>(
    rt: &R,
    alloc: Global,
    pool: &SharedPool<MemDrive>,
    pages: u32,
    reader: &mut Reader,
)
    requires seat { IfSome reader.old.seat (IsSeatOf pool.now) }
    requires pages { HasPages (pool_map pool.now).files.items 0 pages }
    ensures { IfSome reader.new.seat (IsSeatOf pool.now) }
{
    let Some(seat) = reader.seat.take() else {
        return;
    };
    let mut source = pool.source(rt, seat);
    reader.right = right_pages(alloc, &mut source, pages);
    reader.seat = Some(source.into_seat());
}

// So many readers, each with a seat.
fn readers(
    alloc: Global,
    pool: &SharedPool<MemDrive>,
    seat: &mut PoolSeat<MemDrive>,
    count: u32,
) -> Vec<Reader>
    requires { IsSeatOf pool.now seat.old }
    ensures seat { IsSeatOf pool.now seat.new }
    ensures team { All (λ reader. IfSome reader.seat (IsSeatOf pool.now)) result.items }
{
    let mut team = Vec::new(alloc);
    for _number in 0..count {
        let Ok(seat) = seat.split(alloc, pool) else {
            break;
        };
        let reader = Reader {
            seat: Some(seat),
            right: 0,
        };
        if team.push(reader).is_err() {
            break;
        }
    }
    team
}

fn join_all(pool: &SharedPool<MemDrive>, seat: &mut PoolSeat<MemDrive>, team: Vec<Reader>)
    requires seat { IsSeatOf pool.now seat.old }
    requires team { All (λ reader. IfSome reader.seat (IsSeatOf pool.now)) team.items }
    ensures { IsSeatOf pool.now seat.new }
{
    for reader in team {
        if let Some(other) = reader.seat {
            seat.join(pool, other);
        }
    }
}

// How many of two threads that fetch all pages get all of them, and how many drives come back.
fn read_by_two<R: Threads + Wait + Sync>(
    rt: &R,
    alloc: Global,
    pool: SharedPool<MemDrive>,
    seat: PoolSeat<MemDrive>,
    pages: u32,
) -> (usize, usize)
    requires seat { IsSeatOf pool seat }
    requires pages { HasPages (pool_map pool).files.items 0 pages }
{
    let mut seat = seat;
    let mut team = readers(alloc, &pool, &mut seat, 2);
    thread::for_each_mut(
        rt,
        team.as_mut_slice(),
        2,
        &|_, reader| { read_all(rt, alloc, &pool, pages, reader) },
    );
    let right = team.iter().filter(|reader| reader.right == pages).count();
    join_all(&pool, &mut seat, team);
    let drives = pool.close(rt, seat);
    (right, drives.len())
}

#[test]
fn two_threads_fetch_the_same_pages(rt: HostRuntime) -> Result<(), Fail> {
    let alloc = rt.alloc();
    let map = one_table(alloc, 10)?;
    let mut drives = two_drives(alloc, Vec::new(alloc))?;
    write_pages(alloc, &map, &mut drives, 10)?;
    if !have_room(&map, &drives) {
        return Err(AllocError.into());
    }
    let Ok((pool, seat)) = SharedPool::new(&rt, alloc, drives, &map, 2) else {
        return Err(AllocError.into());
    };
    assert_eq!(rt; read_by_two(&rt, alloc, pool, seat, 10), (2, 2));
    Ok(())
}
