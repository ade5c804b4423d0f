ghost use Rattle.std.specs.Prelude.{◌≡◌, ◌∷◌, [], IfOk, IsTrue, length};
ghost use Rattle.heap_page.specs.declared.head.FileKind.TheVariants.{Index};
ghost use Rattle.heap_page.specs.Maps.{HasPages, IsMap};
ghost use Rattle.key_index.specs.Searches.{HasIndex, IsUsable};

use crate::{are_entries, entry, interval, plan_index, rank_high, rank_low, write_index};
use heap_page::{
    BadPage, FetchErr, FileKind, FileMap, Page, PageFile, PageSource, StoreErr, check_head,
};
use lists::Sequence;
use rows::{Bound, BoundOp, ColType, Interval, KeyEntry, KeyEntryList, KeyIndex, Text, Value};
use std::alloc::Global;
use std::sync::Arc;
use std::test::Fail;
use xp_outside::{Drive, MemDrive, NoMemory, PAGE};

// The pages of an index file. It tells nothing.
#[derive(Drop)]
struct PageList {
    pages: Vec<Vec<u8>>,
    count: u32,
}

impl PageSource for PageList {
    ghost use Rattle.std.specs.Prelude.{None, [], ◌∷◌, true};
    ghost use Rattle.heap_page.specs.declared.head.FileKind.TheVariants.{Index};

    type Whole = u32;

    ghost whole = { λ s. s.count };

    ghost drives = { λ _. 0 };

    ghost files = { λ pages. record { kind = Index; pages = pages } ∷ [] };

    ghost image = { λ _. None };

    ghost faults = { λ _ _. 0 };

    ghost lone = { λ _. true };

    fn fetch(&mut self, alloc: Global, file: u32, page: u32) -> Result<Arc<Page>, FetchErr> {
        let bytes = match self.pages.get(page as usize) {
            Some(bytes) if bytes.len() == PAGE => Vec::from_slice(alloc, bytes)?,
            _ => return Err(FetchErr::NoMemory),
        };
        if let Err(rule) = check_head(&bytes, FileKind::Index, file, page) {
            return Err(FetchErr::BadPage(BadPage { file, page, rule }));
        }
        Ok(Arc::new(alloc, Page::of_vec(bytes))?)
    }
}

// One index file over one drive.
fn one_file(alloc: Global, pages: u32) -> Result<FileMap, NoMemory>
    ensures map { IfOk result (λ map. IsMap map) }
    ensures drives { IfOk result (λ map. map.drives ≡ 1) }
    ensures pages { IfOk result (λ map. HasPages map.files.items 0 pages) }
{
    let file = PageFile {
        kind: FileKind::Index,
        pages,
    };
    Ok(FileMap {
        files: vec![in alloc; file]?,
        drives: 1,
    })
}

fn one_drive(alloc: Global, pages: u32) -> Result<Vec<MemDrive>, NoMemory>
    ensures { IfOk result (λ drives. length drives.items ≡ 1) }
{
    let drive = MemDrive::new(alloc, pages, Sequence::new(alloc), Sequence::new(alloc))?;
    Ok(vec![in alloc; drive]?)
}

// The index over some entries, and its pages as they are written. It is `None` where they are no entries of an index, or
// where they are not written.
fn written(
    alloc: Global,
    entries: &KeyEntryList,
    key_type: ColType,
) -> Result<Option<(KeyIndex, PageList)>, NoMemory> {
    if !are_entries(entries, key_type, 1000) {
        return Ok(None);
    }
    let index = plan_index(alloc, entries, key_type, 0, 1000)?;
    let map = one_file(alloc, index.pages)?;
    let mut drives = one_drive(alloc, index.pages)?;
    if write_index(alloc, &mut drives, &map, &index, entries).is_err() {
        return Ok(None);
    }
    let mut pages = Vec::new(alloc);
    for page in 0..index.pages {
        if page < drives[0].capacity() {
            pages.push(Vec::from_slice(alloc, drives[0].page(page).as_slice())?)?;
        }
    }
    let source = PageList {
        pages,
        count: index.pages,
    };
    Ok(Some((index, source)))
}

// Whether the index is that of the file.
fn is_of_file(index: &KeyIndex, source: &PageList) -> bool
    ensures { IsTrue result → HasIndex (record { kind = Index; pages = source.now.count } ∷ []) index.now }
{
    if index.file != 0 {
        return false;
    }
    if index.pages != source.count {
        return false;
    }
    true
}

// Whether a search can be made: the index is that of the file, and has a page and a level where it has entries.
fn fits(index: &KeyIndex, source: &PageList) -> bool
    ensures file { IsTrue result → HasIndex (record { kind = Index; pages = source.now.count } ∷ []) index.now }
    ensures some { IsTrue result → IsUsable index.now }
{
    if !is_of_file(index, source) {
        return false;
    }
    index.entries == 0 || index.pages > 0 && index.height > 0
}

fn number_entry(key: i64, page: u32, slot: u32) -> KeyEntry {
    KeyEntry {
        key: Value::Number(key),
        page,
        slot,
    }
}

// The keys 5, 5, 7 and 9.
fn four_numbers(alloc: Global) -> Result<KeyEntryList, NoMemory> {
    let entries = vec![in alloc;
        number_entry(5, 0, 0),
        number_entry(5, 0, 2),
        number_entry(7, 1, 0),
        number_entry(9, 0, 1),
    ]?;
    Ok(Sequence::from_vec(entries))
}

// How many entries have a smaller key, and how many one at most this.
fn ranks<P: PageSource>(
    alloc: Global,
    index: &KeyIndex,
    pages: &mut P,
    key: i64,
) -> Result<(u32, u32), FetchErr>
    requires file { HasIndex (P.files (P.whole pages.old)) index.now }
    requires some { IsUsable index.now }
    ensures whole { P.whole pages.new ≡ P.whole pages.old }
{
    let key = Value::Number(key);
    let low = rank_low(alloc, index, pages, &key)?;
    let high = rank_high(alloc, index, pages, &key)?;
    Ok((low, high))
}

// The interval that two bounds leave.
fn between<P: PageSource>(
    alloc: Global,
    index: &KeyIndex,
    pages: &mut P,
    more: i64,
    op: BoundOp,
    other: i64,
) -> Result<Interval, FetchErr>
    requires file { HasIndex (P.files (P.whole pages.old)) index.now }
    requires some { IsUsable index.now }
    ensures whole { P.whole pages.new ≡ P.whole pages.old }
{
    let lower = Bound {
        op: BoundOp::More,
        value: Value::Number(more),
    };
    let upper = Bound {
        op,
        value: Value::Number(other),
    };
    let bounds = Sequence::from_vec(vec![in alloc; lower, upper]?);
    interval(alloc, index, pages, &bounds)
}

// Whether the searches of four numbers answer as they are to.
fn four_numbers_are_found<P: PageSource>(
    alloc: Global,
    index: &KeyIndex,
    pages: &mut P,
) -> Result<bool, FetchErr>
    requires file { HasIndex (P.files (P.whole pages.old)) index.now }
    requires some { IsUsable index.now }
{
    let five = ranks(alloc, index, pages, 5)? == (0, 2);
    let six = ranks(alloc, index, pages, 6)? == (2, 2);
    let nine = ranks(alloc, index, pages, 9)? == (3, 4);
    let ten = ranks(alloc, index, pages, 9_000_000_000)? == (4, 4);
    let one = between(alloc, index, pages, 5, BoundOp::AtMost, 7)? == Interval { from: 2, upto: 3 };
    let none = between(alloc, index, pages, 9, BoundOp::Less, 5)? == Interval { from: 4, upto: 4 };
    let last = index.entries == 4 && entry(alloc, index, pages, 3)? == (0, 1);
    Ok(five && six && nine && ten && one && none && last)
}

// Changes one byte of a page.
fn change(source: &mut PageList, page: usize, at: usize, mask: u8) {
    if let Some(bytes) = source.pages.get_mut(page) {
        if at < bytes.len() {
            bytes[at] ^= mask;
        }
    }
}

// The answer of a search for the key 5, after one byte of the first page is changed.
fn after_a_change(
    alloc: Global,
    index: &KeyIndex,
    source: &mut PageList,
    at: usize,
    mask: u8,
) -> Result<(u32, u32), FetchErr> {
    change(source, 0, at, mask);
    if !fits(index, source) {
        return Err(FetchErr::NoMemory);
    }
    ranks(alloc, index, source, 5)
}

fn bad(rule: u32) -> Result<(u32, u32), FetchErr> {
    Err(FetchErr::BadPage(BadPage {
        file: 0,
        page: 0,
        rule,
    }))
}

#[test]
fn four_numbers_are_written_and_found(rt: HostRuntime) -> Result<(), Fail> {
    let alloc = rt.alloc();
    let entries = four_numbers(alloc)?;
    let mut reached = false;
    if let Some((index, mut source)) = written(alloc, &entries, ColType::Int4)? {
        assert!(rt; index.pages == 1 && index.height == 1);
        if fits(&index, &source) {
            reached = matches!(four_numbers_are_found(alloc, &index, &mut source), Ok(true));
        }
        // a changed byte of the file number, of the level, of the count of entries, and one behind the entries
        assert!(rt; after_a_change(alloc, &index, &mut source, 11, 1) == bad(4));
        assert!(rt; after_a_change(alloc, &index, &mut source, 11, 1).is_ok());
        assert!(rt; after_a_change(alloc, &index, &mut source, 17, 1) == bad(6));
        assert!(rt; after_a_change(alloc, &index, &mut source, 17, 1).is_ok());
        assert!(rt; after_a_change(alloc, &index, &mut source, 6, 8) == bad(7));
        assert!(rt; after_a_change(alloc, &index, &mut source, 6, 8).is_ok());
        assert!(rt; after_a_change(alloc, &index, &mut source, 7, 7) == bad(8));
        assert!(rt; after_a_change(alloc, &index, &mut source, 7, 7).is_ok());
    }
    assert!(rt; reached);
    assert!(rt; written(alloc, &entries, ColType::Text)?.is_none());
    Ok(())
}

// So many words of 2,000 bytes, each of one letter.
fn long_words(alloc: Global, count: u8) -> Result<KeyEntryList, NoMemory> {
    let mut entries = Vec::new(alloc);
    for place in 0..count {
        let word = vec![in alloc; 40u8.saturating_add(place); 2000]?;
        entries.push(KeyEntry {
            key: Value::Word(Text::from_vec(word)),
            page: u32::from(place),
            slot: 7,
        })?;
    }
    Ok(Sequence::from_vec(entries))
}

#[test]
fn long_words_make_three_levels(rt: HostRuntime) -> Result<(), Fail> {
    let alloc = rt.alloc();
    let entries = long_words(alloc, 20)?;
    let mut reached = false;
    if let Some((index, mut source)) = written(alloc, &entries, ColType::Text)? {
        assert!(rt; index.pages == 8 && index.height == 3);
        if fits(&index, &source) && index.entries == 20 {
            reached = entry(alloc, &index, &mut source, 13) == Ok((13, 7));
        }
    }
    assert!(rt; reached);
    Ok(())
}

// The numbers from 0 on, each twice.
fn many_numbers(alloc: Global, count: u32) -> Result<KeyEntryList, NoMemory> {
    let mut entries = Vec::new(alloc);
    for place in 0..count {
        entries.push(number_entry(i64::from(place / 2), place / 200, place % 200))?;
    }
    Ok(Sequence::from_vec(entries))
}

#[test]
fn many_numbers_are_found(rt: HostRuntime) -> Result<(), Fail> {
    let alloc = rt.alloc();
    let entries = many_numbers(alloc, 100_000)?;
    let mut reached = false;
    if let Some((index, mut source)) = written(alloc, &entries, ColType::Int4)? {
        assert!(rt; index.pages == 124 && index.height == 2);
        if fits(&index, &source) {
            reached = ranks(alloc, &index, &mut source, 33_333) == Ok((66_666, 66_668));
        }
    }
    assert!(rt; reached);
    Ok(())
}

// Whether a rank and an entry of the second leaf stop at a page with a rule, while one byte of it is changed.
fn stops(alloc: Global, index: &KeyIndex, source: &mut PageList, bad: BadPage, at: usize) -> bool {
    change(source, bad.page as usize, at, 1);
    if !fits(index, source) || index.entries != 2000 {
        return false;
    }
    let stops = ranks(alloc, index, source, 450) == Err(FetchErr::BadPage(bad))
        && entry(alloc, index, source, 900) == Err(FetchErr::BadPage(bad));
    change(source, bad.page as usize, at, 1);
    stops
}

fn page_with(page: u32, rule: u32) -> BadPage {
    BadPage {
        file: 0,
        page,
        rule,
    }
}

#[test]
fn bad_roots_and_leaves_are_named(rt: HostRuntime) -> Result<(), Fail> {
    let alloc = rt.alloc();
    let entries = many_numbers(alloc, 2_000)?;
    let mut reached = false;
    if let Some((index, mut source)) = written(alloc, &entries, ColType::Int4)? {
        assert!(rt; index.pages == 4 && index.height == 2);
        // the file number, the level, the last byte, and of the root the page of its second entry
        assert!(rt; stops(alloc, &index, &mut source, page_with(3, 4), 11));
        assert!(rt; stops(alloc, &index, &mut source, page_with(3, 6), 17));
        assert!(rt; stops(alloc, &index, &mut source, page_with(3, 8), 8191));
        assert!(rt; stops(alloc, &index, &mut source, page_with(3, 9), 36));
        assert!(rt; stops(alloc, &index, &mut source, page_with(1, 4), 11));
        assert!(rt; stops(alloc, &index, &mut source, page_with(1, 6), 17));
        assert!(rt; stops(alloc, &index, &mut source, page_with(1, 8), 8191));
        reached = true;
    }
    assert!(rt; reached);
    Ok(())
}

#[test]
fn a_small_drive_is_full(rt: HostRuntime) -> Result<(), Fail> {
    let alloc = rt.alloc();
    let entries = four_numbers(alloc)?;
    let mut reached = false;
    if are_entries(&entries, ColType::Int4, 2) {
        let index = plan_index(alloc, &entries, ColType::Int4, 0, 2)?;
        let map = one_file(alloc, index.pages)?;
        let mut drives = one_drive(alloc, 0)?;
        let full = StoreErr::DriveFull {
            drive: 0,
            needs: 1,
            capacity: 0,
        };
        reached = write_index(alloc, &mut drives, &map, &index, &entries) == Err(full);
    }
    assert!(rt; reached);
    Ok(())
}
