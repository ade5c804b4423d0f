ghost use Rattle.std.specs.Prelude.{◌≡◌, ◌<◌, ◌≤◌, IfOk, All, length};
ghost use Rattle.heap_page.specs.Blocks.{FitsAlone};
ghost use Rattle.heap_page.specs.Maps.{IsMap, HasPage, HasPages};

use crate::{
    FetchErr, FileKind, FileMap, ItemList, Page, PageFile, PageSource, Push, StoreErr, check_head,
    pages_of, read_page, read_relation_page, write_relation,
};
use lists::Sequence;
use std::alloc::Global;
use std::sync::Arc;
use std::test::Fail;
use xp_outside::{Drive, MemDrive, NoMemory};

// A page of file 3 with number 5 and three items.
fn three_items(alloc: Global) -> Result<Page, NoMemory> {
    let mut page = Page::empty(alloc, 3, 5)?;
    page.push(b"14 bytes, one.");
    page.push(b"14 bytes, two.");
    page.push(b"15 bytes, last.");
    Ok(page)
}

// The rule that a page breaks when one of its bytes is changed.
fn rule_of(alloc: Global, page: &Page, at: u8, mask: u8) -> Result<Option<u32>, NoMemory> {
    let mut bytes = Vec::from_slice(alloc, page.bytes())?;
    bytes[at as usize] ^= mask;
    let page = Page::of_vec(bytes);
    Ok(read_page(page.bytes(), 3, 5).err())
}

// Whether a page is read as so many items, of which the last one is this.
fn ends_with(page: &Page, file: u32, number: u32, count: u32, item: &[u8]) -> bool {
    match read_page(page.bytes(), file, number) {
        Ok(view) => view.count() == count && count > 0 && view.item(count - 1) == item,
        Err(_) => false,
    }
}

#[test]
fn a_changed_byte_breaks_its_rule(rt: HostRuntime) -> Result<(), Fail> {
    let alloc = rt.alloc();
    let page = three_items(alloc)?;
    let again = Page::of_bytes(alloc, page.bytes())?;
    assert!(rt; ends_with(&again, 3, 5, 3, b"15 bytes, last."));
    assert!(rt; check_head(page.bytes(), FileKind::Heap, 3, 5).is_ok());
    assert_eq!(rt;
        check_head(page.bytes(), FileKind::Index, 3, 5).err(),
        Some(1)
    );
    // the place of a byte, the bits that are changed, the rule
    let table: &[u8] =
        b"\x00\x01\x01\x05\x01\x02\x12\x01\x03\x0b\x01\x04\x0f\x01\x05\x10\x80\x06\x11\x01\x07\x07\x01\x07\x20\x01\x08";
    for row in table.chunks(3) {
        if let [at, mask, rule] = row {
            assert_eq!(rt; rule_of(alloc, &again, *at, *mask)?, Some(*rule as u32));
        }
    }
    Ok(())
}

#[test]
fn a_page_is_filled_to_its_last_byte(rt: HostRuntime) -> Result<(), Fail> {
    let alloc = rt.alloc();
    let item = vec![in alloc; 7u8; 8169]?;
    let mut page = Page::empty(alloc, 0, 0)?;
    assert!(rt; page.push(&item) == Push::NoRoom);
    assert!(rt; page.push(item.split_at(1).1) == Push::Pushed);
    assert!(rt; page.push(b"") == Push::NoRoom);
    Ok(())
}

// Three items of which two go on a page.
fn table(alloc: Global) -> Result<ItemList, NoMemory>
    ensures few { IfOk result (λ items. length items ≤ 1000000) }
    ensures fit { IfOk result (All FitsAlone) }
{
    let mut items = ItemList::new(alloc);
    items.push(&[1; 4000])?;
    items.push(&[2; 4000])?;
    items.push(&[3; 4000])?;
    Ok(items)
}

// One file over two drives.
fn one_file(alloc: Global, pages: u32) -> Result<FileMap, NoMemory>
    ensures map { IfOk result (λ map. IsMap map) }
    ensures drives { IfOk result (λ map. map.drives ≡ 2) }
    ensures pages { IfOk result (λ map. HasPages map.files.items 0 pages) }
{
    let file = PageFile {
        kind: FileKind::Heap,
        pages,
    };
    Ok(FileMap {
        files: vec![in alloc; file]?,
        drives: 2,
    })
}

// A page of that file, where its drive is large enough.
fn read_back(
    alloc: Global,
    drives: &mut [MemDrive],
    map: &FileMap,
    page: u32,
) -> Result<Page, FetchErr>
    requires map { IsMap map.now }
    requires drives { length drives.old ≡ map.now.drives }
    requires page { HasPage map.now.files.items 0 page }
    ensures { length drives.new ≡ length drives.old }
{
    let (place, address) = map.place(0, page);
    if address >= drives[place as usize].capacity() {
        return Err(FetchErr::NoMemory);
    }
    read_relation_page(alloc, drives, map, 0, page)
}

// Two drives of which the second one has so many pages, and the first write on the first one fails.
fn two_drives(alloc: Global, pages: u32) -> Result<Vec<MemDrive>, NoMemory>
    ensures { IfOk result (λ drives. length drives.items ≡ 2) }
{
    let fails = Sequence::from_vec(vec![in alloc; 1u64]?);
    let first = MemDrive::new(alloc, 1, Sequence::new(alloc), fails)?;
    let second = MemDrive::new(alloc, pages, Sequence::new(alloc), Sequence::new(alloc))?;
    Ok(vec![in alloc; first, second]?)
}

#[test]
fn a_table_is_written_and_read_back(rt: HostRuntime) -> Result<(), Fail> {
    let alloc = rt.alloc();
    let items = table(alloc)?;
    let pages = pages_of(&items);
    assert_eq!(rt; pages, 2);
    let map = one_file(alloc, pages)?;
    let mut drives = two_drives(alloc, 1)?;
    let failed = write_relation(alloc, &mut drives, &map, 0, &items);
    assert!(rt; failed == Err(StoreErr::DriveFault(0)));
    assert_eq!(rt; drives[0].faults(), 1);
    assert!(rt; write_relation(alloc, &mut drives, &map, 0, &items).is_ok());
    if drives[1].capacity() == 1 {
        assert!(rt; check_head(drives[1].page(0), FileKind::Heap, 0, 1).is_ok());
    }
    if pages == 2 {
        let third = vec![in alloc; 3u8; 4000]?;
        let read = read_back(alloc, &mut drives, &map, 1);
        assert!(rt; matches!(&read, Ok(page) if ends_with(page, 0, 1, 1, &third)));
    }
    let mut small = two_drives(alloc, 0)?;
    let full = StoreErr::DriveFull {
        drive: 1,
        needs: 1,
        capacity: 0,
    };
    assert!(rt; write_relation(alloc, &mut small, &map, 0, &items) == Err(full));
    assert_eq!(rt; pages_of(&ItemList::new(alloc)), 0);
    Ok(())
}

// A file whose pages have no items.
#[derive(Drop)]
struct EmptyFile {
    pages: u32,
}

impl PageSource for EmptyFile {
    ghost use Rattle.std.specs.Prelude.{Some, [], ◌∷◌, true};
    ghost use Rattle.heap_page.specs.declared.head.FileKind.TheVariants.{Heap};
    ghost use Rattle.heap_page.specs.Pages.{page_of};

    type Whole = u32;

    ghost whole = { λ s. s.pages };

    ghost drives = { λ _. 0 };

    ghost files = { λ pages. record { kind = Heap; pages = pages } ∷ [] };

    ghost image = { λ _. Some (λ file page. page_of file page []) };

    ghost faults = { λ _ _. 0 };

    ghost lone = { λ _. true };

    fn fetch(&mut self, alloc: Global, file: u32, page: u32) -> Result<Arc<Page>, FetchErr> {
        let page = Page::empty(alloc, file, page)?;
        Ok(Arc::new(alloc, page)?)
    }
}

// Whether both pages of a file can be fetched.
fn fetches_both<P: PageSource>(alloc: Global, source: &mut P) -> bool
    requires first { HasPage (P.files (P.whole source.old)) 0 0 }
    requires second { HasPage (P.files (P.whole source.old)) 0 1 }
{
    source.fetch(alloc, 0, 0).is_ok() && source.fetch(alloc, 0, 1).is_ok()
}

#[test]
fn a_source_stays_what_it_is(rt: HostRuntime) {
    let mut source = EmptyFile { pages: 2 };
    assert!(rt; fetches_both(rt.alloc(), &mut source));
}
