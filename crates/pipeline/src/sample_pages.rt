//! Pages for tests, in memory.
ghost use Rattle.std.specs.Prelude.{◌≡◌, None, IfErr, IfOk, length};
ghost use Rattle.std.specs.Arc.{arc_value};
ghost use Rattle.heap_page.specs.Maps.{HasPages, IsMap};
ghost use Rattle.heap_page.specs.Pages.{head_fault};
ghost use Rattle.pipeline.specs.SamplePieces.{IsUnsound};

use heap_page::{BadPage, FetchErr, FileKind, FileMap, Page, PageFile, PageSource, check_head};
use key_index::{are_entries, plan_index, write_index};
use lists::Sequence;
use rows::{ColType, KeyEntry, KeyEntryList, KeyIndex, Text, Value};
use std::alloc::{AllocError, Global};
use std::sync::Arc;
use xp_outside::{Drive, MemDrive, PAGE};

/// A heap file of two pages with number 0, and an index file with number 1. What their pages hold is not told.
#[derive(Drop)]
pub(crate) struct PageLists {
    pub heap: Vec<Vec<u8>>,
    pub index: Vec<Vec<u8>>,
    pub index_pages: u32,
}

// A page of a list, with a sound head.
fn sound_page(
    alloc: Global,
    pages: &[Vec<u8>],
    kind: FileKind,
    file: u32,
    page: u32,
) -> Result<Arc<Page>, FetchErr>
    ensures ok { IfOk result (λ found. head_fault kind file page (arc_value found) ≡ None) }
    ensures err { IfErr result (IsUnsound kind file page) }
{
    let bytes = match pages.get(page as usize) {
        Some(bytes) if bytes.len() == PAGE => Vec::from_slice(alloc, bytes)?,
        _ => return Err(FetchErr::NoMemory),
    };
    if let Err(rule) = check_head(&bytes, kind, file, page) {
        return Err(FetchErr::BadPage(BadPage { file, page, rule }));
    }
    Ok(Arc::new(alloc, Page::of_vec(bytes))?)
}

impl PageSource for PageLists {
    ghost use Rattle.std.specs.Prelude.{None, true};
    ghost use Rattle.pipeline.specs.SamplePieces.{sample_files};

    type Whole = u32;

    ghost whole = { λ s. s.index_pages };

    ghost drives = { λ _. 0 };

    ghost files = { sample_files };

    ghost image = { λ _. None };

    ghost faults = { λ _ _. 0 };

    ghost lone = { λ _. true };

    fn fetch(&mut self, alloc: Global, file: u32, page: u32) -> Result<Arc<Page>, FetchErr> {
        match file {
            0 => sound_page(alloc, &self.heap, FileKind::Heap, 0, page),
            1 => sound_page(alloc, &self.index, FileKind::Index, 1, page),
            _ => Err(FetchErr::NoMemory),
        }
    }
}

/// Entries with texts of 2,000 bytes, each of one letter, that lead to these places.
pub(crate) fn long_entries(
    alloc: Global,
    places: &[(u32, u32)],
) -> Result<KeyEntryList, AllocError> {
    let mut entries = Vec::new(alloc);
    let mut letter = 64u8;
    for (page, slot) in places {
        letter = letter.saturating_add(1);
        entries.push(KeyEntry {
            key: Value::Word(Text::from_vec(vec![in alloc; letter; 2000]?)),
            page: *page,
            slot: *slot,
        })?;
    }
    Ok(KeyEntryList::from_vec(entries))
}

// A map whose file 1 is an index file with so many pages.
fn index_map(alloc: Global, pages: u32) -> Result<FileMap, AllocError>
    ensures map { IfOk result (λ map. IsMap map) }
    ensures drives { IfOk result (λ map. map.drives ≡ 1) }
    ensures pages { IfOk result (λ map. HasPages map.files.items 1 pages) }
{
    let heap = PageFile {
        kind: FileKind::Heap,
        pages: 0,
    };
    let index = PageFile {
        kind: FileKind::Index,
        pages,
    };
    Ok(FileMap {
        files: vec![in alloc; heap, index]?,
        drives: 1,
    })
}

fn one_drive(alloc: Global, pages: u32) -> Result<Vec<MemDrive>, AllocError>
    ensures { IfOk result (λ drives. length drives.items ≡ 1) }
{
    let drive = MemDrive::new(alloc, pages, Sequence::new(alloc), Sequence::new(alloc))?;
    Ok(vec![in alloc; drive]?)
}

/// The pages of the index over these entries, if it is this index.
pub(crate) fn written(
    alloc: Global,
    entries: &KeyEntryList,
    wanted: &KeyIndex,
) -> Result<Option<Vec<Vec<u8>>>, AllocError> {
    if !are_entries(entries, ColType::Text, 2) {
        return Ok(None);
    }
    let index = plan_index(alloc, entries, ColType::Text, 1, 2)?;
    let map = index_map(alloc, index.pages)?;
    let mut drives = one_drive(alloc, index.pages)?;
    if index != *wanted || write_index(alloc, &mut drives, &map, &index, entries).is_err() {
        return Ok(None);
    }
    let mut pages = Vec::new(alloc);
    for page in 0..index.pages {
        if page < drives[0].capacity() {
            pages.push(Vec::from_slice(alloc, drives[0].page(page).as_slice())?)?;
        }
    }
    Ok(Some(pages))
}
