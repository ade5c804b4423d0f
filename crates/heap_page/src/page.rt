//! A page.
ghost use Rattle.std.specs.Prelude.{◌≡◌, [], IfOk, length};
ghost use Rattle.heap_page.specs.Pages.{zeros, page_of, IsHeapPage};
ghost use Rattle.heap_page.specs.Pushes.{Pushes};

use crate::field::{put, read_short};
use std::alloc::Global;
use std::marker::Model;
use xp_outside::{NoMemory, PAGE};

/// The 8,192 bytes of a page.
#[derive(Debug, Drop)]
pub struct Page {
    bytes: Vec<u8>,
}

impl Model for Page {
    ghost use Rattle.std.specs.Prelude.{◌≡◌, List, ℕ, length};

    ghost Value = { List ℕ };

    ghost view = { λ p. p.bytes.items };

    ghost invariant = { λ p. length p.bytes.items ≡ 8192 };
}

/// Whether an item went into a page, or there was no room for it.
#[derive(Clone, Copy, Debug, PartialEq, Eq)]
pub enum Push {
    Pushed,
    NoRoom,
}

// Writes the head of a page with no item over zeros.
fn put_head(bytes: &mut [u8], file: u32, number: u32)
    requires { bytes.old ≡ zeros 8192 }
    ensures { bytes.new ≡ page_of file number [] }
{
    put(bytes, 0, b"XPHP");
    put(bytes, 4, &2u16.to_be_bytes());
    put(bytes, 8, &file.to_be_bytes());
    put(bytes, 12, &number.to_be_bytes());
    put(bytes, 16, &8192u16.to_be_bytes());
}

// Puts an item into a heap page, where it fits.
fn push_item(bytes: &mut [u8], item: &[u8]) -> Push
    requires { IsHeapPage bytes.old }
    ensures pushed { Pushes result bytes.old item.now bytes.new }
    ensures page { IsHeapPage bytes.new }
{
    let count = read_short(bytes, 6);
    let upper = read_short(bytes, 16) as usize;
    let end = 20 + 4 * count as usize;
    if upper - end < 4 || upper - end - 4 < item.len() {
        return Push::NoRoom;
    }
    let offset = upper - item.len();
    put(bytes, 6, &(count + 1).to_be_bytes());
    put(bytes, 16, &(offset as u16).to_be_bytes());
    put(bytes, end, &(offset as u16).to_be_bytes());
    put(bytes, end + 2, &(item.len() as u16).to_be_bytes());
    put(bytes, offset, item);
    Push::Pushed
}

impl Page {
    /// A heap page with no item.
    pub fn empty(alloc: Global, file: u32, number: u32) -> Result<Page, NoMemory>
        ensures empty { IfOk result (λ page. page ≡ page_of file number []) }
        ensures page { IfOk result (λ page. IsHeapPage page) }
    {
        let mut bytes = vec![in alloc; 0u8; PAGE]?;
        put_head(&mut bytes, file, number);
        Ok(Page { bytes })
    }

    /// A page with these 8,192 bytes.
    pub fn of_bytes(alloc: Global, bytes: &[u8]) -> Result<Page, NoMemory>
        requires { length bytes.now ≡ 8192 }
        ensures { IfOk result (λ page. page ≡ bytes.now) }
    {
        Ok(Page::of_vec(Vec::from_slice(alloc, bytes)?))
    }

    /// The same of a vector, which is not copied.
    pub fn of_vec(bytes: Vec<u8>) -> Page
        requires { length bytes.items ≡ 8192 }
        ensures { result ≡ bytes.items }
    {
        Page { bytes }
    }

    /// The page's 8,192 bytes.
    pub fn bytes(&self) -> &[u8]
        ensures value { result.now ≡ self.now }
        ensures length { length result.now ≡ 8192 }
    {
        self.bytes.as_slice()
    }

    /// Puts an item behind the others of a heap page. `NoRoom` comes exactly where the item and a line pointer exceed
    /// the free bytes, and the page is then as it was.
    pub fn push(&mut self, item: &[u8]) -> Push
        requires { IsHeapPage self.old }
        ensures pushed { Pushes result self.old item.now self.new }
        ensures page { IsHeapPage self.new }
    {
        push_item(&mut self.bytes, item)
    }
}
