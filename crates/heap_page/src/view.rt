//! A heap page that was accepted.
ghost use Rattle.std.specs.Prelude.{◌≡◌, ◌<◌, ◌≤◌, ◌+◌, ◌*◌, MatchResult, length, slice_get, Some, None};
ghost use Rattle.heap_page.specs.Fields.{short_at};
ghost use Rattle.heap_page.specs.Pages.{body_fault, fault_of, items_of, is_stacked, item_at};

use crate::field::{are_zeros, read_short};
use crate::head::{FileKind, check_head};
use std::marker::Model;
use xp_outside::PAGE;

/// The items of a heap page.
#[derive(Drop)]
pub struct PageView<'a> {
    bytes: &'a [u8],
    count: u32,
}

impl<'a> Model for PageView<'a> {
    ghost use Rattle.std.specs.Prelude.{◌≡◌, List, ℕ};
    ghost use Rattle.heap_page.specs.Pages.{items_from, HoldsItems};

    ghost Value = { List (List ℕ) };

    ghost view = { λ v. items_from v.bytes.now 0 v.count };

    ghost invariant = { λ v. HoldsItems v.bytes.now v.count };
}

// Whether each item ends where the one before it begins, and the last one begins at `upper`.
fn ends_well(bytes: &[u8], count: usize, upper: usize) -> bool
    requires { 20 + 4 * count ≤ length bytes.now }
    ensures { result ≡ is_stacked bytes.now upper 8192 0 count }
{
    let mut top = 8192usize;
    for slot in 0..count {
        let offset = read_short(bytes, 20 + 4 * slot) as usize;
        let len = read_short(bytes, 22 + 4 * slot) as usize;
        if offset + len != top {
            return false;
        }
        top = offset;
    }
    top == upper
}

// Tells the first broken rule behind the head.
#[tactic(auto, unfolding(crate::specs::Pages::body_fault))]
fn check_body(bytes: &[u8]) -> Result<(), u32>
    requires { length bytes.now ≡ 8192 }
    ensures { MatchResult result (λ _. body_fault bytes.now ≡ None) (λ rule. body_fault bytes.now ≡ Some rule) }
{
    let count = read_short(bytes, 6) as usize;
    let upper = read_short(bytes, 16) as usize;
    let end = 20 + 4 * count;
    if end > upper || upper > PAGE {
        return Err(6);
    }
    if !ends_well(bytes, count, upper) {
        return Err(7);
    }
    if !are_zeros(&bytes[end..upper]) {
        return Err(8);
    }
    Ok(())
}

/// The items of a heap page. An `Err` is the first broken rule: 1 to 5 as `check_head`, 6 the line pointers end at or
/// before upper, which is at most 8,192, 7 every item ends where the one before it begins, the first one at 8,192, and
/// the last one begins at upper, 8 the free bytes are zero.
pub fn read_page(bytes: &[u8], file: u32, page: u32) -> Result<PageView<'_>, u32>
    requires { length bytes.now ≡ 8192 }
    ensures { MatchResult result (λ view. (fault_of file page bytes.now ≡ None) × (view ≡ items_of bytes.now)) (λ rule. fault_of file page bytes.now ≡ Some rule) }
{
    check_head(bytes, FileKind::Heap, file, page)?;
    check_body(bytes)?;
    Ok(PageView {
        bytes,
        count: read_short(bytes, 6) as u32,
    })
}

impl<'a> PageView<'a> {
    /// How many items the page has.
    pub fn count(&self) -> u32
        ensures { result ≡ length self.now }
    {
        self.count
    }

    /// The bytes of an item. Item 0 is the first one that was put in.
    pub fn item(&self, slot: u32) -> &[u8]
        requires { slot < length self.now }
        ensures { slice_get self.now slot ≡ Some result.now }
    {
        let slot = slot as usize;
        let offset = read_short(self.bytes, 20 + 4 * slot) as usize;
        let len = read_short(self.bytes, 22 + 4 * slot) as usize;
        &self.bytes[offset..offset + len]
    }
}
