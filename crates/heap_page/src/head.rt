//! The head of a page.
ghost use Rattle.std.specs.Prelude.{◌≡◌, MatchResult, length, Some, None};
ghost use Rattle.heap_page.specs.Pages.{head_fault};

use crate::field::{read_long, read_short};

/// What the pages of a file hold: rows of a table, or entries of an index.
#[derive(Clone, Copy, Debug, PartialEq, Eq)]
pub enum FileKind {
    Heap,
    Index,
}

impl FileKind {
    ghost use Rattle.heap_page.specs.Pages.{magic_of, version_of};

    // The first four bytes of a page.
    fn magic(self) -> &'static [u8; 4]
        ensures { result.now ≡ magic_of self }
    {
        match self {
            FileKind::Heap => b"XPHP",
            FileKind::Index => b"XPIX",
        }
    }

    fn version(self) -> u16
        ensures { result ≡ version_of self }
    {
        match self {
            FileKind::Heap => 2,
            FileKind::Index => 1,
        }
    }
}

/// Tests the head of a page. An `Err` is the first broken rule: 1 the magic bytes of the kind, 2 its version, 3 bytes 18
/// and 19 are zero, 4 the file number, 5 the page number.
#[tactic(auto, unfolding(crate::specs::Pages::head_fault))]
pub fn check_head(bytes: &[u8], kind: FileKind, file: u32, page: u32) -> Result<(), u32>
    requires { length bytes.now ≡ 8192 }
    ensures { MatchResult result (λ _. head_fault kind file page bytes.now ≡ None) (λ rule. head_fault kind file page bytes.now ≡ Some rule) }
{
    if &bytes[..4] != kind.magic().as_slice() {
        return Err(1);
    }
    if read_short(bytes, 4) != kind.version() {
        return Err(2);
    }
    if read_short(bytes, 18) != 0 {
        return Err(3);
    }
    if read_long(bytes, 8) != file {
        return Err(4);
    }
    if read_long(bytes, 12) != page {
        return Err(5);
    }
    Ok(())
}
