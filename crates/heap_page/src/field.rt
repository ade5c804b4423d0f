//! Parts of a page: its numbers of fixed width, and zeros.
ghost use Rattle.std.specs.Prelude.{◌≡◌, ◌==◌, ◌+◌, ◌≤◌, length};
ghost use Rattle.std.specs.List.{list_all};
ghost use Rattle.heap_page.specs.Fields.{short_at, long_at, overwritten};

/// The number of the two bytes from a place on, the highest first.
pub fn read_short(bytes: &[u8], at: usize) -> u16
    requires { at + 2 ≤ length bytes.now }
    ensures { result ≡ short_at bytes.now at }
{
    let field = &bytes[at..at + 2];
    u16::from_be_bytes([field[0], field[1]])
}

/// The number of the four bytes from a place on, the highest first.
pub fn read_long(bytes: &[u8], at: usize) -> u32
    requires { at + 4 ≤ length bytes.now }
    ensures { result ≡ long_at bytes.now at }
{
    let field = &bytes[at..at + 4];
    u32::from_be_bytes([field[0], field[1], field[2], field[3]])
}

/// Whether every byte is zero.
pub fn are_zeros(bytes: &[u8]) -> bool
    ensures { result ≡ list_all (λ b. b == 0) bytes.now }
{
    bytes.iter().all(|byte| *byte == 0)
}

// Writes a part over the bytes from a place on.
pub(crate) fn put(bytes: &mut [u8], at: usize, part: &[u8])
    requires { at + length part.now ≤ length bytes.old }
    ensures { bytes.new ≡ overwritten at part.now bytes.old }
{
    bytes[at..at + part.len()].copy_from_slice(part);
}
