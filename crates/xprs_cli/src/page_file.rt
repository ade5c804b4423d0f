ghost use Rattle.std.specs.Prelude.{◌≡◌, ◌≤◌, ◌<◌, ◌+◌, ℕ, None, Option, true, IfOk, IfErr, IfSome, OnErr, length};
ghost use Rattle.std.specs.IoError.{error_kind};
ghost use Rattle.xprs_cli.specs.Bytes.{Reads, Spoils, Writes};

use std::io;
use std::io::ErrorKind;
use std::os::unix::fs::FileExt;

/// A file whose bytes are read and written at offsets.
pub trait PageFile {
    /// The byte at each offset, where the file tells them. One that doesn't tell never begins to.
    ghost bytes: { Self → Option (ℕ → ℕ) };

    /// Reads bytes from the offset on into the front of `into`, and says how many.
    fn read_at(&mut self, into: &mut [u8], offset: u64) -> io::Result<usize>
        ensures bound { IfOk result (λ n. n ≤ length into.new) }
        ensures got { IfOk result (λ n. Reads (bytes self.old) offset n into.new) }
        ensures kept { bytes self.new ≡ bytes self.old };

    /// Writes a front of `from` at the offset, and says how long it is. A call that was broken off has written nothing.
    /// After any other error the bytes from the offset on, as many as `from` has, may be anything.
    fn write_at(&mut self, from: &[u8], offset: u64) -> io::Result<usize>
        ensures bound { IfOk result (λ n. n ≤ length from.now) }
        ensures put { IfOk result (λ n. Writes (bytes self.old) (bytes self.new) offset n from.now) }
        ensures interrupted { IfErr result (λ e. error_kind e ≡ ErrorKind.Interrupted → bytes self.new ≡ bytes self.old) }
        ensures err { OnErr result (Spoils (bytes self.old) (bytes self.new) offset (length from.now)) };
}

/// A file of the system. It doesn't tell what it holds. Each method calls the system's once, and no more is done here:
/// what the system does is trusted.
#[derive(Drop)]
pub struct SystemFile<F> {
    file: F,
}

impl<F> SystemFile<F> {
    /// The file.
    pub fn new(file: F) -> SystemFile<F> {
        SystemFile { file }
    }
}

impl<F: FileExt> PageFile for SystemFile<F> {
    ghost bytes = { λ _. None };

    fn read_at(&mut self, into: &mut [u8], offset: u64) -> io::Result<usize> {
        self.file.read_at(into, offset)
    }

    fn write_at(&mut self, from: &[u8], offset: u64) -> io::Result<usize> {
        self.file.write_at(from, offset)
    }
}

// Whether the call was broken off and is to be made again.
pub(crate) fn is_interrupted(error: &io::Error) -> bool
    ensures { result ≡ true → error_kind error.now ≡ ErrorKind.Interrupted }
{
    error.kind() == ErrorKind::Interrupted
}

// Reads a front of `into`, at least a byte, and says how long it is; none where the file has ended or a read failed. A
// call that was broken off is made again.
fn read_front<F: PageFile>(file: &mut F, into: &mut [u8], offset: u64) -> Option<usize>
    ensures bound { IfSome result (λ n. (0 < n) × (n ≤ length into.new)) }
    ensures got { IfSome result (λ n. Reads (F.bytes file.old) offset n into.new) }
    ensures kept { F.bytes file.new ≡ F.bytes file.old }
{
    for _ in 0..u64::MAX {
        match file.read_at(into, offset) {
            Ok(0) => return None,
            Ok(count) => return Some(count),
            Err(error) if is_interrupted(&error) => {}
            Err(_) => return None,
        }
    }
    None
}

// Writes a front of `from`, at least a byte, and says how long it is; none where a write failed or took no byte, and the
// bytes there may then be anything. A call that was broken off is made again.
fn write_front<F: PageFile>(file: &mut F, from: &[u8], offset: u64) -> Option<usize>
    ensures bound { IfSome result (λ n. (0 < n) × (n ≤ length from.now)) }
    ensures put { IfSome result (λ n. Writes (F.bytes file.old) (F.bytes file.new) offset n from.now) }
    ensures none { result ≡ None → Spoils (F.bytes file.old) (F.bytes file.new) offset (length from.now) }
{
    for _ in 0..u64::MAX {
        match file.write_at(from, offset) {
            Ok(0) => return None,
            Ok(count) => return Some(count),
            Err(error) if is_interrupted(&error) => {}
            Err(_) => return None,
        }
    }
    None
}

// Reads until `into` is full. `false` where the file ended before or a read failed.
pub(crate) fn fill<F: PageFile>(file: &mut F, into: &mut [u8], offset: u64) -> bool
    requires { offset + length into.old ≤ 18446744073709551615 }
    ensures got { result ≡ true → Reads (F.bytes file.old) offset (length into.new) into.new }
    ensures kept { F.bytes file.new ≡ F.bytes file.old }
{
    let mut at = 0;
    while at < into.len() {
        let Some(count) = read_front(file, &mut into[at..], offset + at as u64) else {
            return false;
        };
        at += count;
    }
    true
}

// Writes all of `from`. `false` where a write failed or took no byte; the bytes there may then be anything.
pub(crate) fn put<F: PageFile>(file: &mut F, from: &[u8], offset: u64) -> bool
    requires { offset + length from.now ≤ 18446744073709551615 }
    ensures put { result ≡ true → Writes (F.bytes file.old) (F.bytes file.new) offset (length from.now) from.now }
    ensures others { Spoils (F.bytes file.old) (F.bytes file.new) offset (length from.now) }
{
    let mut at = 0;
    while at < from.len() {
        let Some(count) = write_front(file, &from[at..], offset + at as u64) else {
            return false;
        };
        at += count;
    }
    true
}
