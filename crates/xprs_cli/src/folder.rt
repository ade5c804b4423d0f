ghost use Rattle.std.specs.Prelude.{◌≡◌, ◌≤◌, ◌<◌, None, Err, IfOk, IfSome, OnErr, length, take, vec_len};
ghost use Rattle.std.specs.Io.KnownBytes.{Consumes, IsAtEnd, Keeps};
ghost use Rattle.std.specs.IoError.{error_kind};
ghost use Rattle.xprs_cli.specs.Answers.{answer_of, opening_answer};
ghost use Rattle.xprs_cli.specs.declared.folder.ReadErr.TheVariants as cause;

use crate::page_file::is_interrupted;
use std::alloc::Global;
use std::fs::File;
use std::io::{self, ErrorKind, Read};
use std::rt::Files;
use xp_outside::{Shelf, ShelfErr};

/// The files of the system, by paths from the current folder. It doesn't tell what they hold. `Missing` is answered
/// where a name isn't UTF-8 or the file can't be opened, and `Failed` where a read fails.
#[derive(Drop)]
pub struct FolderShelf<'a, R: Files> {
    rt: &'a R,
    faults: u64,
}

impl<'a, R: Files> FolderShelf<'a, R> {
    /// A shelf without a fault yet.
    pub fn new(rt: &'a R) -> FolderShelf<'a, R>
        ensures { result.faults ≡ 0 }
    {
        FolderShelf { rt, faults: 0 }
    }
}

/// Why a file was not read whole.
#[derive(Clone, Copy, Debug, PartialEq, Eq)]
pub enum ReadErr {
    TooLong,
    Failed,
    NoMemory,
}

/// How many bytes are read at once.
const PIECE: usize = 65_536;

// Reads a piece of what is left, and says how long it is: nothing only at the end. A call that was broken off is made
// again.
fn read_some<F: Read>(file: &mut F, piece: &mut [u8]) -> Result<usize, ReadErr>
    requires { 0 < length piece.old }
    ensures some { IfOk result (λ n. n ≤ length piece.new) }
    ensures got { IfOk result (λ n. Consumes (F.remaining file.old) (F.remaining file.new) (take n piece.new)) }
    ensures end { IfOk result (λ n. n ≡ 0 → IsAtEnd (F.remaining file.new)) }
    ensures err { result ≡ Err cause.Failed → Keeps (F.remaining file.old) (F.remaining file.new) }
    ensures failed { OnErr result (result ≡ Err cause.Failed) }
{
    for _ in 0..u64::MAX {
        match file.read(piece) {
            Ok(count) => return Ok(count),
            Err(error) if is_interrupted(&error) => {}
            Err(_) => return Err(ReadErr::Failed),
        }
    }
    Err(ReadErr::Failed)
}

// All that a reader gives, of which there are at most `limit` bytes.
pub(crate) fn read_whole<F: Read>(
    alloc: Global,
    file: &mut F,
    limit: u64,
) -> Result<Vec<u8>, ReadErr>
    ensures within { IfOk result (λ bytes. vec_len bytes ≤ limit) }
    ensures whole { IfOk result (λ bytes. IfSome (F.remaining file.old) (λ xs. bytes.items ≡ xs)) }
    ensures long { result ≡ Err cause.TooLong → IfSome (F.remaining file.old) (λ xs. limit < length xs) }
{
    let mut bytes = Vec::new(alloc);
    let mut piece = [0u8; PIECE];
    for _ in 0..u64::MAX {
        let count = read_some(file, &mut piece)?;
        if count == 0 {
            return Ok(bytes);
        }
        if count as u64 > limit - bytes.len() as u64 {
            return Err(ReadErr::TooLong);
        }
        if bytes.extend_from_slice(&piece[..count]).is_err() {
            return Err(ReadErr::NoMemory);
        }
    }
    Err(ReadErr::Failed)
}

// What a shelf answers where a file was not read whole.
fn read_answer(error: ReadErr) -> ShelfErr
    ensures { result ≡ answer_of error }
{
    match error {
        ReadErr::TooLong => ShelfErr::TooLong,
        ReadErr::Failed => ShelfErr::Failed,
        ReadErr::NoMemory => ShelfErr::NoMemory,
    }
}

// What a shelf answers where a file was not opened.
fn open_answer(error: &io::Error) -> ShelfErr
    ensures { result ≡ opening_answer (error_kind error.now) }
{
    match error.kind() {
        ErrorKind::OutOfMemory => ShelfErr::NoMemory,
        _ => ShelfErr::Missing,
    }
}

// Opens a file and reads it whole.
fn fetched<R: Files>(rt: &R, alloc: Global, name: &[u8], limit: u64) -> Result<Vec<u8>, ShelfErr>
    ensures { IfOk result (λ bytes. vec_len bytes ≤ limit) }
{
    let Ok(path) = str::from_utf8(name) else {
        return Err(ShelfErr::Missing);
    };
    let mut file = match File::open(rt, path) {
        Ok(file) => file,
        Err(error) => return Err(open_answer(&error)),
    };
    match read_whole(alloc, &mut file, limit) {
        Ok(bytes) => Ok(bytes),
        Err(error) => Err(read_answer(error)),
    }
}

impl<R: Files> Shelf for FolderShelf<'_, R> {
    ghost files = { λ _. None };

    ghost faults = { λ s. s.faults };

    fn fetch(&mut self, alloc: Global, name: &[u8], limit: u64) -> Result<Vec<u8>, ShelfErr> {
        let answer = fetched(self.rt, alloc, name, limit);
        if let Err(ShelfErr::Failed) = &answer {
            self.faults = self.faults.saturating_add(1);
        }
        answer
    }
}
