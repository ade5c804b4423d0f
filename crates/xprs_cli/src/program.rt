ghost use Rattle.std.specs.Prelude.{◌≡◌, map, string_bytes};
ghost use Rattle.command_words.specs.Forms.{form_of};
ghost use Rattle.xprs_cli.specs.Runs.{EndsRun};

use crate::folder::FolderShelf;
use crate::scratch::FileRack;
use crate::terminal::StdSink;
use command_words::read_words;
use std::alloc::Global;
use std::env::{self, Env};
use std::fs::OpenFile;
use std::io::{ErrorKind, Write};
use std::os::unix::fs::FileExt;
use std::rt::Files;
use xprs_top::{Status, Unbuilt, answer_alone, pour_fault};

/// The arguments without the program's name, and none where one of them isn't UTF-8. An error is want of memory.
pub fn words(rt: &(impl Env + AllocGlobal)) -> Result<Vec<String>, Status> {
    let mut words = Vec::new(rt.alloc());
    let args = match env::args(rt) {
        Ok(args) => args,
        Err(error) if error.kind() == ErrorKind::OutOfMemory => return Err(Status::NoMemory),
        Err(_) => return Ok(words),
    };
    for word in args.skip(1) {
        words.push(word)?;
    }
    Ok(words)
}

// Whether the words are for a run by several backends.
fn is_for_backends(words: &[String]) -> bool {
    match words.first() {
        Some(word) => word.as_str() == "run",
        None => false,
    }
}

// How a run by several backends ends as long as it isn't built.
fn run_status(alloc: Global, words: &[String]) -> Status
    ensures { EndsRun (form_of (map string_bytes words.now)) result }
{
    match read_words(alloc, words) {
        Ok(Some(_)) => Status::NotBuilt(Unbuilt::Run),
        Ok(None) => Status::Usage,
        Err(_) => Status::NoMemory,
    }
}

// Writes the line of a status, and gives its number.
fn ended<W: Write + Drop>(err: &mut StdSink<W>, status: &Status) -> u8 {
    let _ = pour_fault(err, status);
    status.number()
}

/// Runs the words over the files of the current folder, and gives the number with which the program ends.
pub fn program<R: Files + AllocGlobal, O: Write + Drop, E: Write + Drop>(
    rt: &R,
    words: Result<Vec<String>, Status>,
    out: Option<O>,
    err: Option<E>,
) -> u8
where
    R::File: FileExt + OpenFile + Drop,
{
    let mut out = StdSink::new(out);
    let mut err = StdSink::new(err);
    let words = match words {
        Ok(words) => words,
        Err(status) => return ended(&mut err, &status),
    };
    if is_for_backends(words.as_slice()) {
        return ended(&mut err, &run_status(rt.alloc(), words.as_slice()));
    }
    let mut shelf = FolderShelf::new(rt);
    let mut rack = FileRack::new(rt);
    let outcome = answer_alone(
        rt.alloc(),
        words.as_slice(),
        &mut shelf,
        &mut rack,
        &mut out,
        &mut err,
    );
    outcome.status.number()
}
