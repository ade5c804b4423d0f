ghost use Rattle.std.specs.Prelude.{◌≡◌, None};
ghost use Rattle.std.specs.Option.{option_map};
ghost use Rattle.xprs_cli.specs.Pages.{pages_of};

use crate::page_file::{PageFile, SystemFile, fill, put};
use std::alloc::Global;
use std::fs::{File, OpenFile};
use std::io;
use std::io::ErrorKind;
use std::os::unix::fs::FileExt;
use std::rt::Files;
use xp_outside::{Drive, DriveFailed, PAGE, Rack, RackErr};

/// How many pages a scratch file has: 2,048, which is 16 MiB.
pub const PAGES: u32 = 2_048;

/// How many bytes a scratch file has.
const FILE_BYTES: u64 = PAGES as u64 * PAGE as u64;

/// A drive over a scratch file. It tells the pages of a file that tells its bytes.
#[derive(Drop)]
pub struct FileDrive<F> {
    file: F,
    faults: u64,
}

impl<F: PageFile> FileDrive<F> {
    /// A drive over the file, without a fault yet.
    pub fn new(file: F) -> FileDrive<F>
        ensures { (result.file ≡ file) × (result.faults ≡ 0) }
    {
        FileDrive { file, faults: 0 }
    }
}

impl<F: PageFile> Drive for FileDrive<F> {
    ghost pages = { λ d. option_map pages_of (F.bytes d.file) };

    ghost faults = { λ d. d.faults };

    ghost size = { λ _. 2048 };

    fn read(&mut self, page: u32, into: &mut [u8]) -> Result<(), DriveFailed> {
        if fill(&mut self.file, into, page as u64 * PAGE as u64) {
            return Ok(());
        }
        self.faults = self.faults.saturating_add(1);
        Err(DriveFailed)
    }

    fn write(&mut self, page: u32, from: &[u8]) -> Result<(), DriveFailed> {
        if put(&mut self.file, from, page as u64 * PAGE as u64) {
            return Ok(());
        }
        self.faults = self.faults.saturating_add(1);
        Err(DriveFailed)
    }

    fn capacity(&self) -> u32 {
        PAGES
    }
}

// Why a scratch file was not made.
enum ScratchErr {
    Failed,
    NoMemory,
}

/// How often a scratch file is tried where another run makes a file of the same name at the same time.
const TRIES: u32 = 16;

/// Drives over the scratch files `drive0.xprs`, `drive1.xprs` and so on in the current folder, which are this run's own. A
/// link, an empty file and a file of a scratch file's size under the name are removed first, and no link is followed.
/// Any other file of the name is left alone, and is a fault, as a file that can't be made is.
#[derive(Drop)]
pub struct FileRack<'a, R> {
    rt: &'a R,
    faults: u64,
}

impl<'a, R: Files> FileRack<'a, R> {
    /// A rack without a fault yet.
    pub fn new(rt: &'a R) -> FileRack<'a, R>
        ensures { result.faults ≡ 0 }
    {
        FileRack { rt, faults: 0 }
    }

    // Removes what a run left under the name. An error where anything else is there.
    fn clear(&self, name: &str) -> io::Result<()> {
        let found = match self.rt.symlink_metadata(name) {
            Ok(found) => found,
            Err(error) if error.kind() == ErrorKind::NotFound => return Ok(()),
            Err(error) => return Err(error),
        };
        let is_scratch = found.is_file() && (found.len() == 0 || found.len() == FILE_BYTES);
        if !found.is_symlink() && !is_scratch {
            return Err(io::Error::from(ErrorKind::AlreadyExists));
        }
        match self.rt.remove_file(name) {
            Err(error) if error.kind() != ErrorKind::NotFound => Err(error),
            _ => Ok(()),
        }
    }

    // A file that this run alone has made under the name.
    fn make(&self, name: &str) -> io::Result<R::File> {
        for _ in 0..TRIES {
            self.clear(name)?;
            match File::create_new(self.rt, name) {
                Err(error) if error.kind() == ErrorKind::AlreadyExists => {}
                made => return made,
            }
        }
        Err(io::Error::from(ErrorKind::AlreadyExists))
    }
}

impl<R: Files> FileRack<'_, R>
where
    R::File: OpenFile + Drop,
{
    // A new scratch file, of zeros.
    fn scratch_file(&self, alloc: Global, number: u32) -> Result<R::File, ScratchErr> {
        let Ok(name) = format!(in alloc; "drive{number}.xprs") else {
            return Err(ScratchErr::NoMemory);
        };
        let Ok(file) = self.make(name.as_str()) else {
            return Err(ScratchErr::Failed);
        };
        match file.set_len(FILE_BYTES) {
            Ok(()) => Ok(file),
            Err(_) => Err(ScratchErr::Failed),
        }
    }
}

impl<R: Files> Rack for FileRack<'_, R>
where
    R::File: FileExt + OpenFile + Drop,
{
    type Drive = FileDrive<SystemFile<R::File>>;

    ghost faults = { λ r. r.faults };

    fn mount(
        &mut self,
        alloc: Global,
        count: u32,
    ) -> Result<Vec<FileDrive<SystemFile<R::File>>>, RackErr> {
        let mut drives = Vec::new(alloc);
        for number in 0..count {
            let file = match self.scratch_file(alloc, number) {
                Ok(file) => file,
                Err(ScratchErr::NoMemory) => return Err(RackErr::NoMemory),
                Err(ScratchErr::Failed) => {
                    self.faults = self.faults.saturating_add(1);
                    return Err(RackErr::Failed);
                }
            };
            if drives.push(FileDrive::new(SystemFile::new(file))).is_err() {
                return Err(RackErr::NoMemory);
            }
        }
        Ok(drives)
    }
}
