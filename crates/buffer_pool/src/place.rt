//! Where a page of a file is fetched.
ghost use Rattle.std.specs.Prelude.{◌≡◌};
ghost use Rattle.heap_page.specs.Maps.{IsMap, HasPage};
ghost use Rattle.buffer_pool.specs.Fetched.{error_of};
ghost use Rattle.buffer_pool.specs.Places.{IsPlaced};

use heap_page::{FetchErr, FileKind, FileMap};

/// The place of a page: the number of its drive, its address there, and the kind of its file.
#[derive(Clone, Copy)]
pub(crate) struct Place {
    pub(crate) drive: u32,
    pub(crate) address: u32,
    pub(crate) kind: FileKind,
}

pub(crate) fn place_of(files: &FileMap, file: u32, page: u32) -> Place
    requires map { IsMap files.now }
    requires page { HasPage files.now.files.items file page }
    ensures { IsPlaced files.now file page result }
{
    let (drive, address) = files.place(file, page);
    let kind = files.files[file as usize].kind;
    Place {
        drive,
        address,
        kind,
    }
}

// The error of a shard as that of the drive of this number.
pub(crate) fn of_drive(error: FetchErr, drive: u32) -> FetchErr
    ensures { result ≡ error_of drive error }
{
    match error {
        FetchErr::DriveFault(_) => FetchErr::DriveFault(drive),
        other => other,
    }
}
