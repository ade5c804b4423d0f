//! Files that are striped over drives.
ghost use Rattle.std.specs.Prelude.{◌≡◌, ◌<◌, ◌≤◌, ◌^◌, length};

use crate::head::FileKind;
use crate::shares::shares_of;

/// A file: what its pages hold, and how many there are.
#[derive(Clone, Copy, Debug, PartialEq, Eq)]
pub struct PageFile {
    pub kind: FileKind,
    pub pages: u32,
}

/// The files, by their numbers, and how many drives they are striped over.
#[derive(Debug, Drop)]
pub struct FileMap {
    pub files: Vec<PageFile>,
    pub drives: u32,
}

impl FileMap {
    ghost use Rattle.heap_page.specs.Maps.{IsMap, HasPage, drive_of, address_of, needs_of};

    /// The drive and the address of a page. The address is below what that drive needs.
    pub fn place(&self, file: u32, page: u32) -> (u32, u32)
        requires map { IsMap self.now }
        requires page { HasPage self.now.files.items file page }
        ensures drive { result.0 ≡ drive_of self.now page }
        ensures address { result.1 ≡ address_of self.now file page }
        ensures within { (result.0 < self.now.drives) × (result.1 < needs_of self.now result.0) }
    {
        let drive = page % self.drives;
        let base = shares_of(self.drives, drive, &self.files[..file as usize]);
        (drive, base + page / self.drives)
    }

    /// How many pages of all files stand on a drive.
    pub fn needs(&self, drive: u32) -> u64
        requires map { IsMap self.now }
        requires drive { drive < self.now.drives }
        ensures { result ≡ needs_of self.now drive }
    {
        shares_of(self.drives, drive, &self.files) as u64
    }
}
