ghost use Rattle.std.specs.Prelude.{◌≡◌, ◌<◌, ◌≤◌, IfOk, OnOk, OnErr, Some, is_err, length, replicate, slice_get};
ghost use Rattle.xp_outside.specs.Memory.{drive_faults, drive_pages, drive_size, drive_reads, drive_writes, drive_read_fails, drive_write_fails, is_listed, next_call};
ghost use Rattle.xp_outside.specs.Drives.{ReadsPage, WritesPage, StillTells};
ghost use Rattle.xp_outside.specs.Outside.{Rose, Stands};

use crate::{Drive, DriveFailed, NoMemory, NumberList, PAGE, Rack, RackErr};
use lists::Sequence;
use std::alloc::Global;

/// Pages in memory. The reads and the writes whose numbers are listed, each counted from 1, fail.
#[derive(Debug, Drop)]
pub struct MemDrive {
    pages: Vec<[u8; PAGE]>,
    read_fails: NumberList,
    write_fails: NumberList,
    reads: u64,
    writes: u64,
    faults: u64,
}

// So many pages of zeros.
fn zeros(alloc: Global, count: u32) -> Result<Vec<[u8; PAGE]>, NoMemory>
    ensures { IfOk result (λ pages. pages.items ≡ replicate count (replicate 8192 0)) }
{
    let mut pages = Vec::with_capacity(alloc, count as usize)?;
    for _made in 0..count {
        pages.push([0; PAGE])?;
    }
    Ok(pages)
}

impl MemDrive {
    /// A drive of `pages` pages of zeros. An `Err` is want of memory.
    pub fn new(
        alloc: Global,
        pages: u32,
        read_fails: NumberList,
        write_fails: NumberList,
    ) -> Result<MemDrive, NoMemory>
        ensures pages { IfOk result (λ drive. drive_pages drive ≡ Some (replicate pages (replicate 8192 0))) }
        ensures size { IfOk result (λ drive. drive_size drive ≡ pages) }
        ensures count { IfOk result (λ drive. drive_faults drive ≡ 0) }
        ensures calls { IfOk result (λ drive. (drive_reads drive ≡ 0) × (drive_writes drive ≡ 0)) }
        ensures fails { IfOk result (λ drive. (drive_read_fails drive ≡ read_fails) × (drive_write_fails drive ≡ write_fails)) }
    {
        Ok(MemDrive {
            pages: zeros(alloc, pages)?,
            read_fails,
            write_fails,
            reads: 0,
            writes: 0,
            faults: 0,
        })
    }

    /// The bytes of a page.
    pub fn page(&self, page: u32) -> &[u8; PAGE]
        requires { page < drive_size self.now }
        ensures { slice_get self.now.pages.items page ≡ Some result.now }
    {
        &self.pages[page as usize]
    }

    /// How often the drive has failed.
    pub fn faults(&self) -> u64
        ensures { result ≡ drive_faults self.now }
    {
        self.faults
    }
}

impl Drive for MemDrive {
    ghost pages = { λ d. drive_pages d };

    ghost faults = { λ d. drive_faults d };

    ghost size = { λ d. drive_size d };

    /// It fails exactly where the number of this read is listed.
    fn read(&mut self, page: u32, into: &mut [u8]) -> Result<(), DriveFailed>
        requires in_drive { page < drive_size self.old }
        requires whole { length into.old ≡ 8192 }
        ensures told { drive_pages self.new ≡ drive_pages self.old }
        ensures quiet { OnOk result (Stands (drive_faults self.old) (drive_faults self.new)) }
        ensures got { OnOk result (ReadsPage (drive_pages self.old) page into.new) }
        ensures cause { OnErr result (Rose (drive_faults self.old) (drive_faults self.new)) }
        ensures count { drive_faults self.old ≤ drive_faults self.new }
        ensures size { drive_size self.new ≡ drive_size self.old }
        ensures fails { is_err result ≡ is_listed (drive_read_fails self.old) (next_call (drive_reads self.old)) }
        ensures reads { drive_reads self.new ≡ next_call (drive_reads self.old) }
        ensures writes { drive_writes self.new ≡ drive_writes self.old }
        ensures read_list { drive_read_fails self.new ≡ drive_read_fails self.old }
        ensures write_list { drive_write_fails self.new ≡ drive_write_fails self.old }
    {
        self.reads = self.reads.saturating_add(1);
        if self.read_fails.items().contains(&self.reads) {
            self.faults = self.faults.saturating_add(1);
            return Err(DriveFailed);
        }
        into.copy_from_slice(&self.pages[page as usize]);
        Ok(())
    }

    /// It fails exactly where the number of this write is listed.
    fn write(&mut self, page: u32, from: &[u8]) -> Result<(), DriveFailed>
        requires in_drive { page < drive_size self.old }
        requires whole { length from.now ≡ 8192 }
        ensures quiet { OnOk result (Stands (drive_faults self.old) (drive_faults self.new)) }
        ensures written { OnOk result (WritesPage (drive_pages self.old) (drive_pages self.new) page from.now) }
        ensures others { StillTells (drive_pages self.old) (drive_pages self.new) page }
        ensures cause { OnErr result (Rose (drive_faults self.old) (drive_faults self.new)) }
        ensures count { drive_faults self.old ≤ drive_faults self.new }
        ensures size { drive_size self.new ≡ drive_size self.old }
        ensures fails { is_err result ≡ is_listed (drive_write_fails self.old) (next_call (drive_writes self.old)) }
        ensures reads { drive_reads self.new ≡ drive_reads self.old }
        ensures writes { drive_writes self.new ≡ next_call (drive_writes self.old) }
        ensures read_list { drive_read_fails self.new ≡ drive_read_fails self.old }
        ensures write_list { drive_write_fails self.new ≡ drive_write_fails self.old }
    {
        self.writes = self.writes.saturating_add(1);
        if self.write_fails.items().contains(&self.writes) {
            self.faults = self.faults.saturating_add(1);
            return Err(DriveFailed);
        }
        self.pages[page as usize].copy_from_slice(from);
        Ok(())
    }

    fn capacity(&self) -> u32 {
        u32::try_from(self.pages.len()).unwrap_or(u32::MAX)
    }
}
