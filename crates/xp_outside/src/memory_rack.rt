ghost use Rattle.std.specs.Prelude.{◌≡◌, ◌≢◌, ◌≤◌, Err, IfOk, All, length};
ghost use Rattle.xp_outside.specs.Drives.{IsFresh};
ghost use Rattle.xp_outside.specs.Memory.{drive_faults, drive_pages, drive_size, is_failed_mount, is_listed, next_call, rack_faults, rack_fails, rack_mounts, rack_read_fails, rack_size, rack_write_fails, AreMounted, list_at, IsMounted};
ghost use Rattle.xp_outside.specs.Outside.{Rose, Stands};

use crate::{MemDrive, NoMemory, NumberList, Rack, RackErr};
use lists::Sequence;
use std::alloc::Global;

/// Drives in memory. The mounts whose numbers are listed, counted from 1, fail.
#[derive(Debug, Drop)]
pub struct MemRack {
    pages: u32,
    mount_fails: NumberList,
    read_fails: NumberList,
    write_fails: NumberList,
    mounts: u64,
    faults: u64,
}

impl MemRack {
    /// A rack whose drives have `pages` pages each. Drive 0 fails at the listed reads and writes, the others at none.
    pub fn new(
        pages: u32,
        mount_fails: NumberList,
        read_fails: NumberList,
        write_fails: NumberList,
    ) -> MemRack
        ensures count { rack_faults result ≡ 0 }
        ensures mounts { rack_mounts result ≡ 0 }
        ensures pages { rack_size result ≡ pages }
        ensures fails { rack_fails result ≡ mount_fails }
        ensures lists { (rack_read_fails result ≡ read_fails) × (rack_write_fails result ≡ write_fails) }
    {
        MemRack {
            pages,
            mount_fails,
            read_fails,
            write_fails,
            mounts: 0,
            faults: 0,
        }
    }

    /// How often the rack has failed.
    pub fn faults(&self) -> u64
        ensures { result ≡ rack_faults self.now }
    {
        self.faults
    }

    // The drive of a number, as it is when it is mounted.
    fn drive(&self, alloc: Global, number: u32) -> Result<MemDrive, NoMemory>
        ensures fresh { IfOk result (λ d. IsFresh (drive_pages d) (drive_faults d) (drive_size d)) }
        ensures mounted { IfOk result (IsMounted (rack_size self.now) (list_at (rack_read_fails self.now) number) (list_at (rack_write_fails self.now) number)) }
    {
        if number == 0 {
            let read_fails = self.read_fails.copy(alloc)?;
            let write_fails = self.write_fails.copy(alloc)?;
            return MemDrive::new(alloc, self.pages, read_fails, write_fails);
        }
        MemDrive::new(
            alloc,
            self.pages,
            Sequence::new(alloc),
            Sequence::new(alloc),
        )
    }

    #[tactic(auto, using(crate::proofs::Mounts::mounted_more))]
    fn drives(&self, alloc: Global, count: u32) -> Result<Vec<MemDrive>, NoMemory>
        ensures number { IfOk result (λ drives. length drives.items ≡ count) }
        ensures fresh { IfOk result (λ drives. All (λ d. IsFresh (drive_pages d) (drive_faults d) (drive_size d)) drives.items) }
        ensures mounted { IfOk result (λ drives. AreMounted (rack_size self.now) (rack_read_fails self.now) (rack_write_fails self.now) drives.items) }
    {
        let mut drives = Vec::new(alloc);
        for number in 0..count {
            drives.push(self.drive(alloc, number)?)?;
        }
        Ok(drives)
    }
}

impl Rack for MemRack {
    type Drive = MemDrive;

    ghost faults = { λ r. rack_faults r };

    /// It answers `Failed` exactly where the number of this call is listed. Each drive has `pages` pages. Drive 0 fails at
    /// the listed reads and writes, the others at none.
    fn mount(&mut self, alloc: Global, count: u32) -> Result<Vec<MemDrive>, RackErr>
        ensures number { IfOk result (λ drives. length drives.items ≡ count) }
        ensures fresh { IfOk result (λ drives. All (λ d. IsFresh (drive_pages d) (drive_faults d) (drive_size d)) drives.items) }
        ensures quiet { result ≢ Err RackErr.Failed → Stands (rack_faults self.old) (rack_faults self.new) }
        ensures cause { result ≡ Err RackErr.Failed → Rose (rack_faults self.old) (rack_faults self.new) }
        ensures count { rack_faults self.old ≤ rack_faults self.new }
        ensures mounted { IfOk result (λ drives. AreMounted (rack_size self.old) (rack_read_fails self.old) (rack_write_fails self.old) drives.items) }
        ensures fails { is_failed_mount result ≡ is_listed (rack_fails self.old) (next_call (rack_mounts self.old)) }
        ensures mounts { rack_mounts self.new ≡ next_call (rack_mounts self.old) }
        ensures list { rack_fails self.new ≡ rack_fails self.old }
        ensures same { (rack_size self.new ≡ rack_size self.old) × (rack_read_fails self.new ≡ rack_read_fails self.old) × (rack_write_fails self.new ≡ rack_write_fails self.old) }
    {
        self.mounts = self.mounts.saturating_add(1);
        if self.mount_fails.items().contains(&self.mounts) {
            self.faults = self.faults.saturating_add(1);
            return Err(RackErr::Failed);
        }
        match self.drives(alloc, count) {
            Ok(drives) => Ok(drives),
            Err(_) => Err(RackErr::NoMemory),
        }
    }
}
