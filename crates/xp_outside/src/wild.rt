ghost use Rattle.std.specs.Prelude.{◌<◌, ◌≡◌, ◌≢◌, Err, IfOk, None, All, length};
ghost use Rattle.xp_outside.specs.Drives.{IsFresh};
ghost use Rattle.xp_outside.specs.Memory.{drive_faults, drive_size, IsMade};

use crate::{Drive, DriveFailed, MemDrive, NoMemory, Rack, RackErr};
use lists::Sequence;
use std::alloc::Global;

/// Pages in memory whose reads give one byte changed. It tells nothing.
#[derive(Debug, Drop)]
pub struct WildDrive {
    drive: MemDrive,
    byte: u32,
    mask: u8,
}

impl Drive for WildDrive {
    ghost pages = { λ _. None };

    ghost faults = { λ d. drive_faults d.drive };

    ghost size = { λ d. drive_size d.drive };

    fn read(&mut self, page: u32, into: &mut [u8]) -> Result<(), DriveFailed> {
        self.drive.read(page, into)?;
        if let Some(byte) = into.get_mut(self.byte as usize) {
            *byte ^= self.mask;
        }
        Ok(())
    }

    fn write(&mut self, page: u32, from: &[u8]) -> Result<(), DriveFailed> {
        self.drive.write(page, from)
    }

    fn capacity(&self) -> u32 {
        self.drive.capacity()
    }
}

/// A rack of such drives. Its mounts don't fail.
#[derive(Debug, Drop)]
pub struct WildRack {
    pages: u32,
    byte: u32,
    mask: u8,
}

impl WildRack {
    /// A rack whose drives have `pages` pages each. Every read takes the exclusive or of `mask` with the byte at `byte`.
    pub fn new(pages: u32, byte: u32, mask: u8) -> WildRack
        requires { byte < 8192 }
        ensures { (result.pages ≡ pages) × (result.byte ≡ byte) × (result.mask ≡ mask) }
    {
        WildRack { pages, byte, mask }
    }

    fn drive(&self, alloc: Global) -> Result<WildDrive, NoMemory>
        ensures fresh { IfOk result (λ d. IsFresh None (drive_faults d.drive) (drive_size d.drive)) }
        ensures made { IfOk result (IsMade self.now) }
    {
        let drive = MemDrive::new(
            alloc,
            self.pages,
            Sequence::new(alloc),
            Sequence::new(alloc),
        )?;
        Ok(WildDrive {
            drive,
            byte: self.byte,
            mask: self.mask,
        })
    }

    fn drives(&self, alloc: Global, count: u32) -> Result<Vec<WildDrive>, NoMemory>
        ensures number { IfOk result (λ drives. length drives.items ≡ count) }
        ensures fresh { IfOk result (λ drives. All (λ d. IsFresh None (drive_faults d.drive) (drive_size d.drive)) drives.items) }
        ensures made { IfOk result (λ drives. All (IsMade self.now) drives.items) }
    {
        let mut drives = Vec::new(alloc);
        for _number in 0..count {
            drives.push(self.drive(alloc)?)?;
        }
        Ok(drives)
    }
}

impl Rack for WildRack {
    type Drive = WildDrive;

    ghost faults = { λ _. 0 };

    /// Each drive has `pages` pages, and its reads change `byte` by `mask`.
    fn mount(&mut self, alloc: Global, count: u32) -> Result<Vec<WildDrive>, RackErr>
        ensures number { IfOk result (λ drives. length drives.items ≡ count) }
        ensures fresh { IfOk result (λ drives. All (λ d. IsFresh None (drive_faults d.drive) (drive_size d.drive)) drives.items) }
        ensures made { IfOk result (λ drives. All (IsMade self.old) drives.items) }
        ensures never { result ≢ Err RackErr.Failed }
        ensures same { self.new ≡ self.old }
    {
        match self.drives(alloc, count) {
            Ok(drives) => Ok(drives),
            Err(_) => Err(RackErr::NoMemory),
        }
    }
}
