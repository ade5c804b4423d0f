//! Pages on drives.
ghost use Rattle.std.specs.Prelude.{◌≡◌, ◌≢◌, Err, Some, OnOk, IfErr, length, slice_get};
ghost use Rattle.heap_page.specs.Maps.{IsMap, HasPage, drive_of, address_of};
ghost use Rattle.heap_page.specs.Stores.{AreQuiet, AreWritten, HaveRoom, StoreCause, TellsAt, store_fault};

use crate::{FileMap, Page, StoreErr};
use xp_outside::Drive;

/// Whether each drive has the pages that the map needs. `DriveFull` comes exactly where one has fewer, with the first such
/// drive, its need and its number of pages. It takes no memory.
pub fn check_room<D: Drive>(drives: &[D], map: &FileMap) -> Result<(), StoreErr>
    requires map { IsMap map.now }
    requires drives { length drives.now ≡ map.now.drives }
    ensures memory { result ≢ Err StoreErr.NoMemory }
    ensures ok { OnOk result (HaveRoom D.Drive map.now drives.now) }
    ensures err { IfErr result (StoreCause D.Drive map.now drives.now drives.now) }
{
    let _count = map.drives;
    for (place, drive) in drives.iter().enumerate() {
        let needs = map.needs(place as u32);
        let capacity = drive.capacity();
        if needs > capacity as u64 {
            return Err(StoreErr::DriveFull {
                drive: place as u32,
                needs,
                capacity,
            });
        }
    }
    Ok(())
}

/// Writes one page of a file to its place. Each drive has the pages that the map needs. `DriveFault` comes only where that
/// drive's count rises, and no other count does. It takes no memory. Whatever the answer, each drive keeps its number of
/// pages, tells exactly where it told, and tells the same at every other address.
pub fn store_page<D: Drive>(
    drives: &mut [D],
    map: &FileMap,
    file: u32,
    number: u32,
    page: &Page,
) -> Result<(), StoreErr>
    requires map { IsMap map.now }
    requires drives { length drives.old ≡ map.now.drives }
    requires page { HasPage map.now.files.items file number }
    requires room { HaveRoom D.Drive map.now drives.old }
    ensures written { AreWritten D.Drive (λ d a. (d ≡ drive_of map.now number) × (a ≡ address_of map.now file number)) drives.old drives.new }
    ensures quiet { AreQuiet D.Drive (store_fault result) drives.old drives.new }
    ensures memory { result ≢ Err StoreErr.NoMemory }
    ensures ok { OnOk result ((drive : _) → slice_get drives.new (drive_of map.now number) ≡ Some drive → TellsAt (D.pages drive) (address_of map.now file number) page.now) }
    ensures err { IfErr result (StoreCause D.Drive map.now drives.old drives.new) }
{
    let (place, address) = map.place(file, number);
    let drive = &mut drives[place as usize];
    match drive.write(address, page.bytes()) {
        Ok(()) => Ok(()),
        Err(_) => Err(StoreErr::DriveFault(place)),
    }
}
