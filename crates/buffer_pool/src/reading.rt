//! Reading a page of a drive.
ghost use Rattle.std.specs.Prelude.{◌≡◌, ◌<◌, ◌≤◌, IfOk, IfErr, None, OnOk, ℕ};
ghost use Rattle.heap_page.specs.Stores.{IsRead, fetch_fault};
ghost use Rattle.xp_outside.specs.Outside.{Stands};
ghost use Rattle.buffer_pool.specs.Counts.{LAST, Covers, IsFailure};
ghost use Rattle.buffer_pool.specs.Told.{IsTold};

use heap_page::{FetchErr, Page};
use std::alloc::Global;
use xp_outside::{Drive, PAGE};

/// The last value of a shard's counter.
const LAST: u64 = u64::MAX - 1;

// Reads a page into a buffer of its own, and counts a failure.
pub(crate) fn read_page<D: Drive>(
    alloc: Global,
    drive: &mut D,
    counter: &mut u64,
    address: u32,
) -> Result<Page, FetchErr>
    requires within { address < D.size drive.old }
    requires room { counter.old ≤ LAST }
    ensures room { counter.new ≤ LAST }
    ensures read { IsRead D.Drive drive.old drive.new }
    ensures told { IfOk result (λ page. IsTold (D.pages drive.old) address page) }
    ensures covers { (named : ℕ) → Covers named counter.old (D.faults drive.old) → Covers named counter.new (D.faults drive.new) }
    ensures ok { OnOk result (counter.new ≡ counter.old) }
    ensures quiet { fetch_fault result ≡ None → Stands (D.faults drive.old) (D.faults drive.new) }
    ensures err { IfErr result (IsFailure (D.faults drive.old) (D.faults drive.new) counter.old counter.new) }
{
    let mut bytes = vec![in alloc; 0u8; PAGE]?;
    match drive.read(address, &mut bytes) {
        Ok(()) => Ok(Page::of_vec(bytes)),
        Err(_) => {
            *counter = (*counter + 1).min(LAST);
            Err(FetchErr::DriveFault(0))
        }
    }
}
