//! One turn on a shard.
ghost use Rattle.std.specs.Prelude.{◌≡◌, ◌<◌, ◌≤◌, ℕ, None};
ghost use Rattle.heap_page.specs.Stores.{fetch_fault};
ghost use Rattle.run_lock.specs.Passes.{IsFree, IsSamePass, seen_of};
ghost use Rattle.buffer_pool.specs.Counts.{GoesOn, count_of};
ghost use Rattle.buffer_pool.specs.Fetched.{IsFetched};
ghost use Rattle.buffer_pool.specs.Locks.{lock_drive};
ghost use Rattle.buffer_pool.specs.Lone.{IsOn, IsTurn};
ghost use Rattle.buffer_pool.specs.Shards.{Fits};
ghost use Rattle.xp_outside.specs.Outside.{Stands};

use crate::place::{Place, of_drive};
use crate::shard::Shard;
use heap_page::{FetchErr, Page};
use run_lock::{Pass, RunLock};
use std::alloc::Global;
use std::sync::{Arc, Wait};
use xp_outside::Drive;

// The page at a place, from the shard of its drive.
pub(crate) fn fetch_at<D: Drive>(
    alloc: Global,
    shard: &mut Shard<D>,
    place: Place,
    file: u32,
    page: u32,
) -> Result<Arc<Page>, FetchErr>
    requires { place.address < D.size shard.old.drive }
    ensures on { IsOn shard.old shard.new }
    ensures turn { IsTurn place file page shard.old shard.new result }
    ensures fetched { (named : D) → Fits named shard.old → IsFetched (D.pages named) place file page (D.faults shard.old.drive) (D.faults shard.new.drive) result }
    ensures quiet { fetch_fault result ≡ None → Stands (D.faults shard.old.drive) (D.faults shard.new.drive) }
    ensures frames { shard.new.cache.cap ≡ shard.old.cache.cap }
    ensures counter { GoesOn shard.old.counter shard.new.counter }
    ensures seen { (named : D) (seen : ℕ) → Fits named shard.old → seen ≤ shard.old.counter → IsFetched (D.pages named) place file page (count_of seen) (count_of shard.new.counter) result }
{
    match shard.fetch(alloc, place.kind, file, page, place.address) {
        Ok(found) => Ok(found),
        Err(error) => Err(of_drive(error, place.drive)),
    }
}

// The page at a place, under the lock of the drive's shard. It is a drive's fault only where the pass has then seen a
// counter that rose.
pub(crate) fn fetch_in_turn<D: Drive, R: Wait>(
    rt: &R,
    alloc: Global,
    lock: &RunLock<Shard<D>>,
    pass: &mut Pass<Shard<D>>,
    place: Place,
    file: u32,
    page: u32,
) -> Result<Arc<Page>, FetchErr>
    requires pass { IsFree lock.now pass.old }
    requires within { place.address < D.size (lock_drive lock.now) }
    ensures free { IsFree lock.now pass.new }
    ensures pass { IsSamePass pass.old pass.new }
    ensures count { seen_of pass.old ≤ seen_of pass.new }
    ensures fetched { IsFetched (D.pages (lock_drive lock.now)) place file page (count_of (seen_of pass.old)) (count_of (seen_of pass.new)) result }
{
    let mut held = lock.take(rt, pass);
    let answer = fetch_at(alloc, held.value(), place, file, page);
    lock.put(pass, held);
    answer
}
