//! Locks round shards: making them, and taking the drives out again.
ghost use Rattle.std.specs.Prelude.{◌≡◌, ◌≤◌, ◌<◌, ◌+◌, ◌++◌, ◌∷◌, [], List, All, IfOk, IfErr, OnOk, OnErr, vec_len, vec_capacity};
ghost use Rattle.run_lock.specs.Passes.{IsFree, seen_of};
ghost use Rattle.heap_page.specs.Stores.{IsRead};
ghost use Rattle.buffer_pool.specs.Locks.{CoversSeen, Each, KeepFrames, drives_seen, lock_drive, lock_drives};
ghost use Rattle.buffer_pool.specs.Lone.{IsEmptyCache};

use crate::cache::Cache;
use crate::mounted::reserved;
use crate::named::ShardName;
use crate::shard::Shard;
use run_lock::{Pass, RunLock};
use std::alloc::Global;
use std::snapshot::Snapshot;
use std::sync::Wait;
use xp_outside::{Drive, NoMemory};

/// The locks that were made, a pass for each, and room for their drives.
pub(crate) struct Opening<D: Drive> {
    pub(crate) locks: Vec<RunLock<Shard<D>>>,
    pub(crate) passes: Vec<Pass<Shard<D>>>,
    pub(crate) room: Vec<D>,
}

impl<D: Drive> Opening<D> {
    // Room for so many locks.
    pub(crate) fn new(alloc: Global, count: usize) -> Result<Opening<D>, NoMemory>
        ensures empty { IfOk result (λ o. (o.locks.items ≡ []) × (o.passes.items ≡ []) × (o.room.items ≡ [])) }
        ensures room { IfOk result (λ o. (vec_capacity o.locks ≡ count) × (vec_capacity o.passes ≡ count) × (vec_capacity o.room ≡ count)) }
    {
        let passes = Vec::with_capacity(alloc, count)?;
        let (locks, room) = reserved(alloc, count)?;
        Ok(Opening {
            locks,
            passes,
            room,
        })
    }

    // Makes the lock of one more drive. Where there is no memory the drive comes back.
    fn lock(&mut self, alloc: Global, drive: D, cache: Cache, frames: u32) -> Result<(), D>
        requires cache { IsEmptyCache frames cache }
        requires locks { vec_len self.old.locks < vec_capacity self.old.locks }
        requires passes { vec_len self.old.passes < vec_capacity self.old.passes }
        ensures room { (self.new.room ≡ self.old.room) × (vec_capacity self.new.locks ≡ vec_capacity self.old.locks) × (vec_capacity self.new.passes ≡ vec_capacity self.old.passes) }
        ensures pairs { Each IsFree self.old.locks.items self.old.passes.items → Each IsFree self.new.locks.items self.new.passes.items }
        ensures drives { OnOk result (lock_drives self.new.locks.items ≡ lock_drives self.old.locks.items ++ drive ∷ []) }
        ensures frames { KeepFrames frames self.old.locks.items → KeepFrames frames self.new.locks.items }
        ensures len { OnOk result ((vec_len self.new.locks ≡ vec_len self.old.locks + 1) × (vec_len self.new.passes ≡ vec_len self.old.passes + 1)) }
        ensures seen { All (λ pass. seen_of pass ≡ 0) self.old.passes.items → All (λ pass. seen_of pass ≡ 0) self.new.passes.items }
        ensures same { OnErr result ((self.new.locks ≡ self.old.locks) × (self.new.passes ≡ self.old.passes)) }
        ensures err { IfErr result (λ back. back ≡ drive) }
    {
        let name = ShardName {
            drive: Snapshot::of(&drive),
            frames,
        };
        match RunLock::new(alloc, name, Shard::with_cache(drive, cache)) {
            Ok((lock, pass)) => {
                self.locks.push_reserved(lock);
                self.passes.push_reserved(pass);
                Ok(())
            }
            Err(shard) => Err(shard.into_drive()),
        }
    }
}

// Makes a lock for each drive, whose shard can keep so many pages. Where there is no memory the drives come back.
pub(crate) fn lock_all<D: Drive, R: Wait>(
    rt: &R,
    alloc: Global,
    mut drives: Vec<D>,
    mut caches: Vec<Cache>,
    frames: u32,
    mut opening: Opening<D>,
) -> Result<Opening<D>, Vec<D>>
    requires caches { vec_len caches ≡ vec_len drives }
    requires new { All (IsEmptyCache frames) caches.items }
    requires empty { (opening.locks.items ≡ []) × (opening.passes.items ≡ []) × (opening.room.items ≡ []) }
    requires room { (vec_len drives ≤ vec_capacity opening.locks) × (vec_len drives ≤ vec_capacity opening.passes) × (vec_len drives ≤ vec_capacity opening.room) }
    ensures drives { IfOk result (λ o. lock_drives o.locks.items ≡ drives.items) }
    ensures frames { IfOk result (λ o. KeepFrames frames o.locks.items) }
    ensures pairs { IfOk result (λ o. Each IsFree o.locks.items o.passes.items) }
    ensures seen { IfOk result (λ o. All (λ pass. seen_of pass ≡ 0) o.passes.items) }
    ensures room { IfOk result (λ o. (vec_len o.locks ≤ vec_capacity o.room) × (o.room.items ≡ [])) }
    ensures err { IfErr result (λ back. Each (IsRead D.Drive) drives.items back.items) }
{
    'each: while !drives.is_empty() {
        let Some(cache) = caches.pop() else {
            unreachable!()
        };
        if let Err(drive) = opening.lock(alloc, drives.remove(0), cache, frames) {
            return Err(hand_back(rt, opening, drive, drives));
        }
    }
    drives.destroy_empty();
    Ok(opening)
}

// Closes the locks. Their drives come first, then `drive`, then `drives`.
fn hand_back<D: Drive, R: Wait>(rt: &R, opening: Opening<D>, drive: D, mut drives: Vec<D>) -> Vec<D>
    requires room { (vec_len opening.locks + vec_len drives < vec_capacity opening.room) × (opening.room.items ≡ []) }
    requires pairs { Each IsFree opening.locks.items opening.passes.items }
    ensures { Each (IsRead D.Drive) (lock_drives opening.locks.items ++ drive ∷ drives.items) result.items }
{
    let Opening {
        locks,
        passes,
        room,
    } = opening;
    let mut back = unlock_all(rt, locks, passes, room);
    back.push_reserved(drive);
    'rest: while !drives.is_empty() {
        back.push_reserved(drives.remove(0));
    }
    drives.destroy_empty();
    back
}

// Closes the locks, and lays their drives into `room`.
pub(crate) fn unlock_all<D: Drive, R: Wait>(
    rt: &R,
    mut locks: Vec<RunLock<Shard<D>>>,
    mut passes: Vec<Pass<Shard<D>>>,
    mut room: Vec<D>,
) -> Vec<D>
    requires room { (vec_len locks ≤ vec_capacity room) × (room.items ≡ []) }
    requires pairs { Each IsFree locks.items passes.items }
    ensures capacity { vec_capacity result ≡ vec_capacity room }
    ensures len { vec_len result ≡ vec_len locks }
    ensures drives { Each (IsRead D.Drive) (lock_drives locks.items) result.items }
    ensures seen { Each (CoversSeen D.Drive) (drives_seen locks.items passes.items) result.items }
{
    'each: while !locks.is_empty() {
        let lock = locks.remove(0);
        let pass = passes.remove(0);
        room.push_reserved(lock.close(rt, pass).into_drive());
    }
    locks.destroy_empty();
    room
}
