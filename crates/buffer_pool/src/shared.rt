//! A pool that threads share.
ghost use Rattle.std.specs.Prelude.{◌≡◌, ◌≤◌, ℕ, [], Some, IfOk, IfErr, slice_get, vec_len, vec_capacity};
ghost use Rattle.heap_page.specs.Maps.{IsMap};
ghost use Rattle.heap_page.specs.Stores.{AreRead, HaveRoom};
ghost use Rattle.buffer_pool.specs.Counts.{Covers};
ghost use Rattle.buffer_pool.specs.Images.{image_on};
ghost use Rattle.buffer_pool.specs.Locks.{AreLocks};
ghost use Rattle.buffer_pool.specs.Lone.{frames_of};

use crate::cache::caches;
use crate::mounted::copy_map;
use crate::opening::{Opening, lock_all, unlock_all};
use crate::seat::PoolSeat;
use crate::shard::Shard;
use heap_page::FileMap;
use run_lock::RunLock;
use std::alloc::Global;
use std::sync::Wait;
use xp_outside::Drive;

/// The pages of files on drives, for many threads: a lock round the shard of each drive.
pub struct SharedPool<D: Drive> {
    pub(crate) locks: Vec<RunLock<Shard<D>>>,
    pub(crate) map: FileMap,
    room: Vec<D>,
    ghost sound: { AreLocks map locks.items },
    ghost space: { (vec_len locks ≤ vec_capacity room) × (room.items ≡ []) },
}

impl<D: Drive> SharedPool<D> {
    ghost use Rattle.buffer_pool.specs.Seats.{IsSeatOf, KeepsFrames, pool_drives, pool_map, seen_at};

    /// A pool of the drives, one for each drive of the map, for the map's files, and the first seat at it. Each drive's
    /// shard keeps as many pages as its share of `frames`, and at least one. An `Err` is want of memory, and hands the
    /// drives back as `close` does. It may wait, since it then closes the locks that were made.
    pub fn new<R: Wait>(
        rt: &R,
        alloc: Global,
        drives: Vec<D>,
        map: &FileMap,
        frames: u32,
    ) -> Result<(SharedPool<D>, PoolSeat<D>), Vec<D>>
        requires map { IsMap map.now }
        requires drives { vec_len drives ≡ map.now.drives }
        requires room { HaveRoom D.Drive map.now drives.items }
        ensures seat { IfOk result (λ made. IsSeatOf made.0 made.1) }
        ensures seen { IfOk result (λ made. (d : ℕ) → seen_at made.1 d ≡ 0) }
        ensures drives { IfOk result (λ made. pool_drives made.0 ≡ drives.items) }
        ensures files { IfOk result (λ made. ((pool_map made.0).files.items ≡ map.now.files.items) × ((pool_map made.0).drives ≡ map.now.drives)) }
        ensures image { IfOk result (λ made. image_on D.Drive (pool_map made.0) (pool_drives made.0) ≡ image_on D.Drive map.now drives.items) }
        ensures frames { IfOk result (λ made. KeepsFrames (frames_of frames map.now.drives) made.0) }
        ensures err { IfErr result (λ back. AreRead D.Drive drives.items back.items) }
    {
        let Ok(copy) = copy_map(alloc, map) else {
            return Err(drives);
        };
        let frames = (frames / map.drives).max(1);
        let Ok(caches) = caches(alloc, map.drives, frames) else {
            return Err(drives);
        };
        let Ok(opening) = Opening::new(alloc, drives.len()) else {
            return Err(drives);
        };
        match lock_all(rt, alloc, drives, caches, frames, opening) {
            Ok(
                Opening {
                    locks,
                    passes,
                    room,
                },
            ) => Ok((
                SharedPool {
                    locks,
                    map: copy,
                    room,
                },
                PoolSeat { passes },
            )),
            Err(drives) => Err(drives),
        }
    }

    /// Ends the pool. The drives come in order. Each has the number of pages that it had when the pool was made, tells what
    /// it told then, or nothing where it told nothing, and its count hasn't fallen. Each failed read of a drive that the seat
    /// has seen is one of its count. It may wait.
    pub fn close<R: Wait>(self, rt: &R, seat: PoolSeat<D>) -> Vec<D>
        requires { IsSeatOf self seat }
        ensures read { AreRead D.Drive (pool_drives self) result.items }
        ensures seen { (d : ℕ) (named drive : D) → slice_get (pool_drives self) d ≡ Some named → slice_get result.items d ≡ Some drive → Covers (D.faults named) (seen_at seat d) (D.faults drive) }
    {
        let SharedPool {
            locks,
            map: _,
            room,
        } = self;
        let PoolSeat { passes } = seat;
        unlock_all(rt, locks, passes, room)
    }
}
