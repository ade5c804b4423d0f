//! A place at a shared pool.
ghost use Rattle.std.specs.Prelude.{◌≡◌, ◌≢◌, ◌<◌, ℕ, Some, IfOk, max, slice_get, vec_len};
ghost use Rattle.run_lock.specs.Passes.{IsFree, seen_of};

use crate::shard::Shard;
use crate::shared::SharedPool;
use run_lock::Pass;
use std::alloc::Global;
use xp_outside::{Drive, NoMemory};

/// A pass for each shard of a pool.
#[derive(Drop)]
pub struct PoolSeat<D: Drive> {
    pub(crate) passes: Vec<Pass<Shard<D>>>,
}

impl<D: Drive> PoolSeat<D> {
    ghost use Rattle.buffer_pool.specs.Seats.{IsSeatOf, seen_at};

    /// A second seat at the pool, which has seen as many failed reads. An `Err` is want of memory.
    pub fn split(&mut self, alloc: Global, pool: &SharedPool<D>) -> Result<PoolSeat<D>, NoMemory>
        requires { IsSeatOf pool.now self.old }
        ensures seat { IsSeatOf pool.now self.new }
        ensures seen { (d : ℕ) → seen_at self.new d ≡ seen_at self.old d }
        ensures other { IfOk result (λ other. IsSeatOf pool.now other) }
        ensures other_seen { IfOk result (λ other. (d : ℕ) → seen_at other d ≡ seen_at self.old d) }
    {
        let mut passes = Vec::with_capacity(alloc, self.passes.len())?;
        for place in 0..self.passes.len() {
            passes.push(self.split_at(pool, place)?)?;
        }
        Ok(PoolSeat { passes })
    }

    /// Takes in another seat at the pool, which is spent. The kept seat has seen what either had.
    pub fn join(&mut self, pool: &SharedPool<D>, other: PoolSeat<D>)
        requires kept { IsSeatOf pool.now self.old }
        requires other { IsSeatOf pool.now other }
        ensures seat { IsSeatOf pool.now self.new }
        ensures seen { (d : ℕ) → seen_at self.new d ≡ max (seen_at self.old d) (seen_at other d) }
    {
        let PoolSeat { mut passes } = other;
        'each: while let Some(pass) = passes.pop() {
            self.join_at(pool, passes.len(), pass);
        }
    }

    // A second pass of the shard of this number.
    fn split_at(&mut self, pool: &SharedPool<D>, place: usize) -> Result<Pass<Shard<D>>, NoMemory>
        requires seat { IsSeatOf pool.now self.old }
        requires place { place < vec_len self.old.passes }
        ensures seat { IsSeatOf pool.now self.new }
        ensures seen { (d : ℕ) → seen_at self.new d ≡ seen_at self.old d }
        ensures free { IfOk result (λ other. (lock : _) → slice_get pool.now.locks.items place ≡ Some lock → IsFree lock other) }
        ensures same { IfOk result (λ other. seen_of other ≡ seen_at self.old place) }
    {
        self.passes[place].split(&pool.locks[place])
    }

    // Takes in another pass of the shard of this number.
    fn join_at(&mut self, pool: &SharedPool<D>, place: usize, other: Pass<Shard<D>>)
        requires seat { IsSeatOf pool.now self.old }
        requires place { place < vec_len self.old.passes }
        requires other { (lock : _) → slice_get pool.now.locks.items place ≡ Some lock → IsFree lock other }
        ensures seat { IsSeatOf pool.now self.new }
        ensures joined { seen_at self.new place ≡ max (seen_at self.old place) (seen_of other) }
        ensures others { (d : ℕ) → d ≢ place → seen_at self.new d ≡ seen_at self.old d }
    {
        self.passes[place].join(&pool.locks[place], other);
    }
}
