//! The pages of a shared pool, for one thread.
ghost use Rattle.std.specs.Prelude.{◌≡◌, false};
ghost use Rattle.buffer_pool.specs.Images.{image_on};
ghost use Rattle.buffer_pool.specs.Seats.{IsSeatOf, counts_at, pool_drives, pool_map};

use crate::place::place_of;
use crate::seat::PoolSeat;
use crate::shared::SharedPool;
use crate::turn::fetch_in_turn;
use heap_page::{FetchErr, Page, PageSource};
use std::alloc::Global;
use std::sync::{Arc, Wait};
use xp_outside::Drive;

/// A shared pool with a seat at it.
pub struct PoolSource<'a, D: Drive, R: Wait> {
    pool: &'a SharedPool<D>,
    rt: &'a R,
    seat: PoolSeat<D>,
    ghost seated: { IsSeatOf pool.now seat },
}

impl<D: Drive> SharedPool<D> {
    /// The pages of the pool, by way of a seat at it.
    pub fn source<'a, R: Wait>(&'a self, rt: &'a R, seat: PoolSeat<D>) -> PoolSource<'a, D, R>
        requires { IsSeatOf self.now seat }
        ensures pool { result.pool.now ≡ self.now }
        ensures seat { result.seat ≡ seat }
    {
        PoolSource {
            pool: self,
            rt,
            seat,
        }
    }
}

impl<'a, D: Drive, R: Wait> PoolSource<'a, D, R> {
    /// The seat, which is of the same pool.
    pub fn into_seat(self) -> PoolSeat<D>
        ensures same { result ≡ self.entry.seat }
        ensures seat { IsSeatOf self.entry.pool.now result }
    {
        let PoolSource {
            pool: _,
            rt: _,
            seat,
        } = self;
        seat
    }
}

/// Its files are those of the map that the pool was made with. It tells their image exactly where each drive tells. The
/// count of a drive is how many failed reads of it the seat has seen. A fetch may wait, and is one turn under one lock.
impl<'a, D: Drive, R: Wait> PageSource for PoolSource<'a, D, R> {
    type Whole = SharedPool<D>;

    ghost whole = { λ source. source.pool.now };

    ghost drives = { λ pool. (pool_map pool).drives };

    ghost files = { λ pool. (pool_map pool).files.items };

    ghost image = { λ pool. image_on D.Drive (pool_map pool) (pool_drives pool) };

    ghost faults = { λ source d. counts_at source.seat d };

    ghost lone = { λ _. false };

    fn fetch(&mut self, alloc: Global, file: u32, page: u32) -> Result<Arc<Page>, FetchErr> {
        let place = place_of(&self.pool.map, file, page);
        let lock = &self.pool.locks[place.drive as usize];
        let pass = &mut self.seat.passes[place.drive as usize];
        fetch_in_turn(self.rt, alloc, lock, pass, place, file, page)
    }
}
