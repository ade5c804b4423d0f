//! A pool for one caller, who waits for nobody.
ghost use Rattle.std.specs.Prelude.{◌≡◌, ◌≢◌, ◌<◌, ◌≤◌, ℕ, [], None, Some, true, IfOk, IfErr, length, slice_get, vec_len, vec_capacity};
ghost use Rattle.std.specs.List.{All};
ghost use Rattle.std.specs.Arc.{arc_value};
ghost use Rattle.heap_page.specs.Maps.{HasPage, IsMap, drive_of};
ghost use Rattle.heap_page.specs.Sources.{AreCalm, FetchCause, IsGiven};
ghost use Rattle.heap_page.specs.Stores.{AreRead, HaveRoom, fetch_fault};
ghost use Rattle.buffer_pool.specs.Fetched.{IsFetched};
ghost use Rattle.buffer_pool.specs.Images.{image_on};
ghost use Rattle.buffer_pool.specs.Lone.{AreNew, AreOn, AreShards, IsEmptyCache, IsTurnAt, count_at, drives_in, drives_of, frames_of, map_of};
ghost use Rattle.buffer_pool.specs.Places.{IsPlaced};
ghost use Rattle.buffer_pool.specs.Shards.{Fits};
ghost use Rattle.buffer_pool.specs.declared.place.Place.{Place};

use crate::cache::{Cache, caches};
use crate::mounted::{Mounted, copy_map, reserved};
use crate::place::{Place, place_of};
use crate::shard::Shard;
use crate::turn::fetch_at;
use heap_page::{FetchErr, FileMap, Page, PageSource};
use std::alloc::Global;
use std::snapshot::Snapshot;
use std::sync::Arc;
use xp_outside::Drive;

/// The pages of files on drives, for one caller: a shard for each drive.
pub struct LonePool<D: Drive> {
    shards: Vec<Shard<D>>,
    mounted: Mounted<D>,
    room: Vec<D>,
    ghost sound: { AreShards mounted shards.items },
    ghost space: { (vec_len shards ≤ vec_capacity room) × (room.items ≡ []) },
}

// A shard for each drive, with a cache each, laid into the room of `shards`.
fn fill<D: Drive>(
    mut drives: Vec<D>,
    mut caches: Vec<Cache>,
    mut shards: Vec<Shard<D>>,
) -> Vec<Shard<D>>
    requires caches { vec_len caches ≡ vec_len drives }
    requires none { shards.items ≡ [] }
    requires room { vec_len drives ≤ vec_capacity shards }
    ensures { (frames : ℕ) → All (IsEmptyCache frames) caches.items → AreNew drives.items frames result.items }
{
    'each: while !drives.is_empty() {
        let Some(cache) = caches.pop() else {
            unreachable!()
        };
        shards.push_reserved(Shard::with_cache(drives.remove(0), cache));
    }
    drives.destroy_empty();
    shards
}

// The drives of the shards, laid into `room`.
fn unload<D: Drive>(mut shards: Vec<Shard<D>>, mut room: Vec<D>) -> Vec<D>
    requires none { room.items ≡ [] }
    requires room { vec_len shards ≤ vec_capacity room }
    ensures { result.items ≡ drives_in shards.items }
{
    'each: while !shards.is_empty() {
        room.push_reserved(shards.remove(0).into_drive());
    }
    shards.destroy_empty();
    room
}

// The page at a place, from one of the shards.
fn fetch_from<D: Drive>(
    alloc: Global,
    shards: &mut [Shard<D>],
    place: Place,
    file: u32,
    page: u32,
) -> Result<Arc<Page>, FetchErr>
    requires drive { place.drive < length shards.old }
    requires within { (shard : _) → slice_get shards.old place.drive ≡ Some shard → place.address < D.size shard.drive }
    ensures on { AreOn place.drive shards.old shards.new }
    ensures turn { IsTurnAt place file page shards.old shards.new result }
    ensures quiet { fetch_fault result ≡ None → count_at shards.new place.drive ≡ count_at shards.old place.drive }
    ensures fetched { (named : D) (shard : _) → slice_get shards.old place.drive ≡ Some shard → Fits named shard → IsFetched (D.pages named) place file page (count_at shards.old place.drive) (count_at shards.new place.drive) result }
{
    let shard = &mut shards[place.drive as usize];
    fetch_at(alloc, shard, place, file, page)
}

impl<D: Drive> LonePool<D> {
    /// A pool of the drives, one for each drive of the map, for the map's files. Each drive's shard keeps as many pages
    /// as its share of `frames`, and at least one. An `Err` is want of memory, and hands the drives back.
    pub fn new(
        alloc: Global,
        drives: Vec<D>,
        map: &FileMap,
        frames: u32,
    ) -> Result<LonePool<D>, Vec<D>>
        requires map { IsMap map.now }
        requires drives { vec_len drives ≡ map.now.drives }
        requires room { HaveRoom D.Drive map.now drives.items }
        ensures drives { IfOk result (λ pool. drives_of pool.mounted ≡ drives.items) }
        ensures files { IfOk result (λ pool. ((map_of pool.mounted).files.items ≡ map.now.files.items) × ((map_of pool.mounted).drives ≡ map.now.drives)) }
        ensures image { IfOk result (λ pool. image_on D.Drive (map_of pool.mounted) (drives_of pool.mounted) ≡ image_on D.Drive map.now drives.items) }
        ensures new { IfOk result (λ pool. AreNew drives.items (frames_of frames map.now.drives) pool.shards.items) }
        ensures err { IfErr result (λ back. back ≡ drives) }
    {
        let frames = (frames / map.drives).max(1);
        let Ok(copy) = copy_map(alloc, map) else {
            return Err(drives);
        };
        let Ok(caches) = caches(alloc, map.drives, frames) else {
            return Err(drives);
        };
        let Ok((shards, room)) = reserved(alloc, drives.len()) else {
            return Err(drives);
        };
        let mounted = Mounted {
            map: copy,
            drives: Snapshot::of(&drives),
        };
        Ok(LonePool {
            shards: fill(drives, caches, shards),
            mounted,
            room,
        })
    }

    /// The drives, in order, as the pool has them. Each has the number of pages that it had when the pool was made, tells
    /// what it told then, or nothing where it told nothing, and its count hasn't fallen.
    pub fn into_drives(self) -> Vec<D>
        ensures read { AreRead D.Drive (drives_of self.mounted) result.items }
        ensures drives { result.items ≡ drives_in self.shards.items }
    {
        let LonePool {
            shards,
            mounted: _,
            room,
        } = self;
        unload(shards, room)
    }
}

/// Its files are those of the map that it was made with. It tells their image exactly where each drive tells. The count
/// of a drive is the drive's own.
impl<D: Drive> PageSource for LonePool<D> {
    type Whole = Mounted<D>;

    ghost whole = { λ pool. pool.mounted };

    ghost drives = { λ mounted. (map_of mounted).drives };

    ghost files = { λ mounted. (map_of mounted).files.items };

    ghost image = { λ mounted. image_on D.Drive (map_of mounted) (drives_of mounted) };

    ghost faults = { λ pool d. count_at pool.shards.items d };

    ghost lone = { λ _. true };

    /// The page, as for every source. A page that the pool has calls no drive and is the answer, where its head breaks
    /// no rule. After an Ok it is the page used last of its drive; after an error the same pages are cached.
    fn fetch(&mut self, alloc: Global, file: u32, page: u32) -> Result<Arc<Page>, FetchErr>
        requires { HasPage (map_of self.old.mounted).files.items file page }

        // As every source.
        ensures whole { self.new.mounted ≡ self.old.mounted }
        ensures counts { (d : ℕ) → count_at self.old.shards.items d ≤ count_at self.new.shards.items d }
        ensures quiet { AreCalm true (fetch_fault result) (count_at self.old.shards.items) (count_at self.new.shards.items) }
        ensures ok { IfOk result (λ found. IsGiven (map_of self.old.mounted).files.items (image_on D.Drive (map_of self.old.mounted) (drives_of self.old.mounted)) file page (arc_value found)) }
        ensures err { IfErr result (FetchCause (map_of self.old.mounted).files.items (image_on D.Drive (map_of self.old.mounted) (drives_of self.old.mounted)) (map_of self.old.mounted).drives (count_at self.old.shards.items) (count_at self.new.shards.items) file page) }

        // The shard of the page's drive before and after, and the others.
        ensures turn { (place : Place) → IsPlaced (map_of self.old.mounted) file page place → IsTurnAt place file page self.old.shards.items self.new.shards.items result }
        ensures others { (d : ℕ) → d ≢ drive_of (map_of self.old.mounted) page → slice_get self.new.shards.items d ≡ slice_get self.old.shards.items d }
    {
        let place = place_of(&self.mounted.map, file, page);
        fetch_from(alloc, &mut self.shards, place, file, page)
    }
}
