//! One drive, with the pages of it that were used last.
ghost use Rattle.std.specs.Prelude.{◌≡◌, ◌<◌, ◌≤◌, ℕ, IfOk, IfErr, IfSome, OnOk, OnErr, None, nat_eq};
ghost use Rattle.std.specs.Arc.{arc_value};
ghost use Rattle.std.specs.Map.{lookup};
ghost use Rattle.heap_page.specs.Pages.{head_fault};
ghost use Rattle.heap_page.specs.Stores.{IsRead, fetch_fault};
ghost use Rattle.xp_outside.specs.Outside.{Stands};
ghost use Rattle.buffer_pool.specs.Counts.{LAST, Covers, IsCounted};
ghost use Rattle.buffer_pool.specs.Told.{IsTold};
ghost use Rattle.buffer_pool.specs.Used.{BeginsWith, IsAnswer, IsToldBad, IsUsed};

use crate::cache::{Cache, admit, new_cache, use_cached};
use crate::reading::read_page;
use heap_page::{FetchErr, FileKind, Page};
use std::alloc::Global;
use std::sync::Arc;
use xp_outside::Drive;

/// One drive with its cached pages, and how many of its reads have failed here.
pub struct Shard<D: Drive> {
    drive: D,
    counter: u64,
    cache: Cache,
    ghost room: { counter ≤ LAST },
}

impl<D: Drive> Shard<D> {
    ghost use Rattle.buffer_pool.specs.Shards.{Fits, IsNew};

    /// A shard that keeps at most `frames` pages of the drive, and none yet. An `Err` is want of memory, and hands the
    /// drive back.
    pub fn new(alloc: Global, drive: D, frames: u32) -> Result<Shard<D>, D>
        requires { 0 < frames }
        ensures new { IfOk result (λ shard. IsNew drive frames shard) }
        ensures fits { IfOk result (λ shard. Fits drive shard) }
        ensures err { IfErr result (λ back. back ≡ drive) }
    {
        match new_cache(alloc, frames) {
            Ok(cache) => Ok(Shard::with_cache(drive, cache)),
            Err(_) => Err(drive),
        }
    }

    // A shard with these cached pages, of which no read has failed.
    pub(crate) fn with_cache(drive: D, cache: Cache) -> Shard<D>
        ensures { (result.drive ≡ drive) × (result.counter ≡ 0) × (result.cache ≡ cache) }
    {
        Shard {
            drive,
            counter: 0,
            cache,
        }
    }

    // How many reads of the drive have failed here.
    pub(crate) fn failed_reads(&self) -> u64
        ensures value { result ≡ self.now.counter }
        ensures short { result ≤ LAST }
    {
        self.counter
    }

    // Reads a page and keeps it.
    fn load(
        &mut self,
        alloc: Global,
        kind: FileKind,
        file: u32,
        page: u32,
        address: u32,
    ) -> Result<Arc<Page>, FetchErr>
        requires { address < D.size self.old.drive }
        ensures head { IfOk result (λ found. head_fault kind file page (arc_value found) ≡ None) }
        ensures told { IfOk result (λ found. IsTold (D.pages self.old.drive) address (arc_value found)) }
        ensures bad { IfErr result (IsToldBad (D.pages self.old.drive) kind file page address) }
        ensures used { IfOk result (λ found. IsUsed address (arc_value found) self.old.cache self.new.cache) }
        ensures same { OnErr result (self.new.cache ≡ self.old.cache) }
        ensures read { IsRead D.Drive self.old.drive self.new.drive }
        ensures covers { (named : ℕ) → Covers named self.old.counter (D.faults self.old.drive) → Covers named self.new.counter (D.faults self.new.drive) }
        ensures ok { OnOk result (self.new.counter ≡ self.old.counter) }
        ensures quiet { fetch_fault result ≡ None → Stands (D.faults self.old.drive) (D.faults self.new.drive) }
        ensures err { IfErr result (IsCounted (D.faults self.old.drive) (D.faults self.new.drive) self.old.counter self.new.counter) }
    {
        let found = read_page(alloc, &mut self.drive, &mut self.counter, address)?;
        admit(alloc, &mut self.cache, kind, file, page, address, found)
    }

    /// The page at an address, read or cached. It is the drive's, where the drive tells; its head breaks no rule for
    /// this kind, file and page; and it is then the one used last. No drive is read where the page is cached.
    /// `DriveFault` has the number 0, and comes only where the read failed; the drive's count rises with it alone, and so
    /// does the counter, up to 2^64 - 2. `BadPage` comes exactly where the head of what was read or cached breaks a rule, with the first one.
    /// After each error the same pages are cached, in the same order.
    pub fn fetch(
        &mut self,
        alloc: Global,
        kind: FileKind,
        file: u32,
        page: u32,
        address: u32,
    ) -> Result<Arc<Page>, FetchErr>
        requires { address < D.size self.old.drive }

        // The page of an Ok.
        ensures head { IfOk result (λ found. head_fault kind file page (arc_value found) ≡ None) }
        ensures told { (named : D) → Fits named self.old → IfOk result (λ found. IsTold (D.pages named) address (arc_value found)) }

        // A cached page is the answer, and no drive is called.
        ensures hit { IfSome (lookup (nat_eq address) self.old.cache.entries) (λ cached. (self.new.drive ≡ self.old.drive) × IsAnswer kind file page (arc_value cached) result) }

        // What is cached then.
        ensures used { IfOk result (λ found. IsUsed address (arc_value found) self.old.cache self.new.cache) }
        ensures recent { IfOk result (λ found. BeginsWith address (arc_value found) self.new.cache.entries) }
        ensures same { OnErr result (self.new.cache ≡ self.old.cache) }

        // The cause of an error, and the counter.
        ensures bad { (named : D) → Fits named self.old → IfErr result (IsToldBad (D.pages named) kind file page address) }
        ensures err { IfErr result (IsCounted (D.faults self.old.drive) (D.faults self.new.drive) self.old.counter self.new.counter) }
        ensures ok { OnOk result (self.new.counter ≡ self.old.counter) }
        ensures quiet { fetch_fault result ≡ None → Stands (D.faults self.old.drive) (D.faults self.new.drive) }

        // The drive keeps its size and what it tells, and the shard fits what it fitted.
        ensures read { IsRead D.Drive self.old.drive self.new.drive }
        ensures fits { (named : D) → Fits named self.old → Fits named self.new }
    {
        if let Some(found) = use_cached(&mut self.cache, kind, file, page, address)? {
            return Ok(found);
        }
        self.load(alloc, kind, file, page, address)
    }

    /// Gives up the cached pages, and hands out the drive.
    pub fn into_drive(self) -> D
        ensures { result ≡ self.drive }
    {
        let Shard {
            drive,
            counter: _,
            cache: _,
        } = self;
        drive
    }
}
