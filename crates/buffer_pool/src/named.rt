//! What a lock knows of a shard.
use crate::shard::Shard;
use run_lock::Named;
use std::snapshot::Snapshot;
use xp_outside::Drive;

/// What a shard is made of: its drive, and how many pages it can keep.
#[derive(Drop)]
pub struct ShardName<D> {
    pub(crate) drive: Snapshot<D>,
    pub(crate) frames: u32,
}

/// A shard fits the drive of which it was made, and can keep as many pages as then. Its log has a number for each failed read.
impl<D: Drive> Named for Shard<D> {
    ghost use Rattle.std.specs.Prelude.{◌≡◌};
    ghost use Rattle.buffer_pool.specs.Counts.{up_to};
    ghost use Rattle.buffer_pool.specs.Shards.{Fits};

    type Name = ShardName<D>;

    type Entry = u64;

    ghost fits = { λ name shard. Fits name.drive.value shard × (shard.cache.cap ≡ name.frames) };

    ghost log = { λ shard. up_to shard.counter };

    fn length(&self) -> u64 {
        self.failed_reads()
    }
}
