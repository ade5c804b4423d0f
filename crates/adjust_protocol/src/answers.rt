//! What the calls of a board answer.

use page_partition::Batch;

/// What `seat` answers.
#[derive(Drop)]
pub enum Seated {
    Role(u32),
    NoRole,
}

/// What `claim` answers.
#[derive(Drop)]
pub enum Claimed {
    Batch(Batch),
    Hold,
    Leave,
}

/// What `settle` answers.
#[derive(Drop)]
pub enum Settled {
    More,
    Cut(u32),
    Finished,
}

/// What `ask` answers.
#[derive(Drop)]
pub enum Asked {
    Pending,
    Cut(u32),
    NoChange,
    AlreadyFinished,
}
