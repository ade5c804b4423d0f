ghost use Rattle.std.specs.Prelude.{◌≡◌};
ghost use Rattle.xprs_top.specs.declared.status.Status.TheVariants as status;
ghost use Rattle.xprs_top.specs.Faults.{number_of};
ghost use Rattle.xprs_top.specs.Statuses.{of_fetch, of_store};

use catalog_load::TableWhat;
use heap_page::{BadPage, FetchErr, StoreErr};
use postquel::What;
use rows::Text;
use std::alloc::{AllocError, AllocFailed};

/// Why an input was refused: a file isn't there, has more than 67,108,864 bytes, or has a fault. Lines, columns and
/// records count from 1; the column of a table's fault is 0 where it is the record's as a whole.
#[derive(Debug, Drop)]
pub enum Refused {
    Missing {
        name: Text,
    },
    TooLong {
        name: Text,
    },
    /// A fault of the catalogue or of the script.
    Script {
        name: Text,
        line: u32,
        col: u32,
        what: What,
    },
    /// A fault of a table.
    Table {
        name: Text,
        number: u32,
        column: u32,
        what: TableWhat,
    },
}

/// What isn't built yet.
#[derive(Clone, Copy, Debug, PartialEq, Eq)]
pub enum Unbuilt {
    /// `run`, the answers of a script by several backends.
    Run,
    /// `gen`, the answers of an input that is made.
    Generation,
    /// `alone --trace`, the answers with the events of the run.
    Trace,
}

/// How a run ended.
#[derive(Debug, Drop)]
pub enum Status {
    /// The whole text was written.
    Done,
    /// The words are no form of this call's.
    Usage,
    /// The input has a fault.
    Refused(Refused),
    /// A file could not be read.
    ShelfFault,
    /// The drive of this number failed, or, without a number, no drives could be mounted.
    DriveFault(Option<u32>),
    /// A page that was read breaks a rule.
    Bad(BadPage),
    /// The text could not be written whole.
    SinkFault,
    /// Memory was wanting.
    NoMemory,
    /// The drive of this number has fewer pages than the tables need there.
    DriveFull {
        drive: u32,
        needs: u64,
        capacity: u32,
    },
    /// The words ask for what isn't built yet.
    NotBuilt(Unbuilt),
    /// The answer of this statement, counted from 1, is too large: a sum leaves 64 bits, or a group has
    /// 2^48 rows.
    TooLarge {
        statement: u32,
    },
}

impl Status {
    /// The number with which the program ends.
    pub fn number(&self) -> u8
        ensures { result ≡ number_of self.now }
    {
        match self {
            Status::Done => 0,
            Status::Usage => 1,
            Status::Refused(_) => 2,
            Status::ShelfFault => 3,
            Status::DriveFault(_) => 4,
            Status::Bad(_) => 5,
            Status::SinkFault => 6,
            Status::NoMemory => 7,
            Status::DriveFull { .. } => 8,
            Status::NotBuilt(_) => 9,
            Status::TooLarge { .. } => 10,
        }
    }
}

impl From<AllocError> for Status {
    ghost from_gives = { λ _ made. made ≡ status.NoMemory };

    fn from(_error: AllocError) -> Status {
        Status::NoMemory
    }
}

impl<T: Drop> From<AllocFailed<T>> for Status {
    ghost from_gives = { λ _ made. made ≡ status.NoMemory };

    fn from(_refused: AllocFailed<T>) -> Status {
        Status::NoMemory
    }
}

impl From<StoreErr> for Status {
    ghost from_gives = { λ e made. made ≡ of_store e };

    fn from(error: StoreErr) -> Status {
        match error {
            StoreErr::DriveFault(drive) => Status::DriveFault(Some(drive)),
            StoreErr::DriveFull {
                drive,
                needs,
                capacity,
            } => Status::DriveFull {
                drive,
                needs,
                capacity,
            },
            StoreErr::NoMemory => Status::NoMemory,
        }
    }
}

impl From<FetchErr> for Status {
    ghost from_gives = { λ e made. made ≡ of_fetch e };

    fn from(error: FetchErr) -> Status {
        match error {
            FetchErr::DriveFault(drive) => Status::DriveFault(Some(drive)),
            FetchErr::BadPage(bad) => Status::Bad(bad),
            FetchErr::NoMemory => Status::NoMemory,
        }
    }
}

/// What a run leaves: how it ended, and the drives that were mounted for it.
#[derive(Drop)]
pub struct Outcome<D> {
    pub status: Status,
    pub drives: Vec<D>,
}
