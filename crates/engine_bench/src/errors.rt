//! Why nothing was counted.
use heap_page::StoreErr;
use std::alloc::{AllocError, AllocFailed};
use thiserror::Error;

/// Why there is no number to be printed.
#[derive(Clone, Copy, Debug, PartialEq, Eq, Error)]
pub enum BenchErr {
    #[error("board [times], control [times], history, named|mutex THREADS TURNS, cached THREADS FETCHES, entries COUNT [SIZE], hashes ROWS [times], folds ROWS, rows ROWS, heap ROWS or index ROWS")]
    Unknown,
    #[error("no memory")]
    NoMemory,
    #[error("more than 1,000,000 rows")]
    TooMany,
    #[error("not in order")]
    NotInOrder,
    #[error("no room on the drives")]
    NoRoom,
    #[error("not written")]
    NotWritten,
}

impl From<AllocError> for BenchErr {
    fn from(_refused: AllocError) -> BenchErr {
        BenchErr::NoMemory
    }
}

impl<T: Drop> From<AllocFailed<T>> for BenchErr {
    fn from(_refused: AllocFailed<T>) -> BenchErr {
        BenchErr::NoMemory
    }
}

impl From<StoreErr> for BenchErr {
    fn from(error: StoreErr) -> BenchErr {
        match error {
            StoreErr::NoMemory => BenchErr::NoMemory,
            StoreErr::DriveFull { .. } => BenchErr::NoRoom,
            StoreErr::DriveFault(_) => BenchErr::NotWritten,
        }
    }
}
