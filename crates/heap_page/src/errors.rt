//! Why a page was not read, and why a file was not written.

use std::alloc::{AllocError, AllocFailed};

/// A page that breaks a rule: its file, its number and the first broken rule.
#[derive(Clone, Copy, Debug, PartialEq, Eq)]
pub struct BadPage {
    pub file: u32,
    pub page: u32,
    pub rule: u32,
}

/// Why a page was not fetched: the drive of this number failed, the page breaks a rule, or there is no memory.
#[derive(Clone, Copy, Debug, PartialEq, Eq)]
pub enum FetchErr {
    DriveFault(u32),
    BadPage(BadPage),
    NoMemory,
}

impl From<AllocError> for FetchErr {
    ghost use Rattle.heap_page.specs.declared.errors.FetchErr.TheVariants.{NoMemory};
    ghost use Rattle.std.specs.Prelude.{◌≡◌};

    ghost from_gives = { λ _ e. e ≡ NoMemory };

    fn from(_refused: AllocError) -> FetchErr {
        FetchErr::NoMemory
    }
}

impl<T: Drop> From<AllocFailed<T>> for FetchErr {
    ghost use Rattle.heap_page.specs.declared.errors.FetchErr.TheVariants.{NoMemory};
    ghost use Rattle.std.specs.Prelude.{◌≡◌};

    ghost from_gives = { λ _ e. e ≡ NoMemory };

    fn from(_refused: AllocFailed<T>) -> FetchErr {
        FetchErr::NoMemory
    }
}

/// Why a file was not written: the drive of this number failed, a drive has fewer pages than all files need there, or
/// there is no memory.
#[derive(Clone, Copy, Debug, PartialEq, Eq)]
pub enum StoreErr {
    DriveFault(u32),
    DriveFull {
        drive: u32,
        needs: u64,
        capacity: u32,
    },
    NoMemory,
}

impl From<AllocError> for StoreErr {
    ghost use Rattle.heap_page.specs.declared.errors.StoreErr.TheVariants.{NoMemory};
    ghost use Rattle.std.specs.Prelude.{◌≡◌};

    ghost from_gives = { λ _ e. e ≡ NoMemory };

    fn from(_refused: AllocError) -> StoreErr {
        StoreErr::NoMemory
    }
}

impl<T: Drop> From<AllocFailed<T>> for StoreErr {
    ghost use Rattle.heap_page.specs.declared.errors.StoreErr.TheVariants.{NoMemory};
    ghost use Rattle.std.specs.Prelude.{◌≡◌};

    ghost from_gives = { λ _ e. e ≡ NoMemory };

    fn from(_refused: AllocFailed<T>) -> StoreErr {
        StoreErr::NoMemory
    }
}
