//! Faults of a table, and their places.

ghost use Rattle.std.specs.Prelude.{◌≡◌};
ghost use Rattle.catalog_load.specs.declared.fault.LoadErr.TheVariants.{Fault, NoMemory};
ghost use Rattle.catalog_load.specs.declared.fault.TableWhat.TheVariants.{BadHeader};
ghost use Rattle.catalog_load.specs.Tables.{load_err};

use rows::FieldErr;
use std::alloc::{AllocError, AllocFailed};

/// What is wrong with a table.
#[derive(Clone, Copy, Debug, PartialEq, Eq)]
pub enum TableWhat {
    NoHeader,
    BadHeader,
    TooManyRows,
    FieldCount,
    NotInt4,
    OutOfInt4,
    NotBool,
    NotUtf8,
    TextTooLong,
    RowTooLong,
}

/// The first fault of a table with the number of its record, from 1, and of its column, from 1 and 0
/// for the record as a whole; or want of memory.
#[derive(Clone, Copy, Debug, PartialEq, Eq)]
pub enum LoadErr {
    Fault {
        number: u32,
        column: u32,
        what: TableWhat,
    },
    NoMemory,
}

impl LoadErr {
    // The fault of a record as a whole.
    pub(crate) fn of_record(number: u32, what: TableWhat) -> LoadErr
        ensures { result ≡ Fault number 0 what }
    {
        LoadErr::Fault {
            number,
            column: 0,
            what,
        }
    }

    // The fault of the header at a column.
    pub(crate) fn of_header(column: u32) -> LoadErr
        ensures { result ≡ Fault 1 column BadHeader }
    {
        LoadErr::Fault {
            number: 1,
            column,
            what: TableWhat::BadHeader,
        }
    }

    // The fault of a field.
    pub(crate) fn of_field(number: u32, column: u32, error: FieldErr) -> LoadErr
        ensures { result ≡ load_err number column error }
    {
        let what = match error {
            FieldErr::NotUtf8 => TableWhat::NotUtf8,
            FieldErr::NotInt4 => TableWhat::NotInt4,
            FieldErr::OutOfInt4 => TableWhat::OutOfInt4,
            FieldErr::TextTooLong => TableWhat::TextTooLong,
            FieldErr::NotBool => TableWhat::NotBool,
            FieldErr::NoMemory => return LoadErr::NoMemory,
        };
        LoadErr::Fault {
            number,
            column,
            what,
        }
    }
}

impl From<AllocError> for LoadErr {
    ghost from_gives = { λ _ made. made ≡ NoMemory };

    fn from(_error: AllocError) -> LoadErr {
        LoadErr::NoMemory
    }
}

impl<T: Drop> From<AllocFailed<T>> for LoadErr {
    ghost from_gives = { λ _ made. made ≡ NoMemory };

    fn from(_refused: AllocFailed<T>) -> LoadErr {
        LoadErr::NoMemory
    }
}
