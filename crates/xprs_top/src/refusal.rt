ghost use Rattle.std.specs.Prelude.{◌≡◌};
ghost use Rattle.xprs_top.specs.Inputs.{IsNaming, RefusesTable, RefusesText};

use crate::{Refused, Status};
use catalog_load::LoadErr;
use postquel::TextErr;
use rows::Text;
use std::alloc::Global;

/// Why a file isn't read.
#[derive(Clone, Copy)]
pub(crate) enum Naming {
    Missing,
    TooLong,
}

/// A status that names a file.
pub(crate) fn status_naming(alloc: Global, name: &[u8], which: Naming) -> Status
    ensures { IsNaming which name.now result }
{
    match Text::from_slice(alloc, name) {
        Ok(name) => Status::Refused(match which {
            Naming::Missing => Refused::Missing { name },
            Naming::TooLong => Refused::TooLong { name },
        }),
        Err(_) => Status::NoMemory,
    }
}

/// The status of a text that has a fault.
pub(crate) fn text_refusal(alloc: Global, name: &[u8], fault: TextErr) -> Status
    ensures { RefusesText name.now fault result }
{
    let TextErr::Fault { line, col, what } = fault else {
        return Status::NoMemory;
    };
    match Text::from_slice(alloc, name) {
        Ok(name) => Status::Refused(Refused::Script {
            name,
            line,
            col,
            what,
        }),
        Err(_) => Status::NoMemory,
    }
}

/// The status of a table that has a fault.
pub(crate) fn table_refusal(alloc: Global, name: &[u8], fault: LoadErr) -> Status
    ensures { RefusesTable name.now fault result }
{
    let LoadErr::Fault {
        number,
        column,
        what,
    } = fault
    else {
        return Status::NoMemory;
    };
    match Text::from_slice(alloc, name) {
        Ok(name) => Status::Refused(Refused::Table {
            name,
            number,
            column,
            what,
        }),
        Err(_) => Status::NoMemory,
    }
}
