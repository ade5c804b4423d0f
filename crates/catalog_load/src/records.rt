//! The records of a text, one after the other.

ghost use Rattle.std.specs.Prelude.{◌≡◌, IfErr, IfOk, true};
ghost use Rattle.csv.specs.Records.{fields_of};
ghost use Rattle.catalog_load.specs.Tables.{records_of};
ghost use Rattle.catalog_load.specs.declared.fault.LoadErr.TheVariants.{NoMemory};
ghost use Rattle.catalog_load.specs.Records.{IsPlain, Pops, left_in};

use crate::LoadErr;
use csv::{ByteRecord, Reader, ReaderBuilder};
use std::alloc::Global;

// A reader of the records of a text.
pub(crate) fn records(alloc: Global, bytes: &[u8]) -> Reader<&[u8]>
    ensures plain { IsPlain result }
    ensures records { left_in result ≡ records_of bytes.now }
{
    ReaderBuilder::new()
        .has_headers(false)
        .flexible(true)
        .from_reader(alloc, bytes)
}

// Reads the next record, and says whether there was one.
pub(crate) fn next_record(
    reader: &mut Reader<&[u8]>,
    fields: &mut ByteRecord,
) -> Result<bool, LoadErr>
    requires { IsPlain reader.old }
    ensures plain { IfOk result (λ found. found ≡ true → IsPlain reader.new) }
    ensures pops { IfOk result (λ found. Pops found (left_in reader.old) (fields_of fields.new) (left_in reader.new)) }
    ensures memory { IfErr result (λ e. e ≡ NoMemory) }
{
    let Ok(found) = reader.read_byte_record(fields) else {
        return Err(LoadErr::NoMemory);
    };
    Ok(found)
}
