//! What the files of a shelf are read as.
ghost use Rattle.std.specs.Prelude.{◌≡◌, ◌≢◌, ◌≤◌, All, Err, IfOk, length};
ghost use Rattle.xp_outside.specs.Outside.{Stands};
ghost use Rattle.xprs_top.specs.declared.status.Status.TheVariants as status;
ghost use Rattle.postquel.specs.Program.{program_of};
ghost use Rattle.catalog_load.specs.Limits.{HasLimits};
ghost use Rattle.table_store.specs.Databases.{AreShort, IsTableOf, MayStore};
ghost use Rattle.rows.specs.RowBytes.{IsRowOf};
ghost use Rattle.xprs_top.specs.Inputs.{Told, checked_of, read_of};
ghost use Rattle.xprs_top.specs.Readings.{IsCatalog, IsChecked, IsScript, Just, fetch_of, table_of, tables_of};
ghost use Rattle.xprs_top.specs.Requests.{request_of};
ghost use Rattle.xprs_top.specs.Tasks.{HasIndexColumn, MayServe};

use crate::Status;
use crate::refusal::{Naming, status_naming, table_refusal};
use crate::script::{ReadScript, catalog_in, checked_script};
use crate::words::Operands;
use catalog_load::load_table;
use lists::Sequence;
use rel_meaning::{Database, Table};
use rows::{Catalog, Relation, Rows};
use std::alloc::Global;
use xp_outside::{Shelf, ShelfErr};

/// The greatest number of bytes of a file, 64 MiB.
const FILE_LIMIT: u64 = 67_108_864;

/// A catalogue, and a script that passed its checks over it.
#[derive(Drop)]
pub(crate) struct Checked {
    pub catalog: Catalog,
    pub read: ReadScript,
}

// The bytes of a file.
fn fetched<S: Shelf>(alloc: Global, shelf: &mut S, name: &[u8]) -> Result<Vec<u8>, Status>
    ensures files { S.files shelf.new ≡ S.files shelf.old }
    ensures count { S.faults shelf.old ≤ S.faults shelf.new }
    ensures quiet { result ≢ Err status.ShelfFault → Stands (S.faults shelf.old) (S.faults shelf.new) }
    ensures told { Told (S.files shelf.old) (S.faults shelf.old) (S.faults shelf.new) (λ v. v.items) result (λ files. Just (fetch_of files name.now)) }
    ensures small { IfOk result (λ bytes. length bytes.items ≤ 67108864) }
{
    match shelf.fetch(alloc, name, FILE_LIMIT) {
        Ok(bytes) => Ok(bytes),
        Err(ShelfErr::Missing) => Err(status_naming(alloc, name, Naming::Missing)),
        Err(ShelfErr::TooLong) => Err(status_naming(alloc, name, Naming::TooLong)),
        Err(ShelfErr::Failed) => Err(Status::ShelfFault),
        Err(ShelfErr::NoMemory) => Err(Status::NoMemory),
    }
}

fn catalog_input<S: Shelf>(alloc: Global, shelf: &mut S, name: &[u8]) -> Result<Catalog, Status>
    ensures files { S.files shelf.new ≡ S.files shelf.old }
    ensures count { S.faults shelf.old ≤ S.faults shelf.new }
    ensures quiet { result ≢ Err status.ShelfFault → Stands (S.faults shelf.old) (S.faults shelf.new) }
    ensures told { Told (S.files shelf.old) (S.faults shelf.old) (S.faults shelf.new) (λ c. c) result (λ files. IsCatalog files name.now) }
    ensures limits { IfOk result HasLimits }
    ensures indexes { IfOk result (All HasIndexColumn) }
{
    let bytes = fetched(alloc, shelf, name)?;
    catalog_in(alloc, name, bytes.as_slice())
}

fn script_input<S: Shelf>(
    alloc: Global,
    shelf: &mut S,
    catalog: &Catalog,
    name: &[u8],
) -> Result<ReadScript, Status>
    ensures files { S.files shelf.new ≡ S.files shelf.old }
    ensures count { S.faults shelf.old ≤ S.faults shelf.new }
    ensures quiet { result ≢ Err status.ShelfFault → Stands (S.faults shelf.old) (S.faults shelf.new) }
    ensures told { Told (S.files shelf.old) (S.faults shelf.old) (S.faults shelf.new) (checked_of catalog.now) result (λ files. IsScript files catalog.now name.now) }
    ensures serve { IfOk result (MayServe catalog.now) }
{
    let bytes = fetched(alloc, shelf, name)?;
    checked_script(alloc, name, bytes.as_slice(), catalog)
}

/// The catalogue and the script that the files are.
pub(crate) fn read_checked<S: Shelf>(
    alloc: Global,
    shelf: &mut S,
    operands: &Operands<'_>,
) -> Result<Checked, Status>
    ensures files { S.files shelf.new ≡ S.files shelf.old }
    ensures count { S.faults shelf.old ≤ S.faults shelf.new }
    ensures quiet { result ≢ Err status.ShelfFault → Stands (S.faults shelf.old) (S.faults shelf.new) }
    ensures told { Told (S.files shelf.old) (S.faults shelf.old) (S.faults shelf.new) read_of result (λ files. IsChecked files (request_of operands.now)) }
    ensures limits { IfOk result (λ checked. HasLimits checked.catalog) }
    ensures indexes { IfOk result (λ checked. All HasIndexColumn checked.catalog) }
    ensures serve { IfOk result (λ checked. MayServe checked.catalog checked.read) }
{
    let catalog = catalog_input(alloc, shelf, operands.catalog)?;
    let read = script_input(alloc, shelf, &catalog, operands.script)?;
    Ok(Checked { catalog, read })
}

// The rows of a relation's file.
fn table_input<S: Shelf>(alloc: Global, shelf: &mut S, relation: &Relation) -> Result<Rows, Status>
    requires { length relation.now.columns ≤ 32 }
    ensures files { S.files shelf.new ≡ S.files shelf.old }
    ensures count { S.faults shelf.old ≤ S.faults shelf.new }
    ensures quiet { result ≢ Err status.ShelfFault → Stands (S.faults shelf.old) (S.faults shelf.new) }
    ensures told { Told (S.files shelf.old) (S.faults shelf.old) (S.faults shelf.new) (λ r. r) result (λ files. Just (table_of files relation.now)) }
    ensures rows { IfOk result (All (IsRowOf relation.now.columns)) }
    ensures short { IfOk result (AreShort relation.now.columns) }
{
    let name = relation.file.items();
    let bytes = fetched(alloc, shelf, name)?;
    match load_table(alloc, bytes.as_slice(), relation) {
        Ok(rows) => Ok(rows),
        Err(fault) => Err(table_refusal(alloc, name, fault)),
    }
}

// The table of a relation.
fn table<S: Shelf>(alloc: Global, shelf: &mut S, relation: &Relation) -> Result<Table, Status>
    requires few { length relation.now.columns ≤ 32 }
    requires index { HasIndexColumn relation.now }
    ensures files { S.files shelf.new ≡ S.files shelf.old }
    ensures count { S.faults shelf.old ≤ S.faults shelf.new }
    ensures quiet { result ≢ Err status.ShelfFault → Stands (S.faults shelf.old) (S.faults shelf.new) }
    ensures told { Told (S.files shelf.old) (S.faults shelf.old) (S.faults shelf.new) (λ t. t.rows) result (λ files. Just (table_of files relation.now)) }
    ensures table { IfOk result (IsTableOf relation.now) }
{
    let rows = table_input(alloc, shelf, relation)?;
    Ok(Table {
        columns: relation.columns.copy(alloc)?,
        rows,
    })
}

/// The tables of a catalogue, in its order.
pub(crate) fn read_tables<S: Shelf>(
    alloc: Global,
    shelf: &mut S,
    catalog: &Catalog,
) -> Result<Database, Status>
    requires limits { HasLimits catalog.now }
    requires indexes { All HasIndexColumn catalog.now }
    ensures files { S.files shelf.new ≡ S.files shelf.old }
    ensures count { S.faults shelf.old ≤ S.faults shelf.new }
    ensures quiet { result ≢ Err status.ShelfFault → Stands (S.faults shelf.old) (S.faults shelf.new) }
    ensures told { Told (S.files shelf.old) (S.faults shelf.old) (S.faults shelf.new) (λ db. db) result (λ files. Just (tables_of files catalog.now)) }
    ensures stored { IfOk result (MayStore catalog.now) }
{
    let mut tables = Vec::new(alloc);
    for relation in catalog.items() {
        match table(alloc, shelf, relation) {
            Ok(table) => tables.push(table)?,
            Err(status) => return Err(status),
        }
    }
    Ok(Sequence::from_vec(tables))
}
