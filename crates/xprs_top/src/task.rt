//! What a run is to do.
ghost use Rattle.std.specs.Prelude.{◌≡◌, ◌≢◌, ◌≤◌, All, Err, IfOk, Ok};
ghost use Rattle.xp_outside.specs.Outside.{Stands};
ghost use Rattle.xprs_top.specs.declared.status.Status.TheVariants as status;
ghost use Rattle.catalog_load.specs.Limits.{HasLimits};
ghost use Rattle.postquel.specs.Print.{script_text};
ghost use Rattle.postquel.specs.Program.{program_of};
ghost use Rattle.table_store.specs.Databases.{MayStore};
ghost use Rattle.xprs_top.specs.Inputs.{Finds, Told, job_of, read_of};
ghost use Rattle.xprs_top.specs.Readings.{IsJob, Just, bind, over, tables_of, write};
ghost use Rattle.xprs_top.specs.Requests.{HasMachine, drives_for, request_of};
ghost use Rattle.xprs_top.specs.Runs.{IsCheck};
ghost use Rattle.xprs_top.specs.Tasks.{HasIndexColumn, IsPrint, IsReady, MayServe, task_drives};

use crate::Status;
use crate::goal::{Aim, Goal};
use crate::input::{Checked, read_checked, read_tables};
use crate::words::Operands;
use postquel::{Script, print};
use rel_meaning::Database;
use rows::Machine;
use std::alloc::Global;
use xp_outside::Shelf;

/// To write a text, or to make something of a checked script and the tables of its catalogue.
#[derive(Drop)]
pub(crate) enum Task {
    Print(Vec<u8>),
    Over {
        goal: Goal,
        machine: Machine,
        checked: Checked,
        db: Database,
    },
}

// To write a script in its printed form.
fn print_task(alloc: Global, script: &Script) -> Result<Task, Status>
    ensures value { Finds job_of result (Just (Ok (write (script_text (program_of script.now))))) }
    ensures print { IfOk result IsPrint }
    ensures drives { IfOk result (λ task. task_drives task ≡ 0) }
{
    Ok(Task::Print(print(alloc, script)?))
}

// To make something of a checked script and its tables, which are read.
fn tables_task<S: Shelf>(
    alloc: Global,
    shelf: &mut S,
    goal: Goal,
    machine: Machine,
    checked: Checked,
) -> Result<Task, Status>
    requires drives { HasMachine (Aim.Make goal machine) }
    requires limits { HasLimits checked.catalog }
    requires indexes { All HasIndexColumn checked.catalog }
    requires serve { MayServe checked.catalog checked.read }
    ensures files { S.files shelf.new ≡ S.files shelf.old }
    ensures count { S.faults shelf.old ≤ S.faults shelf.new }
    ensures quiet { result ≢ Err status.ShelfFault → Stands (S.faults shelf.old) (S.faults shelf.new) }
    ensures told { Told (S.files shelf.old) (S.faults shelf.old) (S.faults shelf.new) job_of result (λ files. Just (bind (tables_of files checked.catalog) (λ db. Ok (over goal machine (read_of checked) db)))) }
    ensures ready { IfOk result IsReady }
    ensures drives { IfOk result (λ task. task_drives task ≡ machine.drives) }
{
    let db = read_tables(alloc, shelf, &checked.catalog)?;
    Ok(Task::Over {
        goal,
        machine,
        checked,
        db,
    })
}

/// The task that the words ask for.
pub(crate) fn read_task<S: Shelf>(
    alloc: Global,
    shelf: &mut S,
    operands: &Operands<'_>,
) -> Result<Task, Status>
    requires { HasMachine operands.now.aim }
    ensures files { S.files shelf.new ≡ S.files shelf.old }
    ensures count { S.faults shelf.old ≤ S.faults shelf.new }
    ensures quiet { result ≢ Err status.ShelfFault → Stands (S.faults shelf.old) (S.faults shelf.new) }
    ensures told { Told (S.files shelf.old) (S.faults shelf.old) (S.faults shelf.new) job_of result (λ files. IsJob files (request_of operands.now)) }
    ensures ready { IfOk result IsReady }
    ensures print { IsCheck operands.now.aim → IfOk result IsPrint }
    ensures drives { IfOk result (λ task. task_drives task ≡ drives_for operands.now.aim) }
{
    let checked = read_checked(alloc, shelf, operands)?;
    match operands.aim {
        Aim::Print => print_task(alloc, &checked.read.script),
        Aim::Make { goal, machine } => tables_task(alloc, shelf, goal, machine, checked),
    }
}
