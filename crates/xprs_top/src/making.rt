//! Doing what a run is to do.
ghost use Rattle.std.specs.Prelude.{◌≡◌, ◌≢◌, ℕ, [], Err, None, length};
ghost use Rattle.xp_outside.specs.Outside.{Stands};
ghost use Rattle.xprs_top.specs.declared.status.Status.TheVariants as status;
ghost use Rattle.table_store.specs.Databases.{AllFresh};
ghost use Rattle.xprs_top.specs.Counts.{NoOtherFailed, failed_drive};
ghost use Rattle.xprs_top.specs.Devices.{Makes, NoneOrAll};
ghost use Rattle.xprs_top.specs.Inputs.{job_of, read_of};
ghost use Rattle.xprs_top.specs.Readings.{over};
ghost use Rattle.xprs_top.specs.Requests.{HasMachine};
ghost use Rattle.xprs_top.specs.Tasks.{IsAnswerable, IsPrint, IsReady, task_drives};

use crate::Status;
use crate::answering::answered;
use crate::explaining::explained;
use crate::goal::{Aim, Goal};
use crate::input::Checked;
use crate::made::{Made, unmade};
use crate::task::Task;
use rel_meaning::Database;
use rows::Machine;
use std::alloc::Global;
use xp_outside::{Drive, Rack, RackErr};

// What is asked for of a checked script and its tables, by way of these drives.
fn on_drives<D: Drive>(
    alloc: Global,
    drives: Vec<D>,
    goal: Goal,
    machine: &Machine,
    checked: &Checked,
    db: Database,
) -> Made<D>
    requires some { HasMachine (Aim.Make goal machine.now) }
    requires count { length drives.items ≡ machine.now.drives }
    requires fresh { AllFresh D.Drive drives.items }
    requires answerable { IsAnswerable checked.now db }
    ensures count { length result.drives.items ≡ machine.now.drives }
    ensures made { (before now : ℕ) → Makes D.Drive (over goal machine.now (read_of checked.now) db) before now result.drives.items result.text }
    ensures others { NoOtherFailed D.Drive (failed_drive result.text) result.drives.items }
{
    match goal {
        Goal::Answers => answered(alloc, drives, machine, checked, db),
        Goal::Plans(method) => explained(alloc, drives, machine, checked, db, method),
    }
}

// The same, for which drives are mounted.
fn over_tables<K: Rack>(
    alloc: Global,
    rack: &mut K,
    goal: Goal,
    machine: &Machine,
    checked: &Checked,
    db: Database,
) -> Made<K::Drive>
    requires some { HasMachine (Aim.Make goal machine.now) }
    requires answerable { IsAnswerable checked.now db }
    ensures made { Makes K.Drive.Drive (over goal machine.now (read_of checked.now) db) (K.faults rack.old) (K.faults rack.new) result.drives.items result.text }
    ensures quiet { result.text ≢ Err (status.DriveFault None) → Stands (K.faults rack.old) (K.faults rack.new) }
    ensures others { NoOtherFailed K.Drive.Drive (failed_drive result.text) result.drives.items }
    ensures count { NoneOrAll machine.now.drives (length result.drives.items) }
{
    match rack.mount(alloc, machine.drives) {
        Ok(drives) => on_drives(alloc, drives, goal, machine, checked, db),
        Err(RackErr::Failed) => unmade(alloc, Status::DriveFault(None)),
        Err(RackErr::NoMemory) => unmade(alloc, Status::NoMemory),
    }
}

/// Does a task.
pub(crate) fn make<K: Rack>(alloc: Global, rack: &mut K, task: Task) -> Made<K::Drive>
    requires { IsReady task }
    ensures made { Makes K.Drive.Drive (job_of task) (K.faults rack.old) (K.faults rack.new) result.drives.items result.text }
    ensures quiet { result.text ≢ Err (status.DriveFault None) → Stands (K.faults rack.old) (K.faults rack.new) }
    ensures others { NoOtherFailed K.Drive.Drive (failed_drive result.text) result.drives.items }
    ensures count { NoneOrAll (task_drives task) (length result.drives.items) }
    ensures print { IsPrint task → (rack.new ≡ rack.old) × (result.drives.items ≡ []) }
{
    match task {
        Task::Print(text) => Made {
            text: Ok(text),
            drives: Vec::new(alloc),
        },
        Task::Over {
            goal,
            machine,
            checked,
            db,
        } => over_tables(alloc, rack, goal, &machine, &checked, db),
    }
}
