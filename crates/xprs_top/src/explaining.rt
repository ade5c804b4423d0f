//! The plans of statements over tables on drives.
ghost use Rattle.std.specs.Prelude.{◌≡◌, ◌≤◌, ◌<◌, ◌^◌, ℕ, IfOk, IfErr, All, length, map};
ghost use Rattle.heap_page.specs.Stores.{AreQuiet, store_fault};
ghost use Rattle.fragments.specs.Folds.{folded};
ghost use Rattle.fragments.specs.Homes.{files_known};
ghost use Rattle.fragments.specs.Premises.{MayCut};
ghost use Rattle.fragments.specs.Scripts.{cut_plans};
ghost use Rattle.io_cpu_scheduler.specs.Limits.{IsMachine};
ghost use Rattle.plan_tree.specs.Pieces.{pieces_of};
ghost use Rattle.plan_tree.specs.Views.{planned_of};
ghost use Rattle.plan_tree.specs.WellFormed.{IsTimedFragment};
ghost use Rattle.query_planner.specs.Stored.{laid_indexes};
ghost use Rattle.rows.specs.declared.plain.Relation.{Relation};
ghost use Rattle.table_store.specs.Databases.{AllFresh, AreKept, IsLaidOut, LayoutCause, MayStore};
ghost use Rattle.xprs_top.specs.Counts.{NoOtherFailed, failed_drive};
ghost use Rattle.xprs_top.specs.declared.goal.Goal.TheVariants.{Plans};
ghost use Rattle.xprs_top.specs.Devices.{Makes};
ghost use Rattle.xprs_top.specs.Inputs.{read_of};
ghost use Rattle.xprs_top.specs.Readings.{over};
ghost use Rattle.xprs_top.specs.Requests.{HasMachine};
ghost use Rattle.xprs_top.specs.Tasks.{IsAnswerable, MayServe};
ghost use Rattle.xprs_top.specs.Texts.{Explains};

use crate::Status;
use crate::goal::Aim;
use crate::input::Checked;
use crate::made::Made;
use fragments::{cut, with_folds};
use heap_page::{FetchErr, StoreErr};
use plan_tree::{FragmentList, Method, explain_text};
use query_planner::{Planned, PlansAndStats, laid_indexes, plan_queries};
use rel_meaning::Database;
use rows::{Catalog, Machine};
use std::alloc::{AllocError, Global};
use table_store::{Laid, lay_database};
use xp_outside::Drive;

// Tables on drives, and how many rows each of them has.
struct Counted {
    laid: Laid,
    rows: Vec<u32>,
}

// How many rows each table has.
fn row_counts(alloc: Global, db: &Database) -> Result<Vec<u32>, AllocError>
    requires { All (λ t. length t.rows ≤ 1000000) db.now }
    ensures { IfOk result (λ counts. counts.items ≡ map (λ t. length t.rows) db.now) }
{
    let mut counts = Vec::with_capacity(alloc, db.len())?;
    for table in db.items() {
        counts.push(table.rows.len() as u32)?;
    }
    Ok(counts)
}

// Lays tables on drives.
fn lay_counted<D: Drive>(
    alloc: Global,
    drives: &mut [D],
    catalog: &Catalog,
    db: Database,
) -> Result<Counted, StoreErr>
    requires some { 0 < length drives.old }
    requires count { length drives.old < 2 ^ 32 }
    requires stored { MayStore catalog.now db }
    ensures kept { AreKept D.Drive drives.old drives.new }
    ensures laid { IfOk result (λ c. IsLaidOut D.Drive catalog.now db drives.old drives.new c.laid) }
    ensures rows { IfOk result (λ c. c.rows.items ≡ map (λ t. length t.rows) db) }
    ensures quiet { AreQuiet D.Drive (store_fault result) drives.old drives.new }
    ensures err { IfErr result (LayoutCause D.Drive catalog.now db drives.old drives.new) }
{
    let rows = row_counts(alloc, &db)?;
    let laid = lay_database(alloc, drives, catalog, &db)?;
    Ok(Counted { laid, rows })
}

// The fragments that plans are cut into, each statement's answer with its fold.
fn script_fragments(
    alloc: Global,
    checked: &Checked,
    laid: &Laid,
    made: &PlansAndStats,
) -> Result<FragmentList, AllocError>
    requires { MayCut (files_known checked.now.catalog laid.now.map (laid_indexes laid.now) checked.now.read.kept) made.now.stats (map planned_of made.now.plans) }
    ensures pieces { IfOk result (λ fragments. pieces_of fragments ≡ map (folded checked.now.read.folds)
        (cut_plans (files_known checked.now.catalog laid.now.map (laid_indexes laid.now) checked.now.read.kept) made.now.stats (map planned_of made.now.plans))) }
    ensures few { IfOk result (λ fragments. length fragments ≤ 1000) }
    ensures timed { IfOk result (All IsTimedFragment) }
{
    let indexes = laid_indexes(alloc, laid)?;
    let fragments = cut(
        alloc,
        &made.plans,
        &checked.catalog,
        &laid.map,
        &indexes,
        &made.stats,
        &checked.read.kept,
    )?;
    with_folds(alloc, fragments, &checked.read.folds)
}

// The text of plans that were made, with their fragments.
fn plans_text(
    alloc: Global,
    checked: &Checked,
    laid: &Laid,
    made: Result<PlansAndStats, FetchErr>,
    machine: &Machine,
) -> Result<Vec<u8>, Status>
    requires machine { IsMachine machine.now }
    requires serve { MayServe checked.now.catalog checked.now.read }
    requires cut { IfOk made (λ made. MayCut (files_known checked.now.catalog laid.now.map (laid_indexes laid.now) checked.now.read.kept) made.stats (map planned_of made.plans)) }
    ensures { Explains (read_of checked.now) laid.now machine.now made result }
{
    let made = made?;
    let fragments = script_fragments(alloc, checked, laid, &made)?;
    Ok(explain_text(alloc, &made.plans, &fragments, machine)?)
}

/// The plans of a checked script over its tables, which are laid on these drives.
pub(crate) fn explained<D: Drive>(
    alloc: Global,
    drives: Vec<D>,
    machine: &Machine,
    checked: &Checked,
    db: Database,
    method: Method,
) -> Made<D>
    requires some { HasMachine (Aim.Make (Plans method) machine.now) }
    requires count { length drives.items ≡ machine.now.drives }
    requires fresh { AllFresh D.Drive drives.items }
    requires answerable { IsAnswerable checked.now db }
    ensures count { length result.drives.items ≡ machine.now.drives }
    ensures made { (before now : ℕ) → Makes D.Drive (over (Plans method) machine.now (read_of checked.now) db) before now result.drives.items result.text }
    ensures quiet { NoOtherFailed D.Drive (failed_drive result.text) result.drives.items }
{
    let mut drives = drives;
    let Counted { laid, rows } = match lay_counted(
        alloc,
        drives.as_mut_slice(),
        &checked.catalog,
        db,
    ) {
        Ok(counted) => counted,
        Err(error) => {
            return Made {
                text: Err(Status::from(error)),
                drives,
            };
        }
    };
    let queries = checked.read.queries.items();
    let Planned { plans, drives } = plan_queries(
        alloc,
        drives,
        &laid,
        &checked.catalog,
        rows.as_slice(),
        queries,
        &checked.read.kept,
        method,
    );
    Made {
        text: plans_text(alloc, checked, &laid, plans, machine),
        drives,
    }
}
