//! The plans of queries.
ghost use Rattle.std.specs.Prelude.{◌≡◌, ◌≤◌, ℕ, List, Err, IfErr, IfOk, MatchResult, length, map, vec_len};
ghost use Rattle.buffer_pool.specs.Images.{image_on};
ghost use Rattle.fragments.specs.Homes.{files_known};
ghost use Rattle.fragments.specs.Premises.{MayCut};
ghost use Rattle.heap_page.specs.declared.errors.BadPage.{BadPage};
ghost use Rattle.heap_page.specs.declared.errors.FetchErr.TheVariants as fetch;
ghost use Rattle.heap_page.specs.Sources.{AreCalm};
ghost use Rattle.heap_page.specs.Stores.{AreQuiet, AreRead, HaveRoom, fetch_fault};
ghost use Rattle.key_index.specs.Searches.{NotBad};
ghost use Rattle.plan_tree.specs.Views.{planned_of};
ghost use Rattle.rel_meaning.specs.Expression.{question_of};
ghost use Rattle.seq_optimizer.specs.Costs.{CanPlan};
ghost use Rattle.table_store.specs.declared.files.StoredTable.{StoredTable};
ghost use Rattle.table_store.specs.Images.{HoldImage};
ghost use Rattle.table_store.specs.Readings.{AllTell};
ghost use Rattle.query_planner.specs.Causes.{PlanCause, ReadCause};
ghost use Rattle.query_planner.specs.Counted.{CountAllKept, CountTables};
ghost use Rattle.query_planner.specs.Known.{IsKnown, Tells, questions_in};
ghost use Rattle.query_planner.specs.Plans.{AreBestPlans, AreLeft, ArePlannedOver, IsPlanBy, MayCutPlans, MayPlan};
ghost use Rattle.query_planner.specs.Steps.{CanPlanFirst, MayPlanAt};
ghost use Rattle.query_planner.specs.Stored.{AreOf, Stands, laid_indexes};

use crate::counting::all_stats;
use crate::known::Known;
use buffer_pool::LonePool;
use heap_page::{FetchErr, PageSource};
use kept_relations::KeptList;
use lists::Sequence;
use plan_tree::{Method, Plan, PlanList};
use rel_meaning::Query;
use rows::Catalog;
use seq_optimizer::{VarStatsList, VarStatsTable, optimise};
use std::alloc::Global;
use table_store::Laid;
use xp_outside::Drive;

// How many pages are kept of each drive.
const FRAMES: u32 = 64;

/// The plan of each query, and a list for each with an entry of what is counted for each of its
/// variables, all in the order of the queries.
#[derive(Drop)]
pub struct PlansAndStats {
    pub plans: PlanList,
    pub stats: VarStatsTable,
}

/// What planning ended with: the plans of the queries with what they rest on, or why there are
/// none, and the drives.
#[derive(Drop)]
pub struct Planned<D> {
    pub plans: Result<PlansAndStats, FetchErr>,
    pub drives: Vec<D>,
}

// The plan of a query, and what is counted for each of its variables.
#[derive(Drop)]
struct PlanAndStats {
    plan: Plan,
    stats: VarStatsList,
}

// The plan of a query, where the queries before it have these stats.
fn plan_of<P: PageSource>(
    alloc: Global,
    pages: &mut P,
    known: &Known<'_>,
    table: &[VarStatsList],
    query: &Query,
    method: Method,
) -> Result<PlanAndStats, FetchErr>
    requires known { IsKnown known.now }
    requires files { P.files (P.whole pages.old) ≡ known.now.laid.now.map.files.items }
    requires query { MayPlanAt (length known.now.relations.now) known.now.kept.now
        (length table.now) (question_of query.now) }
    requires table { CanPlanFirst (questions_in known.now) table.now }
    ensures whole { P.whole pages.new ≡ P.whole pages.old }
    ensures counts { (d : ℕ) → P.faults pages.old d ≤ P.faults pages.new d }
    ensures quiet { AreCalm (P.lone (P.whole pages.old)) (fetch_fault result) (P.faults pages.old) (P.faults pages.new) }
    ensures can { IfOk result (λ p. CanPlan (question_of query.now) p.stats) }
    ensures plan { IfOk result (λ p. IsPlanBy method (question_of query.now) p.stats
        (planned_of p.plan)) }
    ensures left { IfOk result (λ p. AreLeft known.now.relations.now known.now.laid.now
        (P.image (P.whole pages.old)) (question_of query.now) p.stats) }
    ensures of_kept { IfOk result (λ p. CountAllKept (length known.now.relations.now)
        known.now.kept.now (questions_in known.now) table.now (question_of query.now) p.stats) }
    ensures told { (tables : List StoredTable) → Tells known.now tables (P.image (P.whole pages.old)) →
        MatchResult result (λ p. CountTables known.now.relations.now tables (question_of query.now)
        p.stats) NotBad }
    ensures err { IfErr result (ReadCause known.now.laid.now (P.image (P.whole pages.old)) (P.drives (P.whole pages.old)) (P.faults pages.old) (P.faults pages.new)) }
{
    let stats = all_stats(alloc, pages, known, table, query)?;
    let plan = optimise(alloc, query, &stats, method)?;
    Ok(PlanAndStats { plan, stats })
}

// The plan of each query, and what they rest on.
fn plans_of<P: PageSource>(
    alloc: Global,
    pages: &mut P,
    known: &Known<'_>,
    method: Method,
) -> Result<PlansAndStats, FetchErr>
    requires known { IsKnown known.now }
    requires files { P.files (P.whole pages.old) ≡ known.now.laid.now.map.files.items }
    requires queries { MayPlan known.now.relations.now known.now.kept.now (questions_in known.now) }
    ensures whole { P.whole pages.new ≡ P.whole pages.old }
    ensures counts { (d : ℕ) → P.faults pages.old d ≤ P.faults pages.new d }
    ensures quiet { AreCalm (P.lone (P.whole pages.old)) (fetch_fault result) (P.faults pages.old) (P.faults pages.new) }
    ensures trees { IfOk result (λ made. ArePlannedOver known.now.relations.now known.now.laid.now
        (P.image (P.whole pages.old)) known.now.kept.now method (questions_in known.now) made.stats
        (map planned_of made.plans)) }
    ensures told { (tables : List StoredTable) → Tells known.now tables (P.image (P.whole pages.old)) →
        MatchResult result (λ made. AreBestPlans known.now.relations.now tables known.now.kept.now
        method (questions_in known.now) made.stats (map planned_of made.plans)) NotBad }
    ensures err { IfErr result (ReadCause known.now.laid.now (P.image (P.whole pages.old)) (P.drives (P.whole pages.old)) (P.faults pages.old) (P.faults pages.new)) }
{
    let mut plans = Vec::new(alloc);
    let mut table = Vec::new(alloc);
    for query in known.queries {
        let made = plan_of(alloc, pages, known, table.as_slice(), query, method)?;
        plans.push(made.plan)?;
        table.push(made.stats)?;
    }
    Ok(PlansAndStats {
        plans: Sequence::from_vec(plans),
        stats: Sequence::from_vec(table),
    })
}

/// The plan of each query of a script under a method, over tables that stand on drives, with what
/// the plans rest on. A relation whose number is below that of the relations of the catalogue has a
/// table; the kept relations have the numbers behind, and only queries behind the one that keeps a
/// relation name it. Each plan is the best one by what is counted: of a table its pages and rows,
/// the height of its index, and the entries of the index that the query's bounds leave; of a kept
/// relation no page, no index, and as many rows as the query that keeps it is taken to have by its
/// own stats. Entries are searched for only where the variable's relation has an index and the
/// query sets a bound to the index's column. There are at most 16 tables, `rows` says how many rows
/// each has, the queries are resolved, and each has at most six variables. Whatever the drives
/// tell, the intervals are there where the search is made and lie within the entries of the
/// indexes, and the plans may be cut into fragments; where all drives tell, the intervals are what
/// the searches find in the told pages. `DriveFault` comes only where that drive's count rises.
/// `BadPage` has a page of one of the indexes, and doesn't come where all drives tell the image of
/// the tables; where all drives tell, a search for some bounds stops at it, with the first rule
/// that it breaks. `NoMemory` is want of memory. Each drive is handed back in its place: it keeps
/// its number of pages and all that it tells. The count of no drive rises but that of the one that
/// `DriveFault` names.
pub fn plan_queries<D: Drive>(
    alloc: Global,
    drives: Vec<D>,
    laid: &Laid,
    relations: &Catalog,
    rows: &[u32],
    queries: &[Query],
    kept: &KeptList,
    method: Method,
) -> Planned<D>
    requires stands { Stands relations.now rows.now laid.now (vec_len drives) }
    requires room { HaveRoom D.Drive laid.now.map drives.items }
    requires queries { MayPlan relations.now kept.now (map question_of queries.now) }
    ensures read { AreRead D.Drive drives.items result.drives.items }
    ensures quiet { AreQuiet D.Drive (fetch_fault result.plans) drives.items result.drives.items }
    ensures plans { (tables : List StoredTable) → AreOf relations.now rows.now laid.now (vec_len drives) tables → HoldImage D.Drive laid.now.map tables drives.items → AllTell D.Drive drives.items →
        IfOk result.plans (λ made. AreBestPlans relations.now tables kept.now method
        (map question_of queries.now) made.stats (map planned_of made.plans)) }
    ensures trees { IfOk result.plans (λ made. ArePlannedOver relations.now laid.now
        (image_on D.Drive laid.now.map drives.items) kept.now method (map question_of queries.now)
        made.stats (map planned_of made.plans)) }
    ensures cut { MayCutPlans relations.now kept.now (map question_of queries.now) →
        IfOk result.plans (λ made. MayCut
        (files_known relations.now laid.now.map (laid_indexes laid.now) kept.now) made.stats
        (map planned_of made.plans)) }
    ensures accepted { (tables : List StoredTable) (bad : BadPage) → AreOf relations.now rows.now laid.now (vec_len drives) tables → HoldImage D.Drive laid.now.map tables drives.items → AllTell D.Drive drives.items →
        result.plans ≡ Err (fetch.BadPage bad) → ⊥ }
    ensures err { IfErr result.plans (PlanCause D.Drive laid.now drives.items result.drives.items) }
{
    let frames = laid.map.drives.saturating_mul(FRAMES);
    let mut pool = match LonePool::new(alloc, drives, &laid.map, frames) {
        Ok(pool) => pool,
        Err(drives) => {
            return Planned {
                plans: Err(FetchErr::NoMemory),
                drives,
            };
        }
    };
    let known = Known {
        relations,
        laid,
        rows,
        queries,
        kept,
    };
    let plans = plans_of(alloc, &mut pool, &known, method);
    Planned {
        plans,
        drives: pool.into_drives(),
    }
}
