//! What a plan rests on, counted of the tables and of the queries that keep relations.
ghost use Rattle.std.specs.Prelude.{◌≡◌, ◌<◌, ◌≤◌, ◌-◌, ℕ, List, Option, Some, IfErr, IfOk, IfSome, MatchResult, length, slice_get};
ghost use Rattle.heap_page.specs.Sources.{AreCalm};
ghost use Rattle.heap_page.specs.Stores.{fetch_fault};
ghost use Rattle.key_index.specs.Files.{HoldsIndex};
ghost use Rattle.key_index.specs.Paths.{IfBad, StopsInterval};
ghost use Rattle.key_index.specs.Searches.{HasIndex, IsUsable, NotBad, SearchCause};
ghost use Rattle.rel_meaning.specs.Expression.{question_of};
ghost use Rattle.rel_meaning.specs.declared.query.Var.{Var};
ghost use Rattle.rows.specs.declared.plain.KeyIndex.{KeyIndex};
ghost use Rattle.rows.specs.declared.plain.Relation.{Relation};
ghost use Rattle.seq_optimizer.specs.Bounds.{IsTyped};
ghost use Rattle.seq_optimizer.specs.Costs.{CanPlan, IsInterval};
ghost use Rattle.table_store.specs.declared.files.StoredIndex.{StoredIndex};
ghost use Rattle.table_store.specs.declared.files.StoredTable.{StoredTable};
ghost use Rattle.table_store.specs.Files.{numbers_in, table_blocks};
ghost use Rattle.query_planner.specs.Causes.{ReadCause};
ghost use Rattle.query_planner.specs.Counted.{CountAllKept, CountTables, CountsKept, bounds_on, height_in, interval_in, stats_in};
ghost use Rattle.query_planner.specs.Known.{AreKnown, IsKnown, Tells, questions_in};
ghost use Rattle.query_planner.specs.Plans.{AreLeft, IsLeft};
ghost use Rattle.query_planner.specs.Steps.{CanPlanFirst, IsKeptBefore, MayPlanAt};

use crate::known::Known;
use heap_page::{FetchErr, PageSource};
use kept_answers::kept_stats;
use key_index::interval;
use lists::Sequence;
use rel_meaning::Query;
use rows::{BoundList, Interval, KeyIndex};
use seq_optimizer::{VarStats, VarStatsList, bounds_of};
use std::alloc::Global;

// How many levels an index has, 0 where there is none.
fn height_of(index: &Option<KeyIndex>) -> u32
    ensures { (file heap_pages : ℕ) (stored : _) → index.now ≡ numbers_in file heap_pages stored → result ≡ height_in stored }
{
    match index {
        Some(index) => index.height,
        None => 0,
    }
}

// What is counted of the table of a relation.
fn counted(known: &Known<'_>, relation: u32, interval: Option<Interval>) -> VarStats
    requires known { IsKnown known.now }
    requires relation { relation < length known.now.relations.now }
    ensures interval { result.interval ≡ interval }
    ensures pages { (tables : List StoredTable) (table : StoredTable) → AreKnown known.now tables → slice_get tables relation ≡ Some table → result.pages ≡ length (table_blocks table) }
    ensures rows { (tables : List StoredTable) (table : StoredTable) → AreKnown known.now tables → slice_get tables relation ≡ Some table → result.rows ≡ length table.items }
    ensures height { (tables : List StoredTable) (table : StoredTable) → AreKnown known.now tables → slice_get tables relation ≡ Some table → result.height ≡ height_in table.index }
{
    let place = relation as usize;
    let heap = known.laid.heaps[place] as usize;
    VarStats {
        pages: known.laid.map.files[heap].pages as u64,
        rows: known.rows[place] as u64,
        interval,
        height: height_of(&known.laid.indexes[place]),
    }
}

// The entries that bounds leave of an index, where there are bounds.
fn left_by<P: PageSource>(
    alloc: Global,
    index: &KeyIndex,
    pages: &mut P,
    bounds: &BoundList,
) -> Result<Option<Interval>, FetchErr>
    requires file { HasIndex (P.files (P.whole pages.old)) index.now }
    requires some { IsUsable index.now }
    ensures whole { P.whole pages.new ≡ P.whole pages.old }
    ensures counts { (d : ℕ) → P.faults pages.old d ≤ P.faults pages.new d }
    ensures quiet { AreCalm (P.lone (P.whole pages.old)) (fetch_fault result) (P.faults pages.old) (P.faults pages.new) }
    ensures within { IfOk result (λ found. IfSome found IsInterval) }
    ensures left { IfOk result (IsLeft (P.image (P.whole pages.old)) bounds.now (Some index.now)) }
    ensures told { (f : ℕ → ℕ → List ℕ) (stored : StoredIndex) → P.image (P.whole pages.old) ≡ Some f → HoldsIndex index.now (f index.now.file) stored.entries →
        MatchResult result (λ found. found ≡ interval_in bounds.now (Some stored)) NotBad }
    ensures path { (f : ℕ → ℕ → List ℕ) → P.image (P.whole pages.old) ≡ Some f → IfErr result (IfBad (StopsInterval index.now (f index.now.file) bounds.now)) }
    ensures err { IfErr result (SearchCause index.now (P.drives (P.whole pages.old)) (P.faults pages.old) (P.faults pages.new)) }
{
    if bounds.is_empty() {
        return Ok(None);
    }
    Ok(Some(interval(alloc, index, pages, bounds)?))
}

// The entries that a query's bounds leave of the index of a variable's relation, where there are an index and bounds.
fn interval_on<P: PageSource>(
    alloc: Global,
    pages: &mut P,
    known: &Known<'_>,
    query: &Query,
    var: u32,
    relation: u32,
) -> Result<Option<Interval>, FetchErr>
    requires known { IsKnown known.now }
    requires files { P.files (P.whole pages.old) ≡ known.now.laid.now.map.files.items }
    requires relation { relation < length known.now.relations.now }
    requires test { IsTyped (question_of query.now).test }
    ensures whole { P.whole pages.new ≡ P.whole pages.old }
    ensures counts { (d : ℕ) → P.faults pages.old d ≤ P.faults pages.new d }
    ensures quiet { AreCalm (P.lone (P.whole pages.old)) (fetch_fault result) (P.faults pages.old) (P.faults pages.new) }
    ensures within { IfOk result (λ found. IfSome found IsInterval) }
    ensures left { (here : Relation) (index : Option KeyIndex) → slice_get known.now.relations.now relation ≡ Some here → slice_get known.now.laid.now.indexes.items relation ≡ Some index →
        IfOk result (IsLeft (P.image (P.whole pages.old)) (bounds_on here.index var (question_of query.now)) index) }
    ensures told { (tables : List StoredTable) (table : StoredTable) (here : Relation) → Tells known.now tables (P.image (P.whole pages.old)) → slice_get tables relation ≡ Some table → slice_get known.now.relations.now relation ≡ Some here →
        MatchResult result (λ found. found ≡ interval_in (bounds_on here.index var (question_of query.now)) table.index) NotBad }
    ensures err { IfErr result (ReadCause known.now.laid.now (P.image (P.whole pages.old)) (P.drives (P.whole pages.old)) (P.faults pages.old) (P.faults pages.new)) }
{
    let place = relation as usize;
    let Some(column) = known.relations.get(place).index else {
        return Ok(None);
    };
    let Some(index) = &known.laid.indexes[place] else {
        return Ok(None);
    };
    let bounds = bounds_of(alloc, query, var, column)?;
    left_by(alloc, index, pages, &bounds)
}

// What is counted of a kept relation, where the queries before this one have these stats.
fn counted_kept(known: &Known<'_>, table: &[VarStatsList], relation: u32) -> VarStats
    requires behind { length known.now.relations.now ≤ relation }
    requires kept { IsKeptBefore known.now.kept.now (length table.now)
        (relation - length known.now.relations.now) }
    requires table { CanPlanFirst (questions_in known.now) table.now }
    ensures { CountsKept known.now.kept.now (questions_in known.now) table.now
        (relation - length known.now.relations.now) result }
{
    let kept = known.kept.get(relation as usize - known.relations.len());
    let statement = kept.statement as usize;
    kept_stats(&known.queries[statement], &table[statement])
}

// What is counted for a variable of a query, where the queries before it have these stats.
fn stats_of<P: PageSource>(
    alloc: Global,
    pages: &mut P,
    known: &Known<'_>,
    table: &[VarStatsList],
    query: &Query,
    var: u32,
) -> Result<VarStats, FetchErr>
    requires known { IsKnown known.now }
    requires files { P.files (P.whole pages.old) ≡ known.now.laid.now.map.files.items }
    requires query { MayPlanAt (length known.now.relations.now) known.now.kept.now
        (length table.now) (question_of query.now) }
    requires table { CanPlanFirst (questions_in known.now) table.now }
    requires var { var < length (question_of query.now).vars }
    ensures whole { P.whole pages.new ≡ P.whole pages.old }
    ensures counts { (d : ℕ) → P.faults pages.old d ≤ P.faults pages.new d }
    ensures quiet { AreCalm (P.lone (P.whole pages.old)) (fetch_fault result) (P.faults pages.old) (P.faults pages.new) }
    ensures within { IfOk result (λ s. IfSome s.interval IsInterval) }
    ensures left { (v : Var) (here : Relation) (index : Option KeyIndex) → slice_get (question_of query.now).vars var ≡ Some v → slice_get known.now.relations.now v.relation ≡ Some here → slice_get known.now.laid.now.indexes.items v.relation ≡ Some index →
        IfOk result (λ s. IsLeft (P.image (P.whole pages.old)) (bounds_on here.index var (question_of query.now)) index s.interval) }
    ensures of_kept { (v : Var) → slice_get (question_of query.now).vars var ≡ Some v →
        length known.now.relations.now ≤ v.relation →
        IfOk result (CountsKept known.now.kept.now (questions_in known.now) table.now
        (v.relation - length known.now.relations.now)) }
    ensures told { (tables : List StoredTable) →
        Tells known.now tables (P.image (P.whole pages.old)) →
        MatchResult result (λ s. (v : Var) (here : Relation) (stored : StoredTable) →
        slice_get (question_of query.now).vars var ≡ Some v →
        slice_get known.now.relations.now v.relation ≡ Some here →
        slice_get tables v.relation ≡ Some stored →
        s ≡ stats_in (question_of query.now) var here stored) NotBad }
    ensures err { IfErr result (ReadCause known.now.laid.now (P.image (P.whole pages.old)) (P.drives (P.whole pages.old)) (P.faults pages.old) (P.faults pages.new)) }
{
    let relation = query.vars.get(var as usize).relation;
    if relation as usize >= known.relations.len() {
        return Ok(counted_kept(known, table, relation));
    }
    let interval = interval_on(alloc, pages, known, query, var, relation)?;
    Ok(counted(known, relation, interval))
}

// What is counted for each variable of a query, where the queries before it have these stats.
pub(crate) fn all_stats<P: PageSource>(
    alloc: Global,
    pages: &mut P,
    known: &Known<'_>,
    table: &[VarStatsList],
    query: &Query,
) -> Result<VarStatsList, FetchErr>
    requires known { IsKnown known.now }
    requires files { P.files (P.whole pages.old) ≡ known.now.laid.now.map.files.items }
    requires query { MayPlanAt (length known.now.relations.now) known.now.kept.now
        (length table.now) (question_of query.now) }
    requires table { CanPlanFirst (questions_in known.now) table.now }
    ensures whole { P.whole pages.new ≡ P.whole pages.old }
    ensures counts { (d : ℕ) → P.faults pages.old d ≤ P.faults pages.new d }
    ensures quiet { AreCalm (P.lone (P.whole pages.old)) (fetch_fault result) (P.faults pages.old) (P.faults pages.new) }
    ensures can { IfOk result (CanPlan (question_of query.now)) }
    ensures left { IfOk result (AreLeft known.now.relations.now known.now.laid.now (P.image (P.whole pages.old)) (question_of query.now)) }
    ensures of_kept { IfOk result (CountAllKept (length known.now.relations.now) known.now.kept.now
        (questions_in known.now) table.now (question_of query.now)) }
    ensures told { (tables : List StoredTable) → Tells known.now tables (P.image (P.whole pages.old)) →
        MatchResult result (CountTables known.now.relations.now tables (question_of query.now))
        NotBad }
    ensures err { IfErr result (ReadCause known.now.laid.now (P.image (P.whole pages.old)) (P.drives (P.whole pages.old)) (P.faults pages.old) (P.faults pages.new)) }
{
    let mut stats = Vec::new(alloc);
    for var in 0..query.vars.len() as u32 {
        stats.push(stats_of(alloc, pages, known, table, query, var)?)?;
    }
    Ok(Sequence::from_vec(stats))
}
