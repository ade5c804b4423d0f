//! What holds of the bounds of every query, of every tree that fits what is counted of stored
//! tables, and of the list of best plans.
ghost use Rattle.std.specs.Prelude.{◌≡◌, ◌==◌, ◌++◌, ℕ, Bool, List, length};
ghost use Rattle.std.specs.List.{AllByRecursion};
ghost use Rattle.rows.specs.declared.plain.Relation.{Relation};
ghost use Rattle.rel_meaning.specs.declared.query.Table.{Table};
ghost use Rattle.rel_meaning.specs.Expression.{Expression, Question};
ghost use Rattle.rel_meaning.specs.Meaning.{IsResolved, meaning};
ghost use Rattle.kept_relations.specs.declared.kept.Kept.{Kept};
ghost use Rattle.plan_tree.specs.declared.tree.Method.{Method};
ghost use Rattle.plan_tree.specs.Intervals.{Sets};
ghost use Rattle.plan_tree.specs.Trees.{IsTree, Shape, scan_tests};
ghost use Rattle.plan_tree.specs.TreeLaws.{tree_answer};
ghost use Rattle.plan_tree.specs.Views.{Planned};
ghost use Rattle.seq_optimizer.specs.declared.stats.VarStats.{VarStats};
ghost use Rattle.seq_optimizer.specs.Bounds.{bounds_of};
ghost use Rattle.seq_optimizer.specs.Costs.{FitsStats};
ghost use Rattle.table_store.specs.declared.files.StoredTable.{StoredTable};
ghost use Rattle.table_store.specs.Databases.{AreStored, MayStore};
ghost use Rattle.query_planner.specs.Counted.{AreStats, AreStatsOf};
ghost use Rattle.query_planner.specs.Plans.{AreBestPlans, IsPlanBy, MayPlan};
ghost use Rattle.query_planner.specs.Reading.{read_by};

/// The bounds that conjuncts set to a column of a variable hold for every row that passes the tests of the variable's
/// scan, whether it is the root of its tree or not.
pub fn bound_laws()
    ensures set { (v k : ℕ) (root : Bool) (cs : List Expression) → AllByRecursion (Sets (scan_tests root (λ u. v == u) cs) v k) (bounds_of v k cs) }
{}

/// Every tree of a query that fits what is counted of the stored tables and of what is kept means
/// the query, whatever its shape is and under either method, and whatever tables `made` stand
/// behind those of the relations. Its scans by a heap file read the rows of the table. Its scans by
/// an index read the rows whose bytes the entries lead to, from the first entry of the interval
/// that the query's bounds leave up to its end. So the best plan of a query means the query.
pub fn plan_laws()
    ensures meaning { (relations : List Relation) (db made : List Table) (tables : List StoredTable)
        (kept : List Kept) (qs : List Question) (table : List (List VarStats)) (q : Question)
        (m : Method) (t : Shape) (stats : List VarStats) → IsResolved (db ++ made) q →
        MayStore relations db → AreStored relations db tables →
        AreStatsOf relations tables kept qs table q stats → IsTree q m t → FitsStats stats t →
        tree_answer (db ++ made) q (read_by (db ++ made) tables q) t ≡ meaning (db ++ made) q }
    ensures planned { (relations : List Relation) (db made : List Table) (tables : List StoredTable)
        (kept : List Kept) (qs : List Question) (table : List (List VarStats)) (q : Question)
        (m : Method) (p : Planned) (stats : List VarStats) → IsResolved (db ++ made) q →
        MayStore relations db → AreStored relations db tables →
        AreStatsOf relations tables kept qs table q stats → IsPlanBy m q stats p →
        tree_answer (db ++ made) q (read_by (db ++ made) tables q) p.tree ≡ meaning (db ++ made) q }
{}

/// A database with a table for each relation is stored in one way, and what is counted of its
/// tables and of what is kept for the queries of a script that may be planned is one table of
/// stats. So such queries have one list of best plans under a method.
pub fn one_plan_list()
    ensures stored { (relations : List Relation) (db : List Table)
        (tables others : List StoredTable) → length db ≡ length relations →
        AreStored relations db tables → AreStored relations db others → tables ≡ others }
    ensures counted { (relations : List Relation) (tables : List StoredTable) (kept : List Kept)
        (qs : List Question) (table other : List (List VarStats)) →
        length tables ≡ length relations → MayPlan relations kept qs →
        AreStats relations tables kept qs table → AreStats relations tables kept qs other →
        table ≡ other }
    ensures plans { (relations : List Relation) (db : List Table)
        (tables others : List StoredTable) (kept : List Kept) (m : Method) (qs : List Question)
        (table other : List (List VarStats)) (ps rs : List Planned) →
        length db ≡ length relations → MayPlan relations kept qs →
        AreStored relations db tables → AreStored relations db others →
        AreBestPlans relations tables kept m qs table ps →
        AreBestPlans relations others kept m qs other rs → (table ≡ other) × (ps ≡ rs) }
{}
