ghost use Rattle.std.specs.Prelude.{◌≡◌, ◌≤◌, [], ◌∷◌, IfOk, All, length, map, vec_len};
ghost use Rattle.std.specs.Option.{option_map};
ghost use Rattle.heap_page.specs.Stores.{HaveRoom};
ghost use Rattle.rel_meaning.specs.Expression.{expression_of, question_of};
ghost use Rattle.rows.specs.declared.plain.Relation.{Relation};
ghost use Rattle.rows.specs.RowBytes.{IsRowOf, row_bytes};
ghost use Rattle.table_store.specs.Databases.{AreShort, IsTableOf};
ghost use Rattle.query_planner.specs.Plans.{relation_columns};
ghost use Rattle.query_planner.specs.Sample.{above, asked, number_columns, number_layouts, sample, sample_kept};
ghost use Rattle.query_planner.specs.Stored.{Stands};

use crate::{Planned, laid_indexes, plan_queries};
use heap_page::FetchErr;
use kept_relations::{Kept, KeptList};
use lists::Sequence;
use plan_tree::{Method, Tree, Way};
use rel_meaning::{CompareOp, Expr, Query, Table, Target, Var};
use rows::{Catalog, ColType, Column, ColumnList, Interval, Relation, Row, Rows, Text, decode_row};
use seq_optimizer::VarStats;
use std::alloc::{AllocError, Global};
use std::test::Fail;
use table_store::{Laid, lay_database};
use xp_outside::{Drive, MemDrive, NumberList};

// The columns of the relation NUM: an integer.
fn columns(alloc: Global) -> Result<ColumnList, AllocError>
    ensures { IfOk result (λ columns. columns ≡ number_columns) }
{
    let column = Column {
        name: Text::from_slice(alloc, b"n")?,
        col_type: ColType::Int4,
        nullable: false,
    };
    Ok(Sequence::from_vec(vec![in alloc; column]?))
}

// The relation NUM, with an index on its column.
fn relation(alloc: Global) -> Result<Relation, AllocError>
    ensures columns { IfOk result (λ relation. relation.columns ≡ number_columns) }
    ensures index { IfOk result (λ relation. relation.index ≡ Some 0) }
{
    let columns = columns(alloc)?;
    Ok(Relation {
        name: Text::from_slice(alloc, b"NUM")?,
        file: Text::from_slice(alloc, b"num")?,
        columns,
        index: Some(0),
    })
}

// The row of a number.
fn number_row(alloc: Global, columns: &ColumnList, number: u32) -> Result<Row, Fail>
    ensures row { IfOk result (IsRowOf columns.now) }
    ensures short { IfOk result (λ row. length (row_bytes columns.now row) ≤ 8168) }
{
    match decode_row(alloc, &number.to_be_bytes(), columns)? {
        Some(row) => Ok(row),
        None => Err(Fail::from("no row")),
    }
}

// The rows of the numbers from 1 to 1,000.
fn numbers(alloc: Global, columns: &ColumnList) -> Result<Rows, Fail>
    ensures rows { IfOk result (All (IsRowOf columns.now)) }
    ensures short { IfOk result (AreShort columns.now) }
{
    let mut rows = Vec::new(alloc);
    for number in 0..1000u32 {
        rows.push(number_row(alloc, columns, number + 1)?)?;
    }
    Ok(Sequence::from_vec(rows))
}

// The table of NUM.
fn table(alloc: Global) -> Result<Table, Fail>
    ensures { IfOk result (λ table. (relation : Relation) → relation.columns ≡ number_columns →
        relation.index ≡ Some 0 → IsTableOf relation table) }
{
    let columns = columns(alloc)?;
    let rows = numbers(alloc, &columns)?;
    Ok(Table { columns, rows })
}

// What was laid: the relations, how many rows each has, where their tables stand, and the drives.
#[derive(Drop)]
struct Ground<D> {
    relations: Catalog,
    rows: Vec<u32>,
    laid: Laid,
    drives: Vec<D>,
}

// NUM on a drive.
fn lay<D: Drive + Drop>(alloc: Global, mut drives: Vec<D>) -> Result<Ground<D>, Fail>
    requires { vec_len drives ≡ 1 }
    ensures stands { IfOk result (λ g. Stands g.relations g.rows.items g.laid (vec_len g.drives)) }
    ensures room { IfOk result (λ g. HaveRoom D.Drive g.laid.map g.drives.items) }
    ensures relations { IfOk result (λ g. relation_columns g.relations ≡ number_layouts) }
{
    let relations = Sequence::from_vec(vec![in alloc; relation(alloc)?]?);
    let table = table(alloc)?;
    let rows = vec![in alloc; table.rows.len() as u32]?;
    let db = Sequence::from_vec(vec![in alloc; table]?);
    match lay_database(alloc, &mut drives, &relations, &db) {
        Ok(laid) => Ok(Ground {
            relations,
            rows,
            laid,
            drives,
        }),
        Err(_) => Err(Fail::from("the table is not laid")),
    }
}

// A drive of eight pages, whose reads of these numbers fail.
fn one_drive(alloc: Global, fails: NumberList) -> Result<Vec<MemDrive>, AllocError>
    ensures { IfOk result (λ drives. vec_len drives ≡ 1) }
{
    let drive = MemDrive::new(alloc, 8, fails, Sequence::new(alloc))?;
    Ok(vec![in alloc; drive]?)
}

// `NUM.n > 995`
fn above(alloc: Global) -> Result<Expr, AllocError>
    ensures { IfOk result (λ e. expression_of e ≡ above) }
{
    Ok(Expr::Compare {
        op: CompareOp::More,
        left: Box::new(alloc, Expr::Column { var: 0, col: 0 })?,
        right: Box::new(alloc, Expr::Number(995))?,
    })
}

// A query of the first column of a relation.
fn query(alloc: Global, relation: u32, test: Option<Expr>) -> Result<Query, AllocError>
    ensures { IfOk result (λ q. question_of q ≡ asked relation (option_map expression_of test)) }
{
    let var = Var {
        name: Text::new(alloc),
        relation,
    };
    let target = Target {
        name: Text::new(alloc),
        expr: Expr::Column { var: 0, col: 0 },
    };
    Ok(Query {
        vars: Sequence::from_vec(vec![in alloc; var]?),
        targets: Sequence::from_vec(vec![in alloc; target]?),
        test,
        unique: false,
        keys: Sequence::new(alloc),
    })
}

// A query with a bound to the indexed column, one without, and one of what the first one keeps.
fn queries(alloc: Global) -> Result<Vec<Query>, AllocError>
    ensures { IfOk result (λ qs. map question_of qs.items ≡ sample) }
{
    let bounded = query(alloc, 0, Some(above(alloc)?))?;
    let plain = query(alloc, 0, None)?;
    let reading = query(alloc, 1, None)?;
    Ok(vec![in alloc; bounded, plain, reading]?)
}

// What the first query keeps.
fn kept(alloc: Global) -> Result<Kept, AllocError>
    ensures { IfOk result (λ kept. kept ≡ sample_kept) }
{
    let column = Column {
        name: Text::new(alloc),
        col_type: ColType::Int4,
        nullable: true,
    };
    Ok(Kept {
        name: Text::new(alloc),
        statement: 0,
        columns: Sequence::from_vec(vec![in alloc; column]?),
        bounds: Sequence::from_vec(vec![in alloc; 2147483648]?),
    })
}

fn kept_list(alloc: Global) -> Result<KeptList, AllocError>
    ensures { IfOk result (λ list. list ≡ sample_kept ∷ []) }
{
    let mut list = KeptList::new(alloc);
    list.keep(kept(alloc)?)?;
    Ok(list)
}

// The plans of the three queries.
fn planned<D: Drive + Drop>(alloc: Global, ground: Ground<D>) -> Result<Planned<D>, AllocError>
    requires stands { Stands ground.relations ground.rows.items ground.laid (vec_len ground.drives) }
    requires room { HaveRoom D.Drive ground.laid.map ground.drives.items }
    requires relations { relation_columns ground.relations ≡ number_layouts }
{
    let Ground {
        relations,
        rows,
        laid,
        drives,
    } = ground;
    let queries = queries(alloc)?;
    let kept = kept_list(alloc)?;
    Ok(plan_queries(
        alloc,
        drives,
        &laid,
        &relations,
        &rows,
        &queries,
        &kept,
        Method::Hash,
    ))
}

fn is_heap_scan(tree: &Tree) -> bool {
    matches!(
        tree,
        Tree::Scan {
            var: 0,
            way: Way::Heap,
            ..
        }
    )
}

// The scan of the five entries above 995, that of the whole table, and that of what is kept: a third of
// the rows, as many as one conjunct is taken to leave.
#[test]
fn a_bound_to_an_indexed_column_makes_the_scan_cheap(rt: HostRuntime) -> Result<(), Fail> {
    let alloc = rt.alloc();
    let ground = lay(alloc, one_drive(alloc, Sequence::new(alloc))?)?;
    let made = planned(alloc, ground)?.plans?;
    let plans = made.plans;
    assert_eq!(rt; plans.len(), 3);
    let all = Interval {
        from: 995,
        upto: 1000,
    };
    assert_eq!(rt; plans.get(0).cost, 61);
    assert!(rt;
        matches!(&plans.get(0).tree, Tree::Scan { var: 0, way: Way::Index(found), .. } if *found == all)
    );
    assert_eq!(rt; plans.get(1).cost, 1008);
    assert!(rt; is_heap_scan(&plans.get(1).tree));
    assert_eq!(rt; plans.get(2).cost, 333);
    assert!(rt; is_heap_scan(&plans.get(2).tree));
    let kept = VarStats {
        pages: 0,
        rows: 333,
        interval: None,
        height: 0,
    };
    assert_eq!(rt; made.stats.len(), 3);
    assert_eq!(rt; made.stats.get(2).items(), [kept].as_slice());
    Ok(())
}

#[test]
fn the_index_that_was_laid_is_listed(rt: HostRuntime) -> Result<(), Fail> {
    let alloc = rt.alloc();
    let ground = lay(alloc, one_drive(alloc, Sequence::new(alloc))?)?;
    let indexes = laid_indexes(alloc, &ground.laid)?;
    assert_eq!(rt; indexes.len(), 1);
    assert_eq!(rt; indexes.get(0).file, 1);
    assert_eq!(rt; indexes.get(0).entries, 1000);
    Ok(())
}

#[test]
fn a_drive_that_fails_is_named_and_handed_back(rt: HostRuntime) -> Result<(), Fail> {
    let alloc = rt.alloc();
    let fails = Sequence::from_vec(vec![in alloc; 1]?);
    let ground = lay(alloc, one_drive(alloc, fails)?)?;
    let Planned { plans, drives } = planned(alloc, ground)?;
    assert!(rt; matches!(plans, Err(error) if error == FetchErr::DriveFault(0)));
    assert_eq!(rt; drives.len(), 1);
    assert_eq!(rt; drives[0].faults(), 1);
    Ok(())
}
