ghost use Rattle.std.specs.Prelude.{◌≡◌, ◌≤◌, ◌^◌, All, IfOk, length};
ghost use Rattle.plan_tree.specs.WellFormed.{IsTimed, IsTimedFragment};

use crate::{
    End, Fragment, FragmentList, Pipe, Plan, PlanList, Source, Tree, Way, copy_plain, copy_query,
    explain_text,
};
use aggregate_op::{Fold, FoldOp, FoldPlace};
use lists::Sequence;
use rel_meaning::{CompareOp, Expr, Query, Target, TargetList, Var, VarList};
use rows::{ColType, Interval, KeyIndex, Machine, Text};
use std::alloc::{AllocError, Global};
use std::test::Fail;

// Variables with the names between the commas.
fn vars(alloc: Global, names: &str) -> Result<VarList, AllocError> {
    let mut vars = Vec::new(alloc);
    for name in names.split(',') {
        vars.push(Var {
            name: Text::from_slice(alloc, name.as_bytes())?,
            relation: 0,
        })?;
    }
    Ok(Sequence::from_vec(vars))
}

// The first column of the first variable, and whether it is null.
fn targets(alloc: Global) -> Result<TargetList, AllocError> {
    let column = Expr::Column { var: 0, col: 0 };
    let operand = Expr::Column { var: 0, col: 0 };
    let test = Expr::IsNull {
        expr: Box::new(alloc, operand)?,
        negated: false,
    };
    let mut targets = Vec::new(alloc);
    for expr in [column, test] {
        let name = Text::from_slice(alloc, b"a")?;
        targets.push(Target { name, expr })?;
    }
    Ok(Sequence::from_vec(targets))
}

fn query(alloc: Global, names: &str) -> Result<Query, AllocError> {
    let left = Box::new(alloc, Expr::Number(1))?;
    let right = Box::new(alloc, Expr::Column { var: 0, col: 0 })?;
    let query = Query {
        vars: vars(alloc, names)?,
        targets: targets(alloc)?,
        test: Some(Expr::Compare {
            op: CompareOp::Less,
            left,
            right,
        }),
        unique: false,
        keys: Sequence::new(alloc),
    };
    copy_query(alloc, &query)
}

fn scan(alloc: Global, var: u32, way: Way) -> Tree {
    Tree::Scan {
        var,
        way,
        tests: Sequence::new(alloc),
    }
}

fn heap(alloc: Global, var: u32) -> Tree {
    scan(alloc, var, Way::Heap)
}

fn index(alloc: Global, var: u32) -> Tree {
    scan(alloc, var, Way::Index(Interval { from: 2, upto: 7 }))
}

fn join(alloc: Global, build: Tree, probe: Tree) -> Result<Tree, AllocError> {
    Ok(Tree::Join {
        build: Box::new(alloc, build)?,
        probe: Box::new(alloc, probe)?,
        keys: Sequence::new(alloc),
        tests: Sequence::new(alloc),
    })
}

fn merge(alloc: Global, left: Tree, right: Tree) -> Result<Tree, AllocError> {
    Ok(Tree::Merge {
        left: Box::new(alloc, left)?,
        right: Box::new(alloc, right)?,
        keys: Sequence::new(alloc),
        tests: Sequence::new(alloc),
    })
}

fn plan(alloc: Global, names: &str, tree: Tree, cost: u64) -> Result<Plan, AllocError> {
    Ok(Plan {
        query: query(alloc, names)?,
        tree,
        cost,
    })
}

// Two tables with a key, three tables, no table, and two tables that are merged.
fn plans(alloc: Global) -> Result<PlanList, AllocError> {
    let two = join(alloc, heap(alloc, 0), heap(alloc, 1))?;
    let inner = join(alloc, heap(alloc, 2), heap(alloc, 1))?;
    let three = join(alloc, heap(alloc, 0), inner)?;
    let none = Tree::One {
        tests: Sequence::new(alloc),
    };
    let merged = merge(alloc, index(alloc, 0), heap(alloc, 1))?;
    let mut plans = Vec::new(alloc);
    plans.push(plan(alloc, "e,d", two, 34)?)?;
    plans.push(plan(alloc, "e,d,f", three, 53)?)?;
    plans.push(plan(alloc, "x", none, 1)?)?;
    plans.push(plan(alloc, "left,right", merged, 43)?)?;
    Ok(Sequence::from_vec(plans))
}

fn fragment(
    alloc: Global,
    statement: u32,
    source: Source,
    positions: u32,
    pages: u64,
    time: u64,
) -> Result<Fragment, AllocError>
    requires { IsTimed pages time }
    ensures { IfOk result IsTimedFragment }
{
    Ok(Fragment {
        statement,
        pipe: Pipe {
            source,
            columns: Sequence::new(alloc),
            tests: Sequence::new(alloc),
            probes: Sequence::new(alloc),
        },
        end: End::Build {
            keys: Sequence::new(alloc),
        },
        layout: Sequence::new(alloc),
        positions,
        pages,
        time,
    })
}

// Two fragments of the first statement, and one of the fourth.
fn fragments(alloc: Global) -> Result<FragmentList, AllocError>
    ensures few { IfOk result (λ fragments. length fragments ≤ 1000) }
    ensures timed { IfOk result (λ fragments. All IsTimedFragment fragments) }
{
    let first = fragment(alloc, 0, Source::Heap { var: 0, file: 0 }, 1, 1, 11)?;
    let second = fragment(alloc, 0, Source::Heap { var: 1, file: 1 }, 1, 1, 14)?;
    let third = fragment(alloc, 3, Source::One, 64, 0, 6)?;
    Ok(Sequence::from_vec(vec![in alloc; first, second, third]?))
}

const MACHINE: Machine = Machine {
    backends: 4,
    drives: 4,
    batch: 8,
};

const TEXT: &str = "statement 1 cost 34
plan (e:heap * d:heap)
fragment 0 positions 1 pages 1 time 11 io solo 2
fragment 1 positions 1 pages 1 time 14 io solo 3
statement 2 cost 53
plan (e:heap * (f:heap * d:heap))
statement 3 cost 1
plan one
statement 4 cost 43
plan (left:index ~ right:heap)
fragment 2 positions 64 pages 0 time 6 cpu solo 4
";

#[test]
fn plans_and_their_fragments_are_explained_line_by_line(rt: HostRuntime) -> Result<(), Fail> {
    let alloc = rt.alloc();
    let machine = MACHINE;
    let text = explain_text(alloc, &plans(alloc)?, &fragments(alloc)?, &machine)?;
    assert_eq!(rt; text.as_slice(), TEXT.as_bytes());
    Ok(())
}

#[test]
fn without_fragments_the_plans_alone_are_explained(rt: HostRuntime) -> Result<(), Fail> {
    let alloc = rt.alloc();
    let machine = MACHINE;
    let one = plan(alloc, "v", index(alloc, 0), 61)?;
    let plans: PlanList = Sequence::from_vec(vec![in alloc; one]?);
    let text = explain_text(alloc, &plans, &Sequence::new(alloc), &machine)?;
    assert_eq!(rt;
        text.as_slice(),
        b"statement 1 cost 61\nplan v:index\n".as_slice()
    );
    Ok(())
}

fn key_index() -> KeyIndex {
    KeyIndex {
        file: 1,
        key_type: ColType::Int4,
        entries: 9,
        pages: 1,
        height: 1,
        heap_pages: 1,
    }
}

#[test]
fn a_fragment_is_by_entries_where_it_reads_an_index_or_merges(rt: HostRuntime) -> Result<(), Fail> {
    let alloc = rt.alloc();
    let index = Source::Index {
        var: 0,
        index: key_index(),
        heap_file: 0,
        interval: Interval { from: 2, upto: 7 },
    };
    let merge = Source::Merge {
        left: 0,
        right: 1,
        keys: Sequence::new(alloc),
        left_layout: Sequence::new(alloc),
        right_layout: Sequence::new(alloc),
    };
    assert!(rt; fragment(alloc, 0, index, 5, 7, 61)?.by_entries());
    assert!(rt; fragment(alloc, 0, merge, 64, 0, 6)?.by_entries());
    assert!(rt; !fragment(alloc, 0, Source::One, 1, 0, 1)?.by_entries());
    assert!(rt; !fragment(alloc, 0, Source::Heap { var: 0, file: 0 }, 3, 3, 9)?.by_entries());
    Ok(())
}

#[test]
fn a_fold_takes_the_place_of_an_answer_and_keeps_its_targets(rt: HostRuntime) -> Result<(), Fail> {
    let alloc = rt.alloc();
    let mut answer = fragment(alloc, 2, Source::One, 1, 0, 1)?;
    answer.end = End::Answer {
        targets: targets(alloc)?,
        unique: false,
        keys: Sequence::new(alloc),
    };
    let places = [FoldPlace::Group(0), FoldPlace::Op(0)];
    let fold = Fold {
        groups: 1,
        ops: copy_plain(alloc, [FoldOp::Count].as_slice())?,
        places: copy_plain(alloc, places.as_slice())?,
    };
    let folded = answer.with_fold(fold);
    assert_eq!(rt; folded.statement, 2);
    match &folded.end {
        End::Fold { targets, fold } => {
            assert_eq!(rt; targets.len(), 2);
            assert_eq!(rt; fold.places.items(), places.as_slice());
        }
        _ => assert!(rt; false),
    }
    Ok(())
}
