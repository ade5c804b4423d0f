ghost use Rattle.std.specs.Prelude.{◌≡◌, ◌∷◌, [], length, IfOk, IfSome, false, map};
ghost use Rattle.std.specs.List.{AllByRecursion};
ghost use Rattle.rel_meaning.specs.Expression.{question_of};
ghost use Rattle.kept_answers.specs.Sample.{great_kept, keeping, reading, reading_sum};
ghost use Rattle.kept_answers.specs.Sample.{AreFour, AreFours, ArePerGroup, IsPerGroup};

use crate::{AnswerList, FoldedAnswers, answer_folded_script, answer_folds, answer_script};
use aggregate_op::{Fold, FoldOp, FoldPlace, FoldPlan, FoldTable};
use kept_relations::{Kept, KeptList};
use lists::Sequence;
use rel_meaning::{Expr, Query, Target, Var};
use rows::{ColType, Column, Row, Rows, SortKey, Text, Value};
use std::alloc::{AllocError, Global};
use std::test::Fail;

fn query(alloc: Global, vars: Vec<Var>, expr: Expr) -> Result<Query, AllocError>
    ensures { IfOk result (λ q. q ≡ record {
      vars = vars.items;
      targets = record { name = []; expr = expr } ∷ [];
      test = None;
      unique = false;
      keys = [];
    }) }
{
    let mut targets = Vec::new(alloc);
    targets.push(Target {
        name: Text::new(alloc),
        expr,
    })?;
    Ok(Query {
        vars: Sequence::from_vec(vars),
        targets: Sequence::from_vec(targets),
        test: None,
        unique: false,
        keys: Sequence::new(alloc),
    })
}

fn keeping(alloc: Global) -> Result<Query, AllocError>
    ensures { IfOk result (λ q. question_of q ≡ keeping) }
{
    query(alloc, Vec::new(alloc), Expr::Number(5000000000))
}

fn reading(alloc: Global) -> Result<Query, AllocError>
    ensures { IfOk result (λ q. question_of q ≡ reading) }
{
    let mut vars = Vec::new(alloc);
    vars.push(Var {
        name: Text::new(alloc),
        relation: 0,
    })?;
    query(alloc, vars, Expr::Column { var: 0, col: 0 })
}

fn queries(alloc: Global) -> Result<Sequence<Query>, AllocError>
    ensures { IfOk result (λ qs. map question_of qs ≡ keeping ∷ reading ∷ []) }
{
    let mut queries = Vec::new(alloc);
    queries.push(keeping(alloc)?)?;
    queries.push(reading(alloc)?)?;
    Ok(Sequence::from_vec(queries))
}

fn great_kept(alloc: Global) -> Result<Kept, AllocError>
    ensures { IfOk result (λ kept. kept ≡ great_kept) }
{
    let mut columns = Vec::new(alloc);
    columns.push(Column {
        name: Text::new(alloc),
        col_type: ColType::Int4,
        nullable: true,
    })?;
    let mut bounds = Vec::new(alloc);
    bounds.push(5000000000)?;
    Ok(Kept {
        name: Text::new(alloc),
        statement: 0,
        columns: Sequence::from_vec(columns),
        bounds: Sequence::from_vec(bounds),
    })
}

fn kept_list(alloc: Global) -> Result<KeptList, AllocError>
    ensures { IfOk result (λ list. list ≡ great_kept ∷ []) }
{
    let mut list = KeptList::new(alloc);
    list.keep(great_kept(alloc)?)?;
    Ok(list)
}

#[test]
#[tactic(auto, using(crate::proofs::Sample::sample_fits))]
fn a_later_statement_reads_what_is_kept(rt: HostRuntime) -> Result<(), Fail> {
    let alloc = rt.alloc();
    let queries = queries(alloc)?;
    let kept = kept_list(alloc)?;
    let answers = answer_script(alloc, Sequence::new(alloc), &queries, &kept)?;
    assert_eq!(rt; answers.len(), 2);
    for rows in answers.items() {
        for row in rows.items() {
            assert_eq!(rt; row.items(), [Value::Number(5000000000)].as_slice());
        }
        assert_eq!(rt; rows.len(), 1);
    }
    Ok(())
}

fn reading_sum(alloc: Global) -> Result<FoldTable, AllocError>
    ensures { IfOk result (λ folds. folds ≡ reading_sum) }
{
    let mut ops = Vec::new(alloc);
    ops.push(FoldOp::Sum)?;
    let mut places = Vec::new(alloc);
    places.push(FoldPlace::Op(0))?;
    let fold = Fold {
        groups: 0,
        ops: Sequence::from_vec(ops),
        places: Sequence::from_vec(places),
    };
    let mut folds = Vec::new(alloc);
    folds.push(None)?;
    folds.push(Some(FoldPlan {
        fold,
        keys: Sequence::new(alloc),
    }))?;
    Ok(Sequence::from_vec(folds))
}

#[test]
#[tactic(auto, using(crate::proofs::Sample::sample_fits, crate::proofs::Sample::sample_sums))]
fn a_later_statement_folds_what_is_kept(rt: HostRuntime) -> Result<(), Fail> {
    let alloc = rt.alloc();
    let queries = queries(alloc)?;
    let kept = kept_list(alloc)?;
    let folds = reading_sum(alloc)?;
    let answers = answer_folded_script(alloc, Sequence::new(alloc), &queries, &kept, &folds)?;
    let FoldedAnswers::Rows(answers) = answers else {
        return Err(Fail::from("too large"));
    };
    assert_eq!(rt; answers.len(), 2);
    for rows in answers.items() {
        for row in rows.items() {
            assert_eq!(rt; row.items(), [Value::Number(5000000000)].as_slice());
        }
        assert_eq!(rt; rows.len(), 1);
    }
    Ok(())
}

// A fold that counts, adds up and takes the least for each group, with the greatest group first.
fn per_group(alloc: Global) -> Result<FoldPlan, AllocError>
    ensures { IfOk result IsPerGroup }
{
    let ops = vec![in alloc; FoldOp::Count, FoldOp::Sum, FoldOp::Min]?;
    let places = vec![in alloc;
        FoldPlace::Group(0),
        FoldPlace::Op(0),
        FoldPlace::Op(1),
        FoldPlace::Op(2),
    ]?;
    let keys = vec![in alloc;
        SortKey {
            column: 0,
            down: true
        },
    ]?;
    Ok(FoldPlan {
        fold: Fold {
            groups: 1,
            ops: Sequence::from_vec(ops),
            places: Sequence::from_vec(places),
        },
        keys: Sequence::from_vec(keys),
    })
}

// The fold of each statement that has one.
fn folds_of(alloc: Global, wanted: &[bool]) -> Result<FoldTable, AllocError>
    ensures { IfOk result ArePerGroup }
{
    let mut folds = Vec::new(alloc);
    for is_folded in wanted {
        let plan = if *is_folded {
            Some(per_group(alloc)?)
        } else {
            None
        };
        folds.push(plan)?;
    }
    Ok(Sequence::from_vec(folds))
}

fn row_of(alloc: Global, numbers: &[i64; 4]) -> Result<Row, AllocError>
    ensures { IfOk result AreFour }
{
    let mut row = Vec::new(alloc);
    row.push(Value::Number(numbers[0]))?;
    row.push(Value::Number(numbers[1]))?;
    row.push(Value::Number(numbers[2]))?;
    row.push(Value::Number(numbers[3]))?;
    Ok(Sequence::from_vec(row))
}

fn rows_of(alloc: Global, table: &[[i64; 4]]) -> Result<Rows, AllocError>
    ensures { IfOk result (AllByRecursion AreFour) }
{
    let mut rows = Vec::new(alloc);
    for numbers in table {
        rows.push(row_of(alloc, numbers)?)?;
    }
    Ok(Sequence::from_vec(rows))
}

fn answers_of(alloc: Global, tables: &[&[[i64; 4]]]) -> Result<AnswerList, AllocError>
    ensures { IfOk result AreFours }
{
    let mut answers = Vec::new(alloc);
    for table in tables {
        answers.push(rows_of(alloc, table)?)?;
    }
    Ok(Sequence::from_vec(answers))
}

// The answers of statements by the rows that their queries mean.
#[tactic(auto, using(crate::proofs::Sample::fours_fit))]
fn folded(
    alloc: Global,
    wanted: &[bool],
    tables: &[&[[i64; 4]]],
) -> Result<FoldedAnswers, AllocError> {
    let folds = folds_of(alloc, wanted)?;
    let answers = answers_of(alloc, tables)?;
    answer_folds(alloc, answers, &folds)
}

fn are_numbers(rows: &Rows, wanted: &[[i64; 4]]) -> bool {
    rows.len() == wanted.len()
        && rows.items().iter().zip(wanted.iter()).all(|(row, numbers)| {
            row.items()
                .iter()
                .zip(numbers.iter())
                .all(|(value, number)| *value == Value::Number(*number))
        })
}

#[test]
fn each_statement_with_a_fold_is_folded(rt: HostRuntime) -> Result<(), Fail> {
    let alloc = rt.alloc();
    let rows = [[1, 5, 5, 5], [2, 7, 7, 7], [1, 3, 3, 3]];
    let none = [];
    let tables = [rows.as_slice(), rows.as_slice(), none.as_slice()];
    let wanted = [
        [[2, 1, 7, 7], [1, 2, 8, 3]].as_slice(),
        rows.as_slice(),
        none.as_slice(),
    ];
    let FoldedAnswers::Rows(answers) = folded(alloc, &[true, false, true], &tables)? else {
        return Err(Fail::from("too large"));
    };
    assert_eq!(rt; answers.len(), 3);
    for (rows, numbers) in answers.items().iter().zip(wanted.iter()) {
        assert!(rt; are_numbers(rows, numbers));
    }
    Ok(())
}

#[test]
fn the_first_statement_whose_fold_is_too_large_is_told(rt: HostRuntime) -> Result<(), Fail> {
    let alloc = rt.alloc();
    let large = [[1, 0, i64::MAX, 0], [1, 0, 1, 0]];
    let tables = [large.as_slice(), large.as_slice(), large.as_slice()];
    let answer = folded(alloc, &[false, true, true], &tables)?;
    assert!(rt; matches!(answer, FoldedAnswers::TooLarge { statement: 1 }));
    Ok(())
}
