//! The columns that targets show.

ghost use Rattle.std.specs.Prelude.{◌≡◌, ◌&&◌, ◌+◌, nat_lt, ◌++◌, [], map};
ghost use Rattle.std.specs.Prelude.{IfOk, OnOk, Some, is_some, true};
ghost use Rattle.std.specs.List.{list_any};
ghost use Rattle.std.specs.Result.{result_err};
ghost use Rattle.postquel_tokens.specs.Forms.{wish_of};
ghost use Rattle.rel_meaning.specs.Expression.{output_of};
ghost use Rattle.name_check.specs.Checked as checked_spec;
ghost use Rattle.name_check.specs.Checked.{Gives, Tells};
ghost use Rattle.name_check.specs.Faults.{column_named};
ghost use Rattle.name_check.specs.Sentences as sentences;
ghost use Rattle.name_check.specs.Sentences.{all_shown, columns_fault, head_of, output_by};
ghost use Rattle.name_check.specs.Steps as spec;
ghost use Rattle.name_check.specs.Steps.{chosen_of, shown_of};

use crate::checking::{Typed, column, columns_of, expression, range_ref};
use crate::folding::op_of;
use crate::heading::{HeadColumn, Heading, number, place_of};
use aggregate_op::FoldOp;
use lists::Duplicate;
use postquel_tokens::{Ident, Spot, TargetForm, TextErr, What};
use rel_meaning::{Expr, Target, Var};
use rows::{ColType, LayoutColumn, Text};
use std::alloc::{AllocError, Global};

/// A column of an answer.
#[derive(Drop)]
pub(crate) struct Column {
    pub name: Text,
    pub expr: Expr,
    pub layout: LayoutColumn,
}

/// What the targets of a statement show.
#[derive(Drop)]
pub(crate) struct Outputs {
    pub plain: Vec<Target>,
    pub operands: Vec<Target>,
    pub head: Vec<HeadColumn>,
    pub ops: Vec<Option<FoldOp>>,
}

fn named(alloc: Global, name: &Ident, typed: Typed) -> Result<Vec<Column>, AllocError>
    ensures { IfOk result (λ v. map shown_of v.items
        ≡ spec.named_as name.now.text (checked_spec.meant_of typed)) }
{
    let mut columns = Vec::new(alloc);
    columns.push(Column {
        name: name.text.duplicate(alloc)?,
        expr: typed.expr,
        layout: typed.layout,
    })?;
    Ok(columns)
}

fn all_columns(alloc: Global, var: u32, columns: &[HeadColumn]) -> Result<Vec<Column>, TextErr>
    ensures { Gives (λ v. map shown_of v.items) (Ok (all_shown var 0 columns.now)) result }
{
    let mut shown = Vec::new(alloc);
    for (place, column) in columns.iter().enumerate() {
        shown.push(Column {
            name: column.name.duplicate(alloc)?,
            expr: Expr::Column {
                var,
                col: number(place)?,
            },
            layout: column.layout,
        })?;
    }
    Ok(shown)
}

// The operand of a fold, which of `sum` is an integer.
fn operand(fold: &Ident, typed: Typed) -> Result<Typed, TextErr>
    ensures { Gives checked_spec.meant_of (sentences.or_fault (checked_spec.meant_of typed)
        (sentences.sum_fault fold.now (Some typed.layout))) result }
{
    if fold.text.items() == b"sum".as_slice() && typed.layout.col_type != ColType::Int4 {
        return Err(TextErr::at(fold.spot, What::TypeMismatch));
    }
    Ok(typed)
}

fn shown(
    alloc: Global,
    headings: &[Heading],
    vars: &mut Vec<Var>,
    target: &TargetForm,
) -> Result<Vec<Column>, TextErr>
    ensures { Tells (λ v. map shown_of v.items)
        (spec.shown_checked headings.now vars.old.items (wish_of target.now)) result
        vars.new.items }
{
    match target {
        TargetForm::Named { name, form } => {
            let typed = expression(alloc, headings, vars, form)?;
            Ok(named(alloc, name, typed)?)
        }
        TargetForm::All { var } => {
            let range = range_ref(alloc, headings, vars, var)?;
            all_columns(alloc, range.var, columns_of(headings, range.relation))
        }
        TargetForm::Dotted { var, col } => {
            let typed = column(alloc, headings, vars, var, col)?;
            Ok(named(alloc, col, typed)?)
        }
        TargetForm::Fold { name, fold, form } => {
            let typed = expression(alloc, headings, vars, form)?;
            let typed = operand(fold, typed)?;
            Ok(named(alloc, name, typed)?)
        }
    }
}

fn has_double(head: &[HeadColumn], new: &[Column]) -> bool
    ensures { result ≡ list_any (λ s. is_some (column_named head.now s.name)) new.now }
{
    new.iter()
        .any(|column| place_of(head, &column.name).is_some())
}

fn are_too_many(limited: bool, old: usize, new: usize) -> bool
    ensures { result ≡ limited && nat_lt 32 (old + new) }
{
    limited && (old > 32 || new > 32 - old)
}

#[tactic(auto, using(crate::proofs::Any::any_map, crate::proofs::Any::length_map))]
fn test_columns(
    limited: bool,
    spot: Spot,
    head: &[HeadColumn],
    new: &[Column],
) -> Result<(), TextErr>
    ensures { result_err result ≡ columns_fault limited spot head.now (map shown_of new.now) }
{
    if has_double(head, new) {
        return Err(TextErr::at(spot, What::DoubleTarget));
    }
    if are_too_many(limited, head.len(), new.len()) {
        return Err(TextErr::at(spot, What::TooManyColumns));
    }
    Ok(())
}

// The op of a target's columns.
fn add_ops(
    ops: &mut Vec<Option<FoldOp>>,
    op: Option<FoldOp>,
    columns: &[Column],
) -> Result<(), AllocError>
    ensures { OnOk result (ops.new.items
        ≡ ops.old.items ++ map (λ s. op) (map shown_of columns.now)) }
{
    for _column in columns {
        ops.push(op)?;
    }
    Ok(())
}

fn add_columns(
    alloc: Global,
    head: &mut Vec<HeadColumn>,
    list: &mut Vec<Target>,
    new: Vec<Column>,
) -> Result<(), AllocError>
    ensures head { OnOk result (head.new.items
        ≡ head.old.items ++ map head_of (map shown_of new.items)) }
    ensures list { OnOk result (map output_of list.new.items
        ≡ map output_of list.old.items ++ map output_by (map shown_of new.items)) }
{
    for column in new {
        head.push(HeadColumn {
            name: column.name.duplicate(alloc)?,
            layout: column.layout,
        })?;
        list.push(Target {
            name: column.name,
            expr: column.expr,
        })?;
    }
    Ok(())
}

fn target_spot(target: &TargetForm) -> Spot
    ensures { result ≡ sentences.wish_spot (wish_of target.now) }
{
    match target {
        TargetForm::Named { name, form: _ } => name.spot,
        TargetForm::All { var } => var.spot,
        TargetForm::Dotted { var, col: _ } => var.spot,
        TargetForm::Fold {
            name,
            fold: _,
            form: _,
        } => name.spot,
    }
}

pub(crate) fn is_fold(target: &TargetForm) -> bool
    ensures { result ≡ sentences.is_fold (wish_of target.now) }
{
    matches!(target, TargetForm::Fold { .. })
}

// Puts the columns of a target behind the others.
fn add_shown(
    alloc: Global,
    out: &mut Outputs,
    target: &TargetForm,
    new: Vec<Column>,
) -> Result<(), AllocError>
    ensures { OnOk result (chosen_of out.new
        ≡ spec.with_columns (wish_of target.now) (chosen_of out.old) (map shown_of new.items)) }
{
    add_ops(&mut out.ops, op_of(target), new.as_slice())?;
    if is_fold(target) {
        add_columns(alloc, &mut out.head, &mut out.operands, new)
    } else {
        add_columns(alloc, &mut out.head, &mut out.plain, new)
    }
}

fn add_target(
    alloc: Global,
    headings: &[Heading],
    limited: bool,
    vars: &mut Vec<Var>,
    out: &mut Outputs,
    target: &TargetForm,
) -> Result<(), TextErr>
    ensures { Tells (λ u. chosen_of out.new)
        (spec.wish_checked headings.now limited vars.old.items (chosen_of out.old)
        (wish_of target.now)) result vars.new.items }
{
    let new = shown(alloc, headings, vars, target)?;
    test_columns(
        limited,
        target_spot(target),
        out.head.as_slice(),
        new.as_slice(),
    )?;
    Ok(add_shown(alloc, out, target, new)?)
}

pub(crate) fn targets(
    alloc: Global,
    headings: &[Heading],
    limited: bool,
    vars: &mut Vec<Var>,
    targets: &[TargetForm],
) -> Result<Outputs, TextErr>
    ensures { Tells chosen_of (spec.wishes_checked headings.now limited vars.old.items
        spec.no_columns (map wish_of targets.now)) result vars.new.items }
{
    let mut out = Outputs {
        plain: Vec::new(alloc),
        operands: Vec::new(alloc),
        head: Vec::new(alloc),
        ops: Vec::new(alloc),
    };
    for target in targets {
        add_target(alloc, headings, limited, vars, &mut out, target)?;
    }
    Ok(out)
}
