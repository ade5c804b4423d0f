ghost use Rattle.std.specs.Prelude.{◌≡◌, IfOk};
ghost use Rattle.postquel_tokens.specs.Forms.{phrase_of};
ghost use Rattle.name_check.specs.Checked as spec;
ghost use Rattle.name_check.specs.Checked.{Tells, Gives, meant_of};

use crate::building::{built_before, built_between};
use crate::heading::{HeadColumn, Heading, number, place_of};
use crate::typing::{TRUTH, before, between};
use lists::Duplicate;
use postquel_tokens::{BinaryOp, Form, Ident, Spot, TextErr, UnaryOp, What};
use rel_meaning::{Expr, Var};
use rows::{ColType, LayoutColumn};
use std::alloc::Global;

/// An expression and its type.
#[derive(Drop)]
pub(crate) struct Typed {
    pub expr: Expr,
    pub layout: LayoutColumn,
}

/// A range variable's number and its relation's.
#[derive(Clone, Copy)]
pub(crate) struct RangeRef {
    pub var: u32,
    pub relation: u32,
}

// The range variable of that name, which is added where it is a relation's name.
pub(crate) fn range_ref(
    alloc: Global,
    headings: &[Heading],
    vars: &mut Vec<Var>,
    name: &Ident,
) -> Result<RangeRef, TextErr>
    ensures { Tells (λ r. r) (spec.range headings.now vars.old.items name.now) result vars.new.items }
{
    match place_of(vars.as_slice(), &name.text) {
        Some(place) => Ok(RangeRef {
            var: number(place)?,
            relation: vars[place].relation,
        }),
        None => added(alloc, headings, vars, name),
    }
}

fn added(
    alloc: Global,
    headings: &[Heading],
    vars: &mut Vec<Var>,
    name: &Ident,
) -> Result<RangeRef, TextErr>
    ensures { Tells (λ r. r) (spec.range_named headings.now vars.old.items name.now) result vars.new.items }
{
    let Some(place) = place_of(headings, &name.text) else {
        return Err(TextErr::at(name.spot, What::NoRange));
    };
    if vars.len() >= 6 {
        return Err(TextErr::at(name.spot, What::TooManyRanges));
    }
    let var = vars.len() as u32;
    let relation = number(place)?;
    vars.push(Var {
        name: name.text.duplicate(alloc)?,
        relation,
    })?;
    Ok(RangeRef { var, relation })
}

// The columns of a relation.
pub(crate) fn columns_of(headings: &[Heading], relation: u32) -> &[HeadColumn]
    ensures { result.now ≡ spec.columns_of headings.now relation }
{
    match headings.get(relation as usize) {
        Some(heading) => heading.columns.items(),
        None => &[],
    }
}

fn column_in(columns: &[HeadColumn], var: u32, col: &Ident) -> Result<Typed, TextErr>
    ensures { Gives meant_of (spec.column_in columns.now var col.now) result }
{
    let Some(place) = place_of(columns, &col.text) else {
        return Err(TextErr::at(col.spot, What::NoColumn));
    };
    Ok(Typed {
        expr: Expr::Column {
            var,
            col: number(place)?,
        },
        layout: columns[place].layout,
    })
}

pub(crate) fn column(
    alloc: Global,
    headings: &[Heading],
    vars: &mut Vec<Var>,
    var: &Ident,
    col: &Ident,
) -> Result<Typed, TextErr>
    ensures { Tells meant_of (spec.column headings.now vars.old.items var.now col.now) result vars.new.items }
{
    let range = range_ref(alloc, headings, vars, var)?;
    column_in(columns_of(headings, range.relation), range.var, col)
}

fn typed_before(alloc: Global, op: UnaryOp, spot: Spot, a: Typed) -> Result<Typed, TextErr>
    ensures { Gives meant_of (spec.meant_before op spot (meant_of a)) result }
{
    let layout = before(op, spot, a.layout)?;
    Ok(Typed {
        expr: built_before(alloc, op, a.expr)?,
        layout,
    })
}

fn typed_between(
    alloc: Global,
    op: BinaryOp,
    spot: Spot,
    a: Typed,
    b: Typed,
) -> Result<Typed, TextErr>
    ensures { Gives meant_of (spec.meant_between op spot (meant_of a) (meant_of b)) result }
{
    let layout = between(op, spot, a.layout, b.layout)?;
    Ok(Typed {
        expr: built_between(alloc, op, a.expr, b.expr)?,
        layout,
    })
}

fn tested(alloc: Global, a: Typed, negated: bool) -> Result<Typed, TextErr>
    ensures { Gives meant_of (Ok (spec.tested negated (meant_of a))) result }
{
    Ok(Typed {
        expr: Expr::IsNull {
            expr: Box::new(alloc, a.expr)?,
            negated,
        },
        layout: TRUTH,
    })
}

// An expression with its type, where its checks find no fault.
pub(crate) fn expression(
    alloc: Global,
    headings: &[Heading],
    vars: &mut Vec<Var>,
    form: &Form,
) -> Result<Typed, TextErr>
    ensures { Tells meant_of (spec.checked headings.now vars.old.items (phrase_of form.now)) result vars.new.items }
{
    match form {
        Form::Number(number) => Ok(Typed {
            expr: Expr::Number(*number),
            layout: LayoutColumn {
                col_type: ColType::Int4,
                bound: number.unsigned_abs(),
            },
        }),
        Form::Word(word) => Ok(Typed {
            expr: Expr::Word(word.duplicate(alloc)?),
            layout: LayoutColumn {
                col_type: ColType::Text,
                bound: 0,
            },
        }),
        Form::Truth(truth) => Ok(Typed {
            expr: Expr::Truth(*truth),
            layout: TRUTH,
        }),
        Form::Dotted { var, col } => column(alloc, headings, vars, var, col),
        Form::Unary { op, spot, operand } => {
            let operand = expression(alloc, headings, vars, operand)?;
            typed_before(alloc, *op, *spot, operand)
        }
        Form::Binary {
            op,
            spot,
            left,
            right,
        } => {
            let left = expression(alloc, headings, vars, left)?;
            let right = expression(alloc, headings, vars, right)?;
            typed_between(alloc, *op, *spot, left, right)
        }
        Form::IsNull {
            spot: _,
            operand,
            negated,
        } => {
            let operand = expression(alloc, headings, vars, operand)?;
            tested(alloc, operand, *negated)
        }
    }
}
