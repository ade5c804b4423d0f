ghost use Rattle.std.specs.Prelude.{◌≡◌, ◌≤◌};
ghost use Rattle.rel_meaning.specs.Typing.{same_type};
ghost use Rattle.name_check.specs.Types as types;

use postquel_tokens::{BinaryOp, Spot, TextErr, UnaryOp, What};
use rows::{ColType, LayoutColumn};

const MOST: u128 = i64::MAX as u128;

pub(crate) const TRUTH: LayoutColumn = LayoutColumn {
    col_type: ColType::Bool,
    bound: 0,
};

fn is_same(a: ColType, b: ColType) -> bool
    ensures { result ≡ same_type a b }
{
    a == b
}

// The integer type with this bound.
fn integer_at(spot: Spot, fits: bool, bound: u128) -> Result<LayoutColumn, TextErr>
    ensures { result ≡ types.typed_at spot fits (types.integer bound) }
{
    if !fits {
        return Err(TextErr::at(spot, What::TypeMismatch));
    }
    if bound > MOST {
        return Err(TextErr::at(spot, What::TooWide(bound)));
    }
    Ok(LayoutColumn {
        col_type: ColType::Int4,
        bound: bound as u64,
    })
}

fn truth_at(spot: Spot, fits: bool) -> Result<LayoutColumn, TextErr>
    ensures { result ≡ types.typed_at spot fits types.truth }
{
    if fits {
        Ok(TRUTH)
    } else {
        Err(TextErr::at(spot, What::TypeMismatch))
    }
}

// The type of what an operator before its operand gives.
pub(crate) fn before(op: UnaryOp, spot: Spot, a: LayoutColumn) -> Result<LayoutColumn, TextErr>
    ensures { result ≡ types.before op spot a }
{
    match op {
        UnaryOp::Not => truth_at(spot, is_same(a.col_type, ColType::Bool)),
        UnaryOp::Negate => {
            integer_at(
                spot,
                is_same(a.col_type, ColType::Int4),
                u128::from(a.bound),
            )
        }
    }
}

fn both(a: LayoutColumn, b: LayoutColumn, wanted: ColType) -> bool
    ensures { result ≡ types.both a b wanted }
{
    is_same(a.col_type, wanted) && is_same(b.col_type, wanted)
}

// The type of what an operator between its operands gives.
pub(crate) fn between(
    op: BinaryOp,
    spot: Spot,
    a: LayoutColumn,
    b: LayoutColumn,
) -> Result<LayoutColumn, TextErr>
    ensures { result ≡ types.between op spot a b }
{
    match op {
        BinaryOp::Or | BinaryOp::And => truth_at(spot, both(a, b, ColType::Bool)),
        BinaryOp::Equal
        | BinaryOp::NotEqual
        | BinaryOp::Less
        | BinaryOp::AtMost
        | BinaryOp::More
        | BinaryOp::AtLeast => truth_at(spot, is_same(a.col_type, b.col_type)),
        BinaryOp::Add | BinaryOp::Sub => integer_at(
            spot,
            both(a, b, ColType::Int4),
            u128::from(a.bound) + u128::from(b.bound),
        ),
        BinaryOp::Mul => integer_at(
            spot,
            both(a, b, ColType::Int4),
            u128::from(a.bound) * u128::from(b.bound),
        ),
    }
}
