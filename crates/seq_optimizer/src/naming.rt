//! Which variables an expression names.
ghost use Rattle.std.specs.Prelude.{◌≡◌, ◌<◌, ◌^◌, ◌-◌, nat_lt};
ghost use Rattle.std.specs.List.{list_any, range_with_len};
ghost use Rattle.rel_meaning.specs.Expression.{expression_of};
ghost use Rattle.plan_tree.specs.Conjuncts.{is_within, names_none};
ghost use Rattle.plan_tree.specs.Trees.{is_inside};
ghost use Rattle.seq_optimizer.specs.Estimates.{is_alone, is_joining};
ghost use Rattle.seq_optimizer.specs.Sets.{in_set};

use rel_meaning::Expr;

// The number of the set of one variable.
pub(crate) fn set_of(var: u32) -> u32
    requires { var < 32 }
    ensures { result ≡ 2 ^ var }
{
    1 << var
}

// The number of the set of so many variables, from the first on.
pub(crate) fn first_vars(count: u32) -> u32
    requires { count < 32 }
    ensures value { result ≡ 2 ^ count - 1 }
    ensures set { in_set result ≡ (λ v. nat_lt v count) }
{
    set_of(count) - 1
}

// Whether a variable is in a set.
pub(crate) fn is_in_set(set: u32, var: u32) -> bool
    ensures { result ≡ in_set set var }
{
    var < 32 && (set >> var) & 1 == 1
}

// Whether all variables that an expression names are in a set.
pub(crate) fn is_within_set(expr: &Expr, set: u32) -> bool
    ensures { result ≡ is_within (in_set set) (expression_of expr.now) }
{
    match expr {
        Expr::Number(_) | Expr::Word(_) | Expr::Truth(_) => true,
        Expr::Column { var, .. } => is_in_set(set, *var),
        Expr::Negate(operand) | Expr::Not(operand) => is_within_set(operand, set),
        Expr::Arith { left, right, .. } | Expr::Compare { left, right, .. } => {
            is_within_set(left, set) && is_within_set(right, set)
        }
        Expr::And { left, right } | Expr::Or { left, right } => {
            is_within_set(left, set) && is_within_set(right, set)
        }
        Expr::IsNull { expr, .. } => is_within_set(expr, set),
    }
}

// Whether an expression names no variable.
pub(crate) fn names_none(expr: &Expr) -> bool
    ensures { result ≡ names_none (expression_of expr.now) }
{
    is_within_set(expr, 0)
}

// Whether an expression names a variable, and only variables of a set.
pub(crate) fn is_inside_set(expr: &Expr, set: u32) -> bool
    ensures { result ≡ is_inside (in_set set) (expression_of expr.now) }
{
    is_within_set(expr, set) && !names_none(expr)
}

// Whether an expression names a variable and no other.
pub(crate) fn is_alone(expr: &Expr, var: u32) -> bool
    requires { var < 32 }
    ensures { result ≡ is_alone var (expression_of expr.now) }
{
    is_inside_set(expr, set_of(var))
}

// Whether an expression names one variable alone, of so many.
fn names_one(expr: &Expr, count: u32) -> bool
    requires { count < 32 }
    ensures { result ≡ list_any (λ v. is_alone v (expression_of expr.now)) (range_with_len 0 count) }
{
    (0..count).any(|var| is_alone(expr, var))
}

// Whether an expression names two variables or more, all of them of a set.
pub(crate) fn is_joining(expr: &Expr, set: u32, count: u32) -> bool
    requires { count < 32 }
    ensures { result ≡ is_joining (in_set set) count (expression_of expr.now) }
{
    is_within_set(expr, set) && !names_none(expr) && !names_one(expr, count)
}
