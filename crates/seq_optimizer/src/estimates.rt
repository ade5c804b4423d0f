//! How many rows sets of range variables are taken to have.
ghost use Rattle.std.specs.Prelude.{◌≡◌, ◌<◌, ◌≤◌, ◌+◌, ◌-◌, ◌*◌, ◌^◌, ◌++◌, ◌∷◌, [], length, min, filter, fold, ℕ, List, if◌then◌else◌};
ghost use Rattle.std.specs.Option.{option_map};
ghost use Rattle.rel_meaning.specs.Expression.{expression_of};
ghost use Rattle.plan_tree.specs.Conjuncts.{conjuncts, operands};
ghost use Rattle.plan_tree.specs.Keys.{equality_of};
ghost use Rattle.seq_optimizer.specs.Estimates.{divided, divided_if, size_at, divisor, divisor_by, factor_of, is_fixing_alone, is_joining, is_other_alone, joined_size, narrowed, reduced, set_size, sizes_in, variable_size, variable_sizes};
ghost use Rattle.seq_optimizer.specs.Factors.{IsFactors, equality_as};
ghost use Rattle.seq_optimizer.specs.Sets.{in_set};

use crate::VarStats;
use crate::bounds::{is_fixing, plain_column};
use crate::naming::{is_alone, is_in_set, is_joining};
use rel_meaning::{CompareOp, Expr};
use rows::ColumnRef;
use std::cmp;

/// No estimate of two or more variables, and no cost, is above this.
pub(crate) const LIMIT: u128 = 1 << 40;

// No divisor is above this.
const MOST_DIVISOR: u128 = 1 << 64;

// No product of estimates is above this.
const MOST_PRODUCT: u128 = 1 << 120;

// What a conjunct makes the rows of a variable fewer by.
fn factor_of(conjunct: &Expr, var: u32) -> u128
    requires { var < 32 }
    ensures value { result ≡ factor_of var (expression_of conjunct.now) }
    ensures most { result ≤ 10 }
{
    if !is_alone(conjunct, var) {
        1
    } else if is_fixing(conjunct) {
        10
    } else {
        3
    }
}

// One more conjunct in a divisor.
fn narrowed(conjunct: &Expr, var: u32, divisor: u128) -> u128
    requires var { var < 32 }
    requires divisor { divisor ≤ 2 ^ 64 }
    ensures { result ≡ narrowed var divisor (expression_of conjunct.now) }
{
    (divisor * factor_of(conjunct, var)).min(MOST_DIVISOR)
}

// All operands of a chain in a divisor.
fn narrowed_by_all(expr: &Expr, var: u32, divisor: u128) -> u128
    requires var { var < 32 }
    requires divisor { divisor ≤ 2 ^ 64 }
    ensures value { result ≡ fold (narrowed var) divisor (operands (expression_of expr.now)) }
    ensures most { result ≤ 2 ^ 64 }
{
    match expr {
        Expr::And { left, right } => narrowed(right, var, narrowed_by_all(left, var, divisor)),
        _ => narrowed(expr, var, divisor),
    }
}

// What the rows of a variable are divided by.
fn divisor_of(test: &Option<Expr>, var: u32) -> u128
    requires { var < 32 }
    ensures value { let cs = conjuncts (option_map expression_of test.now) in result ≡ divisor (length (filter (is_fixing_alone var) cs)) (length (filter (is_other_alone var) cs)) }
    ensures some { 0 < result }
{
    match test {
        Some(expr) => narrowed_by_all(expr, var, 1),
        None => 1,
    }
}

// The estimate of one variable.
fn variable_size(test: &Option<Expr>, var: u32, rows: u64) -> u64
    requires { var < 32 }
    ensures { result ≡ variable_size (conjuncts (option_map expression_of test.now)) var rows }
{
    if rows == 0 {
        return 0;
    }
    cmp::max(1, rows as u128 / divisor_of(test, var)) as u64
}

// What is read off the estimates of the variables of a set: how many there are, the last of them, their product, and
// whether one of them is 0.
#[derive(Clone, Copy)]
struct Factors {
    count: usize,
    last: u64,
    product: u128,
    is_empty: bool,
}

impl Factors {
    // With one more estimate, if its variable is in the set.
    fn with_if(self, is_in: bool, size: u64) -> Factors
        requires { self.count < 2 ^ 64 - 1 }
        ensures factors { (ns : List ℕ) → IsFactors ns self → IsFactors (if is_in then ns ++ size ∷ [] else ns) result }
        ensures count { result.count ≤ self.count + 1 }
    {
        if !is_in {
            return self;
        }
        Factors {
            count: self.count + 1,
            last: size,
            product: self.product.saturating_mul(size as u128).min(MOST_PRODUCT),
            is_empty: self.is_empty || size == 0,
        }
    }
}

// What is read off the estimates of the variables of a set.
fn factors_of(sizes: &[u64], set: u32) -> Factors
    requires { length sizes.now < 32 }
    ensures { IsFactors (sizes_in (in_set set) sizes.now) result }
{
    let mut factors = Factors {
        count: 0,
        last: 0,
        product: 1,
        is_empty: false,
    };
    for var in 0..sizes.len() {
        factors = factors.with_if(is_in_set(set, var as u32), sizes[var]);
    }
    factors
}

// The estimate of a variable, 0 for one that isn't there.
fn size_at(sizes: &[u64], var: u32) -> u64
    ensures { result ≡ size_at sizes.now var }
{
    match sizes.get(var as usize) {
        Some(size) => *size,
        None => 0,
    }
}

// The two columns of a conjunct that is an equality of columns.
pub(crate) fn equality_of(conjunct: &Expr) -> Option<(ColumnRef, ColumnRef)>
    ensures { option_map equality_as result ≡ equality_of (expression_of conjunct.now) }
{
    match conjunct {
        Expr::Compare {
            op: CompareOp::Equal,
            left,
            right,
        } => Some((plain_column(left)?, plain_column(right)?)),
        _ => None,
    }
}

// What a joining conjunct divides by.
fn divisor_by(sizes: &[u64], conjunct: &Expr) -> u64
    ensures value { result ≡ divisor_by sizes.now (equality_of (expression_of conjunct.now)) }
    ensures some { 0 < result }
{
    match equality_of(conjunct) {
        Some((left, right)) => size_at(sizes, left.var)
            .max(size_at(sizes, right.var))
            .max(1),
        None => 3,
    }
}

// One more conjunct in the estimate of a set.
fn divided(conjunct: &Expr, sizes: &[u64], set: u32, size: u128) -> u128
    requires { length sizes.now < 32 }
    ensures { result ≡ divided_if (in_set set) sizes.now size (expression_of conjunct.now) }
{
    if is_joining(conjunct, set, sizes.len() as u32) {
        size / divisor_by(sizes, conjunct) as u128
    } else {
        size
    }
}

// All operands of a chain in the estimate of a set.
fn divided_by_all(expr: &Expr, sizes: &[u64], set: u32, size: u128) -> u128
    requires { length sizes.now < 32 }
    ensures { result ≡ fold (divided_if (in_set set) sizes.now) size (operands (expression_of expr.now)) }
{
    match expr {
        Expr::And { left, right } => {
            divided(right, sizes, set, divided_by_all(left, sizes, set, size))
        }
        _ => divided(expr, sizes, set, size),
    }
}

// The product of a set's estimates, divided by each joining conjunct.
fn joined_size(test: &Option<Expr>, sizes: &[u64], set: u32, product: u128) -> u128
    requires { length sizes.now < 32 }
    ensures { result ≡ fold (divided sizes.now) product (filter (is_joining (in_set set) (length sizes.now)) (conjuncts (option_map expression_of test.now))) }
{
    match test {
        Some(expr) => divided_by_all(expr, sizes, set, product),
        None => product,
    }
}

/// The estimate of a set of variables.
pub(crate) fn set_size(test: &Option<Expr>, sizes: &[u64], set: u32) -> u64
    requires { length sizes.now < 32 }
    ensures { result ≡ set_size (conjuncts (option_map expression_of test.now)) sizes.now (in_set set) }
{
    let factors = factors_of(sizes, set);
    if factors.count == 0 {
        return 1;
    }
    if factors.count == 1 {
        return factors.last;
    }
    if factors.is_empty {
        return 0;
    }
    joined_size(test, sizes, set, factors.product)
        .min(LIMIT)
        .max(1) as u64
}

// Puts the estimate of each variable into its place.
pub(crate) fn fill_sizes(test: &Option<Expr>, stats: &[VarStats], sizes: &mut [u64])
    requires len { length sizes.old ≡ length stats.now }
    requires few { length stats.now < 32 }
    ensures { sizes.new ≡ variable_sizes (conjuncts (option_map expression_of test.now)) stats.now }
{
    for var in 0..stats.len() {
        sizes[var] = variable_size(test, var as u32, stats[var].rows);
    }
}
