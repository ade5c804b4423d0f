//! The key pairs of a join.
ghost use Rattle.std.specs.Prelude.{◌≡◌, map};
ghost use Rattle.rel_meaning.specs.Expression.{expression_of};
ghost use Rattle.plan_tree.specs.Keys.{key_of, keys_of, pair_of};
ghost use Rattle.plan_tree.specs.Trees.{method_at};
ghost use Rattle.seq_optimizer.specs.Compared.{expression_at, has_key};
ghost use Rattle.seq_optimizer.specs.Sets.{in_set};

use crate::estimates::equality_of;
use crate::naming::is_in_set;
use plan_tree::Method;
use rel_meaning::Expr;
use rows::{ColumnRef, KeyPair};

// The key pair that two columns make where the one is of the first set and the other of the second.
fn pair_of(left: ColumnRef, right: ColumnRef, first: u32, second: u32) -> Option<KeyPair>
    ensures { result ≡ pair_of (in_set first) (in_set second) left right }
{
    if is_in_set(first, left.var) && is_in_set(second, right.var) {
        Some(KeyPair {
            build: left,
            probe: right,
        })
    } else if is_in_set(first, right.var) && is_in_set(second, left.var) {
        Some(KeyPair {
            build: right,
            probe: left,
        })
    } else {
        None
    }
}

// The key pair that a conjunct is at a join of two sets, if it is one.
pub(crate) fn key_of(conjunct: &Expr, first: u32, second: u32) -> Option<KeyPair>
    ensures { result ≡ key_of (in_set first) (in_set second) (expression_of conjunct.now) }
{
    let (left, right) = equality_of(conjunct)?;
    pair_of(left, right, first, second)
}

// Whether a join of two sets has a key pair.
fn has_key(conjuncts: &[&Expr], first: u32, second: u32) -> bool
    ensures { result ≡ has_key (in_set first) (in_set second) conjuncts.now }
{
    conjuncts
        .iter()
        .any(|conjunct| key_of(conjunct, first, second).is_some())
}

// How a join of two sets is done under a method.
pub(crate) fn kind_of(method: Method, conjuncts: &[&Expr], first: u32, second: u32) -> Method
    ensures { result ≡ method_at method (keys_of (in_set first) (in_set second) (map expression_at conjuncts.now)) }
{
    match method {
        Method::Hash => Method::Hash,
        Method::Merge => {
            if has_key(conjuncts, first, second) {
                Method::Merge
            } else {
                Method::Hash
            }
        }
    }
}
