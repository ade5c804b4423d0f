//! The tree that a table of chosen trees gives, with each conjunct at its node.
ghost use Rattle.std.specs.Prelude.{◌≡◌, ◌++◌, ◌∷◌, [], ◌&&◌, ◌||◌, not, if◌then◌else◌, IfOk, OnOk, map};
ghost use Rattle.rel_meaning.specs.Expression.{expression_of};
ghost use Rattle.plan_tree.specs.Conjuncts.{names_none};
ghost use Rattle.plan_tree.specs.Keys.{keys_of, with_key};
ghost use Rattle.plan_tree.specs.Trees.{is_inside, is_join_test, is_scan_test, join, join_tests, method_at, scan, scan_tests};
ghost use Rattle.plan_tree.specs.Views.{shape_of};
ghost use Rattle.seq_optimizer.specs.Compared.{expression_at};
ghost use Rattle.seq_optimizer.specs.Placed.{placed, placed_join};
ghost use Rattle.seq_optimizer.specs.Sets.{in_set};
ghost use Rattle.seq_optimizer.specs.Tables.{Outline, Says, mask_of};

use crate::NoMemory;
use crate::keys::key_of;
use crate::naming::{is_inside_set, names_none};
use crate::table::{Choice, Entry, Planner};
use lists::Sequence;
use plan_tree::{ExprList, Method, Tree, Way, copy_expr};
use rel_meaning::Expr;
use rows::{KeyPair, KeyPairList};
use std::alloc::Global;

// Whether a conjunct is a test of the scan of a set's one variable.
fn is_scan_test(conjunct: &Expr, set: u32, is_root: bool) -> bool
    ensures { result ≡ is_scan_test is_root (in_set set) (expression_of conjunct.now) }
{
    is_inside_set(conjunct, set) || (is_root && names_none(conjunct))
}

// Whether a conjunct names a variable, and only variables of two sets.
fn is_inside_either(conjunct: &Expr, first: u32, second: u32) -> bool
    ensures { result ≡ is_inside (λ v. in_set first v || in_set second v) (expression_of conjunct.now) }
{
    is_inside_set(conjunct, first | second)
}

// Whether a conjunct names variables of two sets, and no others, but not of one of them alone.
fn is_across(conjunct: &Expr, first: u32, second: u32) -> bool
    ensures { let e = expression_of conjunct.now in result ≡ (is_inside (λ v. in_set first v || in_set second v) e && not (is_inside (in_set first) e) && not (is_inside (in_set second) e)) }
{
    is_inside_either(conjunct, first, second)
        && !is_inside_set(conjunct, first)
        && !is_inside_set(conjunct, second)
}

// Whether a conjunct is a test of the join of two sets.
fn is_join_test(conjunct: &Expr, first: u32, second: u32, is_root: bool) -> bool
    ensures { result ≡ is_join_test is_root (in_set first) (in_set second) (expression_of conjunct.now) }
{
    (is_across(conjunct, first, second) && key_of(conjunct, first, second).is_none())
        || (is_root && names_none(conjunct))
}

// Adds a copy of a conjunct where it is wanted.
fn put_if(
    alloc: Global,
    conjunct: &Expr,
    is_wanted: bool,
    out: &mut Vec<Expr>,
) -> Result<(), NoMemory>
    ensures { OnOk result (map expression_of out.new.items ≡ map expression_of out.old.items ++ (if is_wanted then expression_of conjunct.now ∷ [] else [])) }
{
    if is_wanted {
        out.push(copy_expr(alloc, conjunct)?)?;
    }
    Ok(())
}

fn scan_tests(
    alloc: Global,
    conjuncts: &[&Expr],
    set: u32,
    is_root: bool,
) -> Result<ExprList, NoMemory>
    ensures { IfOk result (λ tests. map expression_of tests ≡ scan_tests is_root (in_set set) (map expression_at conjuncts.now)) }
{
    let mut tests = Vec::new(alloc);
    for conjunct in conjuncts {
        let is_test = is_scan_test(conjunct, set, is_root);
        put_if(alloc, conjunct, is_test, &mut tests)?;
    }
    Ok(Sequence::from_vec(tests))
}

fn join_tests(
    alloc: Global,
    conjuncts: &[&Expr],
    first: u32,
    second: u32,
    is_root: bool,
) -> Result<ExprList, NoMemory>
    ensures { IfOk result (λ tests. map expression_of tests ≡ join_tests is_root (in_set first) (in_set second) (map expression_at conjuncts.now)) }
{
    let mut tests = Vec::new(alloc);
    for conjunct in conjuncts {
        let is_test = is_join_test(conjunct, first, second, is_root);
        put_if(alloc, conjunct, is_test, &mut tests)?;
    }
    Ok(Sequence::from_vec(tests))
}

fn put_key(key: Option<KeyPair>, out: &mut Vec<KeyPair>) -> Result<(), NoMemory>
    ensures { OnOk result (out.new.items ≡ out.old.items ++ with_key key []) }
{
    if let Some(key) = key {
        out.push(key)?;
    }
    Ok(())
}

// The key pairs of a join of two sets.
fn join_keys(
    alloc: Global,
    conjuncts: &[&Expr],
    first: u32,
    second: u32,
) -> Result<KeyPairList, NoMemory>
    ensures { IfOk result (λ keys. keys ≡ keys_of (in_set first) (in_set second) (map expression_at conjuncts.now)) }
{
    let mut keys = Vec::new(alloc);
    for conjunct in conjuncts {
        put_key(key_of(conjunct, first, second), &mut keys)?;
    }
    Ok(Sequence::from_vec(keys))
}

// The join of two trees under a method.
fn joined(
    method: Method,
    first: Box<Tree>,
    second: Box<Tree>,
    keys: KeyPairList,
    tests: ExprList,
) -> Tree
    ensures { shape_of result ≡ join (method_at method keys) (shape_of first.value) (shape_of second.value) keys (map expression_of tests) }
{
    match method {
        Method::Merge if !keys.is_empty() => Tree::Merge {
            left: first,
            right: second,
            keys,
            tests,
        },
        _ => Tree::Join {
            build: first,
            probe: second,
            keys,
            tests,
        },
    }
}

// The scan of a set's one variable.
fn scan_of(
    alloc: Global,
    planner: &Planner<'_>,
    set: u32,
    var: u32,
    way: Way,
    is_root: bool,
) -> Result<Tree, NoMemory>
    ensures { IfOk result (λ t. shape_of t ≡ scan var way (scan_tests is_root (in_set set) (map expression_at planner.now.conjuncts.now))) }
{
    let tests = scan_tests(alloc, planner.conjuncts, set, is_root)?;
    Ok(Tree::Scan { var, way, tests })
}

// The join of the trees of two sets.
fn join_of(
    alloc: Global,
    planner: &Planner<'_>,
    first: (u32, Tree),
    second: (u32, Tree),
    is_root: bool,
) -> Result<Tree, NoMemory>
    ensures { IfOk result (λ t. shape_of t ≡ placed_join (map expression_at planner.now.conjuncts.now) planner.now.method is_root first.0 second.0 (shape_of first.1) (shape_of second.1)) }
{
    let (a, first) = first;
    let (b, second) = second;
    let keys = join_keys(alloc, planner.conjuncts, a, b)?;
    let tests = join_tests(alloc, planner.conjuncts, a, b, is_root)?;
    let first = Box::new(alloc, first)?;
    let second = Box::new(alloc, second)?;
    Ok(joined(planner.method, first, second, keys, tests))
}

// The chosen tree of a set, as the table gives it.
pub(crate) fn tree_of(
    alloc: Global,
    planner: &Planner<'_>,
    table: &[Entry],
    set: u32,
    is_root: bool,
) -> Result<Tree, NoMemory>
    requires { (t : Outline) × Says table.now set t × (mask_of t ≡ set) }
    ensures { IfOk result (λ r. (t : Outline) → Says table.now set t → mask_of t ≡ set → shape_of r ≡ placed (map expression_at planner.now.conjuncts.now) planner.now.method is_root t) }
{
    let entry = table[set as usize];
    match entry.choice {
        Choice::Scan { var, way } => scan_of(alloc, planner, set, var, way, is_root),
        Choice::Join { build } => {
            let rest = set - build;
            let first = tree_of(alloc, planner, table, build, false)?;
            let second = tree_of(alloc, planner, table, rest, false)?;
            join_of(alloc, planner, (build, first), (rest, second), is_root)
        }
    }
}
