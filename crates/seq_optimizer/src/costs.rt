//! What trees cost.
ghost use Rattle.std.specs.Prelude.{◌≡◌, ◌<◌, ◌≤◌, ◌+◌, ◌^◌, ◌||◌, ℕ, List, min, length};
ghost use Rattle.std.specs.Option.{option_map};
ghost use Rattle.rel_meaning.specs.Expression.{expression_of, question_of, Expression};
ghost use Rattle.plan_tree.specs.Conjuncts.{conjuncts};
ghost use Rattle.plan_tree.specs.Trees.{has, is_variable, IsAnyTree, Shape, join, scan};
ghost use Rattle.plan_tree.specs.Views.{shape_of};
ghost use Rattle.seq_optimizer.specs.Costs.{cost, digits, scan_cost, sort_cost, step_cost, CanPlan, HasIntervals, IsWayInterval};
ghost use Rattle.seq_optimizer.specs.Estimates.{limit, set_size, variable_sizes};
ghost use Rattle.seq_optimizer.specs.Costed.{AreScans, IsCosted, ScansBelow};
ghost use Rattle.seq_optimizer.specs.Sets.{in_set};
ghost use Rattle.seq_optimizer.specs.declared.stats.VarStats.{VarStats};
ghost use Rattle.rows.specs.declared.plain.KeyPair.{KeyPair};

use crate::estimates::{LIMIT, fill_sizes, set_size};
use crate::naming::{first_vars, set_of};
use crate::{VarStats, VarStatsList};
use plan_tree::{Method, Tree, Way};
use rel_meaning::{Expr, Query};

// A query has at most so many variables.
pub(crate) const MOST_VARS: usize = 6;

fn capped(cost: u128) -> u64
    ensures { result ≡ min cost limit }
{
    cost.min(LIMIT) as u64
}

// The cost of a scan.
pub(crate) fn scan_cost(stats: &[VarStats], var: u32, way: Way) -> u64
    requires var { var < length stats.now }
    requires interval { IsWayInterval way }
    ensures { result ≡ scan_cost stats.now var way }
{
    let stats = &stats[var as usize];
    match way {
        Way::Heap => capped(8 * stats.pages as u128 + stats.rows as u128),
        Way::Index(interval) => {
            let entries = (interval.upto - interval.from) as u128;
            capped(8 * (entries + stats.height as u128) + entries)
        }
    }
}

// How many binary digits a number has.
fn digits(number: u64) -> u32
    ensures value { result ≡ digits number }
    ensures most { result ≤ 64 }
{
    64 - number.leading_zeros()
}

// The cost of sorting so many rows.
fn sort_cost(rows: u64) -> u128
    ensures value { result ≡ sort_cost rows }
    ensures most { result ≤ 2 ^ 70 }
{
    rows as u128 * digits(rows) as u128
}

// What a join costs beside its sides, from the estimates of the first side, the second side and both together.
pub(crate) fn step_cost(kind: Method, first: u64, second: u64, both: u64) -> u128
    ensures value { result ≡ step_cost kind first second both }
    ensures most { result ≤ 2 ^ 73 }
{
    let (a, b, both) = (first as u128, second as u128, both as u128);
    match kind {
        Method::Hash => 2 * a + b + both,
        Method::Merge => sort_cost(first) + sort_cost(second) + a + b + both,
    }
}

// The cost of a join.
pub(crate) fn join_cost(first: u64, second: u64, step: u128) -> u64
    requires { step ≤ 2 ^ 73 }
    ensures { result ≡ min (first + second + step) limit }
{
    capped(first as u128 + second as u128 + step)
}

// A tree's cost, and the set of its variables.
#[derive(Clone, Copy)]
struct Costed {
    cost: u64,
    set: u32,
}

// The join of two trees, from what is known of its sides.
fn joined(test: &Option<Expr>, sizes: &[u64], kind: Method, first: Costed, second: Costed) -> Costed
    requires { length sizes.now < 32 }
    ensures { let cs = conjuncts (option_map expression_of test.now) in (stats : List VarStats) → sizes.now ≡ variable_sizes cs stats → (a b : Shape) → IsCosted cs stats a first → IsCosted cs stats b second → (keys : List KeyPair) (tests : List Expression) → IsCosted cs stats (join kind a b keys tests) result }
{
    let set = first.set | second.set;
    let a = set_size(test, sizes, first.set);
    let b = set_size(test, sizes, second.set);
    let step = step_cost(kind, a, b, set_size(test, sizes, set));
    Costed {
        cost: join_cost(first.cost, second.cost, step),
        set,
    }
}

fn scan_costed(stats: &[VarStats], var: u32, way: Way) -> Costed
    requires few { length stats.now < 32 }
    requires var { var < length stats.now }
    requires interval { IsWayInterval way }
    ensures { (cs tests : List Expression) → IsCosted cs stats.now (scan var way tests) result }
{
    Costed {
        cost: scan_cost(stats, var, way),
        set: set_of(var),
    }
}

// The cost of a tree, and the set of its variables.
fn tree_cost(test: &Option<Expr>, sizes: &[u64], stats: &[VarStats], tree: &Tree) -> Costed
    requires few { (length stats.now < 32) × (length sizes.now < 32) }
    requires sizes { sizes.now ≡ variable_sizes (conjuncts (option_map expression_of test.now)) stats.now }
    requires scans { AreScans (length stats.now) (shape_of tree.now) }
    ensures { IsCosted (conjuncts (option_map expression_of test.now)) stats.now (shape_of tree.now) result }
{
    match tree {
        Tree::One { .. } => Costed { cost: 1, set: 0 },
        Tree::Scan { var, way, .. } => scan_costed(stats, *var, *way),
        Tree::Join { build, probe, .. } => {
            let first = tree_cost(test, sizes, stats, build);
            let second = tree_cost(test, sizes, stats, probe);
            joined(test, sizes, Method::Hash, first, second)
        }
        Tree::Merge { left, right, .. } => {
            let first = tree_cost(test, sizes, stats, left);
            let second = tree_cost(test, sizes, stats, right);
            joined(test, sizes, Method::Merge, first, second)
        }
    }
}

/// The cost of a tree of a query under these stats, at most 2^40. It takes no memory.
pub fn cost(query: &Query, stats: &VarStatsList, tree: &Tree) -> u64
    requires plan { CanPlan (question_of query.now) stats.now }
    requires tree { IsAnyTree (question_of query.now) (shape_of tree.now) }
    requires intervals { HasIntervals (shape_of tree.now) }
    ensures { result ≡ cost (conjuncts (question_of query.now).test) stats.now (shape_of tree.now) }
{
    let mut sizes = [0; MOST_VARS];
    let sizes = &mut sizes[..stats.len()];
    fill_sizes(&query.test, stats.items(), sizes);
    tree_cost(&query.test, sizes, stats.items(), tree).cost
}

// The set of the variables that a tree scans.
fn tree_set(tree: &Tree) -> u32
    requires { ScansBelow 32 (shape_of tree.now) }
    ensures { in_set result ≡ has (shape_of tree.now) }
{
    match tree {
        Tree::One { .. } => 0,
        Tree::Scan { var, .. } => set_of(*var),
        Tree::Join { build, probe, .. } => tree_set(build) | tree_set(probe),
        Tree::Merge { left, right, .. } => tree_set(left) | tree_set(right),
    }
}

/// How many rows the variables that a tree scans are together taken to have, 1 for a tree that
/// scans none. Each of them is a variable of the query. It takes no memory.
pub fn estimate_of(query: &Query, stats: &VarStatsList, tree: &Tree) -> u64
    requires plan { CanPlan (question_of query.now) stats.now }
    requires scans { ScansBelow (length (question_of query.now).vars) (shape_of tree.now) }
    ensures { let cs = conjuncts (question_of query.now).test in
        result ≡ set_size cs (variable_sizes cs stats.now) (has (shape_of tree.now)) }
{
    let mut sizes = [0; MOST_VARS];
    let sizes = &mut sizes[..stats.len()];
    fill_sizes(&query.test, stats.items(), sizes);
    set_size(&query.test, sizes, tree_set(tree))
}

/// How many rows all variables of a query together are taken to have, 1 for a query without variables. It takes no
/// memory.
pub fn estimate(query: &Query, stats: &VarStatsList) -> u64
    requires { CanPlan (question_of query.now) stats.now }
    ensures { let cs = conjuncts (question_of query.now).test in result ≡ set_size cs (variable_sizes cs stats.now) (is_variable (question_of query.now)) }
{
    let mut sizes = [0; MOST_VARS];
    let sizes = &mut sizes[..stats.len()];
    fill_sizes(&query.test, stats.items(), sizes);
    set_size(&query.test, sizes, first_vars(stats.len() as u32))
}
