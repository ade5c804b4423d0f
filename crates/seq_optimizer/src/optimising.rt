//! The plan of a query.
ghost use Rattle.std.specs.Prelude.{◌≡◌, ◌<◌, ◌≤◌, ◌^◌, IfOk, length, map};
ghost use Rattle.std.specs.List.{range_with_len};
ghost use Rattle.std.specs.Option.{option_map};
ghost use Rattle.rel_meaning.specs.Expression.{expression_of, question_of};
ghost use Rattle.plan_tree.specs.Conjuncts.{conjuncts};
ghost use Rattle.plan_tree.specs.Trees.{one};
ghost use Rattle.plan_tree.specs.Views.{shape_of};
ghost use Rattle.seq_optimizer.specs.Best.{IsBestTree, IsFound};
ghost use Rattle.seq_optimizer.specs.Compared.{expression_at};
ghost use Rattle.seq_optimizer.specs.Costs.{CanPlan};
ghost use Rattle.seq_optimizer.specs.Estimates.{set_size, variable_sizes};
ghost use Rattle.seq_optimizer.specs.Sets.{in_set};
ghost use Rattle.seq_optimizer.specs.Tables.{IsPlanner, all_sizes};

use crate::conjuncts::conjuncts;
use crate::costs::MOST_VARS;
use crate::estimates::{fill_sizes, set_size};
use crate::naming::{first_vars, set_of};
use crate::placing::tree_of;
use crate::table::{Planner, fill};
use crate::{NoMemory, VarStats, VarStatsList};
use lists::Sequence;
use plan_tree::{Method, Plan, Tree, copy_expr, copy_query};
use rel_meaning::{Expr, Query};
use std::alloc::Global;

// A tree with its cost.
struct Found {
    tree: Tree,
    cost: u64,
}

// The tree of a query without variables.
fn one_tree(alloc: Global, conjuncts: &[&Expr]) -> Result<Found, NoMemory>
    ensures tree { IfOk result (λ f. shape_of f.tree ≡ one (map expression_at conjuncts.now)) }
    ensures cost { IfOk result (λ f. f.cost ≡ 1) }
{
    let mut tests = Vec::with_capacity(alloc, conjuncts.len())?;
    for conjunct in conjuncts {
        tests.push(copy_expr(alloc, conjunct)?)?;
    }
    Ok(Found {
        tree: Tree::One {
            tests: Sequence::from_vec(tests),
        },
        cost: 1,
    })
}

// The estimate of each set of variables, at the set's number.
fn all_sizes(alloc: Global, test: &Option<Expr>, stats: &[VarStats]) -> Result<Vec<u64>, NoMemory>
    requires { length stats.now ≤ 6 }
    ensures { IfOk result (λ v. v.items ≡ all_sizes (conjuncts (option_map expression_of test.now)) stats.now) }
{
    let mut sizes = [0; MOST_VARS];
    let sizes = &mut sizes[..stats.len()];
    fill_sizes(test, stats, sizes);
    let mut all = Vec::new(alloc);
    for set in 0..set_of(stats.len() as u32) {
        all.push(set_size(test, sizes, set))?;
    }
    Ok(all)
}

// The chosen tree of all variables.
fn best_tree(alloc: Global, planner: &Planner<'_>) -> Result<Found, NoMemory>
    requires planner { IsPlanner planner.now }
    requires some { 0 < length planner.now.stats.now }
    ensures { IfOk result (λ f. IsFound (map expression_at planner.now.conjuncts.now) planner.now.stats.now planner.now.method (shape_of f.tree) f.cost) }
{
    let table = fill(alloc, planner)?;
    let all = first_vars(planner.stats.len() as u32);
    let tree = tree_of(alloc, planner, table.as_slice(), all, true)?;
    Ok(Found {
        tree,
        cost: table[all as usize].cost,
    })
}

// The tree of a query that costs least.
fn find(alloc: Global, query: &Query, stats: &[VarStats], method: Method) -> Result<Found, NoMemory>
    requires { CanPlan (question_of query.now) stats.now }
    ensures { IfOk result (λ f. IsBestTree (question_of query.now) stats.now method (shape_of f.tree) f.cost) }
{
    let conjuncts = conjuncts(alloc, &query.test)?;
    if stats.is_empty() {
        return one_tree(alloc, conjuncts.as_slice());
    }
    let sizes = all_sizes(alloc, &query.test, stats)?;
    let planner = Planner {
        conjuncts: conjuncts.as_slice(),
        stats,
        sizes: sizes.as_slice(),
        method,
    };
    best_tree(alloc, &planner)
}

/// The plan of a query under a method: the chosen tree of all its variables and the tree's cost. No tree of the query
/// under the method whose index scans have the intervals of the stats costs less. An `Err` is want of memory.
pub fn optimise(
    alloc: Global,
    query: &Query,
    stats: &VarStatsList,
    method: Method,
) -> Result<Plan, NoMemory>
    requires { CanPlan (question_of query.now) stats.now }
    ensures query { IfOk result (λ p. question_of p.query ≡ question_of query.now) }
    ensures tree { IfOk result (λ p. IsBestTree (question_of query.now) stats.now method (shape_of p.tree) p.cost) }
{
    let Found { tree, cost } = find(alloc, query, stats.items(), method)?;
    Ok(Plan {
        query: copy_query(alloc, query)?,
        tree,
        cost,
    })
}
