//! The chosen tree of each set of a query's variables, found from the smaller sets.
ghost use Rattle.std.specs.Prelude.{◌≡◌, ◌<◌, ◌≤◌, ◌+◌, ◌-◌, ◌^◌, ℕ, IfOk, length, map};
ghost use Rattle.std.specs.Int.Bits.{bit_and};
ghost use Rattle.seq_optimizer.specs.Compared.{expression_at};
ghost use Rattle.seq_optimizer.specs.Tables.{BestBelow, IsBest, IsBestScan, IsPlanner, SettledBelow, better_of, node_step, planned, split_cost, split_price};

use crate::costs::{join_cost, scan_cost, step_cost};
use crate::keys::kind_of;
use crate::naming::set_of;
use crate::{NoMemory, VarStats};
use plan_tree::{Method, Way};
use rel_meaning::Expr;
use std::alloc::Global;

// What the chosen trees of a query are found from: its conjuncts, the stats of its variables, the estimate of each set
// of variables at the set's number, and the method.
#[derive(Clone, Copy)]
pub(crate) struct Planner<'a> {
    pub conjuncts: &'a [&'a Expr],
    pub stats: &'a [VarStats],
    pub sizes: &'a [u64],
    pub method: Method,
}

// How the chosen tree of a set begins.
#[derive(Clone, Copy)]
pub(crate) enum Choice {
    Scan { var: u32, way: Way },
    Join { build: u32 },
}

// The chosen tree of a set, with its cost.
#[derive(Clone, Copy)]
pub(crate) struct Entry {
    pub cost: u64,
    pub choice: Choice,
}

// The scan of a variable that costs less, the heap scan on a tie.
fn best_scan(planner: &Planner<'_>, var: u32) -> Entry
    requires planner { IsPlanner planner.now }
    requires var { var < length planner.now.stats.now }
    ensures { IsBestScan (planned planner.now) var result }
{
    let heap = scan_cost(planner.stats, var, Way::Heap);
    let in_heap = Entry {
        cost: heap,
        choice: Choice::Scan {
            var,
            way: Way::Heap,
        },
    };
    let Some(interval) = planner.stats[var as usize].interval else {
        return in_heap;
    };
    let way = Way::Index(interval);
    let cost = scan_cost(planner.stats, var, way);
    if cost < heap {
        Entry {
            cost,
            choice: Choice::Scan { var, way },
        }
    } else {
        in_heap
    }
}

// What the join of two sets costs beside its sides.
fn node_step(planner: &Planner<'_>, first: u32, second: u32) -> u128
    requires planner { IsPlanner planner.now }
    requires sets { first + second < 2 ^ length planner.now.stats.now }
    ensures value { result ≡ node_step (map expression_at planner.now.conjuncts.now) planner.now.stats.now planner.now.method first second }
    ensures most { result ≤ 2 ^ 73 }
{
    let kind = kind_of(planner.method, planner.conjuncts, first, second);
    let (a, b) = (
        planner.sizes[first as usize],
        planner.sizes[second as usize],
    );
    step_cost(kind, a, b, planner.sizes[(first + second) as usize])
}

// The cost of the join of two sets' chosen trees.
fn split_cost(planner: &Planner<'_>, table: &[Entry], first: u32, second: u32) -> u64
    requires planner { IsPlanner planner.now }
    requires sets { first + second < 2 ^ length planner.now.stats.now }
    requires table { (first < length table.now) × (second < length table.now) }
    ensures { result ≡ split_cost (planned planner.now) table.now first second }
{
    let step = node_step(planner, first, second);
    join_cost(
        table[first as usize].cost,
        table[second as usize].cost,
        step,
    )
}

// The cheaper of the best split so far and a further one, the former on a tie.
fn better_of(best: Option<Entry>, cost: u64, build: u32) -> Option<Entry>
    ensures { result ≡ better_of best cost build }
{
    match best {
        Some(found) if found.cost <= cost => Some(found),
        _ => Some(Entry {
            cost,
            choice: Choice::Join { build },
        }),
    }
}

// The split of a set with least cost, and of these the one whose first side has the smallest number.
fn best_split(planner: &Planner<'_>, table: &[Entry], set: u32) -> Option<Entry>
    requires planner { IsPlanner planner.now }
    requires several { 1 < set }
    requires set { (set ≤ length table.now) × (set < 2 ^ length planner.now.stats.now) }
    ensures { IsBest (split_price (planned planner.now) table.now set) set set result }
{
    let mut best: Option<Entry> = None;
    for build in 1..set {
        if build & (set - build) != 0 {
            continue;
        }
        let cost = split_cost(planner, table, build, set - build);
        best = better_of(best, cost, build);
    }
    best
}

// The chosen tree of a set of the variable and some of those before it.
fn larger(planner: &Planner<'_>, table: &[Entry], var: u32, before: u32) -> Entry
    requires planner { IsPlanner planner.now }
    requires var { (var < 6) × (0 < before) × (before < 2 ^ var) }
    requires set { (2 ^ var + before ≤ length table.now) × (2 ^ var + before < 2 ^ length planner.now.stats.now) }
    ensures { BestBelow (split_price (planned planner.now) table.now (2 ^ var + before)) (2 ^ var + before) (2 ^ var + before) result }
{
    match best_split(planner, table, set_of(var) + before) {
        Some(entry) => entry,
        None => unreachable!(),
    }
}

// The chosen tree of each set, at the set's number. The entry of the empty set says nothing.
pub(crate) fn fill(alloc: Global, planner: &Planner<'_>) -> Result<Vec<Entry>, NoMemory>
    requires { IsPlanner planner.now }
    ensures len { IfOk result (λ t. length t.items ≡ 2 ^ length planner.now.stats.now) }
    ensures settled { IfOk result (λ t. SettledBelow (planned planner.now) t.items (2 ^ length planner.now.stats.now)) }
{
    let mut table = Vec::with_capacity(alloc, planner.sizes.len())?;
    table.push(Entry {
        cost: 0,
        choice: Choice::Join { build: 0 },
    })?;
    for var in 0..planner.stats.len() as u32 {
        table.push(best_scan(planner, var))?;
        for before in 1..set_of(var) {
            let entry = larger(planner, table.as_slice(), var, before);
            table.push(entry)?;
        }
    }
    Ok(table)
}
