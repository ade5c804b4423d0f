//! The costs of all trees of a query, plainly, for the tests.
ghost use Rattle.std.specs.Prelude.{◌<◌};

use crate::VarStats;
use crate::tests::{Conjunct, Sample, Term, plan_cost};
use plan_tree::Method;
use rel_meaning::CompareOp;
use rows::Interval;
use std::alloc::{AllocError, Global};
use std::test::Fail;

const LIMIT: u64 = 1 << 40;

// Numbers that look random.
#[derive(Drop)]
struct Dice {
    state: u64,
}

impl Dice {
    fn below(&mut self, bound: u32) -> u32 {
        self.state = self
            .state
            .wrapping_mul(6364136223846793005)
            .wrapping_add(1442695040888963407);
        (self.state >> 33) as u32 % bound.max(1)
    }

    fn term(&mut self, vars: u32) -> Term {
        match self.below(4) {
            0 => Term::Number(self.below(9)),
            _ => Term::Column {
                var: self.below(vars),
                col: self.below(2),
            },
        }
    }

    fn conjunct(&mut self, vars: u32) -> Conjunct {
        let left = self.term(vars);
        let right = self.term(vars);
        let op = match self.below(3) {
            0 => CompareOp::Less,
            _ => CompareOp::Equal,
        };
        Conjunct { left, op, right }
    }

    fn stats(&mut self) -> VarStats {
        let rows = self.below(400);
        let pages = self.below(9) as u64;
        let from = self.below(rows.max(1));
        let interval = match self.below(2) {
            0 => Some(Interval {
                from,
                upto: rows.max(from),
            }),
            _ => None,
        };
        VarStats {
            pages,
            rows: rows as u64,
            interval,
            height: self.below(4),
        }
    }

    fn sample(&mut self, alloc: Global, vars: u32) -> Result<Sample, AllocError> {
        let mut stats = Vec::new(alloc);
        for _ in 0..vars {
            stats.push(self.stats())?;
        }
        let mut conjuncts = Vec::new(alloc);
        for _ in 0..self.below(6) {
            conjuncts.push(self.conjunct(vars))?;
        }
        Ok(Sample { stats, conjuncts })
    }
}

// The set of a term's variable.
fn set_of(term: Term) -> u32 {
    match term {
        Term::Column { var, .. } => 1u32.checked_shl(var).unwrap_or(0),
        _ => 0,
    }
}

fn names(conjunct: Conjunct) -> u32 {
    set_of(conjunct.left) | set_of(conjunct.right)
}

fn is_equality(conjunct: Conjunct) -> bool {
    matches!(conjunct.op, CompareOp::Equal)
}

// Whether both sides are columns.
fn has_columns(conjunct: Conjunct) -> bool {
    set_of(conjunct.left) != 0 && set_of(conjunct.right) != 0
}

fn one_size(sample: &Sample, var: u32) -> u64 {
    let rows = match sample.stats.get(var as usize) {
        Some(stats) => stats.rows,
        None => 0,
    };
    let mut size = rows;
    let mut by: u64 = 1;
    for conjunct in &sample.conjuncts {
        if names(*conjunct) == 1u32.checked_shl(var).unwrap_or(0) {
            let is_bound = is_equality(*conjunct) && !has_columns(*conjunct);
            by = by.saturating_mul(if is_bound { 10 } else { 3 });
        }
    }
    size = size.checked_div(by).unwrap_or(0);
    size.max(rows.min(1))
}

fn divisor(sample: &Sample, conjunct: Conjunct) -> u64 {
    match (conjunct.left, conjunct.right) {
        (Term::Column { var: a, .. }, Term::Column { var: b, .. }) if is_equality(conjunct) => {
            one_size(sample, a).max(one_size(sample, b)).max(1)
        }
        _ => 3,
    }
}

fn size(sample: &Sample, set: u32) -> u64 {
    let mut product: u64 = 1;
    for var in 0..6 {
        if (set >> var) & 1 == 1 {
            product = product.saturating_mul(one_size(sample, var));
        }
    }
    if set.count_ones() == 1 || product == 0 {
        return product;
    }
    for conjunct in &sample.conjuncts {
        if names(*conjunct).count_ones() > 1 && names(*conjunct) & !set == 0 {
            product = product.checked_div(divisor(sample, *conjunct)).unwrap_or(0);
        }
    }
    product.max(1).min(LIMIT)
}

fn sort_cost(size: u64) -> u64 {
    size.saturating_mul(u64::from(64 - size.leading_zeros()))
}

fn has_key(sample: &Sample, first: u32, second: u32) -> bool {
    sample.conjuncts.iter().any(|conjunct| {
        let (a, b) = (set_of(conjunct.left), set_of(conjunct.right));
        is_equality(*conjunct)
            && (a & first != 0 && b & second != 0 || a & second != 0 && b & first != 0)
    })
}

fn step(sample: &Sample, method: Method, first: u32, second: u32) -> u64 {
    let (a, b) = (size(sample, first), size(sample, second));
    let both = size(sample, first | second);
    let sides = match method {
        Method::Merge if has_key(sample, first, second) => {
            sort_cost(a)
                .saturating_add(sort_cost(b))
                .saturating_add(a)
                .saturating_add(b)
        }
        _ => a.saturating_mul(2).saturating_add(b),
    };
    sides.saturating_add(both)
}

fn scan_costs(alloc: Global, sample: &Sample, var: u32) -> Result<Vec<u64>, AllocError> {
    let mut costs = Vec::new(alloc);
    if let Some(stats) = sample.stats.get(var as usize) {
        costs.push(stats.pages.saturating_mul(8).saturating_add(stats.rows))?;
        if let Some(interval) = stats.interval {
            let entries = u64::from(interval.upto.saturating_sub(interval.from));
            let height = u64::from(stats.height);
            costs.push(
                entries
                    .saturating_mul(9)
                    .saturating_add(height.saturating_mul(8)),
            )?;
        }
    }
    Ok(costs)
}

// The costs of the joins of a tree with others.
fn put_sums(costs: &mut Vec<u64>, first: u64, others: &[u64], step: u64) -> Result<(), AllocError> {
    for other in others {
        costs.push(first.saturating_add(*other).saturating_add(step).min(LIMIT))?;
    }
    Ok(())
}

// The costs of the joins of the trees of two sets.
fn put_joins(
    costs: &mut Vec<u64>,
    firsts: &[u64],
    others: &[u64],
    step: u64,
) -> Result<(), AllocError> {
    for first in firsts {
        put_sums(costs, *first, others, step)?;
    }
    Ok(())
}

// The costs of all trees of a set, from those of the smaller sets.
fn set_costs(
    alloc: Global,
    sample: &Sample,
    method: Method,
    table: &[Vec<u64>],
    set: u32,
) -> Result<Vec<u64>, AllocError> {
    if set.count_ones() == 1 {
        return scan_costs(alloc, sample, set.trailing_zeros());
    }
    let mut costs = Vec::new(alloc);
    for first in 1..set {
        let second = set - first;
        if first & second == 0 {
            let step = step(sample, method, first, second);
            if let (Some(a), Some(b)) = (table.get(first as usize), table.get(second as usize)) {
                put_joins(&mut costs, a.as_slice(), b.as_slice(), step)?;
            }
        }
    }
    Ok(costs)
}

// The costs of all trees of so many variables.
fn all_costs(
    alloc: Global,
    sample: &Sample,
    method: Method,
    vars: u32,
) -> Result<Vec<u64>, AllocError>
    requires { vars < 7 }
{
    let mut table: Vec<Vec<u64>> = Vec::new(alloc);
    table.push(Vec::new(alloc))?;
    for set in 1..1u32 << vars {
        let costs = set_costs(alloc, sample, method, table.as_slice(), set)?;
        table.push(costs)?;
    }
    match table.pop() {
        Some(costs) => Ok(costs),
        None => Ok(Vec::new(alloc)),
    }
}

// How many trees there are without an index.
const COUNTS: [usize; 4] = [1, 2, 12, 120];

#[test]
fn no_tree_of_a_random_query_costs_less_than_its_plan(rt: HostRuntime) -> Result<(), Fail> {
    let alloc = rt.alloc();
    let mut dice = Dice { state: 7 };
    for round in 0..60 {
        let vars = 1 + round % 4;
        let sample = dice.sample(alloc, vars)?;
        for method in [Method::Hash, Method::Merge] {
            let costs = all_costs(alloc, &sample, method, vars)?;
            let least = costs.as_slice().iter().copied().min();
            assert_eq!(rt;
                Some(plan_cost(alloc, &sample, method)?),
                least,
                "round {round}"
            );
            assert!(rt; costs.len() >= COUNTS[round as usize % 4]);
        }
    }
    Ok(())
}
