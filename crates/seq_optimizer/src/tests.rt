ghost use Rattle.std.specs.Prelude.{◌≡◌, IfOk, IfSome, IsTrue, Some};
ghost use Rattle.rel_meaning.specs.Expression.{expression_of, question_of};
ghost use Rattle.rel_meaning.specs.Typing.{truth_type, type_of};
ghost use Rattle.seq_optimizer.specs.Bounds.{IsTyped};
ghost use Rattle.seq_optimizer.specs.Costs.{CanPlan, IsInterval};

use crate::{VarStats, VarStatsList, bounds_of, cost, estimate, optimise};
use lists::Sequence;
use plan_tree::{Method, Plan, Tree, Way};
use rel_meaning::{CompareOp, Expr, Query, Var, VarList};
use rows::{Bound, Interval, Text, Value};
use std::alloc::{AllocError, Global};
use std::test::Fail;

// An operand: a column, or a number with or without a sign.
#[derive(Clone, Copy)]
pub(crate) enum Term {
    Column { var: u32, col: u32 },
    Number(u32),
    Minus(u32),
}

#[derive(Clone, Copy)]
pub(crate) struct Conjunct {
    pub left: Term,
    pub op: CompareOp,
    pub right: Term,
}

// A query and its stats.
#[derive(Drop)]
pub(crate) struct Sample {
    pub stats: Vec<VarStats>,
    pub conjuncts: Vec<Conjunct>,
}

fn number(text: &str) -> Result<u32, Fail> {
    match text.parse::<u32>() {
        Ok(number) => Ok(number),
        Err(_) => Err(Fail::from("no number")),
    }
}

fn read_term(text: &str) -> Result<Term, Fail> {
    if let Some((var, col)) = text.split_once('.') {
        return Ok(Term::Column {
            var: number(var)?,
            col: number(col)?,
        });
    }
    match text.strip_prefix('-') {
        Some(digits) => Ok(Term::Minus(number(digits)?)),
        None => Ok(Term::Number(number(text)?)),
    }
}

fn op(text: &str) -> Result<CompareOp, Fail> {
    match text {
        "=" => Ok(CompareOp::Equal),
        "!=" => Ok(CompareOp::NotEqual),
        "<" => Ok(CompareOp::Less),
        "<=" => Ok(CompareOp::AtMost),
        ">" => Ok(CompareOp::More),
        ">=" => Ok(CompareOp::AtLeast),
        _ => Err(Fail::from("no operator")),
    }
}

fn read_conjunct(text: &str) -> Result<Conjunct, Fail> {
    let (left, rest) = text.split_once(' ').ok_or("no operator")?;
    let (middle, right) = rest.split_once(' ').ok_or("no right side")?;
    Ok(Conjunct {
        left: read_term(left)?,
        op: op(middle)?,
        right: read_term(right)?,
    })
}

// Pages and rows, and, where there is an index, its height and the ends of an interval.
fn var_stats(text: &str) -> Result<VarStats, Fail> {
    let mut parts = [0; 5];
    let mut count = 0;
    for part in text.split(',') {
        if let Some(place) = parts.get_mut(count) {
            *place = number(part)?;
        }
        count = count.saturating_add(1);
    }
    let [pages, rows, height, from, upto] = parts;
    let interval = if count == 5 {
        Some(Interval { from, upto })
    } else {
        None
    };
    Ok(VarStats {
        pages: pages as u64,
        rows: rows as u64,
        interval,
        height,
    })
}

fn read_sample(alloc: Global, stats: &str, test: &str) -> Result<Sample, Fail> {
    let mut sample = Sample {
        stats: Vec::new(alloc),
        conjuncts: Vec::new(alloc),
    };
    for text in stats.split_whitespace() {
        sample.stats.push(var_stats(text)?)?;
    }
    for text in test.split(';').filter(|text| !text.is_empty()) {
        sample.conjuncts.push(read_conjunct(text)?)?;
    }
    Ok(sample)
}

fn expr(alloc: Global, term: Term) -> Result<Expr, AllocError> {
    Ok(match term {
        Term::Column { var, col } => Expr::Column { var, col },
        Term::Number(number) => Expr::Number(number as i64),
        Term::Minus(number) => Expr::Negate(Box::new(alloc, Expr::Number(number as i64))?),
    })
}

fn comparison(alloc: Global, conjunct: Conjunct) -> Result<Expr, AllocError> {
    Ok(Expr::Compare {
        op: conjunct.op,
        left: Box::new(alloc, expr(alloc, conjunct.left)?)?,
        right: Box::new(alloc, expr(alloc, conjunct.right)?)?,
    })
}

fn with_conjunct(
    alloc: Global,
    test: Option<Expr>,
    conjunct: Conjunct,
) -> Result<Option<Expr>, AllocError> {
    let right = comparison(alloc, conjunct)?;
    Ok(Some(match test {
        None => right,
        Some(left) => Expr::And {
            left: Box::new(alloc, left)?,
            right: Box::new(alloc, right)?,
        },
    }))
}

fn vars(alloc: Global, count: usize) -> Result<VarList, AllocError> {
    let mut vars = Vec::new(alloc);
    for _ in 0..count {
        vars.push(Var {
            name: Text::from_slice(alloc, b"v")?,
            relation: 0,
        })?;
    }
    Ok(Sequence::from_vec(vars))
}

fn query(alloc: Global, sample: &Sample) -> Result<Query, AllocError> {
    let mut test = None;
    for conjunct in &sample.conjuncts {
        test = with_conjunct(alloc, test, *conjunct)?;
    }
    Ok(Query {
        vars: vars(alloc, sample.stats.len())?,
        targets: Sequence::new(alloc),
        test,
        unique: false,
        keys: Sequence::new(alloc),
    })
}

// A column, or a truth value, where all columns hold truth values.
fn truth_operand(text: &str) -> Result<Expr, Fail>
    ensures { IfOk result (λ e. type_of (expression_of e) (λ v c. Some truth_type) ≡ Some truth_type) }
{
    match text {
        "t" => Ok(Expr::Truth(true)),
        "f" => Ok(Expr::Truth(false)),
        _ => {
            let (var, col) = text.split_once('.').ok_or("no column")?;
            Ok(Expr::Column {
                var: number(var)?,
                col: number(col)?,
            })
        }
    }
}

// A query whose test is a comparison of such operands.
fn compared(alloc: Global, op: CompareOp, left: Expr, right: Expr) -> Result<Query, AllocError>
    requires left { type_of (expression_of left) (λ v c. Some truth_type) ≡ Some truth_type }
    requires right { type_of (expression_of right) (λ v c. Some truth_type) ≡ Some truth_type }
    ensures { IfOk result (λ q. IsTyped (question_of q).test) }
{
    let vars = vars(alloc, 1)?;
    let left = Box::new(alloc, left)?;
    let right = Box::new(alloc, right)?;
    Ok(Query {
        vars,
        targets: Sequence::new(alloc),
        test: Some(Expr::Compare { op, left, right }),
        unique: false,
        keys: Sequence::new(alloc),
    })
}

fn truth_query(alloc: Global, text: &str) -> Result<Query, Fail>
    ensures { IfOk result (λ q. IsTyped (question_of q).test) }
{
    let (left, rest) = text.split_once(' ').ok_or("no operator")?;
    let (middle, right) = rest.split_once(' ').ok_or("no right side")?;
    let operator = op(middle)?;
    let left = truth_operand(left)?;
    let right = truth_operand(right)?;
    Ok(compared(alloc, operator, left, right)?)
}

// A tree with the numbers of its key pairs and tests.
fn spelled(alloc: Global, tree: &Tree) -> Result<String, Fail> {
    match tree {
        Tree::One { tests } => Ok(format!(in alloc; "one/{}", tests.len())?),
        Tree::Scan { var, way, tests } => {
            let way = match way {
                Way::Heap => "heap",
                Way::Index(_) => "index",
            };
            Ok(format!(in alloc; "{var}:{way}/{}", tests.len())?)
        }
        Tree::Join {
            build,
            probe,
            keys,
            tests,
        } => {
            let (a, b) = (spelled(alloc, build)?, spelled(alloc, probe)?);
            Ok(format!(in alloc; "({a} * {b}){}/{}", keys.len(), tests.len())?)
        }
        Tree::Merge {
            left,
            right,
            keys,
            tests,
        } => {
            let (a, b) = (spelled(alloc, left)?, spelled(alloc, right)?);
            Ok(format!(in alloc; "({a} ~ {b}){}/{}", keys.len(), tests.len())?)
        }
    }
}

// No interval ends before it begins.
fn is_ordered(stats: &VarStats) -> bool
    ensures { IsTrue result → IfSome stats.now.interval IsInterval }
{
    match stats.interval {
        Some(interval) => interval.from <= interval.upto,
        None => true,
    }
}

fn can_plan(query: &Query, stats: &VarStatsList) -> bool
    ensures { IsTrue result → CanPlan (question_of query.now) stats.now }
{
    query.vars.len() <= 6 && stats.len() == query.vars.len() && stats.items().iter().all(is_ordered)
}

// The cost of the plan.
pub(crate) fn plan_cost(alloc: Global, sample: &Sample, method: Method) -> Result<u64, Fail> {
    let query = query(alloc, sample)?;
    let stats: VarStatsList = Sequence::from_vec(sample.stats.clone()?);
    if !can_plan(&query, &stats) {
        return Err(Fail::from("more than six variables"));
    }
    Ok(optimise(alloc, &query, &stats, method)?.cost)
}

// The plan, and what its tree costs.
fn priced(
    alloc: Global,
    query: &Query,
    stats: &VarStatsList,
    method: Method,
) -> Result<(Plan, u64), AllocError>
    requires { CanPlan (question_of query.now) stats.now }
{
    let plan = optimise(alloc, query, stats, method)?;
    let price = cost(query, stats, &plan.tree);
    Ok((plan, price))
}

// The plan, what it costs, and how many rows all variables are taken to have.
fn planned(alloc: Global, sample: &Sample, method: Method) -> Result<String, Fail> {
    let query = query(alloc, sample)?;
    let stats: VarStatsList = Sequence::from_vec(sample.stats.clone()?);
    if !can_plan(&query, &stats) {
        return Err(Fail::from("more than six variables"));
    }
    let (plan, price) = priced(alloc, &query, &stats, method)?;
    if price != plan.cost {
        return Err(Fail::from("the tree costs another sum"));
    }
    let tree = spelled(alloc, &plan.tree)?;
    let rows = estimate(&query, &stats);
    Ok(format!(in alloc; "{tree} costs {price} of {rows}")?)
}

// Stats, conjuncts and a method, and the plan. The plans were found apart from this program, by the costs of all trees.
const PLANS: &str = "1,3 1,3 | 0.1 = 1.0 | hash | (0:heap/0 * 1:heap/0)1/0 costs 34 of 3
1,3 1,3 | 0.1 = 1.0 | merge | (0:heap/0 ~ 1:heap/0)1/0 costs 43 of 3
1,3 1,3 1,3 | 0.1 = 1.0;2.2 = 900 | hash | (0:heap/0 * (2:heap/1 * 1:heap/0)0/0)1/0 costs 53 of 3
1,3 1,3 1,3 | 0.1 = 1.0;2.2 = 900 | merge | (0:heap/0 ~ (2:heap/1 * 1:heap/0)0/0)1/0 costs 62 of 3
1,1000 | 0.0 > 995 | hash | 0:heap/1 costs 1008 of 333
1,1000,2,995,1000 | 0.0 > 995 | hash | 0:index/1 costs 61 of 333
1,9,1,0,1 | 0.0 = 5 | hash | 0:heap/1 costs 17 of 1
1,10,1,0,1 | 0.0 = 5 | hash | 0:index/1 costs 17 of 1
 | 1 = 1;2 < 1 | hash | one/2 costs 1 of 1
1,3 1,3 | 1 = 1;0.0 < 5;0.1 = 1.0;0.1 < 1.1 | hash | (0:heap/1 * 1:heap/0)1/2 costs 28 of 1
4000000000,4000000000 4000000000,4000000000 4000000000,4000000000 | 0.0 = 1.0 | hash | (0:heap/0 * (1:heap/0 * 2:heap/0)0/0)1/0 costs 1099511627776 of 1099511627776
4000000000,4000000000 4000000000,4000000000 4000000000,4000000000 | 0.0 < 1.0;2.0 != 1.0 | merge | (0:heap/0 * (1:heap/0 * 2:heap/0)0/1)0/1 costs 1099511627776 of 1099511627776
9,4000000000,3,0,4000000000 | -5 = 0.0 | merge | 0:heap/1 costs 4000000072 of 400000000
1,0 2,7 | 0.0 = 1.0 | hash | (0:heap/0 * 1:heap/0)1/0 costs 38 of 0
3,500,2,0,20 2,40 5,900,3,7,9 1,5 | 0.0 = 1.0;1.1 = 2.0;2.1 >= 3.0;3.1 = 4;2.2 = 2.3;7 < 0.2 | hash | ((3:heap/1 * (1:heap/0 * 2:index/1)1/0)0/1 * 0:index/1)1/0 costs 987 of 13
3,500,2,0,20 2,40 5,900,3,7,9 1,5 | 0.0 = 1.0;1.1 = 2.0;2.1 >= 3.0;3.1 = 4;2.2 = 2.3;7 < 0.2 | merge | (0:index/1 ~ (1:heap/0 ~ (3:heap/1 * 2:index/1)0/1)1/0)1/0 costs 3374 of 13
3,500 3,500 3,500 3,500 | 0.0 = 1.0;1.0 = 2.0;2.0 = 3.0;3.0 = 0.0 | merge | (0:heap/0 ~ (1:heap/0 ~ (2:heap/0 ~ 3:heap/0)1/0)1/0)2/0 costs 33097 of 1
2,100 9,900,2,10,40 30,3000 1,7 4,250,2,0,250 12,1100 | 0.0 = 1.0;1.1 = 2.0;2.1 = 3.0;3.1 < 4.0;4.1 = 5.0;5.1 = 0.1;1.0 > 30;2.2 = 3 | hash | (((((3:heap/0 * 2:heap/1)1/0 * 1:index/1)1/0 * 0:heap/0)1/0 * 5:heap/0)1/0 * 4:heap/0)1/1 costs 7254 of 1";

fn method(text: &str) -> Result<Method, Fail> {
    match text {
        "hash" => Ok(Method::Hash),
        "merge" => Ok(Method::Merge),
        _ => Err(Fail::from("no method")),
    }
}

fn line_planned(alloc: Global, line: &str) -> Result<(String, String), Fail> {
    let (stats, rest) = line.split_once(" | ").ok_or("no conjuncts")?;
    let (test, rest) = rest.split_once(" | ").ok_or("no method")?;
    let (name, wanted) = rest.split_once(" | ").ok_or("no plan")?;
    let sample = read_sample(alloc, stats, test)?;
    let found = planned(alloc, &sample, method(name)?)?;
    Ok((found, String::from_str(alloc, wanted)?))
}

#[test]
fn each_query_has_its_plan(rt: HostRuntime) -> Result<(), Fail> {
    for line in PLANS.lines() {
        let (found, wanted) = line_planned(rt.alloc(), line)?;
        assert_eq!(rt; found.as_str(), wanted.as_str(), "{line}");
    }
    Ok(())
}

// The bounds of the first column of the first variable.
fn bounded(alloc: Global, test: &str) -> Result<String, Fail> {
    let query = truth_query(alloc, test)?;
    let mut text = String::new(alloc);
    for bound in bounds_of(alloc, &query, 0, 0)?.items() {
        let Bound { op, value } = bound;
        text.push_str(format!(in alloc; "{op:?} {value:?}")?.as_str())?;
    }
    Ok(text)
}

const BOUNDS: &str = "0.0 > t | More Truth(true)
t >= 0.0 | AtMost Truth(true)
f = 0.0 | Equal Truth(false)
0.0 < f | Less Truth(false)
f < 0.0 | More Truth(false)
0.0 <= t | AtMost Truth(true)
t <= 0.0 | AtLeast Truth(true)
0.0 != t | 
0.1 = t | 
1.0 = t | 
0.0 = 0.1 | 
t = f | ";

#[test]
fn a_comparison_with_a_constant_is_a_bound(rt: HostRuntime) -> Result<(), Fail> {
    for line in BOUNDS.lines() {
        let (test, wanted) = line.split_once(" | ").unwrap_or((line, ""));
        assert_eq!(rt; bounded(rt.alloc(), test)?.as_str(), wanted, "{test}");
    }
    Ok(())
}
