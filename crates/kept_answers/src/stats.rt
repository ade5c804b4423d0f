ghost use Rattle.std.specs.Prelude.{◌≡◌};
ghost use Rattle.rel_meaning.specs.Expression.{question_of};
ghost use Rattle.plan_tree.specs.Conjuncts.{conjuncts};
ghost use Rattle.plan_tree.specs.Trees.{is_variable};
ghost use Rattle.seq_optimizer.specs.Costs.{CanPlan};
ghost use Rattle.seq_optimizer.specs.Estimates.{set_size, variable_sizes};

use rel_meaning::Query;
use seq_optimizer::{VarStats, VarStatsList, estimate};

/// What is known of the relation that a query makes: no page, no index, and as many rows as all
/// variables of the query together are taken to have, 1 for a query without variables. It takes
/// no memory.
pub fn kept_stats(query: &Query, stats: &VarStatsList) -> VarStats
    requires { CanPlan (question_of query.now) stats.now }
    ensures pages { result.pages ≡ 0 }
    ensures rows { let cs = conjuncts (question_of query.now).test in
        result.rows ≡ set_size cs (variable_sizes cs stats.now) (is_variable (question_of query.now)) }
    ensures interval { result.interval ≡ None }
    ensures height { result.height ≡ 0 }
{
    VarStats {
        pages: 0,
        rows: estimate(query, stats),
        interval: None,
        height: 0,
    }
}
