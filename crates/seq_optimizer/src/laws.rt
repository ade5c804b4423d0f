//! What holds of the plans of a query.
ghost use Rattle.std.specs.Prelude.{◌≡◌, ℕ, List};
ghost use Rattle.rel_meaning.specs.Expression.{Question};
ghost use Rattle.plan_tree.specs.declared.tree.Method.{Method};
ghost use Rattle.plan_tree.specs.Trees.{Shape};
ghost use Rattle.seq_optimizer.specs.declared.stats.VarStats.{VarStats};
ghost use Rattle.seq_optimizer.specs.Best.{IsBestTree};

/// A query has one plan under some stats and a method: the chosen tree is one, and so is its cost.
pub fn one_plan()
    ensures tree { (q : Question) (stats : List VarStats) (m : Method) (t u : Shape)
        (price other : ℕ) → IsBestTree q stats m t price → IsBestTree q stats m u other → t ≡ u }
    ensures price { (q : Question) (stats : List VarStats) (m : Method) (t u : Shape)
        (price other : ℕ) → IsBestTree q stats m t price → IsBestTree q stats m u other →
        price ≡ other }
{}
