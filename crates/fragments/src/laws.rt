//! What the fragments of a script are and give, where its answers are folded.
ghost use Rattle.std.specs.Prelude.{List, Option, map};
ghost use Rattle.aggregate_op.specs.declared.fold.FoldPlan.{FoldPlan};
ghost use Rattle.plan_tree.specs.Views.{Planned};
ghost use Rattle.seq_optimizer.specs.declared.stats.VarStats.{VarStats};
ghost use Rattle.fragments.specs.Folds.{MayBeFolded, folded};
ghost use Rattle.fragments.specs.FoldedScripts.{AreFolds, MeanFolded};
ghost use Rattle.fragments.specs.Homes.{Known};
ghost use Rattle.fragments.specs.Premises.{MayCut, catalog_columns};
ghost use Rattle.fragments.specs.Scripts.{cut_plans};

/// Folds of the queries of a script fit the fragments that its plans are cut into. With them the
/// values of the statements' last fragments are the answers of the queries, or the partials of these
/// answers where the statement has a fold.
#[tactic(auto, using(crate::proofs::FoldedScript::script_fit, crate::proofs::FoldedScript::script_means))]
pub fn fold_laws()
    ensures fit { (known : Known) (table : List (List VarStats)) (ps : List Planned)
        (folds : List (Option FoldPlan)) → MayCut known table ps →
        AreFolds (catalog_columns known) known.kept folds (map (λ (p : Planned). p.query) ps) →
        MayBeFolded folds (cut_plans known table ps) }
    ensures means { (known : Known) (table : List (List VarStats)) (ps : List Planned)
        (folds : List (Option FoldPlan)) → MayCut known table ps →
        AreFolds (catalog_columns known) known.kept folds (map (λ (p : Planned). p.query) ps) →
        MeanFolded known table ps folds (map (folded folds) (cut_plans known table ps)) }
{}
