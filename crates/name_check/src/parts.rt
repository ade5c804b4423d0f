//! What a script has somewhere.

ghost use Rattle.std.specs.Prelude.{◌≡◌, is_some};
ghost use Rattle.std.specs.List.{list_any};
ghost use Rattle.postquel.specs.Program.{program_of};
ghost use Rattle.postquel_tokens.specs.Forms.{sentence_of};
ghost use Rattle.name_check.specs.Numbers.{ReadNumbers};
ghost use Rattle.name_check.specs.Sentences as spec;

use crate::statement::folds;
use postquel::Script;

/// Whether a statement of the script has a fold among its targets.
#[tactic(auto, using(crate::proofs::Any::any_map))]
pub fn has_fold(script: &Script) -> bool
    ensures { result ≡ list_any spec.has_fold (program_of script.now).sentences }
{
    for place in 0..script.len() {
        if folds(script.get(place)) {
            return true;
        }
    }
    false
}

/// Whether a statement of the script keeps its answer as a relation.
#[tactic(auto, using(crate::proofs::Any::any_map))]
pub fn has_into(script: &Script) -> bool
    ensures { result ≡ list_any spec.is_kept (program_of script.now).sentences }
{
    for place in 0..script.len() {
        if script.get(place).into.is_some() {
            return true;
        }
    }
    false
}

/// A law: the numbers of a script that was read from a text are from 0 to 2^63 - 1, which is what
/// `resolve` asks of a script. It does nothing when it runs.
pub fn numbers_fit()
    ensures { ReadNumbers }
{}
