//! Prints scripts.

ghost use Rattle.std.specs.Prelude.{◌≡◌, ◌++◌, [], OnOk, IfOk, map};
ghost use Rattle.std.specs.Option.{option_map};
ghost use Rattle.postquel_tokens.specs.Forms.{wish_of, condition_of, sentence_of};
ghost use Rattle.postquel.specs.Print as spec;
ghost use Rattle.postquel.specs.Onto.{joined_onto, sentences_onto};
ghost use Rattle.postquel.specs.Program.{program_of};

use crate::Script;
use crate::expression_text::{push_dotted, push_form, push_number};
use postquel_tokens::{IntoForm, KeyForm, RangeForm, Statement, StepForm, TargetForm, TestForm};
use std::alloc::{AllocError, Global};

fn push_titled(out: &mut Vec<u8>, name: &[u8]) -> Result<(), AllocError>
    ensures { OnOk result (out.new.items ≡ out.old.items ++ (name.now ++ spec.equals_text)) }
{
    out.extend_from_slice(name)?;
    out.extend_from_slice(b" = ")?;
    Ok(())
}

fn push_target(out: &mut Vec<u8>, target: &TargetForm) -> Result<(), AllocError>
    ensures { OnOk result (out.new.items ≡ out.old.items ++ spec.wish_text (wish_of target.now)) }
{
    match target {
        TargetForm::Named { name, form } => {
            push_titled(out, name.text.items())?;
            push_form(out, form)
        }
        TargetForm::All { var } => {
            out.extend_from_slice(var.text.items())?;
            Ok(out.extend_from_slice(b".all")?)
        }
        TargetForm::Dotted { var, col } => push_dotted(out, var.text.items(), col.text.items()),
        TargetForm::Fold { name, fold, form } => {
            push_titled(out, name.text.items())?;
            out.extend_from_slice(fold.text.items())?;
            out.extend_from_slice(b"(")?;
            push_form(out, form)?;
            Ok(out.extend_from_slice(b")")?)
        }
    }
}

fn push_targets(out: &mut Vec<u8>, targets: &[TargetForm]) -> Result<(), AllocError>
    ensures { OnOk result (out.new.items ≡ joined_onto spec.wish_text [] out.old.items (map wish_of targets.now)) }
{
    let mut between: &[u8] = b"";
    for target in targets {
        out.extend_from_slice(between)?;
        push_target(out, target)?;
        between = b", ";
    }
    Ok(())
}

fn push_range(out: &mut Vec<u8>, range: &RangeForm) -> Result<(), AllocError>
    ensures { OnOk result (out.new.items ≡ out.old.items ++ spec.range_text range.now) }
{
    out.extend_from_slice(range.var.text.items())?;
    out.extend_from_slice(b" in ")?;
    Ok(out.extend_from_slice(range.relation.text.items())?)
}

fn push_range_list(out: &mut Vec<u8>, ranges: &[RangeForm]) -> Result<(), AllocError>
    ensures { OnOk result (out.new.items ≡ joined_onto spec.range_text [] out.old.items ranges.now) }
{
    let mut between: &[u8] = b"";
    for range in ranges {
        out.extend_from_slice(between)?;
        push_range(out, range)?;
        between = b", ";
    }
    Ok(())
}

fn push_key(out: &mut Vec<u8>, key: &KeyForm) -> Result<(), AllocError>
    ensures { OnOk result (out.new.items ≡ out.old.items ++ spec.key_text key.now) }
{
    out.extend_from_slice(key.target.text.items())?;
    if key.down {
        out.extend_from_slice(b" using >")?;
    }
    Ok(())
}

fn push_key_list(out: &mut Vec<u8>, keys: &[KeyForm]) -> Result<(), AllocError>
    ensures { OnOk result (out.new.items ≡ joined_onto spec.key_text [] out.old.items keys.now) }
{
    let mut between: &[u8] = b"";
    for key in keys {
        out.extend_from_slice(between)?;
        push_key(out, key)?;
        between = b", ";
    }
    Ok(())
}

fn push_step(out: &mut Vec<u8>, step: &StepForm) -> Result<(), AllocError>
    ensures { OnOk result (out.new.items ≡ out.old.items ++ spec.step_text step.now) }
{
    push_number(out, step.backends)?;
    out.extend_from_slice(b" after ")?;
    push_number(out, step.after)
}

fn push_step_list(out: &mut Vec<u8>, steps: &[StepForm]) -> Result<(), AllocError>
    ensures { OnOk result (out.new.items ≡ joined_onto spec.step_text [] out.old.items steps.now) }
{
    let mut between: &[u8] = b"";
    for step in steps {
        out.extend_from_slice(between)?;
        push_step(out, step)?;
        between = b", ";
    }
    Ok(())
}

fn push_ranges(out: &mut Vec<u8>, ranges: &[RangeForm]) -> Result<(), AllocError>
    ensures { OnOk result (out.new.items ≡ out.old.items ++ spec.ranges_text ranges.now) }
{
    match ranges {
        [] => Ok(()),
        [_, ..] => {
            out.extend_from_slice(b" from ")?;
            push_range_list(out, ranges)
        }
    }
}

fn push_test(out: &mut Vec<u8>, test: &Option<TestForm>) -> Result<(), AllocError>
    ensures { OnOk result (out.new.items ≡ out.old.items ++ spec.test_text (option_map condition_of test.now)) }
{
    match test {
        None => Ok(()),
        Some(test) => {
            out.extend_from_slice(b" where ")?;
            push_form(out, &test.form)
        }
    }
}

fn push_keys(out: &mut Vec<u8>, keys: &[KeyForm]) -> Result<(), AllocError>
    ensures { OnOk result (out.new.items ≡ out.old.items ++ spec.keys_text keys.now) }
{
    match keys {
        [] => Ok(()),
        [_, ..] => {
            out.extend_from_slice(b" sort by ")?;
            push_key_list(out, keys)
        }
    }
}

fn push_unique(out: &mut Vec<u8>, unique: bool) -> Result<(), AllocError>
    ensures { OnOk result (out.new.items ≡ out.old.items ++ spec.unique_text unique) }
{
    if unique {
        out.extend_from_slice(b"unique ")?;
    }
    Ok(())
}

fn push_kept(out: &mut Vec<u8>, into: &Option<IntoForm>) -> Result<(), AllocError>
    ensures { OnOk result (out.new.items ≡ out.old.items ++ spec.kept_text into.now) }
{
    match into {
        None => Ok(()),
        Some(into) => {
            out.extend_from_slice(b"into ")?;
            out.extend_from_slice(into.name.text.items())?;
            Ok(out.extend_from_slice(b" ")?)
        }
    }
}

fn push_target_list(out: &mut Vec<u8>, targets: &[TargetForm]) -> Result<(), AllocError>
    ensures { OnOk result (out.new.items ≡ out.old.items ++ spec.targets_text (map wish_of targets.now)) }
{
    out.extend_from_slice(b"(")?;
    push_targets(out, targets)?;
    Ok(out.extend_from_slice(b")")?)
}

fn push_head(out: &mut Vec<u8>, statement: &Statement) -> Result<(), AllocError>
    ensures { OnOk result (out.new.items ≡ out.old.items ++ spec.head_text (sentence_of statement.now)) }
{
    out.extend_from_slice(b"retrieve ")?;
    push_unique(out, statement.unique)?;
    push_kept(out, &statement.into)?;
    push_target_list(out, statement.targets.items())
}

fn push_tail(out: &mut Vec<u8>, statement: &Statement) -> Result<(), AllocError>
    ensures { OnOk result (out.new.items ≡ out.old.items ++ spec.tail_text (sentence_of statement.now)) }
{
    push_ranges(out, statement.ranges.items())?;
    push_test(out, &statement.test)?;
    push_keys(out, statement.keys.items())?;
    Ok(out.extend_from_slice(b" \\g\n")?)
}

fn push_statement(out: &mut Vec<u8>, statement: &Statement) -> Result<(), AllocError>
    ensures { OnOk result (out.new.items ≡ out.old.items ++ spec.sentence_text (sentence_of statement.now)) }
{
    push_head(out, statement)?;
    push_tail(out, statement)
}

fn push_statements(out: &mut Vec<u8>, statements: &[Statement]) -> Result<(), AllocError>
    ensures { OnOk result (out.new.items ≡ sentences_onto out.old.items (map sentence_of statements.now)) }
{
    for statement in statements {
        push_statement(out, statement)?;
    }
    Ok(())
}

fn push_machine(out: &mut Vec<u8>, steps: &[StepForm]) -> Result<(), AllocError>
    ensures { OnOk result (out.new.items ≡ out.old.items ++ spec.machine_text steps.now) }
{
    match steps {
        [] => Ok(()),
        [_, ..] => {
            out.extend_from_slice(b"machine ")?;
            push_step_list(out, steps)?;
            Ok(out.extend_from_slice(b" \\g\n")?)
        }
    }
}

/// The text of a script: the machine line, where there is one, and a line for each statement.
#[tactic(auto, using(crate::proofs::Texts::sentences_are))]
pub fn print(alloc: Global, script: &Script) -> Result<Vec<u8>, AllocError>
    ensures { IfOk result (λ text. text.items ≡ spec.script_text (program_of script.now)) }
{
    let mut out = Vec::new(alloc);
    push_machine(&mut out, script.machine().items())?;
    push_statements(&mut out, script.statements())?;
    Ok(out)
}
