//! The steps of a machine line.

ghost use Rattle.std.specs.Prelude.{◌≡◌, ◌≤◌, ◌+◌, nat_abs, [], map, IfOk, IfSome};
ghost use Rattle.postquel.specs.Program.{program_of};
ghost use Rattle.name_check.specs.Checked.{Gives};
ghost use Rattle.name_check.specs.Machine as spec;
ghost use Rattle.name_check.specs.MachineSteps as steps;
ghost use Rattle.name_check.specs.Sentences.{or_fault};

use lists::Sequence;
use postquel::Script;
use postquel_tokens::{StepForm, TextErr, What};
use rows::{Step, StepList};
use std::alloc::Global;

// A number of the script, where it is from `low` to `high`.
fn within(number: i64, low: u32, high: u32) -> Option<u32>
    ensures value { result ≡ steps.within number low high }
{
    if number >= i64::from(low) && number <= i64::from(high) {
        Some(number as u32)
    } else {
        None
    }
}

// A step behind one that ends with the second number `last`.
fn one_step(last: u32, form: &StepForm) -> Result<Step, TextErr>
    requires { last ≤ 1000 }
    ensures value { result ≡ or_fault (spec.step_of form.now) (spec.step_fault last form.now) }
    ensures bound { IfOk result (λ step. step.after ≤ 1000) }
{
    let Some(backends) = within(form.backends, 1, 64) else {
        return Err(TextErr::at(form.backends_spot, What::BadDegree));
    };
    let Some(after) = within(form.after, last + 1, 1000) else {
        return Err(TextErr::at(form.after_spot, What::BadStep));
    };
    Ok(Step { after, backends })
}

fn steps_of(alloc: Global, machine: &[StepForm]) -> Result<Vec<Step>, TextErr>
    ensures { Gives (λ v. v.items) (steps.steps [] 0 machine.now) result }
{
    let mut steps = Vec::new(alloc);
    let mut last = 0;
    for form in machine {
        let found = one_step(last, form)?;
        last = found.after;
        steps.push(found)?;
    }
    Ok(steps)
}

/// The steps of a script's machine line, none where it has none, or the line's first fault. Steps are
/// checked left to right, the first number before the second: `BadDegree` stands at a first number
/// outside 1 to 64, `BadStep` at a second number that is 0, above 1,000, or not greater than that of
/// the step before. Else an `Err` is want of memory.
#[tactic(auto, using(crate::proofs::MachineLine::steps_are))]
pub fn machine_of(alloc: Global, script: &Script) -> Result<StepList, TextErr>
    ensures { Gives (λ steps. steps) (spec.machine_steps (program_of script.now).steps) result }
{
    Ok(Sequence::from_vec(steps_of(alloc, script.machine().items())?))
}
