ghost use Rattle.std.specs.Prelude.{◌≡◌, ◌≤◌, IfSome};
ghost use Rattle.std.specs.List.{All};
ghost use Rattle.io_cpu_scheduler.specs.Limits.{IsMachine, IsStep};
ghost use Rattle.io_cpu_scheduler.specs.Steps.{machine_at, step_at};

use rows::{Machine, Step, StepList};

/// The machine after so many finishes: its backends are those of the last step that is due, where
/// there is one. A step is due once as many fragments have finished as its `after` says.
pub fn machine_after(machine: &Machine, steps: &StepList, finishes: u32) -> Machine
    ensures value { result ≡ machine_at machine.now steps.now finishes }
    ensures limits { IsMachine machine.now → All IsStep steps.now → IsMachine result }
{
    match last_due(steps.items(), finishes) {
        Some(step) => Machine {
            backends: step.backends,
            drives: machine.drives,
            batch: machine.batch,
        },
        None => *machine,
    }
}

fn last_due(steps: &[Step], finishes: u32) -> Option<Step>
    ensures value { result ≡ step_at steps.now finishes }
    ensures limits { All IsStep steps.now → IfSome result IsStep }
{
    let mut last: Option<Step> = None;
    for step in steps {
        if step.after <= finishes {
            last = Some(*step);
        }
    }
    last
}
