//! The calls of one worker that has a control for itself.
ghost use Rattle.std.specs.Prelude.{◌≡◌, ◌<◌, ◌≤◌, true, length, IfOk, OnErr};
ghost use Rattle.page_partition.specs.Scan.{out_of};
ghost use Rattle.master.specs.Content.{AreOuts, IsValue};
ghost use Rattle.master.specs.Ledger.{Fits, scans};
ghost use Rattle.master.specs.Release.{AreReleased};
ghost use Rattle.engine.specs.Lone.{FindsAlone};
ghost use Rattle.engine.specs.Remaining.{left_to_do};

use adjust_protocol::{ArcList, Settled};
use hash_join::{Built, Inputs, Parts};
use master::{Control, Next, RunName};
use rows::Rows;
use std::alloc::{AllocError, Global};
use std::sync::Arc;

/// What there is to do.
#[derive(Drop)]
pub enum Todo {
    Job {
        fragment: u32,
        role: u32,
        inputs: Inputs,
    },
    Collect {
        fragment: u32,
        parts: Parts,
    },
    Stop,
}

/// What there is to do for one worker alone, where all is released: there is always something, until all fragments are
/// finished. An error is want of memory, and the control is as it was.
pub fn next_alone<K: RunName>(
    alloc: Global,
    control: &mut Control<K>,
    backend: u32,
) -> Result<Todo, AllocError>
    requires { AreReleased control.old.slots }
    ensures ok { IfOk result (λ todo. FindsAlone K.meaning control.old control.new todo) }
    ensures err { OnErr result (control.new ≡ control.old) }
    ensures left { left_to_do K.meaning control.new ≤ left_to_do K.meaning control.old }
    ensures fits { Fits K.meaning control.new }
{
    control.is_calm();
    control.goes_on();
    match control.next_job(alloc, backend)? {
        Next::Job {
            fragment,
            role,
            inputs,
        } => Ok(Todo::Job {
            fragment,
            role,
            inputs,
        }),
        Next::Collect { fragment, parts } => Ok(Todo::Collect { fragment, parts }),
        Next::Stop => Ok(Todo::Stop),
        Next::Rest => unreachable!(),
    }
}

/// Settles outputs, of which there are some: less is left to be done.
pub fn settle_alone<K: RunName>(
    control: &mut Control<K>,
    fragment: u32,
    role: u32,
    outputs: ArcList<Rows>,
) -> Settled
    requires fragment { fragment < length control.old.slots }
    requires role { role < 64 }
    requires some { 0 < length outputs }
    requires count { length outputs ≤ length (out_of (scans control.old.slots fragment).scan.marks role) }
    requires outs { AreOuts K.meaning fragment (out_of (scans control.old.slots fragment).scan.marks role) outputs }
    ensures left { left_to_do K.meaning control.new < left_to_do K.meaning control.old }
    ensures fits { Fits K.meaning control.new }
{
    control.settle(fragment, role, outputs)
}

/// Finishes a fragment that is being collected: less is left to be done.
pub fn finish_fragment<K: RunName>(control: &mut Control<K>, fragment: u32, built: Arc<Built>)
    requires fragment { fragment < length control.old.slots }
    requires collecting { (scans control.old.slots fragment).collecting ≡ true }
    requires value { IsValue K.meaning fragment built.value }
    ensures left { left_to_do K.meaning control.new < left_to_do K.meaning control.old }
    ensures fits { Fits K.meaning control.new }
{
    control.finish(fragment, built);
}
