ghost use Rattle.std.specs.Prelude.{◌≡◌, ◌<◌, ◌≤◌, IfSome};
ghost use Rattle.std.specs.List.{All};
ghost use Rattle.io_cpu_scheduler.specs.Limits.{IsLoad, IsMachine};
ghost use Rattle.io_cpu_scheduler.specs.Loads.{beats, better, extreme, is_lower, leader, lowest, first_best};

use crate::degree::class_of;
use crate::{Class, Load};
use rows::Machine;

// The ready load of a class that comes before all others of it.
pub(crate) fn extreme_load(ready: &[Load], class: Class, machine: &Machine) -> Option<Load>
    requires ready { All IsLoad ready.now }
    requires machine { IsMachine machine.now }
    ensures value { result ≡ extreme machine.now class ready.now }
    ensures fits { IfSome result IsLoad }
{
    leading_load(ready, class, machine)
}

// The ready load with the lowest number.
pub(crate) fn lowest_load(ready: &[Load]) -> Option<Load>
    requires ready { All IsLoad ready.now }
    ensures value { result ≡ lowest ready.now }
    ensures fits { IfSome result IsLoad }
{
    first_load(ready)
}

fn leading_load(ready: &[Load], class: Class, machine: &Machine) -> Option<Load>
    requires ready { All IsLoad ready.now }
    requires machine { IsMachine machine.now }
    ensures value { result ≡ leader machine.now class ready.now }
    ensures fits { IfSome result IsLoad }
{
    let mut best: Option<Load> = None;
    for load in ready {
        if class_of(load, machine) == class {
            best = better_in_class(best, load, class);
        }
    }
    best
}

fn first_load(ready: &[Load]) -> Option<Load>
    requires ready { All IsLoad ready.now }
    ensures value { result ≡ first_best is_lower ready.now }
    ensures fits { IfSome result IsLoad }
{
    let mut best: Option<Load> = None;
    for load in ready {
        best = lower(best, load);
    }
    best
}

// The best load of a class so far, or one more load of it.
fn better_in_class(best: Option<Load>, load: &Load, class: Class) -> Option<Load>
    requires { IsLoad load.now × IfSome best IsLoad }
    ensures value { result ≡ better (beats class) best load.now }
    ensures fits { IfSome result IsLoad }
{
    if let Some(found) = best {
        if !is_before(class, load, &found) {
            return Some(found);
        }
    }
    Some(*load)
}

// Whether one load of a class comes before another.
fn is_before(class: Class, a: &Load, b: &Load) -> bool
    requires { IsLoad a.now × IsLoad b.now }
    ensures { result ≡ beats class a.now b.now }
{
    let left = u128::from(a.pages) * u128::from(b.time);
    let right = u128::from(b.pages) * u128::from(a.time);
    let is_further = match class {
        Class::Io => left > right,
        Class::Cpu => left < right,
    };
    is_further || (left == right && a.fragment < b.fragment)
}

// The load of the lowest number so far, or one more load.
fn lower(best: Option<Load>, load: &Load) -> Option<Load>
    requires { IsLoad load.now × IfSome best IsLoad }
    ensures value { result ≡ better is_lower best load.now }
    ensures fits { IfSome result IsLoad }
{
    if let Some(found) = best {
        if load.fragment >= found.fragment {
            return Some(found);
        }
    }
    Some(*load)
}
