ghost use Rattle.std.specs.Prelude.{◌≡◌, ◌<◌, ◌≤◌, ◌+◌, [], ◌∷◌, length, IsSome};
ghost use Rattle.std.specs.List.{All};
ghost use Rattle.io_cpu_scheduler.specs.Limits.{IsLoad, IsMachine};
ghost use Rattle.io_cpu_scheduler.specs.Loads.{lowest};
ghost use Rattle.io_cpu_scheduler.specs.Sensible.{HasPart, IsSensible};
ghost use Rattle.io_cpu_scheduler.specs.Decisions.{alone, decision, lone, paired};

use crate::degree::{balance, class_of, solo};
use crate::extreme::{extreme_load, lowest_load};
use crate::{Class, Decision, Load, LoadList, Part};
use rows::Machine;

/// What is to run where at most one load runs and the others are ready. The first case that holds
/// decides:
///
/// 1. Nothing runs and nothing is ready: nothing is to run.
/// 2. Nothing runs, there are two backends or more, and both classes have a ready load: the extreme
///    load of each class, which share the backends at their balance.
/// 3. Nothing runs: the ready load of the lowest number, alone.
/// 4. One runs, there are two backends or more, and the other class has a ready load: the one that
///    runs and the extreme load of that class, which share the backends at their balance.
/// 5. One runs: it, alone.
///
/// The extreme load is in the class `Io` the one with the most pages for its time, and in the class
/// `Cpu` the one with the fewest, of those that tie the one of the lowest number.
pub fn decide(running: &LoadList, ready: &LoadList, machine: &Machine) -> Decision
    requires one { length running.now ≤ 1 }
    requires loads { All IsLoad running.now × All IsLoad ready.now }
    requires machine { IsMachine machine.now }
    ensures value { result ≡ decision machine.now running.now ready.now }

    // Each part is of one of these loads, and two are of two classes and share all backends.
    ensures sensible { IsSensible machine.now running.now ready.now result }

    // What runs goes on.
    ensures goes_on { All (λ load. HasPart result load.fragment) running.now }

    // Where one runs or is ready, something is to run.
    ensures some { 0 < length running.now + length ready.now → IsSome result.first }
{
    decide_loads(running.items(), ready.items(), machine)
}

/// As `decide`, of loads that stand in slices.
pub fn decide_loads(running: &[Load], ready: &[Load], machine: &Machine) -> Decision
    requires one { length running.now ≤ 1 }
    requires loads { All IsLoad running.now × All IsLoad ready.now }
    requires machine { IsMachine machine.now }
    ensures value { result ≡ decision machine.now running.now ready.now }
    ensures sensible { IsSensible machine.now running.now ready.now result }
    ensures goes_on { All (λ load. HasPart result load.fragment) running.now }
    ensures some { 0 < length running.now + length ready.now → IsSome result.first }
{
    decide_among(running, ready, machine)
}

fn decide_among(running: &[Load], ready: &[Load], machine: &Machine) -> Decision
    requires one { length running.now ≤ 1 }
    requires loads { All IsLoad running.now × All IsLoad ready.now }
    requires machine { IsMachine machine.now }
    ensures { result ≡ decision machine.now running.now ready.now }
{
    match running.first() {
        None => fresh(ready, machine),
        Some(load) => beside(load, ready, machine),
    }
}

// The decision where nothing runs.
fn fresh(ready: &[Load], machine: &Machine) -> Decision
    requires ready { All IsLoad ready.now }
    requires machine { IsMachine machine.now }
    ensures { result ≡ decision machine.now [] ready.now }
{
    let io = extreme_load(ready, Class::Io, machine);
    let cpu = extreme_load(ready, Class::Cpu, machine);
    match (io, cpu) {
        (Some(io), Some(cpu)) if machine.backends >= 2 => pair(&io, &cpu, machine),
        _ => first_alone(ready, machine),
    }
}

// The decision beside a running load.
fn beside(running: &Load, ready: &[Load], machine: &Machine) -> Decision
    requires running { IsLoad running.now }
    requires ready { All IsLoad ready.now }
    requires machine { IsMachine machine.now }
    ensures { result ≡ decision machine.now (running.now ∷ []) ready.now }
{
    let other = class_of(running, machine).other();
    match extreme_load(ready, other, machine) {
        Some(load) if machine.backends >= 2 => match other {
            Class::Io => pair(&load, running, machine),
            Class::Cpu => pair(running, &load, machine),
        },
        _ => one_alone(running, machine),
    }
}

// The load of the lowest number, alone, where there is one.
fn first_alone(ready: &[Load], machine: &Machine) -> Decision
    requires ready { All IsLoad ready.now }
    requires machine { IsMachine machine.now }
    ensures { result ≡ lone machine.now (lowest ready.now) }
{
    match lowest_load(ready) {
        Some(load) => one_alone(&load, machine),
        None => Decision {
            first: None,
            second: None,
        },
    }
}

fn one_alone(load: &Load, machine: &Machine) -> Decision
    requires { IsLoad load.now × IsMachine machine.now }
    ensures { result ≡ alone machine.now load.now }
{
    Decision {
        first: Some(Part {
            fragment: load.fragment,
            degree: solo(load, machine),
        }),
        second: None,
    }
}

// A load of each class, with the backends shared at their balance.
fn pair(io: &Load, cpu: &Load, machine: &Machine) -> Decision
    requires loads { IsLoad io.now × IsLoad cpu.now }
    requires machine { IsMachine machine.now × (2 ≤ machine.now.backends) }
    ensures { result ≡ paired machine.now io.now cpu.now }
{
    let degree = balance(io, cpu, machine);
    let io_part = Part {
        fragment: io.fragment,
        degree,
    };
    let cpu_part = Part {
        fragment: cpu.fragment,
        degree: machine.backends - degree,
    };
    if cpu_part.fragment < io_part.fragment {
        Decision {
            first: Some(cpu_part),
            second: Some(io_part),
        }
    } else {
        Decision {
            first: Some(io_part),
            second: Some(cpu_part),
        }
    }
}
