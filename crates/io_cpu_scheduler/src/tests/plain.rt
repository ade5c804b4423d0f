// The definitions, computed in the plainest way, for small numbers.
use crate::{Class, Decision, Load, Part};
use rows::Machine;

fn asked(load: &Load, degree: u32) -> u64 {
    load.pages.wrapping_mul(16).wrapping_mul(u64::from(degree))
}

fn served(load: &Load, machine: &Machine) -> u64 {
    load.time.wrapping_mul(u64::from(machine.drives))
}

pub fn plain_class(load: &Load, machine: &Machine) -> Class {
    if asked(load, machine.backends) > served(load, machine) {
        Class::Io
    } else {
        Class::Cpu
    }
}

// The most backends, up to all, that ask no more than the drives serve, and at least 1.
pub fn plain_solo(load: &Load, machine: &Machine) -> u32 {
    let mut most = 1;
    for degree in 2..=machine.backends {
        if asked(load, degree) <= served(load, machine) {
            most = degree;
        }
    }
    most
}

fn distance(io: &Load, cpu: &Load, machine: &Machine, degree: u32) -> u64 {
    let others = machine.backends.wrapping_sub(degree);
    let by_io = asked(io, degree).wrapping_mul(cpu.time);
    let by_cpu = asked(cpu, others).wrapping_mul(io.time);
    let full = served(io, machine).wrapping_mul(cpu.time);
    by_io.wrapping_add(by_cpu).abs_diff(full)
}

fn is_least(io: &Load, cpu: &Load, machine: &Machine, degree: u32) -> bool {
    for other in 1..machine.backends {
        if distance(io, cpu, machine, other) < distance(io, cpu, machine, degree) {
            return false;
        }
    }
    true
}

pub fn plain_balance(io: &Load, cpu: &Load, machine: &Machine) -> u32 {
    for degree in 1..machine.backends {
        if is_least(io, cpu, machine, degree) {
            return degree;
        }
    }
    0
}

// Pages for a time of 72000, which each time of the tests divides.
fn rate(load: &Load) -> u64 {
    let pages = load.pages.wrapping_mul(72000);
    pages.checked_div(load.time).unwrap_or(0)
}

fn comes_first(class: Class, a: &Load, b: &Load) -> bool {
    if rate(a) == rate(b) {
        return a.fragment < b.fragment;
    }
    match class {
        Class::Io => rate(a) > rate(b),
        Class::Cpu => rate(a) < rate(b),
    }
}

fn is_extreme(load: &Load, loads: &[Load], class: Class, machine: &Machine) -> bool {
    for other in loads {
        if plain_class(other, machine) == class && comes_first(class, other, load) {
            return false;
        }
    }
    true
}

fn plain_extreme(loads: &[Load], class: Class, machine: &Machine) -> Option<Load> {
    for load in loads {
        if plain_class(load, machine) == class && is_extreme(load, loads, class, machine) {
            return Some(*load);
        }
    }
    None
}

fn numbered(loads: &[Load], number: u32) -> Option<Load> {
    for load in loads {
        if load.fragment == number {
            return Some(*load);
        }
    }
    None
}

fn plain_lowest(loads: &[Load]) -> Option<Load> {
    for number in 0..5u32 {
        if let Some(load) = numbered(loads, number) {
            return Some(load);
        }
    }
    None
}

fn plain_alone(load: Option<Load>, machine: &Machine) -> Decision {
    let first = match load {
        Some(load) => Some(Part {
            fragment: load.fragment,
            degree: plain_solo(&load, machine),
        }),
        None => None,
    };
    Decision {
        first,
        second: None,
    }
}

fn plain_pair(io: &Load, cpu: &Load, machine: &Machine) -> Decision {
    let degree = plain_balance(io, cpu, machine);
    let io_part = Some(Part {
        fragment: io.fragment,
        degree,
    });
    let cpu_part = Some(Part {
        fragment: cpu.fragment,
        degree: machine.backends.wrapping_sub(degree),
    });
    let (first, second) = if io.fragment < cpu.fragment {
        (io_part, cpu_part)
    } else {
        (cpu_part, io_part)
    };
    Decision { first, second }
}

pub fn plain_decision(running: Option<&Load>, ready: &[Load], machine: &Machine) -> Decision {
    let mut io = plain_extreme(ready, Class::Io, machine);
    let mut cpu = plain_extreme(ready, Class::Cpu, machine);
    if let Some(load) = running {
        match plain_class(load, machine) {
            Class::Io => io = Some(*load),
            Class::Cpu => cpu = Some(*load),
        }
    }
    match (io, cpu) {
        (Some(io), Some(cpu)) if machine.backends > 1 => plain_pair(&io, &cpu, machine),
        _ => plain_alone(running.copied().or(plain_lowest(ready)), machine),
    }
}
