ghost use Rattle.std.specs.Prelude.{◌≡◌, ◌<◌, ◌≤◌, ◌+◌, ◌-◌, ◌*◌, ◌^◌};
ghost use Rattle.io_cpu_scheduler.specs.Limits.{IsLoad, IsMachine};
ghost use Rattle.io_cpu_scheduler.specs.Degrees.{IsBalance, balance_of, class_at, gap, solo_of};

use crate::{Class, Load};
use rows::Machine;

/// `Io` exactly where 16 times the pages times the backends is more than the drives times the time.
pub fn class_of(load: &Load, machine: &Machine) -> Class
    requires load { IsLoad load.now }
    requires machine { IsMachine machine.now }
    ensures { result ≡ class_at machine.now load.now }
{
    let asked = 16 * load.pages * u64::from(machine.backends);
    let served = u64::from(machine.drives) * load.time;
    if asked > served {
        Class::Io
    } else {
        Class::Cpu
    }
}

/// The backends of a load that runs alone: all of them, or as many as the drives serve, at least 1.
pub fn solo(load: &Load, machine: &Machine) -> u32
    requires load { IsLoad load.now }
    requires machine { IsMachine machine.now }
    ensures { result ≡ solo_of machine.now load.now }
{
    match class_of(load, machine) {
        Class::Cpu => machine.backends,
        Class::Io => {
            let served = u64::from(machine.drives) * load.time / (16 * load.pages);
            served.min(u64::from(machine.backends)).max(1) as u32
        }
    }
}

/// The backends of the load `io` where it runs beside the load `cpu`, which has the others: the
/// number from 1 to all but one that brings the drives closest to full use, the smaller on a tie.
pub fn balance(io: &Load, cpu: &Load, machine: &Machine) -> u32
    requires loads { IsLoad io.now × IsLoad cpu.now }
    requires machine { IsMachine machine.now × (2 ≤ machine.now.backends) }
    ensures least { IsBalance machine.now io.now cpu.now result }
    ensures value { result ≡ balance_of machine.now io.now cpu.now }
{
    least_gap(io, cpu, machine)
}

fn least_gap(io: &Load, cpu: &Load, machine: &Machine) -> u32
    requires loads { IsLoad io.now × IsLoad cpu.now }
    requires machine { IsMachine machine.now × (2 ≤ machine.now.backends) }
    ensures { IsBalance machine.now io.now cpu.now result }
{
    let mut best = 1;
    let mut least = gap_at(io, cpu, machine, 1);
    for degree in 2..machine.backends {
        let found = gap_at(io, cpu, machine, degree);
        if found < least {
            least = found;
            best = degree;
        }
    }
    best
}

// How far the drives are from full use where the load `io` has so many backends.
#[tactic(auto, unfolding(crate::specs::Degrees::gap))]
fn gap_at(io: &Load, cpu: &Load, machine: &Machine, degree: u32) -> u128
    requires loads { IsLoad io.now × IsLoad cpu.now }
    requires machine { IsMachine machine.now × (degree ≤ machine.now.backends) }
    ensures { result ≡ gap machine.now io.now cpu.now degree }
{
    let others = machine.backends - degree;
    let asked = 16
        * (u128::from(io.pages) * u128::from(degree) * u128::from(cpu.time)
            + u128::from(cpu.pages) * u128::from(others) * u128::from(io.time));
    let served = u128::from(machine.drives) * u128::from(io.time) * u128::from(cpu.time);
    asked.abs_diff(served)
}
