ghost use Rattle.std.specs.Prelude.{◌≡◌, ◌<◌, IfOk, IfSome, length};
ghost use Rattle.std.specs.List.{All};
ghost use Rattle.io_cpu_scheduler.specs.Limits.{IsLoad, IsMachine};

mod plain;

use super::*;
use plain::{plain_balance, plain_class, plain_decision, plain_solo};
use rows::{Machine, Step, StepList};
use std::alloc::Global;
use std::test::*;

fn part(fragment: u32, degree: u32) -> Option<Part> {
    Some(Part { fragment, degree })
}

// The loads of the tests. 1 and 2 read as many pages for their time.
fn load(place: u32) -> Load
    ensures { IsLoad result }
{
    let (pages, time) = match place {
        0 => (100, 900),
        1 => (20, 160),
        2 => (10, 80),
        3 => (10, 2000),
        _ => (0, 1),
    };
    Load {
        fragment: place,
        pages,
        time,
    }
}

#[test]
fn worked_loads_get_their_classes_degrees_and_decisions(rt: HostRuntime) -> Result<(), Fail> {
    let eight = Machine {
        backends: 8,
        drives: 4,
        batch: 8,
    };
    let io = Load {
        fragment: 0,
        pages: 100,
        time: 900,
    };
    let cpu = Load {
        fragment: 1,
        pages: 10,
        time: 2000,
    };
    assert_eq!(rt;
        (class_of(&io, &eight), class_of(&cpu, &eight)),
        (Class::Io, Class::Cpu)
    );
    assert_eq!(rt; (solo(&io, &eight), solo(&cpu, &eight)), (2, 8));
    assert_eq!(rt; balance(&io, &cpu, &eight), 2);
    let none = LoadList::new(rt.alloc());
    let both = LoadList::from_vec(vec![in rt.alloc(); io, cpu]?);
    let second = LoadList::from_vec(vec![in rt.alloc(); cpu]?);
    let first = decide(&none, &both, &eight);
    assert_eq!(rt; (first.first, first.second), (part(0, 2), part(1, 6)));
    let next = decide(&second, &none, &eight);
    assert_eq!(rt; (next.first, next.second), (part(1, 8), None));
    let one = Machine {
        backends: 1,
        drives: 1,
        batch: 8,
    };
    assert_eq!(rt;
        (class_of(&io, &one), class_of(&cpu, &one)),
        (Class::Io, Class::Cpu)
    );
    let first = decide(&none, &both, &one);
    assert_eq!(rt; (first.first, first.second), (part(0, 1), None));
    let next = decide(&none, &second, &one);
    assert_eq!(rt; (next.first, next.second), (part(1, 1), None));
    Ok(())
}

#[test]
fn a_tie_goes_to_the_smaller_balance(rt: HostRuntime) -> Result<(), Fail> {
    let three = Machine {
        backends: 3,
        drives: 3,
        batch: 8,
    };
    let io = Load {
        fragment: 0,
        pages: 10,
        time: 80,
    };
    let cpu = Load {
        fragment: 1,
        pages: 0,
        time: 1,
    };
    assert_eq!(rt;
        (class_of(&io, &three), class_of(&cpu, &three)),
        (Class::Io, Class::Cpu)
    );
    assert_eq!(rt; (solo(&io, &three), solo(&cpu, &three)), (1, 3));
    assert_eq!(rt; balance(&io, &cpu, &three), 1);
    let none = LoadList::new(rt.alloc());
    let both = LoadList::from_vec(vec![in rt.alloc(); io, cpu]?);
    let first = decide(&none, &both, &three);
    assert_eq!(rt; (first.first, first.second), (part(0, 1), part(1, 2)));
    Ok(())
}

// The loads whose bits are set, the highest number first.
fn chosen(alloc: Global, bits: u32) -> Result<LoadList, Load>
    ensures { IfOk result (λ loads. All IsLoad loads) }
{
    let mut loads = LoadList::new(alloc);
    for place in 0..5u32 {
        if bits >> (4 - place) & 1 == 1 {
            loads.push(load(4 - place))?;
        }
    }
    Ok(loads)
}

// The load of this number where it isn't among the ready ones, and none for a further number.
fn running(alloc: Global, bits: u32, place: u32) -> Result<LoadList, Load>
    requires { place < 6 }
    ensures { IfOk result (λ loads. All IsLoad loads × (length loads < 2)) }
{
    let mut loads = LoadList::new(alloc);
    if place < 5 && bits >> place & 1 == 0 {
        loads.push(load(place))?;
    }
    Ok(loads)
}

// Whether all decisions among the loads are those of the definition.
fn decides_as_defined(alloc: Global, machine: &Machine) -> Result<bool, Load>
    requires { IsMachine machine.now }
{
    for bits in 0..32u32 {
        let ready = chosen(alloc, bits)?;
        for place in 0..6u32 {
            let running = running(alloc, bits, place)?;
            let plain = plain_decision(running.items().first(), ready.items(), machine);
            if decide(&running, &ready, machine) != plain {
                return Ok(false);
            }
        }
    }
    Ok(true)
}

// Whether all degrees of the loads are those of the definition.
fn measures_as_defined(machine: &Machine) -> bool
    requires { IsMachine machine.now }
{
    for first in 0..5u32 {
        let io = load(first);
        if class_of(&io, machine) != plain_class(&io, machine)
            || solo(&io, machine) != plain_solo(&io, machine)
        {
            return false;
        }
        for second in 0..5u32 {
            let cpu = load(second);
            if machine.backends > 1
                && balance(&io, &cpu, machine) != plain_balance(&io, &cpu, machine)
            {
                return false;
            }
        }
    }
    true
}

#[test]
fn small_machines_decide_as_the_definition_says(rt: HostRuntime) -> Result<(), Fail> {
    for backends in 1..9u32 {
        for drives in 1..5u32 {
            let machine = Machine {
                backends,
                drives,
                batch: 8,
            };
            assert!(rt;
                measures_as_defined(&machine),
                "{backends} backends, {drives} drives"
            );
            assert!(rt;
                decides_as_defined(rt.alloc(), &machine)?,
                "{backends} backends, {drives} drives"
            );
        }
    }
    Ok(())
}

#[test]
fn the_last_step_that_is_due_gives_the_backends(rt: HostRuntime) -> Result<(), Fail> {
    let machine = Machine {
        backends: 8,
        drives: 4,
        batch: 8,
    };
    let early = Step {
        after: 1,
        backends: 4,
    };
    let late = Step {
        after: 3,
        backends: 2,
    };
    let steps = StepList::from_vec(vec![in rt.alloc(); early, late]?);
    for (finishes, backends) in [(0, 8), (1, 4), (2, 4), (3, 2), (1000, 2)] {
        let after = machine_after(&machine, &steps, finishes);
        assert_eq!(rt;
            (after.backends, after.drives, after.batch),
            (backends, 4, 8)
        );
    }
    Ok(())
}
