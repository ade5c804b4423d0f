//! The decision of what runs, and what follows from it.
ghost use Rattle.std.specs.Prelude.{◌≡◌, ◌≤◌, ◌<◌, ◌+◌, ◌^◌, length, IfSome, IsSome, vec_capacity};
ghost use Rattle.std.specs.List.{All, list_all};
ghost use Rattle.io_cpu_scheduler.specs.Limits.{IsLoad, IsMachine};
ghost use Rattle.master.specs.Gives.{AllGiven, AreTwo, CanDecide, CanTake, Decides, GivesPart, IsDecided, is_ready, ready_in, running_in};
ghost use Rattle.master.specs.Kind.{is_ended};
ghost use Rattle.master.specs.Ledger.{at};

use crate::slot::Slot;
use history::Event;
use io_cpu_scheduler::{Decision, Load, Part, decide_loads};
use rows::Machine;

// Whether the fragment of this number is finished.
fn is_ended_at(slots: &[Slot], fragment: u32) -> bool
    ensures { result ≡ is_ended (at slots.now fragment) }
{
    match slots.get(fragment as usize) {
        Some(slot) => slot.is_ended(),
        None => false,
    }
}

// Whether all of these are finished.
fn are_ended_at(slots: &[Slot], fragments: &[u32]) -> bool
    ensures { result ≡ list_all (λ i. is_ended (at slots.now i)) fragments.now }
{
    fragments.iter().all(|i| is_ended_at(slots, *i))
}

// Whether a fragment hasn't begun, and all that it reads is finished.
fn is_ready(slots: &[Slot], slot: &Slot) -> bool
    ensures { result ≡ is_ready slots.now slot.now }
{
    slot.is_waiting() && are_ended_at(slots, slot.inputs())
}

// Lists the loads of what runs, in the room of a list.
fn list_running(slots: &[Slot], loads: &mut Vec<Load>)
    requires room { length slots.now ≤ vec_capacity loads.old }
    ensures items { loads.new.items ≡ running_in slots.now }
    ensures capacity { vec_capacity loads.new ≡ vec_capacity loads.old }
{
    loads.clear();
    for slot in slots {
        if slot.is_running() {
            loads.push_reserved(slot.load());
        }
    }
}

// Lists the loads of what is ready, in the room of a list.
fn list_ready(slots: &[Slot], loads: &mut Vec<Load>)
    requires room { length slots.now ≤ vec_capacity loads.old }
    ensures items { loads.new.items ≡ ready_in slots.now }
    ensures capacity { vec_capacity loads.new ≡ vec_capacity loads.old }
{
    loads.clear();
    for slot in slots {
        if is_ready(slots, slot) {
            loads.push_reserved(slot.load());
        }
    }
}

// What is to run, by the loads of what runs and of what is ready. These are listed in the room of two lists.
fn decide(
    slots: &[Slot],
    running: &mut Vec<Load>,
    ready: &mut Vec<Load>,
    machine: &Machine,
) -> Decision
    requires one { length (running_in slots.now) ≤ 1 }
    requires loads { All IsLoad (running_in slots.now) × All IsLoad (ready_in slots.now) }
    requires machine { IsMachine machine.now }
    requires running { length slots.now ≤ vec_capacity running.old }
    requires ready { length slots.now ≤ vec_capacity ready.old }
    ensures decided { IsDecided machine.now slots.now result }
    ensures running { vec_capacity running.new ≡ vec_capacity running.old }
    ensures ready { vec_capacity ready.new ≡ vec_capacity ready.old }
{
    list_running(slots, running);
    list_ready(slots, ready);
    decide_loads(running, ready, machine)
}

// Starts a part's fragment, or asks it for its degree. It answers the divide that follows at once.
fn give_part(slots: &mut [Slot], part: Option<Part>) -> Option<Event>
    requires { IfSome part (CanTake slots.old) }
    ensures gives { GivesPart slots.old part result slots.new }
    ensures size { length slots.new ≡ length slots.old }
{
    let part = part?;
    let slot = &mut slots[part.fragment as usize];
    let cut = slot.give(part.degree)?;
    Some(Event::Divide {
        fragment: part.fragment,
        degree: part.degree,
        cut,
    })
}

// Gives each part's fragment its degree. It answers the divide that follows at once.
fn give(slots: &mut [Slot], decision: &Decision) -> Option<Event>
    requires first { IfSome decision.now.first (CanTake slots.old) }
    requires second { IfSome decision.now.second (CanTake slots.old) }
    requires two { AreTwo slots.old decision.now }
    ensures { AllGiven slots.old decision.now result slots.new }
{
    let first = give_part(slots, decision.first);
    let second = give_part(slots, decision.second);
    match first {
        Some(divide) => Some(divide),
        None => second,
    }
}

/// Decides what is to run, and gives each part's fragment its degree. It answers the decision, and the divide that follows
/// at once.
pub fn decide_all(
    slots: &mut [Slot],
    running: &mut Vec<Load>,
    ready: &mut Vec<Load>,
    machine: &Machine,
) -> (Decision, Option<Event>)
    requires can { CanDecide machine.now slots.old }
    requires running { length slots.old ≤ vec_capacity running.old }
    requires ready { length slots.old ≤ vec_capacity ready.old }
    ensures decides { Decides machine.now slots.old result.0 result.1 slots.new }
    ensures size { length slots.new ≡ length slots.old }
    ensures running { vec_capacity running.new ≡ vec_capacity running.old }
    ensures ready { vec_capacity ready.new ≡ vec_capacity ready.old }
{
    let decision = decide(slots, running, ready, machine);
    let divide = give(slots, &decision);
    (decision, divide)
}
