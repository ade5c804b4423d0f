//! What is left of a run at its end.
ghost use Rattle.std.specs.Prelude.{◌≡◌, ◌<◌, ◌≤◌, ◌+◌, ◌++◌, [], ◌∷◌, true, length, map, IfOk, Some, vec_capacity, vec_len};
ghost use Rattle.master.specs.Kind.{is_ended};
ghost use Rattle.master.specs.Ends.{AllEnded, marked_values};
ghost use Rattle.master.specs.Lasts.{is_last, last_flags};

use crate::slot::Slot;
use hash_join::Built;
use history::Event;
use plan_tree::Fragment;
use std::alloc::{AllocError, Global};
use std::marker::Model;
use std::sync::Arc;

/// The events of a run, the earliest first.
#[derive(Debug, Drop)]
pub struct History {
    events: Vec<Event>,
}

impl Model for History {
    ghost use Rattle.std.specs.Prelude.{List};
    ghost use Rattle.history.specs.declared.event.Event.{Event};

    ghost Value = { List Event };

    ghost view = { λ h. h.events.items };
}

impl History {
    ghost use Rattle.std.specs.Prelude.{◌<◌, slice_get};

    /// A history without events. It takes no memory.
    pub fn new(alloc: Global) -> History
        ensures { result ≡ [] }
    {
        History {
            events: Vec::new(alloc),
        }
    }

    /// The history of these events.
    pub fn from_vec(events: Vec<Event>) -> History
        ensures { result ≡ events.items }
    {
        History { events }
    }

    pub fn len(&self) -> usize
        ensures { result ≡ length self.now }
    {
        self.events.len()
    }

    /// The event at a place, counted from 0.
    pub fn get(&self, place: usize) -> &Event
        requires { place < length self.now }
        ensures { slice_get self.now place ≡ Some result.now }
    {
        &self.events[place]
    }
}

/// Which fragments are the last of their statements. An error is want of memory.
pub fn last_flags(alloc: Global, fragments: &[Fragment]) -> Result<Vec<bool>, AllocError>
    ensures { IfOk result (λ flags. flags.items ≡ last_flags fragments.now) }
{
    let mut flags = Vec::with_capacity(alloc, fragments.len())?;
    for (number, fragment) in fragments.iter().enumerate() {
        flags.push(is_last(fragment, &fragments[number + 1..]))?;
    }
    Ok(flags)
}

// Whether a fragment is the last of its statement, where these follow it.
fn is_last(fragment: &Fragment, rest: &[Fragment]) -> bool
    ensures { result ≡ is_last fragment.now rest.now }
{
    match rest.first() {
        Some(next) => fragment.statement != next.statement,
        None => true,
    }
}

// Adds the value of a finished fragment, if it is marked.
fn put_value(slot: Slot, marked: bool, values: &mut Vec<Arc<Built>>)
    requires ended { is_ended slot ≡ true }
    requires room { vec_len values.old < vec_capacity values.old }
    ensures items { map Some (map (λ x. x.value) values.new.items) ≡ map Some (map (λ x. x.value) values.old.items) ++ marked_values (marked ∷ []) (slot ∷ []) }
    ensures len { vec_len values.new ≤ vec_len values.old + 1 }
    ensures capacity { vec_capacity values.new ≡ vec_capacity values.old }
{
    if !marked {
        return;
    }
    let Some(value) = slot.into_value() else {
        unreachable!();
    };
    values.push_reserved(value);
}

/// The values of the fragments that are marked, in the room of an empty list. All are finished.
pub fn values_where(
    slots: Vec<Slot>,
    marks: &[bool],
    mut values: Vec<Arc<Built>>,
) -> Vec<Arc<Built>>
    requires ended { AllEnded slots.items }
    requires marks { length slots.items ≤ length marks.now }
    requires empty { map (λ x. x.value) values.items ≡ [] }
    requires none { vec_len values ≡ 0 }
    requires room { length slots.items ≤ vec_capacity values }
    ensures { map Some (map (λ x. x.value) result.items) ≡ marked_values marks.now slots.items }
{
    let mut number = 0;
    for slot in slots {
        put_value(slot, marks[number], &mut values);
        number += 1;
    }
    values
}
