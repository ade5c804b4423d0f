//! Room in the history.
ghost use Rattle.std.specs.Prelude.{◌≡◌, ◌+◌, ◌≤◌, OnOk, vec_capacity, vec_len};

use history::Event;
use std::alloc::AllocError;

/// The most events that one call adds to the needs of a history, with the event that it records.
const MOST_PER_CALL: usize = 3;

/// Makes room for the events that are needed without memory, and for those of one more call. An error is want of
/// memory.
pub fn make_room(history: &mut Vec<Event>, needed: usize) -> Result<(), AllocError>
    ensures items { history.new.items ≡ history.old.items }
    ensures len { vec_len history.new ≡ vec_len history.old }
    ensures capacity { vec_capacity history.old ≤ vec_capacity history.new }
    ensures ok { OnOk result (vec_len history.new + needed + 3 ≤ vec_capacity history.new) }
{
    let Some(room) = needed.checked_add(MOST_PER_CALL) else {
        return Err(AllocError);
    };
    history.reserve(room)
}
