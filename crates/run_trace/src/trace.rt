ghost use Rattle.std.specs.Prelude.{◌≡◌, ◌++◌, IfOk, OnOk, codes, decimal};
ghost use Rattle.run_trace.specs.TraceText.{begin_line, decision_text, divide_line, event_line};
ghost use Rattle.run_trace.specs.TraceText.{finish_line, part_text, trace_of};

use history::Event;
use io_cpu_scheduler::{Decision, Part};
use itoa::Buffer;
use std::alloc::{AllocError, Global};

fn push(out: &mut Vec<u8>, text: &[u8]) -> Result<(), AllocError>
    ensures { OnOk result (out.new.items ≡ out.old.items ++ text.now) }
{
    Ok(out.extend_from_slice(text)?)
}

fn push_number(out: &mut Vec<u8>, number: u32) -> Result<(), AllocError>
    ensures { OnOk result (out.new.items ≡ out.old.items ++ decimal number) }
{
    push(out, Buffer::new().format(number).as_bytes())
}

fn push_part(out: &mut Vec<u8>, part: Part) -> Result<(), AllocError>
    ensures { OnOk result (out.new.items ≡ out.old.items ++ part_text part) }
{
    push_number(out, part.fragment)?;
    push(out, b":")?;
    push_number(out, part.degree)
}

fn push_pair(out: &mut Vec<u8>, first: Part, second: Part) -> Result<(), AllocError>
    ensures { OnOk result (out.new.items
        ≡ out.old.items ++ part_text first ++ codes " " ++ part_text second) }
{
    push_part(out, first)?;
    push(out, b" ")?;
    push_part(out, second)
}

fn push_decision(out: &mut Vec<u8>, decision: Decision) -> Result<(), AllocError>
    ensures { OnOk result (out.new.items ≡ out.old.items ++ decision_text decision) }
{
    match (decision.first, decision.second) {
        (None, None) => push(out, b"nothing"),
        (Some(part), None) | (None, Some(part)) => push_part(out, part),
        (Some(first), Some(second)) => push_pair(out, first, second),
    }
}

fn push_begin(out: &mut Vec<u8>, decision: Decision) -> Result<(), AllocError>
    ensures { OnOk result (out.new.items ≡ out.old.items ++ begin_line decision) }
{
    push(out, b"# begin ")?;
    push_decision(out, decision)?;
    push(out, b"\n")
}

fn push_divide(out: &mut Vec<u8>, fragment: u32, degree: u32, cut: u32) -> Result<(), AllocError>
    ensures { OnOk result (out.new.items ≡ out.old.items ++ divide_line fragment degree cut) }
{
    push(out, b"# divide ")?;
    push_number(out, fragment)?;
    push(out, b" to ")?;
    push_number(out, degree)?;
    push(out, b" cut ")?;
    push_number(out, cut)?;
    push(out, b"\n")
}

fn push_finish(out: &mut Vec<u8>, fragment: u32, decision: Decision) -> Result<(), AllocError>
    ensures { OnOk result (out.new.items ≡ out.old.items ++ finish_line fragment decision) }
{
    push(out, b"# finish ")?;
    push_number(out, fragment)?;
    push(out, b" then ")?;
    push_decision(out, decision)?;
    push(out, b"\n")
}

fn push_event(out: &mut Vec<u8>, event: &Event) -> Result<(), AllocError>
    ensures { OnOk result (out.new.items ≡ out.old.items ++ event_line event.now) }
{
    match event {
        Event::Begin { decision } => push_begin(out, *decision),
        Event::Divide {
            fragment,
            degree,
            cut,
        } => push_divide(out, *fragment, *degree, *cut),
        Event::Finish { fragment, decision } => push_finish(out, *fragment, *decision),
        _ => Ok(()),
    }
}

/// The lines that show a run: one for the decision that it began with, one for each division of a
/// scan anew with the new number of roles and the cut, and one for each finished fragment with the
/// decision behind it, in order of the events. An error is want of memory.
pub fn trace_text(alloc: Global, events: &[Event]) -> Result<Vec<u8>, AllocError>
    ensures { IfOk result (λ text. text.items ≡ trace_of events.now) }
{
    let mut out = Vec::new(alloc);
    for event in events {
        push_event(&mut out, event)?;
    }
    Ok(out)
}
