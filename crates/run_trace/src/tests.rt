use crate::trace_text;
use history::Event;
use io_cpu_scheduler::{Decision, Part};
use std::test::Fail;

const TRACE: &[u8] = b"\
# begin 0:4
# divide 0 to 2 cut 16
# finish 0 then 1:3 2:1
# finish 2 then nothing
";

fn decision(first: Option<(u32, u32)>, second: Option<(u32, u32)>) -> Decision {
    let part = |(fragment, degree)| Part { fragment, degree };
    Decision {
        first: first.map(part),
        second: second.map(part),
    }
}

#[test]
fn decisions_and_divisions_are_shown(rt: HostRuntime) -> Result<(), Fail> {
    let alloc = rt.alloc();
    let events = vec![in alloc;
        Event::Begin {
            decision: decision(Some((0, 4)), None)
        },
        Event::Seat {
            backend: 1,
            fragment: 0,
            role: 0
        },
        Event::Divide {
            fragment: 0,
            degree: 2,
            cut: 16
        },
        Event::Collect {
            backend: 1,
            fragment: 0
        },
        Event::Finish {
            fragment: 0,
            decision: decision(Some((1, 3)), Some((2, 1)))
        },
        Event::Finish {
            fragment: 2,
            decision: decision(None, None)
        },
    ]?;
    assert_eq!(rt; trace_text(alloc, &events)?.as_slice(), TRACE);
    Ok(())
}
