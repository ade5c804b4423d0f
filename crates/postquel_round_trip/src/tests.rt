ghost use Rattle.std.specs.Prelude.{IfOk};
ghost use Rattle.postquel.specs.Program.{program_of};
ghost use Rattle.postquel_round_trip.specs.RoundTrip.{IsRead};

use crate::{reread, round_trip};
use postquel::{Script, TextErr, lex, parse, print};
use std::alloc::Global;

fn read(alloc: Global, text: &[u8]) -> Result<Script, TextErr>
    ensures { IfOk result (λ script. IsRead (program_of script)) }
{
    if text.len() > 10_000 {
        return Err(TextErr::NoMemory);
    }
    let tokens = lex(alloc, text)?;
    parse(alloc, &tokens)
}

#[test]
fn a_script_of_every_form_is_the_same_when_it_is_printed_and_read_again(rt: HostRuntime) {
    let text = b"machine 2 after 1,8 after 03\\g
retrieve unique into T(n=count((a.b)),EMP.all,a.c,x=-(1+2)*3-(4-5))from a in A,b in B
where not((a.x)is not null or b.y is null)and(a.t=\"q\\\"\\\\\" or(1<2)and true!=(false))
sort by n using >,c using <,x\\g retrieve(x=1)\\g";
    let want = b"machine 2 after 1, 8 after 3 \\g
retrieve unique into T (n = count(a.b), EMP.all, a.c, x = -(1 + 2) * 3 - (4 - 5)) from a in A, b in B where not (a.x is not null or b.y is null) and (a.t = \"q\\\"\\\\\" or 1 < 2 and true != false) sort by n using >, c, x \\g
retrieve (x = 1) \\g
";
    let script = match read(rt.alloc(), text) {
        Ok(script) => script,
        Err(_) => panic!(rt; "a fault"),
    };
    let again = match reread(rt.alloc(), &script) {
        Ok(again) => again,
        Err(_) => panic!(rt; "no memory"),
    };
    match (print(rt.alloc(), &script), print(rt.alloc(), &again)) {
        (Ok(once), Ok(twice)) => {
            assert!(rt; once.as_slice() == want.as_slice() && twice.as_slice() == want.as_slice());
        }
        _ => panic!(rt; "no memory"),
    }
    assert_eq!(rt; (again.machine().len(), again.len()), (2, 2));
    round_trip();
}
