ghost use Rattle.std.specs.Prelude.{◌≡◌, ◌≤◌, OnOk, OnErr, decimal};
ghost use Rattle.std.specs.List.{flat_map};
ghost use Rattle.xp_outside.specs.Outside.{appended, Rose, AppendsFront};
ghost use Rattle.xprs_top.specs.Faults.{bound_text, piece_bytes};

use itoa::Buffer;
use xp_outside::{Sink, SinkFailed, pour};

/// A piece of a line: bytes, a number in decimal, or a number behind a space where there is one.
#[derive(Clone, Copy)]
pub(crate) enum Piece<'a> {
    Bytes(&'a [u8]),
    Number(u128),
    Bound(Option<u128>),
}

fn pour_number<E: Sink>(sink: &mut E, number: u128) -> Result<(), SinkFailed>
    ensures whole { OnOk result (E.written sink.new ≡ appended (E.written sink.old) (decimal number)) }
    ensures front { AppendsFront (E.written sink.old) (E.written sink.new) (decimal number) }
    ensures cause { OnErr result (Rose (E.faults sink.old) (E.faults sink.new)) }
    ensures count { E.faults sink.old ≤ E.faults sink.new }
{
    pour(sink, Buffer::new().format(number).as_bytes())
}

fn pour_bound<E: Sink>(sink: &mut E, bound: Option<u128>) -> Result<(), SinkFailed>
    ensures whole { OnOk result (E.written sink.new ≡ appended (E.written sink.old) (bound_text bound)) }
    ensures front { AppendsFront (E.written sink.old) (E.written sink.new) (bound_text bound) }
    ensures cause { OnErr result (Rose (E.faults sink.old) (E.faults sink.new)) }
    ensures count { E.faults sink.old ≤ E.faults sink.new }
{
    let Some(bound) = bound else {
        return Ok(());
    };
    pour(sink, b" ")?;
    pour_number(sink, bound)
}

fn pour_piece<E: Sink>(sink: &mut E, piece: &Piece<'_>) -> Result<(), SinkFailed>
    ensures whole { OnOk result (E.written sink.new ≡ appended (E.written sink.old) (piece_bytes piece.now)) }
    ensures front { AppendsFront (E.written sink.old) (E.written sink.new) (piece_bytes piece.now) }
    ensures cause { OnErr result (Rose (E.faults sink.old) (E.faults sink.new)) }
    ensures count { E.faults sink.old ≤ E.faults sink.new }
{
    match piece {
        Piece::Bytes(bytes) => pour(sink, bytes),
        Piece::Number(number) => pour_number(sink, *number),
        Piece::Bound(bound) => pour_bound(sink, *bound),
    }
}

/// Writes pieces one after another, or stops at the first failure, with a front of them.
pub(crate) fn pour_all<E: Sink>(sink: &mut E, pieces: &[Piece<'_>]) -> Result<(), SinkFailed>
    ensures whole { OnOk result (E.written sink.new ≡ appended (E.written sink.old) (flat_map piece_bytes pieces.now)) }
    ensures front { AppendsFront (E.written sink.old) (E.written sink.new) (flat_map piece_bytes pieces.now) }
    ensures cause { OnErr result (Rose (E.faults sink.old) (E.faults sink.new)) }
    ensures count { E.faults sink.old ≤ E.faults sink.new }
{
    for piece in pieces {
        pour_piece(sink, piece)?;
    }
    Ok(())
}
