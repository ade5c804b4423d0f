ghost use Rattle.std.specs.Prelude.{◌≡◌, ◌≢◌, IfErr, Ok, [], length, map, string_bytes};
ghost use Rattle.xp_outside.specs.Outside.{Stands};
ghost use Rattle.xprs_top.specs.Counts.{NoOtherFailed, failed_drive, named_drive};
ghost use Rattle.xprs_top.specs.Requests.{HasMachine, asked_by, request_of};
ghost use Rattle.xprs_top.specs.Runs.{AsksCheck, Caused, Completes, IsCount, IsEarly, IsTurnedAway};
ghost use Rattle.xprs_top.specs.Runs.{Poured, Refuses, Tells, seen};

use crate::made::Made;
use crate::making::make;
use crate::task::read_task;
use crate::words::{Operands, operands_in};
use crate::{Outcome, Status, pour_fault};
use std::alloc::Global;
use xp_outside::{Rack, Shelf, Sink, pour};

// A run that ended before drives were mounted.
fn early<D>(alloc: Global, status: Status) -> Outcome<D>
    ensures { (result.status ≡ status) × (result.drives.items ≡ []) }
{
    Outcome {
        status,
        drives: Vec::new(alloc),
    }
}

// Writes the text that was made.
fn poured<W: Sink, D>(out: &mut W, made: Made<D>) -> Outcome<D>
    ensures status { Poured (W.written out.old) (W.written out.new) (W.faults out.old) (W.faults out.new) made.text result.status }
    ensures drives { result.drives ≡ made.drives }
    ensures quiet { result.status ≢ Status.SinkFault → Stands (W.faults out.old) (W.faults out.new) }
    ensures others { named_drive result.status ≡ failed_drive made.text }
{
    let Made { text, drives } = made;
    let status = match text {
        Ok(text) => match pour(out, text.as_slice()) {
            Ok(()) => Status::Done,
            Err(_) => Status::SinkFault,
        },
        Err(status) => status,
    };
    Outcome { status, drives }
}

// A run over the files that the words name.
fn run_over<S: Shelf, K: Rack, W: Sink>(
    alloc: Global,
    operands: &Operands<'_>,
    shelf: &mut S,
    rack: &mut K,
    out: &mut W,
) -> Outcome<K::Drive>
    requires { HasMachine operands.now.aim }
    ensures files { S.files shelf.new ≡ S.files shelf.old }
    ensures cause { Caused K.Drive.Drive (Ok (request_of operands.now))
        (seen S.Shelf K.Rack W.Sink shelf.old shelf.new rack.old rack.new out.old out.new)
        result.drives.items result.status }
    ensures check { AsksCheck (Ok (request_of operands.now)) → (rack.new ≡ rack.old) × (result.drives.items ≡ []) }
    ensures early { IsEarly result.status → rack.new ≡ rack.old }
    ensures shelf { result.status ≢ Status.ShelfFault → Stands (S.faults shelf.old) (S.faults shelf.new) }
    ensures rack { result.status ≢ Status.DriveFault None → Stands (K.faults rack.old) (K.faults rack.new) }
    ensures out { result.status ≢ Status.SinkFault → Stands (W.faults out.old) (W.faults out.new) }
    ensures others { NoOtherFailed K.Drive.Drive (named_drive result.status) result.drives.items }
    ensures count { IsCount (Ok (request_of operands.now)) (length result.drives.items) }
{
    match read_task(alloc, shelf, operands) {
        Ok(task) => poured(out, make(alloc, rack, task)),
        Err(status) => early(alloc, status),
    }
}

// A run without its line.
fn run<S: Shelf, K: Rack, W: Sink>(
    alloc: Global,
    words: &[String],
    shelf: &mut S,
    rack: &mut K,
    out: &mut W,
) -> Outcome<K::Drive>
    ensures words { IfErr (asked_by (map string_bytes words.now)) (λ wanted.
        IsTurnedAway wanted result.status × (shelf.new ≡ shelf.old) × (rack.new ≡ rack.old)) }
    ensures files { S.files shelf.new ≡ S.files shelf.old }
    ensures cause { Caused K.Drive.Drive (asked_by (map string_bytes words.now))
        (seen S.Shelf K.Rack W.Sink shelf.old shelf.new rack.old rack.new out.old out.new)
        result.drives.items result.status }
    ensures check { AsksCheck (asked_by (map string_bytes words.now)) → (rack.new ≡ rack.old) × (result.drives.items ≡ []) }
    ensures early { IsEarly result.status → rack.new ≡ rack.old }
    ensures shelf { result.status ≢ Status.ShelfFault → Stands (S.faults shelf.old) (S.faults shelf.new) }
    ensures rack { result.status ≢ Status.DriveFault None → Stands (K.faults rack.old) (K.faults rack.new) }
    ensures out { result.status ≢ Status.SinkFault → Stands (W.faults out.old) (W.faults out.new) }
    ensures others { NoOtherFailed K.Drive.Drive (named_drive result.status) result.drives.items }
    ensures count { IsCount (asked_by (map string_bytes words.now)) (length result.drives.items) }
{
    match operands_in(alloc, words) {
        Ok(operands) => run_over(alloc, &operands, shelf, rack, out),
        Err(status) => early(alloc, status),
    }
}

/// Does all that the program does, on one thread: reads the words, fetches and reads the catalogue and the script, and
/// writes a text to `out` and the line of a fault to `err`. For `check` the text is the script in its printed form. For
/// `alone` the tables are fetched and read in catalogue order, laid on as many drives as the words say and read back page
/// by page, and the text is the answers of the statements over what was read and over what earlier statements keep, but for
/// those that keep theirs. For `explain` they are laid on the drives,
/// and the text is the plans of the statements by what was written: counts of pages and rows, and searches in the indexes.
/// The drives are handed back wherever they were mounted. `gen` and a trace aren't built yet, and `run` is for another
/// call. It always returns. A failure of `err` changes nothing else.
pub fn answer_alone<S: Shelf, K: Rack, W: Sink, E: Sink>(
    alloc: Global,
    words: &[String],
    shelf: &mut S,
    rack: &mut K,
    out: &mut W,
    err: &mut E,
) -> Outcome<K::Drive>
    // Done: where all drives tell, the output got exactly the text that the words and the files mean, and each drive that
    // tells holds exactly its part of the tables. TooLarge: where all drives tell, the answer of that statement is the first
    // one that is too large. Each other status has its cause, and at each but Done and SinkFault the
    // output got nothing. Bad names one of the rules 1 to 9 and, for `alone`, a page of a table's heap file that its drive
    // doesn't tell, and for `explain` a page of an index, where some drive doesn't tell. At DriveFull the drives are as they
    // were mounted: zeros where they tell.
    ensures cause { Caused K.Drive.Drive (asked_by (map string_bytes words.now))
        (seen S.Shelf K.Rack W.Sink shelf.old shelf.new rack.old rack.new out.old out.new)
        result.drives.items result.status }
    // Words that ask for nothing that this call does have the status that they are given, unless memory is wanting, before
    // any file is fetched. By the clause before it these statuses come nowhere else.
    ensures words { IfErr (asked_by (map string_bytes words.now)) (λ wanted.
        IsTurnedAway wanted result.status × (shelf.new ≡ shelf.old) × (rack.new ≡ rack.old)) }
    // A fault of told files is answered, unless the shelf fails or memory is wanting.
    ensures refuses { Refuses (asked_by (map string_bytes words.now))
        (seen S.Shelf K.Rack W.Sink shelf.old shelf.new rack.old rack.new out.old out.new)
        result.status }
    // Told files without a fault, none of whose answers is too large, are answered over drives that tell and have room, unless
    // the shelf, the rack, a drive or the output fails or memory is wanting.
    ensures complete { Completes K.Drive.Drive (asked_by (map string_bytes words.now))
        (seen S.Shelf K.Rack W.Sink shelf.old shelf.new rack.old rack.new out.old out.new)
        result.drives.items result.status }
    // The second output got the status's line, or a front of it where that output failed.
    ensures line { Tells (E.written err.old) (E.written err.new) (E.faults err.old) (E.faults err.new) result.status }
    // The files stay what they were. The rack is touched neither for `check` nor before the input was accepted. All drives
    // that the words ask for are handed back, or none were mounted.
    ensures files { S.files shelf.new ≡ S.files shelf.old }
    ensures check { AsksCheck (asked_by (map string_bytes words.now)) → (rack.new ≡ rack.old) × (result.drives.items ≡ []) }
    ensures early { IsEarly result.status → rack.new ≡ rack.old }
    // A count that has risen is answered as that failure: at every other status, want of memory among them, the counts of
    // the shelf, the rack and the output stand, and of the drives none has failed but the one that is named.
    ensures shelf { result.status ≢ Status.ShelfFault → Stands (S.faults shelf.old) (S.faults shelf.new) }
    ensures rack { result.status ≢ Status.DriveFault None → Stands (K.faults rack.old) (K.faults rack.new) }
    ensures out { result.status ≢ Status.SinkFault → Stands (W.faults out.old) (W.faults out.new) }
    ensures others { NoOtherFailed K.Drive.Drive (named_drive result.status) result.drives.items }
    ensures count { IsCount (asked_by (map string_bytes words.now)) (length result.drives.items) }
{
    let outcome = run(alloc, words, shelf, rack, out);
    let _ = pour_fault(err, &outcome.status);
    outcome
}
