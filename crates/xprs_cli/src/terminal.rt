ghost use Rattle.std.specs.Prelude.{◌≡◌, ◌<◌, ◌≤◌, None, OnOk, OnErr, IfOk, length, take};
ghost use Rattle.std.specs.Io.KnownBytes.{Appends, Keeps};
ghost use Rattle.xp_outside.specs.Outside.{Rose, Stands};
ghost use Rattle.xprs_cli.specs.Writers.{GetsFront, GetsNothing};

use crate::page_file::is_interrupted;
use std::io::Write;
use std::os::fd::AsFd;
use xp_outside::{Sink, SinkFailed};

/// A writer of the system, or none where it was closed before the program began: then each write fails. It doesn't tell
/// what was written.
#[derive(Drop)]
pub struct StdSink<W: Write + Drop> {
    writer: Option<W>,
    faults: u64,
}

impl<W: Write + Drop> StdSink<W> {
    /// A sink over the writer, without a fault yet.
    pub fn new(writer: Option<W>) -> StdSink<W>
        ensures { (result.writer ≡ writer) × (result.faults ≡ 0) }
    {
        StdSink { writer, faults: 0 }
    }
}

/// The stream, if it is open. It is asked before any file is opened, so that no file gets the number of a closed one.
pub fn if_open<T: AsFd + Drop>(stream: T) -> Option<T> {
    match stream.as_fd().try_clone_to_owned() {
        Ok(_same) => Some(stream),
        Err(_) => None,
    }
}

// Writes a front of the piece, at least a byte, and says how long it is. A call that was broken off is made again, and a
// write that takes no byte has failed.
fn write_some<W: Write>(writer: &mut W, piece: &[u8]) -> Result<usize, SinkFailed>
    ensures some { IfOk result (λ n. (0 < n) × (n ≤ length piece.now)) }
    ensures taken { IfOk result (λ n. Appends (W.contents writer.old) (W.contents writer.new) (take n piece.now)) }
    ensures err { OnErr result (Keeps (W.contents writer.old) (W.contents writer.new)) }
{
    for _ in 0..u64::MAX {
        match writer.write(piece) {
            Ok(0) => return Err(SinkFailed),
            Ok(taken) => return Ok(taken),
            Err(error) if is_interrupted(&error) => {}
            Err(_) => return Err(SinkFailed),
        }
    }
    Err(SinkFailed)
}

impl<W: Write + Drop> Sink for StdSink<W> {
    ghost written = { λ _. None };

    ghost faults = { λ s. s.faults };

    fn write(&mut self, piece: &[u8]) -> Result<usize, SinkFailed>
        requires { 0 < length piece.now }
        ensures some { IfOk result (λ n. (0 < n) × (n ≤ length piece.now)) }
        ensures quiet { OnOk result (Stands self.old.faults self.new.faults) }
        ensures cause { OnErr result (Rose self.old.faults self.new.faults) }
        ensures count { self.old.faults ≤ self.new.faults }
        // The writer got the bytes that are told as written, and no others.
        ensures got { IfOk result (λ n. GetsFront W.contents self.old.writer self.new.writer (take n piece.now)) }
        ensures none { OnErr result (GetsNothing W.contents self.old.writer self.new.writer) }
    {
        let written = match &mut self.writer {
            Some(writer) => write_some(writer, piece),
            None => Err(SinkFailed),
        };
        if written.is_err() {
            self.faults = self.faults.saturating_add(1);
        }
        written
    }
}
