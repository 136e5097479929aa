//! What the messages of a stored signalling packet say.

ghost use Rattle.std.specs.Prelude.{◌≡◌, ◌<◌, ◌≤◌, ◌^◌, ◌+◌, [], ◌∷◌, length, map, IsTrue, IsErrOf, OnOk, Ok};
ghost use Rattle.mmt_io.specs.Port.{OnlySends, Rose};
ghost use Rattle.mmt_model.specs.Packets.{Payload};
ghost use Rattle.mmt_io.specs.Output.{Notes};
ghost use Rattle.mmt_runs.specs.Messages.{message_of};
ghost use Rattle.mmt_runs.specs.Reading.{heard};
ghost use Rattle.mmt_runs.specs.Told.{IsTold};
ghost use Rattle.mmt_sig.specs.View.{view as signals};
ghost use Rattle.mmt_naming.specs.Findings.{findings_of_joined};
ghost use Rattle.mmt_naming.specs.Lines.{Learns, lines_by};
ghost use Rattle.mmt_recv.specs.Saying.{findings_of_signals, findings_with};

use crate::joining::join;
use mmt_io::Port;
use mmt_model::Part;
use mmt_naming::{By, take_message, take_messages};
use mmt_output::{Note, Untold, tell};
use mmt_pool::{Pool, Span};
use mmt_runs::{MessageParts, Runs};
use mmt_sig::SigPayload;
use mmt_times::Names;

// How many bytes a message may have that is joined from parts.
const LONGEST: u32 = 131_072;

// Takes what a message in parts says, of which none was lent yet, or notes that it is too long.
fn take_joined<P: Port>(
    port: &mut P,
    pool: &Pool,
    names: &mut Names,
    runs: &mut Runs,
    message: &mut Vec<u8>,
    by: &By,
    parts: MessageParts<'_>,
) -> Result<(), Untold>
    requires told { IsTold runs.old pool.now.kept names.old }
    ensures sends { OnlySends P.tells P.left P.read_faults P.write_faults port.old port.new }
    ensures cause { IsErrOf result Untold.WriteFault → Rose (P.write_faults port.old) (P.write_faults port.new) }
    ensures told { OnOk result (IsTold runs.new pool.now.kept names.new) }
    ensures room { length message.old.items ≤ 2 ^ 17 → length message.new.items ≤ 2 ^ 17 }
    ensures names { Learns by.now (findings_of_joined by.now.timescale by.now.tuned (message_of parts.entry))
        names.old names.new result }
    ensures put { Notes P.tells P.history port.old port.new
        (lines_by by.now names.old (findings_of_joined by.now.timescale by.now.tuned (message_of parts.entry))) result }
{
    let length = parts.length();
    if length > LONGEST {
        let note = Note::MessageLong { message: 0, length };
        return tell(by.alloc, port, by.place, &note);
    }
    match join(message, parts) {
        Ok(()) => take_message(port, pool, names, runs, by, 0, message),
        Err(_) => Err(Untold::OutOfMemory),
    }
}

// Takes what the message says that the packet of this span makes whole, where there is one.
fn take_part<P: Port>(
    port: &mut P,
    pool: &Pool,
    names: &mut Names,
    runs: &mut Runs,
    message: &mut Vec<u8>,
    by: &By,
    span: Span,
) -> Result<(), Untold>
    requires told { IsTold runs.old pool.now.kept names.old }
    ensures sends { OnlySends P.tells P.left P.read_faults P.write_faults port.old port.new }
    ensures cause { IsErrOf result Untold.WriteFault → Rose (P.write_faults port.old) (P.write_faults port.new) }
    ensures told { OnOk result (IsTold runs.new pool.now.kept names.new) }
    ensures room { length message.old.items ≤ 2 ^ 17 → length message.new.items ≤ 2 ^ 17 }
    ensures names { Learns by.now (findings_with by.now.timescale by.now.tuned (map heard pool.now.kept) span)
        names.old names.new result }
    ensures put { Notes P.tells P.history port.old port.new
        (lines_by by.now names.old (findings_with by.now.timescale by.now.tuned (map heard pool.now.kept) span)) result }
{
    match runs.whole_message(pool, span) {
        Some(parts) => take_joined(port, pool, names, runs, message, by, parts),
        None => Ok(()),
    }
}

/// Takes what the messages of a payload say where they are whole, otherwise what the message says that
/// the packet of this span makes whole.
pub(crate) fn take_signals_of<P: Port>(
    port: &mut P,
    pool: &Pool,
    names: &mut Names,
    runs: &mut Runs,
    message: &mut Vec<u8>,
    by: &By,
    span: Span,
    found: &SigPayload<'_>,
) -> Result<(), Untold>
    requires told { IsTold runs.old pool.now.kept names.old }
    requires few { length (signals found.now).messages < 2 ^ 32 }
    ensures sends { OnlySends P.tells P.left P.read_faults P.write_faults port.old port.new }
    ensures cause { IsErrOf result Untold.WriteFault → Rose (P.write_faults port.old) (P.write_faults port.new) }
    ensures told { OnOk result (IsTold runs.new pool.now.kept names.new) }
    ensures room { length message.old.items ≤ 2 ^ 17 → length message.new.items ≤ 2 ^ 17 }
    ensures names { Learns by.now
        (findings_of_signals by.now.timescale by.now.tuned (map heard pool.now.kept)
        span.packet_id span.number (signals found.now))
        names.old names.new result }
    ensures put { Notes P.tells P.history port.old port.new
        (lines_by by.now names.old (findings_of_signals by.now.timescale by.now.tuned (map heard pool.now.kept)
        span.packet_id span.number (signals found.now))) result }
{
    match found.head().part {
        Part::Whole => take_messages(port, pool, names, runs, by, found.messages()),
        Part::First => take_part(port, pool, names, runs, message, by, span),
        Part::Middle => take_part(port, pool, names, runs, message, by, span),
        Part::Last => take_part(port, pool, names, runs, message, by, span),
    }
}
