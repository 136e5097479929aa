//! The messages of a packet, taken one after another.

ghost use Rattle.std.specs.Prelude.{◌≡◌, ◌^◌, ◌<◌, ◌≤◌, length, IsTrue, IsErrOf, OnOk};
ghost use Rattle.std.specs.List.{All};
ghost use Rattle.mmt_io.specs.Port.{OnlySends, Rose};
ghost use Rattle.mmt_runs.specs.Told.{IsTold};
ghost use Rattle.mmt_io.specs.Output.{Notes};
ghost use Rattle.mmt_naming.specs.Lines.{Learns, lines_by};
ghost use Rattle.mmt_sig.specs.View.{messages_left};
ghost use Rattle.mmt_naming.specs.Findings.{findings_in, findings_from};

use crate::by::By;
use crate::remarks::are_same;
use crate::spot::Spot;
use crate::tables::take_tables;
use mmt_io::Port;
use mmt_output::{Note, Untold, tell};
use mmt_pool::Pool;
use mmt_runs::Runs;
use mmt_sig::{Message, Messages, read_message};
use mmt_times::Names;

/// Takes what a message says: the MPUs that its MPTs name are learned, and told of to the runs. What
/// is refused is noted, and so is a buffer message with other values than the one that was taken.
/// `message` is the message's number among those of its packet, and 0 for one that was joined from
/// parts. The bytes are fewer than 2^31.
///
/// The names are learned in order, and a name that is left out because its MPU has another one or
/// because 1,024 are kept is noted in its place among them. Each note is one line.
///
/// # Errors
///
/// The port failed, or memory was wanted. A start of the lines was noted then, and some of the
/// names may have been learned; the receiver isn't to go on with them.
pub fn take_message<P: Port>(
    port: &mut P,
    pool: &Pool,
    names: &mut Names,
    runs: &mut Runs,
    by: &By,
    message: u32,
    bytes: &[u8],
) -> Result<(), Untold>
    requires told { IsTold runs.old pool.now.kept names.old }
    requires len { length bytes.now < 2 ^ 31 }
    ensures sends { OnlySends P.tells P.left P.read_faults P.write_faults port.old port.new }
    ensures cause { IsErrOf result Untold.WriteFault → Rose (P.write_faults port.old) (P.write_faults port.new) }
    ensures told { OnOk result (IsTold runs.new pool.now.kept names.new) }
    ensures names { Learns by.now (findings_in by.now.timescale by.now.tuned message bytes.now)
        names.old names.new result }
    ensures put { Notes P.tells P.history port.old port.new
        (lines_by by.now names.old (findings_in by.now.timescale by.now.tuned message bytes.now)) result }
{
    match read_message(bytes) {
        Ok(Message::Pa(pa)) => {
            let spot = Spot {
                message,
                at: 8 + 4 * pa.count(),
            };
            take_tables(port, pool, names, runs, by, spot, pa.tables())
        }
        Ok(Message::Hrbm { version: _, params }) => {
            if are_same(params, by.tuned) {
                return Ok(());
            }
            tell(by.alloc, port, by.place, &Note::HrbmDiffers { message })
        }
        Ok(Message::Other { id: _, bytes: _ }) => Ok(()),
        Err(refused) => {
            let note = Note::Message {
                message,
                at: refused.at,
                why: refused.why,
            };
            tell(by.alloc, port, by.place, &note)
        }
    }
}

/// Takes what the messages of a payload with whole messages say, from first to last, as
/// `take_message` does; the first has number 0. Each has fewer than 2^31 bytes, and they are fewer
/// than 2^32.
///
/// # Errors
///
/// Those of `take_message`.
pub fn take_messages<P: Port>(
    port: &mut P,
    pool: &Pool,
    names: &mut Names,
    runs: &mut Runs,
    by: &By,
    messages: Messages<'_>,
) -> Result<(), Untold>
    requires told { IsTold runs.old pool.now.kept names.old }
    requires within { All (λ m. length m < 2 ^ 31) (messages_left messages) }
    requires count { length (messages_left messages) < 2 ^ 32 }
    ensures sends { OnlySends P.tells P.left P.read_faults P.write_faults port.old port.new }
    ensures cause { IsErrOf result Untold.WriteFault → Rose (P.write_faults port.old) (P.write_faults port.new) }
    ensures told { OnOk result (IsTold runs.new pool.now.kept names.new) }
    ensures names { Learns by.now (findings_from by.now.timescale by.now.tuned 0 (messages_left messages.entry))
        names.old names.new result }
    ensures put { Notes P.tells P.history port.old port.new
        (lines_by by.now names.old (findings_from by.now.timescale by.now.tuned 0 (messages_left messages.entry))) result }
{
    let mut number: u32 = 0;
    for message in messages {
        match take_message(port, pool, names, runs, by, number, message) {
            Ok(()) => {}
            Err(untold) => return Err(untold),
        }
        number += 1;
    }
    Ok(())
}
