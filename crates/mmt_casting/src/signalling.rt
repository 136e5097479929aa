//! The packets of the signalling messages.

ghost use Rattle.std.specs.Prelude.{◌≡◌, ◌+◌, ◌<◌, ◌≤◌, ◌^◌, ◌++◌, [], None, OnOk};
ghost use Rattle.mmt_cast.specs.Refusing.{refusal, refusal_of_signal};
ghost use Rattle.mmt_cast.specs.Sending.{packet_count, sending_of_signal};
ghost use Rattle.mmt_casting.specs.Ends.{SignalFits};
ghost use Rattle.mmt_casting.specs.Numbered.{packets_of_signal};
ghost use Rattle.mmt_casting.specs.Spans.{signalling};
ghost use Rattle.mmt_cast.specs.Readable.{tick_of_signal};
ghost use Rattle.mmt_model.specs.Right.{IsRight};

use crate::counting::message_packets;
use crate::messages::{Message, parameters_packet, put_table};
use crate::tables::message_length;
use mmt_base::OutOfMemory;
use mmt_model::{Programme, Sent, Signal};

/// Appends the packets of a signalling message, the first of which has this number.
fn put_message(
    out: &mut Vec<Sent>,
    programme: &Programme,
    s: u32,
    signal: &Signal,
    number: u32,
) -> Result<(), OutOfMemory>
    requires right { IsRight programme.now }
    requires names { SignalFits programme.now signal.now }
    requires short { refusal_of_signal programme.now s signal.now ≡ None }
    requires at { tick_of_signal signal.now ≤ 2 ^ 48 }
    requires numbers { number + packet_count programme.now (sending_of_signal programme.now s signal.now) < 2 ^ 32 }
    ensures { OnOk result (out.new.items ≡ out.old.items ++ packets_of_signal programme.now s signal.now number) }
{
    match signal {
        Signal::Parameters { at } => {
            out.push(parameters_packet(s, *at, number))?;
        }
        Signal::Table { at, names } => {
            let bytes = message_length(programme, names.as_slice()) as u32;
            let message = Message {
                signal: s,
                at: at.0,
                bytes,
                number,
            };
            put_table(out, programme, message)?;
        }
    }
    Ok(())
}

/// Appends the packets of the signalling messages.
pub(crate) fn put_signalling(out: &mut Vec<Sent>, programme: &Programme) -> Result<(), OutOfMemory>
    requires right { IsRight programme.now }
    requires none { refusal programme.now ≡ None }
    requires empty { out.old.items ≡ [] }
    ensures { OnOk result (out.new.items ≡ signalling programme.now) }
{
    let signals = programme.signals.as_slice();
    let mut number = 0u32;
    for s in 0..signals.len() {
        let signal = &signals[s];
        put_message(out, programme, s as u32, signal, number)?;
        number += message_packets(programme, s as u32, signal);
    }
    Ok(())
}
