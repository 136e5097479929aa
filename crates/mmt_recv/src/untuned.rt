//! What is noted of a heard packet before the one that tunes.

ghost use Rattle.std.specs.Prelude.{◌≡◌, ◌<◌, ◌≤◌, ◌^◌, ◌+◌, length, IsTrue, IsErrOf, Ok, Err};
ghost use Rattle.std.specs.List.{All};
ghost use Rattle.mmt_io.specs.Port.{OnlySends, Rose};
ghost use Rattle.mmt_packet.specs.Spelling.{view as mmtp_of, Fits as MmtpFits};
ghost use Rattle.mmt_sig.specs.MessageReading.{message_of};
ghost use Rattle.mmt_sig.specs.PayloadReading.{payload_of as signals_of};
ghost use Rattle.mmt_sig.specs.View.{messages_left};
ghost use Rattle.mmt_io.specs.Output.{Notes};
ghost use Rattle.mmt_recv.specs.Noting.{lines_of, at_place, untuned_message, untuned_messages};
ghost use Rattle.mmt_recv.specs.Noting.{untuned_signals, untuned_notes as notes_before};
ghost use Rattle.mmt_recv.specs.Taking.{packet_at};

use mmt_base::Refused;
use mmt_io::Port;
use mmt_model::Part;
use mmt_output::{Note, Untold, tell};
use mmt_packet::{Kind, Packet, header_length};
use mmt_sig::{Message, MessageWhy, Messages, read_message, read_sig};
use std::alloc::Global;

// Notes what is wrong with the buffer message that the message of this number is.
fn note_message<P: Port>(
    alloc: Global,
    port: &mut P,
    place: u64,
    bound: u32,
    number: u32,
    message: &[u8],
) -> Result<(), Untold>
    requires { length message.now < 2 ^ 31 }
    ensures sends { OnlySends P.tells P.left P.read_faults P.write_faults port.old port.new }
    ensures cause { IsErrOf result Untold.WriteFault → Rose (P.write_faults port.old) (P.write_faults port.new) }
    ensures put { Notes P.tells P.history port.old port.new
        (lines_of (at_place place (untuned_message bound number (message_of message.now)))) result }
{
    match read_message(message) {
        Ok(Message::Hrbm { version: _, params }) => {
            if params.bound <= bound {
                return Ok(());
            }
            let note = Note::HrbmBound {
                message: number,
                bound: params.bound,
                allowed: bound,
            };
            tell(alloc, port, place, &note)
        }
        Ok(Message::Pa(_)) => Ok(()),
        Ok(Message::Other { id: _, bytes: _ }) => Ok(()),
        Err(Refused { at, why }) => match why {
            MessageWhy::HrbmValues => {
                let note = Note::Message {
                    message: number,
                    at,
                    why: MessageWhy::HrbmValues,
                };
                tell(alloc, port, place, &note)
            }
            MessageWhy::Short => Ok(()),
            MessageWhy::Length => Ok(()),
        },
    }
}

// Notes what is wrong with the buffer messages among these.
fn note_messages<P: Port>(
    alloc: Global,
    port: &mut P,
    place: u64,
    bound: u32,
    messages: Messages<'_>,
) -> Result<(), Untold>
    requires short { All (λ m. length m < 2 ^ 31) (messages_left messages) }
    requires few { length (messages_left messages) < 2 ^ 32 }
    ensures sends { OnlySends P.tells P.left P.read_faults P.write_faults port.old port.new }
    ensures cause { IsErrOf result Untold.WriteFault → Rose (P.write_faults port.old) (P.write_faults port.new) }
    ensures put { Notes P.tells P.history port.old port.new
        (lines_of (at_place place (untuned_messages bound 0 (messages_left messages.entry)))) result }
{
    let mut number: u32 = 0;
    for message in messages {
        match note_message(alloc, port, place, bound, number, message) {
            Ok(()) => {}
            Err(untold) => return Err(untold),
        }
        number += 1;
    }
    Ok(())
}

/// Notes what is noted of a heard packet at a place before the one that tunes: where it is signalling on
/// packet id 0, the refusal of its payload, or what is wrong with its buffer messages.
pub(crate) fn note_untuned<P: Port>(
    alloc: Global,
    port: &mut P,
    place: u64,
    bound: u32,
    packet: &Packet<'_>,
) -> Result<(), Untold>
    requires place { place < 2 ^ 63 + 2 ^ 17 }
    requires fits { MmtpFits (mmtp_of packet.now) }
    requires short { length packet.now.payload.now < 2 ^ 16 }
    ensures sends { OnlySends P.tells P.left P.read_faults P.write_faults port.old port.new }
    ensures cause { IsErrOf result Untold.WriteFault → Rose (P.write_faults port.old) (P.write_faults port.new) }
    ensures put { Notes P.tells P.history port.old port.new
        (lines_of (notes_before bound (packet_at place packet.now))) result }
{
    if packet.packet_id != 0 {
        return Ok(());
    }
    match packet.kind {
        Kind::Signalling => {
            let at = place + header_length(packet) as u64;
            note_signals(alloc, port, at, bound, packet.payload)
        }
        Kind::Mpu => Ok(()),
        Kind::Generic => Ok(()),
    }
}

// Notes the refusal of a signalling payload at a place, or what is wrong with its buffer messages.
fn note_signals<P: Port>(
    alloc: Global,
    port: &mut P,
    place: u64,
    bound: u32,
    payload: &[u8],
) -> Result<(), Untold>
    requires place { place < 2 ^ 63 + 2 ^ 18 }
    requires short { length payload.now < 2 ^ 16 }
    ensures sends { OnlySends P.tells P.left P.read_faults P.write_faults port.old port.new }
    ensures cause { IsErrOf result Untold.WriteFault → Rose (P.write_faults port.old) (P.write_faults port.new) }
    ensures put { Notes P.tells P.history port.old port.new
        (lines_of (untuned_signals bound place (signals_of payload.now))) result }
{
    let found = match read_sig(payload) {
        Ok(found) => found,
        Err(Refused { at, why }) => {
            return tell(alloc, port, place + at as u64, &Note::Signalling(why));
        }
    };
    match found.head().part {
        Part::Whole => note_messages(alloc, port, place, bound, found.messages()),
        Part::First => Ok(()),
        Part::Middle => Ok(()),
        Part::Last => Ok(()),
    }
}
