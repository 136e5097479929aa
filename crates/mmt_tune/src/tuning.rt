//! The values with which a packet tunes.

ghost use Rattle.std.specs.Prelude.{◌≡◌, ◌<◌, ◌^◌, length, Ok, Err, Some, None};
ghost use Rattle.std.specs.List.{All};
ghost use Rattle.mmt_sig.specs.MessageReading.{message_of};
ghost use Rattle.mmt_sig.specs.PayloadReading.{payload_of as signals_of};
ghost use Rattle.mmt_sig.specs.View.{messages_left};
ghost use Rattle.mmt_packet.specs.Spelling.{view as mmtp_of};
ghost use Rattle.mmt_tune.specs.Tuning.{fitting, first_fitting as first_by, values_in, values_by};

use crate::config::Config;
use mmt_model::{Params, Part};
use mmt_packet::{Kind, Packet};
use mmt_sig::{Message, Messages, read_message, read_sig};

// The values of a message that is a buffer message for at most so many bytes.
fn fitting_values(bound: u32, message: &[u8]) -> Option<Params>
    requires { length message.now < 2 ^ 31 }
    ensures { result ≡ fitting bound (message_of message.now) }
{
    match read_message(message) {
        Ok(Message::Hrbm { version: _, params }) => {
            if params.bound <= bound {
                Some(params)
            } else {
                None
            }
        }
        Ok(Message::Pa(_)) => None,
        Ok(Message::Other { id: _, bytes: _ }) => None,
        Err(_) => None,
    }
}

/// The values with which a packet tunes a receiver of this configuration, where it does: those
/// assumed, or those of its first buffer message that fits the bound, where it is of kind signalling
/// on packet id 0 with whole messages.
pub fn tuning_values(config: &Config, packet: &Packet<'_>) -> Option<Params>
    requires { length packet.now.payload.now < 2 ^ 31 }
    ensures { result ≡ values_by config.now.assumed config.now.bound (mmtp_of packet.now) }
{
    if let Some((window, delay)) = config.assumed {
        return Some(Params {
            bound: config.bound,
            window,
            delay,
        });
    }
    if packet.packet_id != 0 {
        return None;
    }
    match packet.kind {
        Kind::Signalling => payload_values(config.bound, packet.payload),
        Kind::Mpu => None,
        Kind::Generic => None,
    }
}

// The values of the first buffer message that fits, of a signalling payload with whole messages.
fn payload_values(bound: u32, payload: &[u8]) -> Option<Params>
    requires { length payload.now < 2 ^ 31 }
    ensures { result ≡ values_in bound (signals_of payload.now) }
{
    let found = match read_sig(payload) {
        Ok(found) => found,
        Err(_) => return None,
    };
    match found.head().part {
        Part::Whole => first_fitting(bound, found.messages()),
        Part::First => None,
        Part::Middle => None,
        Part::Last => None,
    }
}

// The values of the first of the messages that fits.
#[tactic(auto, unfolding(crate::specs::Tuning::first_fitting))]
fn first_fitting(bound: u32, messages: Messages<'_>) -> Option<Params>
    requires { All (λ m. length m < 2 ^ 31) (messages_left messages) }
    ensures { result ≡ first_by bound (messages_left messages.entry) }
{
    for message in messages {
        match fitting_values(bound, message) {
            Some(values) => return Some(values),
            None => {}
        }
    }
    None
}
