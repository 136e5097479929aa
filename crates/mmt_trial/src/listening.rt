//! A receiver that is given some packets of a recording.

ghost use Rattle.std.specs.Prelude.{◌≡◌, ◌+◌, ◌<◌, ◌≤◌, ◌^◌, ◌∷◌, [], ℕ, List, length, get_or, IfOk, IfSome, MatchOption};
ghost use Rattle.std.specs.List.{All};
ghost use Rattle.mmt_model.specs.Delivery.{newest_first};
ghost use Rattle.mmt_recv.specs.Receiving.{summary_of};
ghost use Rattle.mmt_take.specs.Taking.{placed};
ghost use Rattle.mmt_tlv.specs.Cutting.{IsPacket};
ghost use Rattle.mmt_tlv.specs.Framing.{Fits, Packet, spelling};
ghost use Rattle.mmt_trial.specs.Given.{AreGiven, WasGiven};

use crate::recording::Recording;
use crate::sink::Sink;
use mmt_base::OutOfMemory;
use mmt_recv::{Config, Receiver, Summary};
use mmt_tlv::{TlvRead, read_tlv};
use std::alloc::Global;

/// A receiver, and how many bytes it was given.
#[derive(Drop)]
pub struct Listening {
    receiver: Receiver,
    at: u64,
}

/// The piece at a place of a recording, where it is one whole TLV packet.
fn packet_at(sent: &Recording, place: u32) -> Option<&[u8]>
    ensures whole { IfSome result (λ tlv. IsPacket tlv.now) }
    ensures given { (packet : Packet) → Fits packet → get_or sent.now place [] ≡ spelling packet →
        MatchOption result ⊥ (λ tlv. tlv.now ≡ spelling packet) }
{
    let bytes = match sent.get(place as usize) {
        Some(bytes) => bytes,
        None => return None,
    };
    match read_tlv(bytes) {
        TlvRead::Whole { used, .. } => {
            if used as usize == bytes.len() {
                Some(bytes)
            } else {
                None
            }
        }
        TlvRead::Short => None,
        TlvRead::Sync => None,
    }
}

/// Gives a receiver one packet more.
fn give(listening: Listening, tlv: &[u8]) -> Result<Listening, OutOfMemory>
    requires whole { IsPacket tlv.now }
    requires at { listening.at < 2 ^ 62 }
    ensures config { IfOk result (λ next. next.receiver.config ≡ listening.receiver.config) }
    ensures at { IfOk result (λ next. next.at ≤ listening.at + 65539) }
    ensures given { (packets : List Packet) (packet : Packet) → WasGiven listening packets → Fits packet → tlv.now ≡ spelling packet →
        IfOk result (λ next. WasGiven next (packet ∷ packets)) }
{
    let Listening { receiver, at } = listening;
    match receiver.push(&mut Sink, at, tlv) {
        Ok(receiver) => Ok(Listening {
            receiver,
            at: at + tlv.len() as u64,
        }),
        Err(_) => Err(OutOfMemory),
    }
}

/// Gives a receiver the packet at a place of a recording, where there is one.
fn give_at(listening: Listening, sent: &Recording, place: u32) -> Result<Listening, OutOfMemory>
    requires at { listening.at < 2 ^ 62 }
    ensures config { IfOk result (λ next. next.receiver.config ≡ listening.receiver.config) }
    ensures at { IfOk result (λ next. next.at ≤ listening.at + 65539) }
    ensures given { (packets : List Packet) (packet : Packet) → WasGiven listening packets → Fits packet →
        get_or sent.now place [] ≡ spelling packet → IfOk result (λ next. WasGiven next (packet ∷ packets)) }
{
    match packet_at(sent, place) {
        Some(tlv) => give(listening, tlv),
        None => Ok(listening),
    }
}

/// Gives a new receiver the packets of a recording at these places, in their order, and answers what it counted up to the
/// end of the stream. A place without a packet is left out.
///
/// # Errors
///
/// There is no memory.
pub fn listen(
    alloc: Global,
    config: Config,
    sent: &Recording,
    list: &[u32],
) -> Result<Summary, OutOfMemory>
    requires bound { config.bound ≤ 2 ^ 30 }
    requires base { config.sample_base ≤ 1 }
    requires timescale { 1 ≤ config.timescale }
    requires few { length list.now < 2 ^ 32 }
    ensures { (packets : List Packet) → All Fits packets → AreGiven sent.now list.now packets →
        IfOk result (λ s. s ≡ summary_of config (placed (newest_first packets))) }
{
    let receiver = match Receiver::new(alloc, config) {
        Ok(receiver) => receiver,
        Err(_) => return Err(OutOfMemory),
    };
    let mut listening = Listening { receiver, at: 0 };
    for place in list {
        match give_at(listening, sent, *place) {
            Ok(next) => listening = next,
            Err(_) => return Err(OutOfMemory),
        }
    }
    match listening.receiver.finish(&mut Sink) {
        Ok(summary) => Ok(summary),
        Err(_) => Err(OutOfMemory),
    }
}
