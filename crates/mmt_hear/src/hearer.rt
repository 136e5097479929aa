//! Hearing the MMTP packets of a stream.

ghost use Rattle.std.specs.Prelude.{◌≡◌, ℕ, ◌+◌, ◌<◌, ◌^◌, List, ◌∷◌, [], length, IfOk};
ghost use Rattle.mmt_tlv.specs.Framing.{Packet as Tlv, Fits, spelling};
ghost use Rattle.mmt_tlv.specs.Cutting.{IsPacket};

use crate::reasons::{ctx_reason, ip_reason, mmtp_reason};
use crate::why::Why;
use mmt_base::{OutOfMemory, Refused};
use mmt_ctx::{Contexts, CtxWhy};
use mmt_ip::{Ip6Header, IpWhy, read_ip6udp};
use mmt_model::FlowChoice;
use mmt_packet::{Packet, PacketWhy, read_packet};
use std::alloc::Global;
use std::marker::Model;

/// What a TLV packet is heard as.
#[derive(Clone, Copy, Debug)]
pub enum Heard<'a> {
    /// An MMTP packet, which begins at byte `from` of the TLV packet.
    Packet { packet: Packet<'a>, from: u32 },
    /// A null packet, a control signal, or a packet to another destination or to port 123.
    NotOurs,
    /// A packet that is refused, at byte `at` of the TLV packet.
    Refused { at: u32, why: Why },
}

ghost use Rattle.mmt_ip.specs.Reading.{packet_of as datagram_of};
ghost use Rattle.mmt_hear.specs.Hearing.{is_ours as ours, heard_flow, heard_datagram, hearing};
ghost use Rattle.mmt_hear.specs.Views.{hearing_of, IsShort, LiesIn};

// Whether the choice takes the flow, and it isn't NTP's.
fn is_ours(flow: &FlowChoice, header: &Ip6Header) -> bool
    ensures { result ≡ ours flow.now header.now }
{
    if header.destination_port == 123 {
        return false;
    }
    match flow {
        FlowChoice::Any => true,
        FlowChoice::One(flow) => {
            header.destination == flow.address && header.destination_port == flow.port
        }
    }
}

// The UDP payload at a place of the TLV packet, where the flow is ours.
fn payload(ours: bool, from: u32, bytes: &[u8]) -> Heard<'_>
    requires place { from < 64 }
    requires short { length bytes.now < 2 ^ 16 }
    ensures heard { hearing_of result ≡ heard_flow ours from bytes.now }
    ensures short { IsShort result }
    ensures lies { LiesIn (from + length bytes.now) result }
{
    if !ours {
        return Heard::NotOurs;
    }
    match read_packet(bytes) {
        Ok(packet) => Heard::Packet { packet, from },
        Err(Refused { at, why }) => Heard::Refused {
            at: from + at,
            why: mmtp_reason(why),
        },
    }
}

// An IPv6 packet, which begins at byte 4 of the TLV packet.
fn datagram<'a>(flow: &FlowChoice, body: &'a [u8]) -> Heard<'a>
    requires { length body.now < 2 ^ 16 }
    ensures heard { hearing_of result ≡ heard_datagram flow.now (datagram_of body.now) }
    ensures short { IsShort result }
    ensures lies { LiesIn (4 + length body.now) result }
{
    match read_ip6udp(body) {
        Ok(packet) => payload(is_ours(flow, &packet.header), 52, packet.payload),
        Err(Refused { at, why }) => Heard::Refused {
            at: 4 + at,
            why: ip_reason(why),
        },
    }
}

/// The packet type and the body of a whole TLV packet (ARIB STD-B32 Part 3, the TLV packet).
pub fn opened(tlv: &[u8]) -> (u8, &[u8])
    requires { IsPacket tlv.now }
    ensures short { length result.1.now < 2 ^ 16 }
    ensures len { 4 + length result.1.now ≡ length tlv.now }
    ensures packet { (packet : Tlv) → Fits packet → tlv.now ≡ spelling packet → packet ≡ record { kind = result.0; body = result.1.now } }
{
    match tlv {
        [_, kind, _, _, body @ ..] => (*kind, body),
        _ => unreachable!(),
    }
}

/// Hears the packets of a stream, one after the other, and keeps the header of each context.
#[derive(Drop)]
pub struct Hearer {
    contexts: Contexts,
}

impl Model for Hearer {
    ghost use Rattle.std.specs.Prelude.{List, Option};
    ghost use Rattle.mmt_ip.specs.declared.packet.Ip6Header.{Ip6Header};

    ghost Value = { List (Option Ip6Header) };

    ghost view = { λ h. h.contexts };
}

impl Hearer {
    ghost use Rattle.mmt_ctx.specs.Reading.{packet_of as compressed_of};
    ghost use Rattle.mmt_ctx.specs.Headers.{at_context, opened as opened_with, after_body, opened_after, HasRead};
    ghost use Rattle.mmt_hear.specs.Hearing.{heard_compressed, compressed_bodies};
    ghost use Rattle.mmt_hear.specs.Views.{HasHeard};

    /// A hearer at the start of a stream. It takes the room for all headers, and no later call takes
    /// memory.
    pub fn new(alloc: Global) -> Result<Hearer, OutOfMemory>
        ensures { IfOk result (λ h. HasHeard [] h) }
    {
        let contexts = Contexts::new(alloc)?;
        Ok(Hearer { contexts })
    }

    // A header-compressed packet, which begins at byte 4 of the TLV packet.
    fn compressed<'a>(&mut self, flow: &FlowChoice, body: &'a [u8]) -> Heard<'a>
        requires { length body.now < 2 ^ 16 }
        ensures short { IsShort result }
        ensures lies { LiesIn (4 + length body.now) result }
        ensures heard { (earlier : List (List ℕ)) → HasRead earlier self.old → hearing_of result ≡ heard_compressed flow.now (opened_after earlier body.now) }
        ensures next { (earlier : List (List ℕ)) → HasRead earlier self.old → HasRead (body.now ∷ earlier) self.new }
    {
        match self.contexts.read(body) {
            Ok(packet) => {
                let from = if packet.full { 49 } else { 7 };
                payload(is_ours(flow, &packet.header), from, packet.payload)
            }
            Err(Refused { at, why }) => Heard::Refused {
                at: 4 + at,
                why: ctx_reason(why),
            },
        }
    }

    /// What the next TLV packet of the stream is heard as, `tlv` being the whole packet: the MMTP
    /// packet of the chosen flow in it, with its place; or none of ours; or the refusal of the
    /// outermost layer that refuses (ARIB STD-B32 Part 3, RFC 8200, RFC 768, ISO/IEC 23008-1).
    pub fn hear<'a>(&mut self, flow: &FlowChoice, tlv: &'a [u8]) -> Heard<'a>
        requires { IsPacket tlv.now }
        // The payload of what is heard has fewer than 2^16 bytes.
        ensures short { IsShort result }
        // What is heard lies in the packet from its place to the end, and a refusal's place within it.
        ensures lies { LiesIn (length tlv.now) result }
        // For every list of earlier packets, the newest of them first.
        ensures heard { (earlier : List Tlv) (packet : Tlv) → Fits packet → tlv.now ≡ spelling packet → HasHeard earlier self.old → hearing_of result ≡ hearing flow.now earlier packet }
        ensures next { (earlier : List Tlv) (packet : Tlv) → Fits packet → tlv.now ≡ spelling packet → HasHeard earlier self.old → HasHeard (packet ∷ earlier) self.new }
    {
        let (kind, body) = opened(tlv);
        match kind {
            0x01 => Heard::Refused {
                at: 1,
                why: Why::Ip4,
            },
            0x02 => datagram(flow, body),
            0x03 => self.compressed(flow, body),
            0xFE => Heard::NotOurs,
            0xFF => Heard::NotOurs,
            _ => Heard::Refused {
                at: 1,
                why: Why::TlvKind(kind),
            },
        }
    }
}
