//! The lines of a stream's packets, one after the other.

ghost use Rattle.std.specs.Prelude.{◌≡◌, ℕ, ◌+◌, ◌^◌, ◌<◌, ◌≤◌, ◌++◌, List, [], ◌∷◌, length, take, codes, vec_len, vec_capacity, IfOk, OnOk, OnErr};
ghost use Rattle.mmt_tlv.specs.Framing.{Packet, Fits, spelling};
ghost use Rattle.mmt_tlv.specs.Cutting.{IsPacket};
ghost use Rattle.mmt_hear.specs.Hearing.{payload_place as place_of};

use crate::left::Left;
use crate::sections::{ip_head, port_head, put_refused};
use crate::signalling::put_messages;
use crate::texts::{UNIT, put_ctx, put_head, put_units};
use itoa::Buffer;
use mmt_base::{OutOfMemory, Refused};
use mmt_ctx::Contexts;
use mmt_fields::put_bytes;
use mmt_hear::{ctx_reason, opened};
use mmt_mpu::MpuPayload;
use std::alloc::Global;
use std::marker::Model;

/// Writes the line of each packet of a stream, packet by packet, and keeps the header of each context.
#[derive(Drop)]
pub struct Lister {
    contexts: Contexts,
    digits: Buffer,
}

impl Model for Lister {
    ghost use Rattle.std.specs.Prelude.{List, Option};
    ghost use Rattle.mmt_ip.specs.declared.packet.Ip6Header.{Ip6Header};

    ghost Value = { List (Option Ip6Header) };

    ghost view = { λ l. l.contexts };
}

// The room that a line needs at most besides the texts of units and of messages, in bytes.
const LINE: usize = 800;

// The place of the UDP payload in the TLV packet of a header-compressed packet, with a header or without.
fn payload_place(full: bool) -> u64
    ensures { result ≡ place_of full }
{
    if full { 49 } else { 7 }
}

impl Lister {
    ghost use Rattle.mmt_ctx.specs.Headers.{opened_after, HasRead};
    ghost use Rattle.mmt_hear.specs.Hearing.{compressed_bodies};
    ghost use Rattle.mmt_hear.specs.Views.{HasHeard};
    ghost use Rattle.mmt_mpu.specs.View.{view as mpu_view};
    ghost use Rattle.mmt_list.specs.Left.{left_text};
    ghost use Rattle.mmt_list.specs.Line.{ctx_section, sections, line_of};
    ghost use Rattle.mmt_list.specs.Text.{head_text, units_text};

    /// A lister at the start of a stream. It takes the room for the headers of all 4,096 contexts, and
    /// a line takes no memory but that of the text.
    pub fn new(alloc: Global) -> Result<Lister, OutOfMemory>
        ensures { IfOk result (λ l. HasHeard [] l) }
    {
        let contexts = Contexts::new(alloc)?;
        Ok(Lister {
            contexts,
            digits: Buffer::new(),
        })
    }

    // Appends the sections of the header-compressed packet in a TLV packet at a place, up to what is left.
    fn ctx_head<'a>(&mut self, out: &mut Vec<u8>, place: u64, body: &'a [u8]) -> Left<'a>
        requires place { place < 2 ^ 63 }
        requires short { length body.now < 2 ^ 16 }
        requires room { vec_len out.old + 600 ≤ vec_capacity out.old }
        ensures items { (earlier : List (List ℕ)) → HasRead earlier self.old → out.new.items ++ left_text result ≡ out.old.items ++ ctx_section place (opened_after earlier body.now) }
        ensures next { (earlier : List (List ℕ)) → HasRead earlier self.old → HasRead (body.now ∷ earlier) self.new }
        ensures front { take (vec_len out.old) out.new.items ≡ out.old.items }
        ensures len { vec_len out.new ≤ vec_len out.old + 600 }
        ensures capacity { vec_capacity out.old ≤ vec_capacity out.new }
    {
        match self.contexts.read(body) {
            Ok(packet) => {
                put_ctx(&mut self.digits, out, &packet);
                let port = packet.header.destination_port;
                let at = place + payload_place(packet.full);
                port_head(&mut self.digits, out, port, at, packet.payload)
            }
            Err(Refused { at, why }) => {
                put_refused(
                    &mut self.digits,
                    out,
                    place + (4 + at as u64),
                    ctx_reason(why),
                );
                Left::Nothing
            }
        }
    }

    // Appends the sections of a packet of a kind, up to what is left.
    fn sections_head<'a>(
        &mut self,
        out: &mut Vec<u8>,
        place: u64,
        kind: u8,
        body: &'a [u8],
    ) -> Left<'a>
        requires place { place < 2 ^ 63 }
        requires short { length body.now < 2 ^ 16 }
        requires room { vec_len out.old + 600 ≤ vec_capacity out.old }
        ensures items { (earlier : List Packet) → HasHeard earlier self.old → out.new.items ++ left_text result ≡ out.old.items ++ sections place earlier (record { kind = kind; body = body.now }) }
        ensures next { (earlier : List Packet) → HasHeard earlier self.old → HasHeard (record { kind = kind; body = body.now } ∷ earlier) self.new }
        ensures front { take (vec_len out.old) out.new.items ≡ out.old.items }
        ensures len { vec_len out.new ≤ vec_len out.old + 600 }
        ensures capacity { vec_capacity out.old ≤ vec_capacity out.new }
    {
        match kind {
            0x02 => ip_head(&mut self.digits, out, place, body),
            0x03 => self.ctx_head(out, place, body),
            _ => Left::Nothing,
        }
    }

    // Appends the units of a payload.
    fn units(&mut self, out: &mut Vec<u8>, payload: &MpuPayload<'_>) -> Result<(), OutOfMemory>
        ensures items { OnOk result (out.new.items ≡ out.old.items ++ units_text (mpu_view payload.now).units) }
        ensures front { take (vec_len out.old) out.new.items ≡ out.old.items }
        ensures same { self.new ≡ self.old }
    {
        out.reserve(UNIT * payload.count() as usize)?;
        put_units(&mut self.digits, out, payload);
        Ok(())
    }

    // Appends what is left.
    fn rest(&mut self, out: &mut Vec<u8>, left: Left<'_>) -> Result<(), OutOfMemory>
        ensures items { OnOk result (out.new.items ≡ out.old.items ++ left_text left.entry) }
        ensures front { take (vec_len out.old) out.new.items ≡ out.old.items }
        ensures same { self.new ≡ self.old }
    {
        match left {
            Left::Nothing => Ok(()),
            Left::Units(payload) => self.units(out, &payload),
            Left::Messages(payload) => put_messages(&mut self.digits, out, &payload),
        }
    }

    // Appends what is left, and ends the line.
    fn end(&mut self, out: &mut Vec<u8>, left: Left<'_>) -> Result<(), OutOfMemory>
        ensures items { OnOk result (out.new.items ≡ out.old.items ++ (left_text left.entry ++ codes "\n")) }
        ensures front { take (vec_len out.old) out.new.items ≡ out.old.items }
        ensures same { self.new ≡ self.old }
    {
        self.rest(out, left)?;
        out.reserve(1)?;
        put_bytes(out, b"\n");
        Ok(())
    }

    /// Appends the line of the packet that begins at a place, counted in bytes from the start of the
    /// stream, `tlv` being the whole packet (ARIB STD-B32 Part 3, RFC 8200, RFC 768, ISO/IEC 23008-1,
    /// ARIB STD-B60).
    /// Packets without a header have that which an earlier line's packet carried for their context.
    ///
    /// # Errors
    ///
    /// There is no memory for the text: `out` is unchanged.
    pub fn line(&mut self, out: &mut Vec<u8>, place: u64, tlv: &[u8]) -> Result<(), OutOfMemory>
        requires whole { IsPacket tlv.now }
        requires bound { place < 2 ^ 63 }
        // For every list of earlier packets, the newest of them first.
        ensures line { (earlier : List Packet) (packet : Packet) → Fits packet → tlv.now ≡ spelling packet → HasHeard earlier self.old →
            OnOk result (out.new.items ≡ out.old.items ++ line_of place earlier packet) }
        ensures next { (earlier : List Packet) (packet : Packet) → Fits packet → tlv.now ≡ spelling packet → HasHeard earlier self.old →
            OnOk result (HasHeard (packet ∷ earlier) self.new) }
        ensures refused { OnErr result (out.new.items ≡ out.old.items) }
    {
        let (kind, body) = opened(tlv);
        let len = out.len();
        out.reserve(LINE)?;
        put_head(&mut self.digits, out, place, kind, body.len());
        let left = self.sections_head(out, place, kind, body);
        match self.end(out, left) {
            Ok(()) => Ok(()),
            Err(_) => {
                out.truncate(len);
                Err(OutOfMemory)
            }
        }
    }
}
