//! From header-compressed packets to plain ones.

ghost use Rattle.std.specs.Prelude.{◌≡◌, ℕ, ◌<◌, ◌^◌, List, ◌∷◌, [], length, Ok, IfOk, OnErr};
ghost use Rattle.mmt_tlv.specs.Framing.{Packet, Fits, spelling};
ghost use Rattle.mmt_tlv.specs.Cutting.{IsPacket};
ghost use Rattle.mmt_ctx.specs.Headers.{Header as Opened, opened_after, HasRead};
ghost use Rattle.mmt_gate.specs.Expanding.{expanded_opened, expanded, Expands};

use crate::writing::{put_as_it_is, put_plain};
use mmt_base::{OutOfMemory, Refused};
use mmt_ctx::{Contexts, CtxWhy};
use mmt_hear::opened;
use mmt_ip::Ip6Header;
use std::alloc::Global;
use std::marker::Model;

/// Why a packet is not expanded.
#[derive(Clone, Copy, Debug, PartialEq, Eq)]
pub enum ExpandEnd {
    /// The header-compressed packet is refused, at byte `at` of the body of the TLV packet.
    Refused { at: u32, why: CtxWhy },
    /// The UDP payload has `length` bytes, more than the 65,487 that a plain packet can have.
    TooLong { length: u32 },
    /// There is no memory for the packet.
    OutOfMemory,
}

/// Makes plain IPv6 packets of the header-compressed packets of a stream, packet by packet, and keeps
/// the header of each context.
#[derive(Drop)]
pub struct Expander {
    contexts: Contexts,
}

impl Model for Expander {
    ghost use Rattle.std.specs.Prelude.{List, Option};
    ghost use Rattle.mmt_ip.specs.declared.packet.Ip6Header.{Ip6Header};
    ghost use Rattle.mmt_gate.specs.Tables.{AllFit};

    ghost Value = { List (Option Ip6Header) };

    ghost view = { λ e. e.contexts };

    ghost invariant = { λ e. AllFit e.contexts };
}

// The longest UDP payload of a plain packet, in bytes: a TLV packet's body has at most 65,535, of which
// the two headers take 48.
const LONGEST: usize = 65_487;

// Appends what a packet with this header and this payload becomes.
fn put_opened(out: &mut Vec<u8>, header: Ip6Header, payload: &[u8]) -> Result<(), ExpandEnd>
    requires label { header.flow_label < 2 ^ 20 }
    requires short { length payload.now < 2 ^ 16 }
    ensures expands { (v : Opened) → v.header ≡ header → v.payload ≡ payload.now →
        Expands result out.old.items out.new.items (expanded_opened (Ok v)) }
    ensures refused { OnErr result (out.new.items ≡ out.old.items) }
{
    if payload.len() > LONGEST {
        return Err(ExpandEnd::TooLong {
            length: payload.len() as u32,
        });
    }
    match put_plain(out, header, payload) {
        Ok(()) => Ok(()),
        Err(_) => Err(ExpandEnd::OutOfMemory),
    }
}

impl Expander {
    ghost use Rattle.mmt_hear.specs.Views.{HasHeard};

    /// An expander at the start of a stream. It takes the room for the headers of all 4,096 contexts,
    /// and no later call takes memory but that of `out`.
    pub fn new(alloc: Global) -> Result<Expander, OutOfMemory>
        ensures { IfOk result (λ e. HasHeard [] e) }
    {
        let contexts = Contexts::new(alloc)?;
        Ok(Expander { contexts })
    }

    // Appends what the packet with this body becomes.
    fn compressed(&mut self, out: &mut Vec<u8>, body: &[u8]) -> Result<(), ExpandEnd>
        requires { length body.now < 2 ^ 16 }
        ensures expands { (earlier : List (List ℕ)) → HasRead earlier self.old →
            Expands result out.old.items out.new.items
            (expanded_opened (opened_after earlier body.now)) }
        ensures next { (earlier : List (List ℕ)) → HasRead earlier self.old →
            HasRead (body.now ∷ earlier) self.new }
        ensures refused { OnErr result (out.new.items ≡ out.old.items) }
    {
        let packet = match self.contexts.read(body) {
            Ok(packet) => packet,
            Err(Refused { at, why }) => return Err(ExpandEnd::Refused { at, why }),
        };
        put_opened(out, packet.header, packet.payload)
    }

    /// Appends what the next TLV packet of the stream becomes, `tlv` being the whole packet: a
    /// header-compressed packet becomes a plain one with the same fields and payload and its checksum,
    /// and a packet of another type than 3 stays as it is (ARIB STD-B32 Part 3, RFC 8200, RFC 768). A
    /// full header counts for later packets also where its own packet is too long.
    ///
    /// # Errors
    ///
    /// The refusal of a header-compressed packet, with its place in bytes from the start of the body;
    /// a UDP payload of more than 65,487 bytes; no memory for the packet. `out` is unchanged then.
    pub fn next(&mut self, out: &mut Vec<u8>, tlv: &[u8]) -> Result<(), ExpandEnd>
        requires { IsPacket tlv.now }
        // For every list of earlier packets, the newest of them first.
        ensures expands { (earlier : List Packet) (packet : Packet) → Fits packet →
            tlv.now ≡ spelling packet → HasHeard earlier self.old →
            Expands result out.old.items out.new.items (expanded earlier packet) }
        ensures next { (earlier : List Packet) (packet : Packet) → Fits packet →
            tlv.now ≡ spelling packet → HasHeard earlier self.old →
            HasHeard (packet ∷ earlier) self.new }
        ensures refused { OnErr result (out.new.items ≡ out.old.items) }
    {
        let (kind, body) = opened(tlv);
        if kind == 0x03 {
            return self.compressed(out, body);
        }
        match put_as_it_is(out, tlv) {
            Ok(()) => Ok(()),
            Err(_) => Err(ExpandEnd::OutOfMemory),
        }
    }
}
