//! From plain packets to header-compressed ones.

ghost use Rattle.std.specs.Prelude.{◌≡◌, ℕ, ◌+◌, ◌<◌, ◌≤◌, ◌^◌, ◌++◌, List, ◌∷◌, [], Some, length, count_by, IfOk, IfSome, OnOk, OnErr};
ghost use Rattle.mmt_tlv.specs.Framing.{Packet, Fits, spelling};
ghost use Rattle.mmt_tlv.specs.Cutting.{IsPacket};
ghost use Rattle.std.specs.List.{cons_option};
ghost use Rattle.mmt_ip.specs.declared.packet.Ip6Header.{Ip6Header as Header};
ghost use Rattle.mmt_ip.specs.Reading.{packet_of as plain_of};
ghost use Rattle.mmt_gate.specs.Flows.{same, header_read, headers, with_context, place_among};
ghost use Rattle.mmt_gate.specs.Keeping.{Knows, HasSqueezed};
ghost use Rattle.mmt_gate.specs.Shrinking.{squeezed_as, squeezed_plain, squeezed, Squeezes, IsGoing};

use crate::flow::{Flow, flow_of};
use crate::writing::{put_as_it_is, put_squeezed};
use indexmap::IndexSet;
use mmt_base::OutOfMemory;
use mmt_ctx::Squeezer;
use mmt_hear::opened;
use mmt_ip::{Ip6Header, read_ip6udp};
use std::alloc::Global;
use std::marker::Model;

/// Why a packet is not squeezed.
#[derive(Clone, Copy, Debug, PartialEq, Eq)]
pub enum ShrinkEnd {
    /// The packet is header-compressed already.
    Squeezed,
    /// There is no memory for the packet.
    OutOfMemory,
}

/// Makes header-compressed packets of the plain IPv6 packets of a stream, packet by packet. Each
/// header that it sees has a context of its own, as long as there are some.
#[derive(Drop)]
pub struct Shrinker {
    context: u16,
    full_every: u32,
    flows: IndexSet<Flow>,
    squeezers: Vec<Squeezer>,
}

impl Model for Shrinker {
    ghost use Rattle.mmt_gate.specs.Keeping.{Shrinking, IsSound};

    ghost Value = { Shrinking };

    ghost view = { λ s. record {
      options = record { context = s.context; full_every = s.full_every };
      flows = s.flows.keys;
      squeezers = s.squeezers.items;
    } };

    ghost invariant = { λ s. IsSound (record {
      options = record { context = s.context; full_every = s.full_every };
      flows = s.flows.keys;
      squeezers = s.squeezers.items;
    }) };
}

// How many contexts there are (ARIB STD-B32 Part 3: a context id has twelve bits).
const CONTEXTS: usize = 4096;

impl Shrinker {
    /// A shrinker at the start of a stream: the first header has the context `context`, below 4,096,
    /// and each next one the next context. Of the packets of a header the first one and then each that
    /// follows `full_every` of them, at least 1, carries the header.
    pub fn new(alloc: Global, context: u16, full_every: u32) -> Result<Shrinker, OutOfMemory>
        requires context { context < 4096 }
        requires every { 1 ≤ full_every }
        ensures options { IfOk result (λ s. s.options ≡
            record { context = context; full_every = full_every }) }
        ensures none { IfOk result (λ s. HasSqueezed [] s) }
    {
        Ok(Shrinker {
            context,
            full_every,
            flows: IndexSet::new(alloc),
            squeezers: Vec::new(alloc),
        })
    }

    // The place of the squeezer of a header, which is made where the header is new; none where no
    // context is left for it.
    fn place(&mut self, header: Ip6Header) -> Result<Option<usize>, OutOfMemory>
        requires label { header.flow_label < 2 ^ 20 }
        ensures options { self.new.options ≡ self.old.options }
        ensures found { (hs : List Header) → HasSqueezed hs self.old →
            IfOk result (λ place. Knows (with_context self.old.options (header ∷ hs)) hs self.new ×
            (place ≡ place_among header (with_context self.old.options (header ∷ hs)))) }
        ensures within { IfOk result (λ place. IfSome place (λ i. i < length self.new.squeezers)) }
    {
        let flow = flow_of(&header);
        if let Some(place) = self.flows.get_index_of(&flow) {
            return Ok(Some(place));
        }
        let place = self.squeezers.len();
        let context = self.context as usize + place;
        if context >= CONTEXTS {
            return Ok(None);
        }
        self.squeezers.reserve(1)?;
        if let Err(_) = self.flows.insert(flow) {
            return Err(OutOfMemory);
        }
        let squeezer = Squeezer::new(context as u16, self.full_every, header);
        self.squeezers.push(squeezer).unwrap();
        Ok(Some(place))
    }

    // Appends the packet that the squeezer at a place makes of a payload.
    fn squeeze_at(
        &mut self,
        place: usize,
        out: &mut Vec<u8>,
        payload: &[u8],
    ) -> Result<(), OutOfMemory>
        requires within { place < length self.old.squeezers }
        requires len { length payload.now ≤ 65487 }
        ensures options { self.new.options ≡ self.old.options }
        ensures packet { OnOk result ((hs : List Header) (header : Header) →
            Knows (with_context self.old.options (header ∷ hs)) hs self.old →
            Some place ≡ place_among header (with_context self.old.options (header ∷ hs)) →
            out.new.items ≡ out.old.items ++
            spelling (squeezed_as self.old.options (count_by (same header) hs) place header
            payload.now)) }
        ensures next { OnOk result ((hs : List Header) (header : Header) →
            Knows (with_context self.old.options (header ∷ hs)) hs self.old →
            Some place ≡ place_among header (with_context self.old.options (header ∷ hs)) →
            HasSqueezed (header ∷ hs) self.new) }
        ensures refused { OnErr result (out.new.items ≡ out.old.items) }
    {
        let _ = &self.flows;
        put_squeezed(out, &mut self.squeezers[place], payload)?;
        Ok(())
    }

    // Appends what a packet of type 2 becomes, of which the body is given.
    fn plain(&mut self, out: &mut Vec<u8>, tlv: &[u8], body: &[u8]) -> Result<(), OutOfMemory>
        requires { length body.now < 2 ^ 16 }
        ensures options { self.new.options ≡ self.old.options }
        ensures packet { OnOk result ((hs : List Header) (packet : Packet) →
            HasSqueezed hs self.old → tlv.now ≡ spelling packet →
            out.new.items ≡ out.old.items ++
            spelling (squeezed_plain self.old.options hs packet (plain_of body.now))) }
        ensures next { OnOk result ((hs : List Header) → HasSqueezed hs self.old →
            HasSqueezed (cons_option (header_read (plain_of body.now)) hs) self.new) }
        ensures refused { OnErr result (out.new.items ≡ out.old.items) }
    {
        let packet = match read_ip6udp(body) {
            Ok(packet) => packet,
            Err(_) => return put_as_it_is(out, tlv),
        };
        let found = match self.place(packet.header) {
            Ok(found) => found,
            Err(reason) => return Err(reason),
        };
        match found {
            Some(place) => self.squeeze_at(place, out, packet.payload),
            None => put_as_it_is(out, tlv),
        }
    }

    /// Appends what the next TLV packet of the stream becomes, `tlv` being the whole packet: a packet
    /// of type 2 that spells an IPv6 and UDP packet becomes a header-compressed one in the context of
    /// its header, where there is one, and other packets stay as they are (ARIB STD-B32 Part 3, RFC
    /// 8200, RFC 768). Only a header that is new takes memory besides that of `out`.
    ///
    /// # Errors
    ///
    /// A packet of type 3; no memory for the packet. `out` is unchanged then. After
    /// `OutOfMemory` the shrinker is used no more.
    pub fn next(&mut self, out: &mut Vec<u8>, tlv: &[u8]) -> Result<(), ShrinkEnd>
        requires { IsPacket tlv.now }
        ensures options { self.new.options ≡ self.old.options }
        // For every list of earlier packets, the newest of them first.
        ensures squeezes { (earlier : List Packet) (packet : Packet) → Fits packet →
            tlv.now ≡ spelling packet → HasSqueezed (headers earlier) self.old →
            Squeezes result out.old.items out.new.items (squeezed self.old.options earlier packet) }
        ensures next { (earlier : List Packet) (packet : Packet) → Fits packet →
            tlv.now ≡ spelling packet → HasSqueezed (headers earlier) self.old →
            IsGoing result (HasSqueezed (headers (packet ∷ earlier)) self.new) }
        ensures refused { OnErr result (out.new.items ≡ out.old.items) }
    {
        let (kind, body) = opened(tlv);
        if kind == 0x03 {
            return Err(ShrinkEnd::Squeezed);
        }
        if kind == 0x02 {
            return match self.plain(out, tlv, body) {
                Ok(()) => Ok(()),
                Err(_) => Err(ShrinkEnd::OutOfMemory),
            };
        }
        match put_as_it_is(out, tlv) {
            Ok(()) => Ok(()),
            Err(_) => Err(ShrinkEnd::OutOfMemory),
        }
    }
}
