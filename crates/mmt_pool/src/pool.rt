//! The pool.

ghost use Rattle.std.specs.Prelude.{◌≡◌, ℕ, ◌+◌, ◌<◌, ◌≤◌, ◌^◌, max, [], List, length, map, filter, take, drop, true, false, IfOk, OnOk, OnErr, IfSome, IfNone, option_map, Some};
ghost use Rattle.std.specs.List.{AllByRecursion, list_any};

use crate::key::Key;
use crate::queue::{Queue, Queued};
use crate::types::{NotStored, Span};
use bytes::Bytes;
use mmt_base::{OutOfMemory, Tick};
use mmt_packet::{Kind, Packet};
use std::alloc::Global;
use std::collections::BTreeMap;
use std::collections::btree_map::Entry;
use std::marker::Model;

#[cfg(test)]
mod inside;

// A kept packet: `payload` is the part of its one buffer, which holds the whole TLV packet.
#[derive(Drop)]
struct Stored {
    time: Tick,
    kind: Kind,
    payload: Bytes,
}

/// The kept packets of a receiver, each in a buffer of its own.
#[derive(Drop)]
pub struct Pool {
    alloc: Global,
    packets: BTreeMap<Key, Stored>,
    queue: Queue,
    total: u32,
    bound: u32,
    peak: u32,
}

impl Model for Pool {
    ghost use Rattle.mmt_pool.specs.Holding.{Holding};
    ghost use Rattle.mmt_pool.specs.Stored.{holding_of};
    ghost use Rattle.mmt_pool.specs.Tied.{IsKept};

    ghost Value = { Holding };

    ghost view = { λ a. holding_of a.packets.entries a.bound a.peak };

    ghost invariant = { λ a. IsKept a.packets.entries a.queue a.total a.bound a.peak };
}

// As many zero bytes as a payload has at most.
static ZEROS: [u8; 65_536] = [0; 65_536];

// Where the bytes come from that a kept packet has as its payload: from a TLV packet, from `from` on,
// or they are zeros.
#[derive(Clone, Copy)]
enum Source<'a> {
    Tlv { bytes: &'a [u8], from: u32 },
    Zeros,
}

// The one number that a packet is found by: its packet id times 2^32 plus its number.
fn key_of(span: Span) -> Key
    ensures { result ≡ key_of span }
{
    Key {
        at: span.packet_id as u64 * (1 << 32) + span.number as u64,
    }
}

// The part of a TLV packet from `from` on, in a buffer that the whole packet is copied into once.
fn cut(alloc: Global, tlv: &[u8], from: usize, count: usize) -> Result<Bytes, OutOfMemory>
    requires { from + count ≤ length tlv.now }
    ensures { IfOk result (λ bytes. bytes ≡ take count (drop from tlv.now)) }
{
    let mut payload = Bytes::copy_from_slice(alloc, tlv)?;
    payload.advance(from);
    payload.truncate(count);
    Ok(payload)
}

// This many zeros.
fn zeros(count: usize) -> &'static [u8]
    requires { count ≤ 65536 }
    ensures { result.now ≡ replicate count 0 }
{
    &ZEROS[..count]
}

// The bytes of a payload that the source gives.
fn payload_from(alloc: Global, source: Source<'_>, payload: &[u8]) -> Result<Bytes, OutOfMemory>
    requires { Gives source payload.now }
    ensures { IfOk result (λ bytes. bytes ≡ payload.now) }
{
    match source {
        Source::Tlv { bytes, from } => cut(alloc, bytes, from as usize, payload.len()),
        Source::Zeros => Ok(Bytes::from_static(zeros(payload.len()))),
    }
}

ghost use Rattle.std.specs.Prelude.{replicate};
ghost use Rattle.mmt_pool.specs.Sources.{Gives};
ghost use Rattle.mmt_pool.specs.Stored.{key_of};

impl Pool {
    ghost use Rattle.mmt_pool.specs.Holding.{Kept, Holding, IsSound, IsKeepable, held, payload_at, kind_at, packet_at, is_at, is_kept_kind, is_in_window, IsInOrder, HasPart, part_at, LiesAt};
    ghost use Rattle.mmt_pool.specs.Doing.{Keeps, Stores, Expires, blank, of_packet, span_of};
    ghost use Rattle.mmt_pool.specs.Outcome.{Follows};

    /// An empty pool, for at most `bound` payload bytes.
    ///
    /// # Errors
    ///
    /// Out of memory.
    pub fn new(alloc: Global, bound: u32) -> Result<Pool, OutOfMemory>
        ensures { IfOk result (λ pool. pool ≡ record { kept = []; bound = bound; peak = 0 }) }
    {
        Ok(Pool {
            alloc,
            packets: BTreeMap::new(alloc),
            queue: Queue::new(alloc),
            total: 0,
            bound,
            peak: 0,
        })
    }

    /// How many payload bytes are kept.
    pub fn held(&self) -> u32
        ensures sum { result ≡ held self.now.kept }
        ensures bounded { result ≤ self.now.bound }
        ensures peak { result ≤ self.now.peak }
        ensures in_order { IsInOrder self.now.kept }
        ensures keepable { AllByRecursion IsKeepable self.now.kept }
    {
        self.total
    }

    /// The most payload bytes that were kept at once.
    pub fn peak(&self) -> u32
        ensures value { result ≡ self.now.peak }
        ensures bounded { result ≤ self.now.bound }
    {
        self.peak
    }

    // Keeps a packet that is in time. One search finds whether its span is kept and where it goes, and
    // makes the room for it there; so the queue is the last that takes memory, and there is nothing to undo.
    fn keep(&mut self, span: Span, source: Source<'_>, packet: &Packet<'_>) -> Result<(), NotStored>
        requires span { span ≡ span_of (of_packet packet.now) }
        requires short { length packet.now.payload.now < 2 ^ 31 }
        requires payload { Gives source packet.now.payload.now }
        requires kind { is_kept_kind packet.now.kind ≡ true }
        ensures keeps { Keeps self.old (of_packet packet.now) result self.new }
        ensures sound { IsSound self.new }
        ensures was_sound { IsSound self.old }
    {
        let held = self.total;
        let length = packet.payload.len() as u32;
        let is_full = length > self.bound - held;
        let place = match self.packets.entry(key_of(span)) {
            Ok(Entry::Vacant(place)) => place,
            Ok(Entry::Occupied(_kept)) => return Err(NotStored::Repeat),
            Err(_no_memory) => {
                if is_full {
                    return Err(NotStored::Full { held, length });
                }
                return Err(NotStored::OutOfMemory);
            }
        };
        if is_full {
            return Err(NotStored::Full { held, length });
        }
        let payload = match payload_from(self.alloc, source, packet.payload) {
            Ok(payload) => payload,
            Err(_) => return Err(NotStored::OutOfMemory),
        };
        let time = packet.time;
        if let Err(_) = self.queue.put(Queued { time: time.0, span }) {
            return Err(NotStored::OutOfMemory);
        }
        let _ = place.insert_entry(Stored {
            time,
            kind: packet.kind,
            payload,
        });
        self.total += length;
        self.peak = self.peak.max(self.total);
        Ok(())
    }

    // Keeps a packet with the payload that the source gives.
    fn offer(
        &mut self,
        clock: Tick,
        delay: u32,
        source: Source<'_>,
        packet: &Packet<'_>,
    ) -> Result<Span, NotStored>
        requires short { length packet.now.payload.now < 2 ^ 31 }
        requires payload { Gives source packet.now.payload.now }
        requires kind { is_kept_kind packet.now.kind ≡ true }
        ensures stores { Stores self.old clock.0 delay (of_packet packet.now) result self.new }
        ensures bounded { held self.new.kept ≤ self.new.bound }
        ensures in_order { IsInOrder self.new.kept }
        ensures peak { self.new.peak ≡ max self.old.peak (held self.new.kept) }
        ensures model { Follows self.old clock.0 delay (of_packet packet.now) result self.new }
    {
        let _ = &self.total;
        if clock.is_after(packet.time.plus(delay)) {
            return Err(NotStored::Late { clock });
        }
        let span = Span {
            packet_id: packet.packet_id,
            number: packet.number,
        };
        match self.keep(span, source, packet) {
            Ok(()) => Ok(span),
            Err(refusal) => Err(refusal),
        }
    }

    /// Keeps a copy of a packet's payload, which stands in the TLV packet `tlv` at `from`. Ticks
    /// are of 1/65536 second.
    ///
    /// # Errors
    ///
    /// The first that holds of `Late`, `Repeat` and `Full`, otherwise out of memory; the pool then stays
    /// as it was.
    pub fn store(
        &mut self,
        clock: Tick,
        delay: u32,
        tlv: &[u8],
        from: u32,
        packet: &Packet<'_>,
    ) -> Result<Span, NotStored>
        requires short { length tlv.now < 2 ^ 31 }
        requires payload { LiesAt tlv.now from packet.now.payload.now }
        requires kind { is_kept_kind packet.now.kind ≡ true }
        ensures stores { Stores self.old clock.0 delay (of_packet packet.now) result self.new }
        ensures bounded { held self.new.kept ≤ self.new.bound }
        ensures in_order { IsInOrder self.new.kept }
        ensures peak { self.new.peak ≡ max self.old.peak (held self.new.kept) }
        ensures model { Follows self.old clock.0 delay (of_packet packet.now) result self.new }
    {
        self.offer(clock, delay, Source::Tlv { bytes: tlv, from }, packet)
    }

    /// Keeps a packet of at most 65,536 payload bytes as `store` does, but with zeros in place of them,
    /// which take no memory: for a command that counts payload bytes and reads none. Ticks are of
    /// 1/65536 second.
    ///
    /// # Errors
    ///
    /// Those of `store`.
    pub fn count(&mut self, clock: Tick, delay: u32, packet: &Packet<'_>) -> Result<Span, NotStored>
        requires short { length packet.now.payload.now ≤ 65536 }
        requires kind { is_kept_kind packet.now.kind ≡ true }
        ensures stores { Stores self.old clock.0 delay (blank packet.now) result self.new }
        ensures bounded { held self.new.kept ≤ self.new.bound }
        ensures in_order { IsInOrder self.new.kept }
        ensures peak { self.new.peak ≡ max self.old.peak (held self.new.kept) }
        ensures model { Follows self.old clock.0 delay (blank packet.now) result self.new }
    {
        let payload = zeros(packet.payload.len());
        let blank = Packet { payload, ..*packet };
        self.offer(clock, delay, Source::Zeros, &blank)
    }

    /// Takes out one packet whose timestamp plus the window is not after the clock; `None` where
    /// there is none.
    pub fn expire_one(&mut self, clock: Tick, window: u32) -> Option<Span>
        ensures expires { Expires self.old clock.0 window result self.new }
        ensures bounded { held self.new.kept ≤ self.new.bound }
        ensures in_order { IsInOrder self.new.kept }
        ensures peak { self.new.peak ≡ max self.old.peak (held self.new.kept) }
        ensures stay { filter (is_in_window clock.0 window) self.new.kept ≡ filter (is_in_window clock.0 window) self.old.kept }
        ensures fewer { IfSome result (λ _. length self.new.kept < length self.old.kept) }
        ensures done { IfNone result (self.new.kept ≡ filter (is_in_window clock.0 window) self.old.kept) }
    {
        let queued = self.queue.take_out(clock, window)?;
        let Some(stored) = self.packets.remove(&key_of(queued.span)) else {
            unreachable!()
        };
        self.total -= stored.payload.len() as u32;
        Some(queued.span)
    }

    /// The kind of a kept packet, `Mpu` or `Signalling`; `None` where the span is not kept.
    pub fn kind(&self, span: Span) -> Option<Kind>
        ensures kind { result ≡ kind_at self.now.kept span.packet_id span.number }
        ensures kept { IfSome result (λ kind. is_kept_kind kind ≡ true) }
    {
        let stored = self.packets.get(&key_of(span))?;
        Some(stored.kind)
    }

    /// The payload of a kept packet, lent; `None` where the span is not kept.
    pub fn payload(&self, span: Span) -> Option<&[u8]>
        ensures bytes { option_map (λ x. x.now) result ≡ payload_at self.now.kept span.packet_id span.number }
        ensures short { IfSome result (λ x. length x.now < 2 ^ 31) }
    {
        let stored = self.packets.get(&key_of(span))?;
        Some(&stored.payload)
    }

    /// The kind and the payload of a kept packet, lent; `None` where the span is not kept.
    pub fn packet(&self, span: Span) -> Option<(Kind, &[u8])>
        ensures kind { option_map (λ x. x.0) result ≡ kind_at self.now.kept span.packet_id span.number }
        ensures bytes { option_map (λ x. x.1.now) result ≡ payload_at self.now.kept span.packet_id span.number }
        ensures short { IfSome result (λ x. length x.1.now < 2 ^ 31) }
    {
        let stored = self.packets.get(&key_of(span))?;
        Some((stored.kind, &stored.payload))
    }

    /// `length` bytes of a kept packet's payload from `from` on, lent.
    pub fn part(&self, span: Span, from: u32, length: u32) -> &[u8]
        requires { HasPart self.now.kept span.packet_id span.number from length }
        ensures { part_at self.now.kept span.packet_id span.number from length ≡ Some result.now }
    {
        let from = from as usize;
        match self.packets.get(&key_of(span)) {
            Some(stored) => &stored.payload[from..from + length as usize],
            None => unreachable!(),
        }
    }
}
