//! A message in parts, found from any of its packets and lent part by part.

ghost use Rattle.std.specs.Prelude.{◌≡◌, ℕ, ◌+◌, ◌<◌, ◌^◌, List, [], length, map, option_map, option_to_list, false, IfSome};
ghost use Rattle.mmt_model.specs.Packets.{Heard};
ghost use Rattle.mmt_model.specs.Units.{packet_at, part_messages};
ghost use Rattle.mmt_pool.specs.Holding.{held, packet_at as kept_at};
ghost use Rattle.mmt_sig.specs.PayloadReading.{payload_of};
ghost use Rattle.mmt_runs.specs.Reading.{heard, signals_by};
ghost use Rattle.mmt_runs.specs.Messages.{messages_with, message_of, short_bytes};
ghost use Rattle.mmt_runs.specs.MessageParts.{signalling_at, lone_part as part_by, lone_at, part_bytes, first_before, first_of, sides_by, back_from, on_from, Ends};

use crate::runs::Runs;
use mmt_model::Part;
use mmt_packet::Kind;
use mmt_pool::{Pool, Span};
use mmt_sig::read_sig;
use std::marker::Model;

// The message of a signalling payload that has just one, or the part of one.
fn lone_message(payload: &[u8]) -> Option<(Part, &[u8])>
    requires { length payload.now < 2 ^ 31 }
    ensures { option_map (λ x. (x.0, x.1.now)) result ≡ part_by (signals_by (payload_of payload.now)) }
{
    let signals = match read_sig(payload) {
        Ok(signals) => signals,
        Err(_) => return None,
    };
    if signals.count() != 1 {
        return None;
    }
    let mut messages = signals.messages();
    match messages.next() {
        Some(bytes) => Some((signals.head().part, bytes)),
        None => None,
    }
}

// The payload of a kept packet of kind signalling.
fn signalling_bytes<'a>(pool: &'a Pool, span: Span) -> Option<&'a [u8]>
    ensures bytes { option_map (λ x. x.now) result ≡ signalling_at (kept_at pool.now.kept span.packet_id span.number) }
    ensures short { IfSome result (λ x. length x.now < 2 ^ 31) }
{
    let (kind, bytes) = match pool.packet(span) {
        Some(found) => found,
        None => return None,
    };
    match kind {
        Kind::Mpu => None,
        Kind::Generic => None,
        Kind::Signalling => Some(bytes),
    }
}

// The lone message, or part of one, in the packet of this span, and which part it is.
fn lone_part<'a>(pool: &'a Pool, span: Span) -> Option<(Part, &'a [u8])>
    ensures { option_map (λ x. (x.0, x.1.now)) result ≡ lone_at (packet_at (map heard pool.now.kept) span.packet_id span.number) }
{
    match signalling_bytes(pool, span) {
        Some(bytes) => lone_message(bytes),
        None => None,
    }
}

// The nearest first part at this span or before, with middle parts alone after it. At most `most`
// packets are looked at.
fn walk_back<'a>(pool: &'a Pool, span: Span, most: u32) -> Option<(u32, &'a [u8])>
    ensures { option_map (λ x. (x.0, x.1.now)) result ≡ first_before (map heard pool.now.kept) span.packet_id most span.number }
{
    let mut number = span.number;
    for _step in 0..most {
        let at = Span {
            packet_id: span.packet_id,
            number,
        };
        match lone_part(pool, at) {
            None => return None,
            Some((Part::Whole, _)) => return None,
            Some((Part::First, bytes)) => return Some((number, bytes)),
            Some((Part::Middle, _)) => {}
            Some((Part::Last, _)) => return None,
        }
        number = number.wrapping_sub(1);
    }
    None
}

// The first part of the message that the packet of this span is a part of.
fn first_part<'a>(pool: &'a Pool, span: Span, most: u32) -> Option<(u32, &'a [u8])>
    ensures { option_map (λ x. (x.0, x.1.now)) result ≡ first_of (map heard pool.now.kept) span.packet_id most span.number }
{
    let before = Span {
        packet_id: span.packet_id,
        number: span.number.wrapping_sub(1),
    };
    match lone_part(pool, span) {
        None => None,
        Some((Part::Whole, _)) => None,
        Some((Part::First, bytes)) => Some((span.number, bytes)),
        Some((Part::Middle, _)) => walk_back(pool, before, most),
        Some((Part::Last, _)) => walk_back(pool, before, most),
    }
}

// How many packets go on from this span to a last part without a gap, and how many bytes they have.
fn rest_of(pool: &Pool, span: Span, most: u32) -> Option<(u32, u32)>
    requires { most ≡ held pool.now.kept }
    ensures { Ends (map heard pool.now.kept) span.packet_id most span.number result }
{
    let mut number = span.number;
    let mut count = 0;
    let mut length = 0;
    for _step in 0..most {
        let at = Span {
            packet_id: span.packet_id,
            number,
        };
        match lone_part(pool, at) {
            None => return None,
            Some((Part::Whole, _)) => return None,
            Some((Part::First, _)) => return None,
            Some((Part::Middle, bytes)) => {
                count += 1;
                length += bytes.len() as u32;
            }
            Some((Part::Last, bytes)) => return Some((count + 1, length + bytes.len() as u32)),
        }
        number = number.wrapping_add(1);
    }
    None
}

/// A message in parts, lent part by part from the pool.
#[derive(Drop)]
pub struct MessageParts<'a> {
    pool: &'a Pool,
    packet_id: u16,
    // the number of the message's first packet
    first: u32,
    // the part to lend next, where some are left
    bytes: &'a [u8],
    // the number of the packet after it
    number: u32,
    left: u32,
    // how many bytes the parts that are left have
    total: u32,
}

impl<'a> Model for MessageParts<'a> {
    ghost use Rattle.std.specs.Prelude.{◌≡◌, length, map};
    ghost use Rattle.mmt_model.specs.Units.{joined};
    ghost use Rattle.mmt_runs.specs.Reading.{heard};
    ghost use Rattle.mmt_runs.specs.Messages.{PartsLeft};
    ghost use Rattle.mmt_runs.specs.MessageParts.{all_parts};

    ghost Value = { PartsLeft };

    ghost view = { λ a. record { number = a.first; left = all_parts (map heard a.pool.now.kept) a.packet_id a.left a.bytes.now a.number } };

    ghost invariant = { λ a. a.total ≡ length (joined (all_parts (map heard a.pool.now.kept) a.packet_id a.left a.bytes.now a.number)) };
}

// Where to look for the first part and for the last part of the message that the packet of this
// span is a part of.
fn sides_of(pool: &Pool, span: Span) -> Option<(Option<u32>, Option<u32>)>
    ensures { result
        ≡ sides_by span.number (lone_at (packet_at (map heard pool.now.kept) span.packet_id span.number)) }
{
    let before = span.number.wrapping_sub(1);
    let after = span.number.wrapping_add(1);
    match lone_part(pool, span) {
        None => None,
        Some((Part::Whole, _)) => None,
        Some((Part::First, _)) => Some((None, Some(after))),
        Some((Part::Middle, _)) => Some((Some(before), Some(after))),
        Some((Part::Last, _)) => Some((Some(before), None)),
    }
}

// Looks at one packet for the first part of a message, and says where to look after it.
fn step_back(pool: &Pool, packet_id: u16, before: Option<u32>) -> Option<Option<u32>>
    ensures { result ≡ back_from (map heard pool.now.kept) packet_id before }
{
    let number = match before {
        Some(number) => number,
        None => return Some(None),
    };
    match lone_part(pool, Span { packet_id, number }) {
        None => None,
        Some((Part::Whole, _)) => None,
        Some((Part::First, _)) => Some(None),
        Some((Part::Middle, _)) => Some(Some(number.wrapping_sub(1))),
        Some((Part::Last, _)) => None,
    }
}

// Looks at one packet for the last part of a message, and says where to look after it.
fn step_on(pool: &Pool, packet_id: u16, after: Option<u32>) -> Option<Option<u32>>
    ensures { result ≡ on_from (map heard pool.now.kept) packet_id after }
{
    let number = match after {
        Some(number) => number,
        None => return Some(None),
    };
    match lone_part(pool, Span { packet_id, number }) {
        None => None,
        Some((Part::Whole, _)) => None,
        Some((Part::First, _)) => None,
        Some((Part::Middle, _)) => Some(Some(number.wrapping_add(1))),
        Some((Part::Last, _)) => Some(None),
    }
}

// Whether the message of the packet of this span may be whole. The packets before it and behind it
// are looked at in turn, one of each, up to the first where the message breaks off. So at most twice
// as many are looked at as its shorter side has up to there, and two more.
fn may_be_whole(pool: &Pool, span: Span) -> bool
    ensures { result ≡ false → messages_with (map heard pool.now.kept) span.packet_id span.number ≡ [] }
{
    let most = pool.held();
    let (mut before, mut after) = match sides_of(pool, span) {
        Some(sides) => sides,
        None => return false,
    };
    for _step in 0..most {
        before = match step_back(pool, span.packet_id, before) {
            Some(before) => before,
            None => return false,
        };
        after = match step_on(pool, span.packet_id, after) {
            Some(after) => after,
            None => return false,
        };
        if before.is_none() && after.is_none() {
            return true;
        }
    }
    true
}

// The message that the packet of this span is a part of.
fn whole_message_of<'a>(pool: &'a Pool, span: Span) -> Option<MessageParts<'a>>
    ensures message { messages_with (map heard pool.now.kept) span.packet_id span.number ≡ option_to_list (option_map message_of result) }
    ensures short { (h : Heard) → h.packet_id ≡ span.packet_id → h.number ≡ span.number
        → part_messages (map heard pool.now.kept) h ≡ short_bytes (option_to_list (option_map message_of result)) }
{
    if !may_be_whole(pool, span) {
        return None;
    }
    // Each part has two bytes and more of payload, so there are fewer parts than bytes.
    let most = pool.held();
    let (first, bytes) = match first_part(pool, span, most) {
        Some(found) => found,
        None => return None,
    };
    let next = Span {
        packet_id: span.packet_id,
        number: first.wrapping_add(1),
    };
    match rest_of(pool, next, most) {
        None => None,
        Some((count, length)) => Some(MessageParts {
            pool,
            packet_id: span.packet_id,
            first,
            bytes,
            number: next.number,
            left: count + 1,
            total: length + bytes.len() as u32,
        }),
    }
}

impl Runs {
    ghost use Rattle.std.specs.Prelude.{◌≡◌, map, option_map, option_to_list};
    ghost use Rattle.mmt_model.specs.Packets.{Heard};
    ghost use Rattle.mmt_model.specs.Units.{part_messages};
    ghost use Rattle.mmt_runs.specs.Reading.{heard};
    ghost use Rattle.mmt_runs.specs.Messages.{messages_with, message_of, short_bytes};

    /// The message in parts that the signalling packet of this span is a part of, of any length,
    /// lent from the pool; `None` where it is not whole there. It takes no memory (ISO/IEC 23008-1,
    /// the fragmentation indicator of a signalling payload).
    pub fn whole_message<'a>(&self, pool: &'a Pool, span: Span) -> Option<MessageParts<'a>>
        ensures message { messages_with (map heard pool.now.kept) span.packet_id span.number ≡ option_to_list (option_map message_of result) }
        ensures short { (h : Heard) → h.packet_id ≡ span.packet_id → h.number ≡ span.number
            → part_messages (map heard pool.now.kept) h ≡ short_bytes (option_to_list (option_map message_of result)) }
    {
        whole_message_of(pool, span)
    }
}

impl<'a> MessageParts<'a> {
    ghost use Rattle.std.specs.Prelude.{◌≡◌, length};
    ghost use Rattle.mmt_model.specs.Units.{joined};
    ghost use Rattle.mmt_runs.specs.MessageParts.{Lends};

    /// How many bytes the parts have together that are not lent yet.
    pub fn length(&self) -> u32
        ensures { result ≡ length (joined self.now.left) }
    {
        self.total
    }

    /// Lends the next part; `None` where none is left.
    pub fn next(&mut self) -> Option<&'a [u8]>
        ensures { Lends self.old result self.new }
    {
        if self.left == 0 {
            return None;
        }
        let bytes = self.bytes;
        let span = Span {
            packet_id: self.packet_id,
            number: self.number,
        };
        self.bytes = next_bytes(self.pool, span);
        self.number = self.number.wrapping_add(1);
        self.left -= 1;
        self.total -= bytes.len() as u32;
        Some(bytes)
    }
}

// The bytes of the part in the packet of this span, and none where there is no part.
fn next_bytes<'a>(pool: &'a Pool, span: Span) -> &'a [u8]
    ensures { result.now ≡ part_bytes (lone_at (packet_at (map heard pool.now.kept) span.packet_id span.number)) }
{
    match lone_part(pool, span) {
        Some((_, bytes)) => bytes,
        None => &[],
    }
}
