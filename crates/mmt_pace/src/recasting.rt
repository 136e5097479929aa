//! A cast whose packets are sent in slots.

ghost use Rattle.std.specs.Prelude.{◌≡◌, length, map, IfOk};
ghost use Rattle.mmt_cast.specs.Casting.{has_unit};
ghost use Rattle.mmt_cast.specs.Placing.{map_from};
ghost use Rattle.mmt_casting.specs.Named.{AreNamed};
ghost use Rattle.mmt_model.specs.declared.casts.Sent.{Sent as Packet};
ghost use Rattle.mmt_pace.specs.Asked.{AreGiven, CanBePaced, IsRow};
ghost use Rattle.mmt_pace.specs.Recast.{copy_in_packets, mpu_named_by, paced_by, unit_in_packets};
ghost use Rattle.mmt_pace.specs.Spanned.{AreCopySpans, AreSpans, first_in, last_in};

use crate::spans::{Span, Things, spans_of};
use crate::timing::{put_in_order, retimed};
use mmt_base::{LongTick, OutOfMemory};
use mmt_casting::named_from;
use mmt_model::{Cast, List, SentMpu, SentUnit, TableCopy};
use mmt_slots::Slots;
use std::alloc::Global;

/// The first timestamp of a span, 0 where there is none.
fn first_of(span: Option<Span>) -> LongTick
    ensures { result.0 ≡ first_in span }
{
    match span {
        None => LongTick(0),
        Some(span) => span.first,
    }
}

/// The last timestamp of a span, 0 where there is none.
fn last_of(span: Option<Span>) -> LongTick
    ensures { result.0 ≡ last_in span }
{
    match span {
        None => LongTick(0),
        Some(span) => span.last,
    }
}

/// These units with their spans.
fn units_between(
    alloc: Global,
    units: &[SentUnit],
    spans: &[Option<Span>],
) -> Result<Vec<SentUnit>, OutOfMemory>
    requires { length spans.now ≡ length units.now }
    ensures { IfOk result (λ new. (packets : List Packet) → AreSpans (length units.now) has_unit packets spans.now →
        new.items ≡ map_from (unit_in_packets packets) 0 units.now) }
{
    let mut between = Vec::with_capacity(alloc, units.len())?;
    for n in 0..units.len() {
        between.push(SentUnit {
            first: first_of(spans[n]),
            last: last_of(spans[n]),
            ..units[n]
        })?;
    }
    Ok(between)
}

/// The same places once more.
fn copied(alloc: Global, names: &[u32]) -> Result<List<u32>, OutOfMemory>
    ensures { IfOk result (λ list. list ≡ names.now) }
{
    let mut list = List::new(alloc);
    for i in 0..names.len() {
        list.push(names[i])?;
    }
    Ok(list)
}

/// These table copies with their spans.
fn copies_between(
    alloc: Global,
    copies: &[TableCopy],
    spans: &[Option<Span>],
) -> Result<Vec<TableCopy>, OutOfMemory>
    requires { length spans.now ≡ length copies.now }
    ensures { IfOk result (λ new. (packets : List Packet) → AreCopySpans copies.now packets spans.now →
        new.items ≡ map (copy_in_packets packets) copies.now) }
{
    let mut between = Vec::with_capacity(alloc, copies.len())?;
    for n in 0..copies.len() {
        let copy = &copies[n];
        between.push(TableCopy {
            signal: copy.signal,
            names: copied(alloc, copy.names.as_slice())?,
            first: first_of(spans[n]),
            last: last_of(spans[n]),
            first_number: copy.first_number,
            count: copy.count,
        })?;
    }
    Ok(between)
}

/// These MPUs with the ticks from which they are named.
fn mpus_named(
    alloc: Global,
    mpus: &[SentMpu],
    named: &[Option<LongTick>],
) -> Result<Vec<SentMpu>, OutOfMemory>
    requires { length named.now ≡ length mpus.now }
    ensures { IfOk result (λ new. (copies : List TableCopy) → AreNamed (length mpus.now) copies named.now →
        new.items ≡ map_from (mpu_named_by copies) 0 mpus.now) }
{
    let mut all = Vec::with_capacity(alloc, mpus.len())?;
    for n in 0..mpus.len() {
        all.push(SentMpu {
            named_from: named[n],
            ..mpus[n]
        })?;
    }
    Ok(all)
}

/// The cast whose packets are sent in the slots that are given to them, by their places: each timestamp is the tick of
/// its slot (ticks of 1/65536 second), the packets stand in the order of a cast, the first and the last timestamp of
/// each unit and of each table copy are those of its packets, and each MPU is named from the least tick at which a copy
/// that names it ends. Numbers, lengths and due ticks stay.
///
/// It asks for a cast as right programmes have, and for one slot of the row for each packet, all different. Its time is
/// n log n, and its memory in proportion to the cast.
///
/// # Errors
///
/// `OutOfMemory`.
pub fn paced(
    alloc: Global,
    cast: &Cast,
    given: &List<u32>,
    slots: &Slots,
) -> Result<Cast, OutOfMemory>
    requires cast { CanBePaced cast.now }
    requires row { IsRow slots.now }
    requires given { AreGiven (length cast.now.packets) slots.now given.now }
    ensures { IfOk result (λ new. new ≡ paced_by slots.now given.now cast.now) }
{
    let mut packets = retimed(alloc, cast.packets.as_slice(), given.as_slice(), slots)?;
    let spans = spans_of(alloc, cast, Things::Units, packets.as_slice())?;
    let units = units_between(alloc, cast.units.as_slice(), spans.as_slice())?;
    let spans = spans_of(alloc, cast, Things::Copies, packets.as_slice())?;
    let copies = copies_between(alloc, cast.copies.as_slice(), spans.as_slice())?;
    let named = named_from(alloc, cast.mpus.len(), copies.as_slice())?;
    let mpus = mpus_named(alloc, cast.mpus.as_slice(), named.as_slice())?;
    put_in_order(&mut packets)?;
    Ok(Cast {
        params: cast.params,
        packets: List::from_vec(packets),
        units: List::from_vec(units),
        mpus: List::from_vec(mpus),
        copies: List::from_vec(copies),
    })
}
