//! The packets that units may begin in, and these units in the index.

ghost use Rattle.std.specs.Prelude.{◌≡◌, true, map, option_map, Some};
ghost use Rattle.mmt_mpu.specs.View.{view};
ghost use Rattle.mmt_pool.specs.declared.types.Span.{Span};
ghost use Rattle.mmt_pool.specs.Holding.{packet_at as kept_at};
ghost use Rattle.mmt_runs.specs.Index.{Begins, HasEach, HasKey, HasTimes, Keeps, at_span, spelled_at};
ghost use Rattle.mmt_runs.specs.Reading.{data_unit_of};

use crate::compare::numbers;
use crate::index::{Begun, Due, put};
use crate::links::media_bytes;
use crate::order::UnitOrder;
use mmt_model::{Part, UnitKey};
use mmt_mpu::{MpuPayload, read_mpu};
use mmt_pool::{Pool, Span};
use mmt_times::Names;
use std::collections::{BTreeMap, BTreeSet};

/// The payload of a kept packet that units may begin in: it has whole data units, or a first part.
pub(crate) fn begun_in<'a>(pool: &'a Pool, span: Span) -> Option<MpuPayload<'a>>
    ensures { Begins (spelled_at (kept_at pool.now.kept span.packet_id span.number)) (option_map view result) }
{
    let bytes = match media_bytes(pool, span) {
        Some(bytes) => bytes,
        None => return None,
    };
    let payload = match read_mpu(bytes) {
        Ok(payload) => payload,
        Err(_) => return None,
    };
    match payload.head().part {
        Part::Whole => Some(payload),
        Part::First => Some(payload),
        Part::Middle => None,
        Part::Last => None,
    }
}

// Puts a data unit into the index, where it has a time; whether there was memory for it.
fn put_unit(
    index: &mut BTreeSet<Due>,
    begun: &mut BTreeSet<Begun>,
    names: &Names,
    span: Span,
    mpu: u32,
    key: UnitKey,
    place: u32,
) -> bool
    ensures put { result ≡ true → HasKey index.new.keys names.now span mpu place key }
    ensures keeps { Keeps index.old.keys index.new.keys }
{
    let time = match names.time_of(span.packet_id, mpu, &key) {
        Some(time) => time,
        None => return true,
    };
    let order = UnitOrder {
        time,
        packet_id: span.packet_id,
        mpu,
        key,
        first_number: span.number,
        place,
    };
    let numbers = numbers(&order);
    put(index, begun, Due { numbers, span })
}

/// Puts a packet's data units into the index, where they have a time; whether there was memory for
/// them all.
pub(crate) fn put_units(
    index: &mut BTreeSet<Due>,
    begun: &mut BTreeSet<Begun>,
    names: &Names,
    span: Span,
    payload: &MpuPayload<'_>,
) -> bool
    ensures put { result ≡ true → HasEach index.new.keys names.now span (view payload.now).head.mpu 0 (map data_unit_of (view payload.now).units) }
    ensures keeps { Keeps index.old.keys index.new.keys }
{
    let mpu = payload.head().mpu;
    let count = payload.count();
    let mut place: u32 = 0;
    for unit in payload.units() {
        if !put_unit(index, begun, names, span, mpu, unit.key, place) {
            return false;
        }
        prove!(place < count);
        place += 1;
    }
    true
}

// Puts the units that may begin in a packet into the index, where they have a time; whether there
// was memory for them all.
fn put_start(
    index: &mut BTreeSet<Due>,
    begun: &mut BTreeSet<Begun>,
    pool: &Pool,
    names: &Names,
    span: Span,
) -> bool
    ensures put { result ≡ true → HasTimes index.new.keys names.now span (spelled_at (kept_at pool.now.kept span.packet_id span.number)) }
    ensures keeps { Keeps index.old.keys index.new.keys }
{
    match begun_in(pool, span) {
        Some(payload) => put_units(index, begun, names, span, &payload),
        None => true,
    }
}

/// Puts the units of a packet id and MPU into the index, where they have a time; whether there was
/// memory for them all.
pub(crate) fn put_named(
    index: &mut BTreeSet<Due>,
    begun: &mut BTreeSet<Begun>,
    starts: &BTreeMap<Span, u32>,
    pool: &Pool,
    names: &Names,
    packet_id: u16,
    mpu: u32,
) -> bool
    ensures put { result ≡ true → (s : Span) → s.packet_id ≡ packet_id → at_span starts.now.entries s ≡ Some mpu → HasTimes index.new.keys names.now s (spelled_at (kept_at pool.now.kept s.packet_id s.number)) }
    ensures keeps { Keeps index.old.keys index.new.keys }
{
    for (span, start) in starts {
        if span.packet_id == packet_id && *start == mpu {
            if !put_start(index, begun, pool, names, *span) {
                return false;
            }
        }
    }
    true
}
