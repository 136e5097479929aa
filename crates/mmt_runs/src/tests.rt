//! Which units are found, in which order, and what is lent of them.

ghost use Rattle.std.specs.Prelude.{◌<◌, ◌^◌, length};

use crate::{Runs, UnitOrder, UnitParts};
use mmt_base::{Ntp, OutOfMemory, Tick};
use mmt_model::UnitKey;
use mmt_mpt::read_mpt;
use mmt_packet::{Kind, Packet};
use mmt_pool::{NotStored, Pool, Span};
use mmt_times::{Learned, Named, Names, entries_of};
use std::alloc::Global;
use std::process::Abort;
use std::test::Fail;

// The flags of payloads that are not aggregated, of timed media: whole, and parts.
const WHOLE: u8 = 0x28;

const FIRST: u8 = 0x2a;

const MIDDLE: u8 = 0x2c;

const LAST: u8 = 0x2e;

// A payload with one byte of a sample of timed media, of priority 5 and dependency 6.
fn timed(flags: u8, mpu: u32, sample: u32, byte: u8) -> [u8; 23] {
    let mut payload =
        *b"\x00\x15\x00\x00\x00\x00\x00\x00\x00\x00\x00\x01\x00\x00\x00\x00\x00\x00\x00\x00\x05\x06\x00";
    payload[2] = flags;
    payload[4..8].copy_from_slice(&mpu.to_be_bytes());
    payload[12..16].copy_from_slice(&sample.to_be_bytes());
    payload[22] = byte;
    payload
}

// A payload with one byte of an item.
fn item(flags: u8, mpu: u32, byte: u8) -> [u8; 13] {
    let mut payload = *b"\x00\x0b\x00\x00\x00\x00\x00\x00\x00\x00\x00\x09\x00";
    payload[2] = flags;
    payload[4..8].copy_from_slice(&mpu.to_be_bytes());
    payload[12] = byte;
    payload
}

// A table that names an MPU of a packet id, with the time of this tick.
fn table(packet_id: u16, mpu: u32, tick: u32) -> [u8; 44] {
    let mut table =
        *b"\x20\x00\x00\x28\xfc\x02p1\x00\x00\x01\x00\x00\x00\x00\x00\x01vhev1\xfe\x01\x00\x00\x00\x00\x0f\x00\x01\x0c\x00\x00\x00\x00\x00\x00\x00\x00\x00\x00\x00\x00";
    table[25..27].copy_from_slice(&packet_id.to_be_bytes());
    table[32..36].copy_from_slice(&mpu.to_be_bytes());
    table[36..44].copy_from_slice(&((tick as u64) << 16).to_be_bytes());
    table
}

// A pool with its runs and names.
#[derive(Drop)]
struct Kept {
    pool: Pool,
    names: Names,
    runs: Runs,
}

// Nothing is kept and nothing is named.
fn nothing(alloc: Global) -> Result<Kept, OutOfMemory> {
    Ok(Kept {
        pool: Pool::new(alloc, 4000)?,
        names: Names::new(alloc, 1)?,
        runs: Runs::new(alloc),
    })
}

// Keeps an MPU packet of this span.
fn keep(kept: &mut Kept, span: Span, payload: &[u8]) -> Result<(), NotStored>
    requires { length payload.now < 2 ^ 31 }
{
    let packet = Packet {
        counter: None,
        rap: false,
        reserved: 0,
        kind: Kind::Mpu,
        packet_id: span.packet_id,
        time: Tick(100),
        number: span.number,
        extension: None,
        payload,
    };
    let span = kept.pool.store(Tick(100), 100, payload, 0, &packet)?;
    match kept.runs.added(&kept.pool, span, &kept.names) {
        Ok(()) => Ok(()),
        Err(_) => Err(NotStored::OutOfMemory),
    }
}

// Learns that an MPU of a packet id has the time of this tick.
fn name(rt: &impl Abort, kept: &mut Kept, packet_id: u16, mpu: u32, tick: u32) {
    let table = table(packet_id, mpu, tick);
    assert!(rt; table[0] == 0x20);
    let mpt = match read_mpt(&table) {
        Ok(mpt) => mpt,
        Err(_) => panic!(rt; "no table"),
    };
    let learned = match entries_of(&mpt, 1).next() {
        Some(Named::Entry(entry)) => kept.names.learn(Tick(100), &entry),
        _ => panic!(rt; "no entry"),
    };
    assert_eq!(rt; learned, Learned::New);
    let told = kept.runs.named(&kept.pool, &kept.names, packet_id, mpu);
    assert_eq!(rt; told, Ok(()));
}

// The parts of a unit, joined.
fn joined(alloc: Global, unit: UnitParts<'_>) -> Result<Vec<u8>, OutOfMemory> {
    let mut unit = unit;
    let mut bytes = Vec::new(alloc);
    'parts: while let Some(part) = unit.next() {
        bytes.extend_from_slice(part)?;
    }
    Ok(bytes)
}

// The units, at most ten, that are due after one tick and at most at another, a bar after each.
fn due(alloc: Global, kept: &Kept, from: u32, to: u32) -> Result<Vec<u8>, OutOfMemory> {
    let mut bytes = Vec::new(alloc);
    let mut after: Option<UnitOrder> = None;
    for _ in 0..10 {
        let found = kept.runs.least_due(
            &kept.pool,
            &kept.names,
            after.as_ref(),
            Tick(from),
            Tick(to),
        );
        match found {
            None => return Ok(bytes),
            Some(unit) => {
                after = Some(unit.order());
                let unit = joined(alloc, unit)?;
                bytes.extend_from_slice(&unit)?;
                bytes.push(b'|')?;
            }
        }
    }
    Ok(bytes)
}

fn span(packet_id: u16, number: u32) -> Span {
    Span { packet_id, number }
}

#[test]
fn units_come_by_time_and_not_as_they_arrived(rt: HostRuntime) -> Result<(), Fail> {
    let mut kept = nothing(rt.alloc())?;
    name(&rt, &mut kept, 1, 7, 3000);
    name(&rt, &mut kept, 2, 8, 2000);
    assert_eq!(rt;
        keep(&mut kept, span(1, 5), &timed(WHOLE, 7, 1, b'a')),
        Ok(())
    );
    assert_eq!(rt;
        keep(&mut kept, span(2, 9), &timed(WHOLE, 8, 1, b'b')),
        Ok(())
    );
    let bytes = due(rt.alloc(), &kept, 100, 3000)?;
    assert_eq!(rt; bytes.as_slice(), b"b|a|".as_slice());
    Ok(())
}

#[test]
fn three_parts_are_one_unit(rt: HostRuntime) -> Result<(), Fail> {
    let mut kept = nothing(rt.alloc())?;
    assert_eq!(rt;
        keep(&mut kept, span(1, 7), &timed(LAST, 7, 1, b'c')),
        Ok(())
    );
    assert_eq!(rt;
        keep(&mut kept, span(1, 5), &timed(FIRST, 7, 1, b'a')),
        Ok(())
    );
    name(&rt, &mut kept, 1, 7, 2000);
    let bytes = due(rt.alloc(), &kept, 100, 3000)?;
    assert_eq!(rt; bytes.as_slice(), b"".as_slice());
    assert_eq!(rt;
        keep(&mut kept, span(1, 6), &timed(MIDDLE, 7, 1, b'b')),
        Ok(())
    );
    let bytes = due(rt.alloc(), &kept, 100, 3000)?;
    assert_eq!(rt; bytes.as_slice(), b"abc|".as_slice());
    kept.runs.removed(span(1, 6));
    assert!(rt; kept.pool.expire_one(Tick(200), 100).is_some());
    Ok(())
}

#[test]
fn a_unit_has_its_place_and_its_ranks(rt: HostRuntime) -> Result<(), Fail> {
    let mut kept = nothing(rt.alloc())?;
    name(&rt, &mut kept, 1, 7, 2000);
    assert_eq!(rt;
        keep(&mut kept, span(1, 5), &timed(FIRST, 7, 3, b'a')),
        Ok(())
    );
    assert_eq!(rt;
        keep(&mut kept, span(1, 6), &timed(LAST, 7, 3, b'b')),
        Ok(())
    );
    let order = UnitOrder {
        time: Ntp(2000 << 16),
        packet_id: 1,
        mpu: 7,
        key: UnitKey::Timed {
            movie_fragment: 1,
            sample: 3,
            offset: 0,
        },
        first_number: 5,
        place: 0,
    };
    match kept
        .runs
        .least_due(&kept.pool, &kept.names, None, Tick(100), Tick(2000))
    {
        Some(unit) => {
            assert_eq!(rt; unit.order(), order);
            assert_eq!(rt;
                (unit.priority(), unit.dependency(), unit.length()),
                (5, 6, 2)
            );
            let mut unit = unit;
            assert_eq!(rt; unit.next(), Some(b"a".as_slice()));
            assert_eq!(rt; unit.length(), 1);
            assert_eq!(rt; unit.next(), Some(b"b".as_slice()));
            assert_eq!(rt; unit.length(), 0);
            assert_eq!(rt; unit.next(), None);
        }
        None => panic!(rt; "no unit"),
    }
    let after = kept.runs.least_due(&kept.pool, &kept.names, Some(&order), Tick(100), Tick(2000));
    assert!(rt; after.is_none());
    Ok(())
}

#[test]
fn a_lost_number_breaks_a_run(rt: HostRuntime) -> Result<(), Fail> {
    let mut kept = nothing(rt.alloc())?;
    name(&rt, &mut kept, 1, 7, 2000);
    assert_eq!(rt;
        keep(&mut kept, span(1, 5), &timed(FIRST, 7, 1, b'a')),
        Ok(())
    );
    assert_eq!(rt;
        keep(&mut kept, span(1, 7), &timed(LAST, 7, 1, b'b')),
        Ok(())
    );
    let bytes = due(rt.alloc(), &kept, 100, 3000)?;
    assert_eq!(rt; bytes.as_slice(), b"".as_slice());
    assert_eq!(rt;
        keep(&mut kept, span(2, 6), &timed(MIDDLE, 7, 1, b'c')),
        Ok(())
    );
    let bytes = due(rt.alloc(), &kept, 100, 3000)?;
    assert_eq!(rt; bytes.as_slice(), b"".as_slice());
    Ok(())
}

#[test]
fn numbers_go_on_at_0(rt: HostRuntime) -> Result<(), Fail> {
    let mut kept = nothing(rt.alloc())?;
    name(&rt, &mut kept, 1, 7, 2000);
    assert_eq!(rt;
        keep(&mut kept, span(1, 4_294_967_295), &timed(FIRST, 7, 1, b'a')),
        Ok(())
    );
    assert_eq!(rt;
        keep(&mut kept, span(1, 0), &timed(MIDDLE, 7, 1, b'b')),
        Ok(())
    );
    assert_eq!(rt;
        keep(&mut kept, span(1, 1), &timed(LAST, 7, 1, b'c')),
        Ok(())
    );
    let bytes = due(rt.alloc(), &kept, 100, 3000)?;
    assert_eq!(rt; bytes.as_slice(), b"abc|".as_slice());
    Ok(())
}

#[test]
fn parts_agree_in_mpu_and_timed_flag(rt: HostRuntime) -> Result<(), Fail> {
    let mut kept = nothing(rt.alloc())?;
    name(&rt, &mut kept, 1, 7, 2000);
    name(&rt, &mut kept, 1, 8, 2000);
    assert_eq!(rt;
        keep(&mut kept, span(1, 5), &timed(FIRST, 7, 1, b'a')),
        Ok(())
    );
    assert_eq!(rt;
        keep(&mut kept, span(1, 6), &timed(LAST, 8, 1, b'b')),
        Ok(())
    );
    assert_eq!(rt;
        keep(&mut kept, span(1, 9), &timed(FIRST, 7, 1, b'c')),
        Ok(())
    );
    assert_eq!(rt; keep(&mut kept, span(1, 10), &item(0x26, 7, b'd')), Ok(()));
    let bytes = due(rt.alloc(), &kept, 100, 3000)?;
    assert_eq!(rt; bytes.as_slice(), b"".as_slice());
    Ok(())
}

#[test]
fn only_named_units_are_given(rt: HostRuntime) -> Result<(), Fail> {
    let mut kept = nothing(rt.alloc())?;
    assert_eq!(rt;
        keep(&mut kept, span(1, 5), &timed(WHOLE, 7, 1, b'a')),
        Ok(())
    );
    name(&rt, &mut kept, 1, 8, 2000);
    name(&rt, &mut kept, 2, 7, 2000);
    let bytes = due(rt.alloc(), &kept, 100, 3000)?;
    assert_eq!(rt; bytes.as_slice(), b"".as_slice());
    name(&rt, &mut kept, 1, 7, 2000);
    let bytes = due(rt.alloc(), &kept, 100, 3000)?;
    assert_eq!(rt; bytes.as_slice(), b"a|".as_slice());
    Ok(())
}

#[test]
fn an_item_comes_before_a_timed_unit(rt: HostRuntime) -> Result<(), Fail> {
    let mut kept = nothing(rt.alloc())?;
    name(&rt, &mut kept, 1, 7, 2000);
    assert_eq!(rt;
        keep(&mut kept, span(1, 5), &timed(WHOLE, 7, 1, b'a')),
        Ok(())
    );
    assert_eq!(rt; keep(&mut kept, span(1, 6), &item(0x20, 7, b'b')), Ok(()));
    let bytes = due(rt.alloc(), &kept, 100, 3000)?;
    assert_eq!(rt; bytes.as_slice(), b"b|a|".as_slice());
    Ok(())
}

#[test]
fn each_data_unit_of_a_packet_is_given(rt: HostRuntime) -> Result<(), Fail> {
    let three =
        b"\x00\x1c\x21\x05\x00\x00\x00\x09\x00\x05\x00\x00\x00\x03a\x00\x04\x00\x00\x00\x02\x00\x07\x00\x00\x00\x03bcd";
    let mut kept = nothing(rt.alloc())?;
    name(&rt, &mut kept, 1, 9, 2000);
    assert_eq!(rt; keep(&mut kept, span(1, 5), three), Ok(()));
    let bytes = due(rt.alloc(), &kept, 100, 3000)?;
    assert_eq!(rt; bytes.as_slice(), b"|a|bcd|".as_slice());
    Ok(())
}

#[test]
fn a_due_tick_is_after_the_first_and_at_most_at_the_last(rt: HostRuntime) -> Result<(), Fail> {
    let mut kept = nothing(rt.alloc())?;
    name(&rt, &mut kept, 1, 7, 2000);
    assert_eq!(rt;
        keep(&mut kept, span(1, 5), &timed(WHOLE, 7, 1, b'a')),
        Ok(())
    );
    let ranges: [(u32, u32, &[u8]); 4] = [
        (1999, 2000, b"a|"),
        (2000, 2001, b""),
        (1000, 1999, b""),
        (1000, 2000, b"a|"),
    ];
    for (from, to, want) in ranges {
        let bytes = due(rt.alloc(), &kept, from, to)?;
        assert_eq!(rt; bytes.as_slice(), want);
    }
    Ok(())
}

// Keeps `per` whole units of one byte of each of the MPUs from 0 on, of which all are named first.
fn keep_many(rt: &impl Abort, alloc: Global, mpus: u32, per: u32) -> Result<Kept, OutOfMemory> {
    let mut kept = Kept {
        pool: Pool::new(alloc, 4_000_000)?,
        names: Names::new(alloc, 1)?,
        runs: Runs::new(alloc),
    };
    for mpu in 0..mpus {
        name(rt, &mut kept, 1, mpu, 3000 + mpu % 16);
    }
    let mut number: u32 = 0;
    for mpu in 0..mpus {
        for sample in 0..per {
            let told = keep(&mut kept, span(1, number), &timed(WHOLE, mpu, sample, b'a'));
            assert_eq!(rt; told, Ok(()));
            number = number.wrapping_add(1);
        }
    }
    Ok(kept)
}

#[test]
fn drain_100000_units(rt: HostRuntime) -> Result<(), Fail> {
    let kept = keep_many(&rt, rt.alloc(), 400, 250)?;
    let mut after: Option<UnitOrder> = None;
    let mut count: u32 = 0;
    for _ in 0..100_001 {
        let found = kept.runs.least_due(
            &kept.pool,
            &kept.names,
            after.as_ref(),
            Tick(100),
            Tick(4000),
        );
        match found {
            Some(unit) => {
                after = Some(unit.order());
                count = count.wrapping_add(1);
            }
            None => break,
        }
    }
    assert_eq!(rt; count, 100_000);
    Ok(())
}
