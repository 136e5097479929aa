//! The command `take` over the worked stream: its units, its notes and its last line.

use crate::run::{run, run_within};
use crate::status::Status;
use crate::tests::words;
use crate::worked::{LENGTH, PACKETS, stream};
use mmt_io::{CallKind, FailAt, MemoryPort, MemoryShelf};
use mmt_stream::BrokenKind;
use std::alloc::{AllocError, Global};
use std::test::Fail;

// The heads of the records of the two units.
const FIRST: [u8; 34] = [
    0x55, 0x01, 0x01, 0x00, 0x00, 0x00, 0x03, 0xE8, 0x80, 0x00, 0x00, 0x00, 0x00, 0x00, 0x00, 0x07,
    0x00, 0x00, 0x00, 0x01, 0x00, 0x00, 0x00, 0x01, 0x00, 0x00, 0x00, 0x00, 0x00, 0x00, 0x00, 0x00,
    0x0B, 0xB8,
];

const SECOND: [u8; 34] = [
    0x55, 0x01, 0x01, 0x00, 0x00, 0x00, 0x03, 0xE8, 0x88, 0x8A, 0xB7, 0xC6, 0x00, 0x00, 0x00, 0x07,
    0x00, 0x00, 0x00, 0x01, 0x00, 0x00, 0x00, 0x02, 0x00, 0x00, 0x00, 0x00, 0x00, 0x00, 0x00, 0x00,
    0x01, 0xF4,
];

// The second unit with the time of the first.
const SECOND_AT_ONCE: [u8; 34] = [
    0x55, 0x01, 0x01, 0x00, 0x00, 0x00, 0x03, 0xE8, 0x80, 0x00, 0x00, 0x00, 0x00, 0x00, 0x00, 0x07,
    0x00, 0x00, 0x00, 0x01, 0x00, 0x00, 0x00, 0x02, 0x00, 0x00, 0x00, 0x00, 0x00, 0x00, 0x00, 0x00,
    0x01, 0xF4,
];

/// The units of which records are written.
#[derive(Clone, Copy)]
pub(crate) enum Units {
    Neither,
    First,
    Second,
    Both,
    BothAtOnce,
}

// Adds a record: its head, and N bytes of the file from a place on.
fn add(out: &mut Vec<u8>, head: &[u8; 34], from: u32, length: u32) -> Result<(), AllocError> {
    out.extend_from_slice(head)?;
    for place in 0..length {
        out.push((from.saturating_add(place) % 251) as u8)?;
    }
    Ok(())
}

/// The records of these units.
pub(crate) fn records(alloc: Global, units: Units) -> Result<Vec<u8>, AllocError> {
    let mut out = Vec::new(alloc);
    match units {
        Units::Neither => {}
        Units::First => add(&mut out, &FIRST, 0, 3000)?,
        Units::Second => add(&mut out, &SECOND, 3000, 500)?,
        Units::Both => {
            add(&mut out, &FIRST, 0, 3000)?;
            add(&mut out, &SECOND, 3000, 500)?;
        }
        Units::BothAtOnce => {
            add(&mut out, &FIRST, 0, 3000)?;
            add(&mut out, &SECOND_AT_ONCE, 3000, 500)?;
        }
    }
    Ok(out)
}

/// What `take` is to answer, write and note.
#[derive(Clone, Copy)]
pub(crate) struct Wanted<'a> {
    pub(crate) status: Status,
    pub(crate) units: Units,
    pub(crate) notes: &'a str,
}

/// Whether `take` with these words does so with the input.
pub(crate) fn takes(
    alloc: Global,
    texts: &[&str],
    input: Vec<u8>,
    wanted: Wanted<'_>,
) -> Result<bool, Fail> {
    let words = words(alloc, texts)?;
    let mut port = MemoryPort::new(alloc, input, 100, 10_000, Vec::new(alloc))?;
    let mut shelf = MemoryShelf::new(alloc, Vec::new(alloc));
    let status = run(alloc, &words, &mut port, &mut shelf);
    let records = records(alloc, wanted.units)?;
    Ok(
        status == wanted.status
            && port.written() == records.as_slice()
            && port.noted() == wanted.notes.as_bytes(),
    )
}

/// These packets of the worked stream, one after the other.
pub(crate) fn packets(alloc: Global, numbers: &[usize]) -> Result<Vec<u8>, Fail> {
    let all = stream(alloc)?;
    let mut out = Vec::new(alloc);
    for number in numbers {
        let (place, length) = PACKETS.get(*number).copied().ok_or("packet")?;
        let packet = all.get(place..place.saturating_add(length)).ok_or("short")?;
        out.extend_from_slice(packet)?;
    }
    Ok(out)
}

// Packets that come in, and what is wanted.
struct Case {
    texts: &'static [&'static str],
    packets: &'static [usize],
    units: Units,
    notes: &'static str,
}

const CASES: [Case; 6] = [
    Case {
        texts: &["take"],
        packets: &[0, 1, 2, 3, 4, 5],
        units: Units::Both,
        notes: "units 2 bytes 3500 peak 3689\n",
    },
    Case {
        texts: &["take"],
        packets: &[0, 1, 4, 4, 2, 2, 3, 3, 5],
        units: Units::Both,
        notes: "429 repeat\n2111 repeat\n5077 repeat\nunits 2 bytes 3500 peak 3689\n",
    },
    Case {
        texts: &["take"],
        packets: &[0, 2, 3, 4, 5],
        units: Units::Neither,
        notes: "units 0 bytes 0 peak 3607\n",
    },
    Case {
        texts: &["take"],
        packets: &[1, 0, 1, 2, 3, 4, 5],
        units: Units::Both,
        notes: "4 ctx-none 1\nunits 2 bytes 3500 peak 3689\n",
    },
    Case {
        texts: &["take", "--bound", "3999"],
        packets: &[0, 1, 2, 3, 4, 5],
        units: Units::Neither,
        notes: "61 hrbm-bound 0 0 4000 3999\nunits 0 bytes 0 peak 0\n",
    },
    Case {
        texts: &["take", "--assume", "65536:1000"],
        packets: &[3, 1, 2, 4, 5],
        units: Units::Both,
        notes: "units 2 bytes 3500 peak 3670\n",
    },
];

#[test]
fn takes_packets_in_many_orders(rt: HostRuntime) -> Result<(), Fail> {
    let alloc = rt.alloc();
    for case in &CASES {
        let wanted = Wanted {
            status: Status::Done,
            units: case.units,
            notes: case.notes,
        };
        let input = packets(alloc, case.packets)?;
        assert!(rt; takes(alloc, case.texts, input, wanted)?);
    }
    assert_eq!(rt; records(alloc, Units::Both)?.len(), 3568);
    Ok(())
}

#[test]
fn takes_a_stream_that_is_cut(rt: HostRuntime) -> Result<(), Fail> {
    let alloc = rt.alloc();
    let all = stream(alloc)?;
    let input = Vec::from_slice(alloc, all.get(..LENGTH - 1).ok_or("short")?)?;
    let wanted = Wanted {
        status: Status::Broken {
            kind: BrokenKind::Cut,
            place: 3346,
        },
        units: Units::First,
        notes: "units 1 bytes 3000 peak 3167\n",
    };
    assert!(rt; takes(alloc, &["take"], input, wanted)?);
    Ok(())
}

// The first call of a kind that fails, the most bytes that are read, and what is answered and written. Nothing is noted.
const ENDS: [(Option<CallKind>, u64, Status, Units); 3] = [
    (
        Some(CallKind::Write),
        1 << 40,
        Status::WriteFault,
        Units::Neither,
    ),
    (
        Some(CallKind::Note),
        1 << 40,
        Status::WriteFault,
        Units::Both,
    ),
    (None, 3886, Status::TooLong, Units::Neither),
];

#[test]
fn ends_where_a_call_fails_or_the_limit_is_passed(rt: HostRuntime) -> Result<(), Fail> {
    let alloc = rt.alloc();
    let words = words(alloc, &["take"])?;
    for (failing, limit, ends, units) in ENDS {
        if limit > 1 << 40 {
            continue;
        }
        let mut calls = Vec::new(alloc);
        if let Some(kind) = failing {
            calls.push(FailAt {
                kind,
                number: 0,
                through: 0,
            })?;
        }
        let mut port = MemoryPort::new(alloc, stream(alloc)?, 100, 10_000, calls)?;
        let mut shelf = MemoryShelf::new(alloc, Vec::new(alloc));
        let status = run_within(alloc, &words, &mut port, &mut shelf, limit);
        let records = records(alloc, units)?;
        assert_eq!(rt; status, ends);
        assert_eq!(rt; port.written(), records.as_slice());
        assert_eq!(rt; port.noted().len(), 0);
    }
    Ok(())
}

// Bytes at places that are changed, and what is wanted.
struct Damage {
    changes: [(usize, u8); 2],
    units: Units,
    notes: &'static str,
}

const DAMAGES: [Damage; 14] = [
    Damage {
        changes: [(182, 0x01), (182, 0x01)],
        units: Units::Second,
        notes: "182 ip4\nunits 1 bytes 500 peak 2267\n",
    },
    Damage {
        changes: [(182, 0x05), (182, 0x05)],
        units: Units::Second,
        notes: "182 tlv-kind 5\nunits 1 bytes 500 peak 2267\n",
    },
    Damage {
        changes: [(185, 0x01), (185, 0x01)],
        units: Units::Second,
        notes: "185 ctx-none 17\nunits 1 bytes 500 peak 2267\n",
    },
    Damage {
        changes: [(187, 0x20), (187, 0x20)],
        units: Units::Second,
        notes: "187 ctx-kind 32\nunits 1 bytes 500 peak 2267\n",
    },
    Damage {
        changes: [(188, 0x08), (188, 0x08)],
        units: Units::Second,
        notes: "188 mmtp-fec 1\nunits 1 bytes 500 peak 2267\n",
    },
    Damage {
        changes: [(188, 0x40), (188, 0x40)],
        units: Units::Second,
        notes: "188 mmtp-version 1\nunits 1 bytes 500 peak 2267\n",
    },
    Damage {
        changes: [(189, 0x03), (189, 0x03)],
        units: Units::Second,
        notes: "189 mmtp-kind 3\nunits 1 bytes 500 peak 2267\n",
    },
    Damage {
        changes: [(189, 0x01), (189, 0x01)],
        units: Units::Second,
        notes: "188 generic\nunits 1 bytes 500 peak 2267\n",
    },
    Damage {
        changes: [(201, 0x8D), (201, 0x8D)],
        units: Units::Second,
        notes: "200 mpu-length\nunits 1 bytes 500 peak 2267\n",
    },
    Damage {
        changes: [(202, 0x1A), (202, 0x1A)],
        units: Units::Second,
        notes: "202 mpu-metadata 1\nunits 1 bytes 500 peak 2267\n",
    },
    Damage {
        changes: [(202, 0x2B), (202, 0x2B)],
        units: Units::Second,
        notes: "202 mpu-aggregated-part\nunits 1 bytes 500 peak 2267\n",
    },
    Damage {
        changes: [(135, 0xFF), (135, 0xFF)],
        units: Units::Neither,
        notes: "99 mpt-clock 0 34 0\nunits 0 bytes 0 peak 3689\n",
    },
    Damage {
        changes: [(163, 0), (164, 0)],
        units: Units::BothAtOnce,
        notes: "99 times-timescale 0 59\nunits 2 bytes 3500 peak 3689\n",
    },
    Damage {
        changes: [(192, 0x13), (192, 0x13)],
        units: Units::Neither,
        notes: "1671 late 333971656\n3112 late 333971656\n3353 late 333971656\nunits 0 bytes 0 peak 1422\n",
    },
];

// The worked stream with these bytes.
fn damaged(alloc: Global, changes: [(usize, u8); 2]) -> Result<Vec<u8>, Fail> {
    let mut bytes = stream(alloc)?;
    for (place, byte) in changes {
        *bytes.get_mut(place).ok_or("short")? = byte;
    }
    Ok(bytes)
}

#[test]
fn notes_what_is_damaged(rt: HostRuntime) -> Result<(), Fail> {
    let alloc = rt.alloc();
    for damage in &DAMAGES {
        let wanted = Wanted {
            status: Status::Done,
            units: damage.units,
            notes: damage.notes,
        };
        let input = damaged(alloc, damage.changes)?;
        assert!(rt; takes(alloc, &["take"], input, wanted)?);
    }
    Ok(())
}
