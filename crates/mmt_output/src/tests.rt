//! The text of each note, and the headers of records.

use crate::headers::header;
use crate::{Note, Untold, tell};
use mmt_base::{Ntp, Tick};
use mmt_hear::Why;
use mmt_io::{CallKind, FailAt, MemoryPort};
use mmt_model::UnitKey;
use mmt_mpt::MptWhy;
use mmt_mpu::MpuWhy;
use mmt_runs::UnitOrder;
use mmt_sig::{MessageWhy, SigWhy};
use mmt_times::TimesWhy;
use std::alloc::Global;
use std::test::Fail;

// A port without input, of which the calls in a list fail.
fn port(alloc: Global, failing: &[FailAt]) -> Result<MemoryPort, Fail> {
    let failing = Vec::from_slice(alloc, failing)?;
    Ok(MemoryPort::new(alloc, Vec::new(alloc), 1000, 100_000, failing)?)
}

// The lines of notes on the packet at place 1000, up to the first that fails.
fn lines(alloc: Global, notes: &[Note]) -> Result<Vec<u8>, Fail> {
    let mut port = port(alloc, &[])?;
    for note in notes {
        if tell(alloc, &mut port, 1000, note).is_err() {
            break;
        }
    }
    Ok(Vec::from_slice(alloc, port.noted())?)
}

#[test]
fn notes_on_packets(rt: HostRuntime) -> Result<(), Fail> {
    let notes = [
        Note::Hearing(Why::Ip4),
        Note::Hearing(Why::TlvKind(5)),
        Note::Hearing(Why::CtxNone(258)),
        Note::Generic,
        Note::Elsewhere,
        Note::Mpu(MpuWhy::Metadata(1)),
        Note::Mpu(MpuWhy::AggregatedPart),
        Note::Signalling(SigWhy::Overrun),
        Note::Late {
            clock: Tick(4_294_967_295),
        },
        Note::Repeat,
        Note::Full {
            held: 2844,
            length: 222,
        },
    ];
    let want =
        b"1000 ip4\n1000 tlv-kind 5\n1000 ctx-none 258\n1000 generic\n1000 elsewhere\n1000 mpu-metadata 1\n1000 mpu-aggregated-part\n1000 sig-overrun\n1000 late 4294967295\n1000 repeat\n1000 full 2844 222\n";
    assert_eq!(rt; lines(rt.alloc(), &notes)?.as_slice(), want.as_slice());
    Ok(())
}

#[test]
fn notes_on_messages(rt: HostRuntime) -> Result<(), Fail> {
    let notes = [
        Note::MessageLong {
            message: 0,
            length: 131_073,
        },
        Note::Message {
            message: 2,
            at: 7,
            why: MessageWhy::Short,
        },
        Note::Message {
            message: 1,
            at: 5,
            why: MessageWhy::Length,
        },
        Note::Message {
            message: 3,
            at: 10,
            why: MessageWhy::HrbmValues,
        },
        Note::HrbmBound {
            message: 4,
            bound: 5000,
            allowed: 3065,
        },
        Note::HrbmDiffers { message: 6 },
    ];
    let want =
        b"1000 message-long 0 0 131073\n1000 message-short 2 7\n1000 message-length 1 5\n1000 hrbm-values 3 10\n1000 hrbm-bound 4 0 5000 3065\n1000 hrbm-differs 6 0\n";
    assert_eq!(rt; lines(rt.alloc(), &notes)?.as_slice(), want.as_slice());
    Ok(())
}

// A note on the MPT of message 2.
fn mpt(at: u32, why: MptWhy) -> Note {
    Note::Mpt {
        message: 2,
        at,
        why,
    }
}

// A note on the times of message 2.
fn times(at: u32, why: TimesWhy) -> Note {
    Note::Times {
        message: 2,
        at,
        why,
    }
}

#[test]
fn notes_on_tables(rt: HostRuntime) -> Result<(), Fail> {
    let notes = [
        mpt(20, MptWhy::Short),
        mpt(21, MptWhy::Length),
        mpt(22, MptWhy::ClockRelation(3)),
        mpt(23, MptWhy::LocationKind(9)),
        times(24, TimesWhy::Length),
        times(25, TimesWhy::OffsetType),
        times(26, TimesWhy::TimescaleZero),
        times(27, TimesWhy::Range),
        Note::NamesDiffer {
            message: 2,
            packet_id: 256,
            mpu: 7,
        },
        Note::NamesFull {
            message: 2,
            packet_id: 257,
            mpu: 4_294_967_295,
        },
    ];
    let want =
        b"1000 mpt-short 2 20\n1000 mpt-length 2 21\n1000 mpt-clock 2 22 3\n1000 mpt-location 2 23 9\n1000 times-length 2 24\n1000 times-offset-type 2 25\n1000 times-timescale 2 26\n1000 times-range 2 27\n1000 names-differ 2 0 256 7\n1000 names-full 2 0 257 4294967295\n";
    assert_eq!(rt; lines(rt.alloc(), &notes)?.as_slice(), want.as_slice());
    Ok(())
}

#[test]
fn a_note_that_fails_leaves_a_start_of_its_line(rt: HostRuntime) -> Result<(), Fail> {
    let failing = FailAt {
        kind: CallKind::Note,
        number: 0,
        through: 4,
    };
    let mut port = port(rt.alloc(), &[failing])?;
    assert_eq!(rt;
        tell(rt.alloc(), &mut port, 12, &Note::Repeat),
        Err(Untold::WriteFault)
    );
    assert_eq!(rt; port.noted(), b"12 r".as_slice());
    Ok(())
}

// The header of the record of a unit of MPU 7 on packet id 256.
fn head(time: u64, key: UnitKey, length: u32) -> [u8; 34] {
    let order = UnitOrder {
        time: Ntp(time),
        packet_id: 256,
        mpu: 7,
        key,
        first_number: 5,
        place: 6,
    };
    header(&order, 0, 0, length)
}

#[test]
fn headers_of_two_samples_and_an_item(rt: HostRuntime) {
    let sample = |sample: u32| UnitKey::Timed {
        movie_fragment: 1,
        sample,
        offset: 0,
    };
    assert_eq!(rt;
        &head(4_297_114_779_648, sample(1), 3000),
        b"\x55\x01\x01\x00\x00\x00\x03\xe8\x80\x00\x00\x00\x00\x00\x00\x07\x00\x00\x00\x01\x00\x00\x00\x01\x00\x00\x00\x00\x00\x00\x00\x00\x0b\xb8"
    );
    assert_eq!(rt;
        &head(0x03E8_888A_B7C6, sample(2), 500),
        b"\x55\x01\x01\x00\x00\x00\x03\xe8\x88\x8a\xb7\xc6\x00\x00\x00\x07\x00\x00\x00\x01\x00\x00\x00\x02\x00\x00\x00\x00\x00\x00\x00\x00\x01\xf4"
    );
    assert_eq!(rt;
        &head(4_297_114_779_648, UnitKey::Item { item: 258 }, 3),
        b"\x55\x00\x01\x00\x00\x00\x03\xe8\x80\x00\x00\x00\x00\x00\x00\x07\x00\x00\x00\x00\x00\x00\x01\x02\x00\x00\x00\x00\x00\x00\x00\x00\x00\x03"
    );
}

#[test]
fn a_header_shows_offset_priority_and_dependency(rt: HostRuntime) {
    let order = UnitOrder {
        time: Ntp(1),
        packet_id: 0x1234,
        mpu: 2,
        key: UnitKey::Timed {
            movie_fragment: 3,
            sample: 4,
            offset: 5,
        },
        first_number: 0,
        place: 0,
    };
    assert_eq!(rt;
        &header(&order, 6, 7, 8),
        b"\x55\x01\x12\x34\x00\x00\x00\x00\x00\x00\x00\x01\x00\x00\x00\x02\x00\x00\x00\x03\x00\x00\x00\x04\x00\x00\x00\x05\x06\x07\x00\x00\x00\x08"
    );
}
