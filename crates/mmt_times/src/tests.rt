use crate::{Entry, Named, TimesWhy, entries_of, time_at, write_extended, write_stamps};
use mmt_base::{Ntp, Tick, due_of};
use mmt_model::{Au, List, Mpu};
use mmt_mpt::read_mpt;
use std::process::Abort;
use std::test::Fail;

/// A table of one asset with a timestamp descriptor and an extended one.
const WORKED: &[u8] =
    b"\x20\x00\x00\x40\xfc\x02p1\x00\x00\x01\x00\x00\x00\x00\x00\x01vhev1\xfe\x01\x00\x01\x00\x00\x27\x00\x01\x0c\x00\x00\x00\x07\x00\x00\x03\xe8\x80\x00\x00\x00\x80\x26\x15\xfd\x00\x00\xea\x60\x00\x00\x00\x07\x3f\x03\xe9\x02\x03\xe9\x03\xe9\x07\xd2\x00\x00";

/// Descriptors that are refused for each reason, a pair, and a descriptor of another tag.
const REFUSED: &[u8] =
    b"\x20\x00\x00\x5f\xfc\x00\x00\x00\x01\x00\x00\x00\x00\x00\x00hev1\xfe\x01\x00\x01\x00\x00I\x00\x01\x0b\x00\x00\x00\x00\x00\x00\x00\x00\x00\x00\x00\x80\x26\x01\xff\x80\x26\x05\x03\x00\x00\x00\x00\x80\x26\x01\x02\x80\x26\x00\x00\x01\x0c\x00\x00\x00\x01\x00\x00\x03\xe8\x80\x00\x00\x00\x00\x02\x03abc\x80\x26\x10\xfd\x00\x00\xea\x60\x00\x00\x00\x01\x3f\x00\x00\x01\x00\x00\x00";

/// An asset in another flow, and one with a location there and two in the same flow.
const ELSEWHERE: &[u8] =
    b"\x20\x00\x00v\xfc\x00\x00\x00\x02\x00\x00\x00\x00\x00\x00hev1\xfe\x01\x01\x01\x02\x03\x04\x05\x06\x07\x08\x00d\x01\x00\x00\x13\x00\x01\x01\x00\x00\x01\x0c\x00\x00\x00\x01\x00\x00\x03\xe8\x80\x00\x00\x00\x00\x00\x00\x00\x00\x00hev1\xfe\x03\x01\x01\x02\x03\x04\x05\x06\x07\x08\x00d\x00\x01\x00\x01\x01\x00\x01\x02\x00\x22\x00\x01\x0c\x00\x00\x00\x03\x00\x00\x03\xe8\x80\x00\x00\x00\x00\x01\x01\x00\x00\x01\x0c\x00\x00\x00\x04\x00\x00\x03\xe8\x80\x00\x00\x01";

/// An extended descriptor of each type of pts_offset: without a timescale, and with two others.
const TYPES: &[u8] =
    b"\x20\x00\x00\x83\xfc\x00\x00\x00\x01\x00\x00\x00\x00\x00\x00hev1\xfe\x01\x00\x01\x00\x00m\x00\x01\x24\x00\x00\x00\x01\x00\x00\x03\xe8\x80\x00\x00\x00\x00\x00\x00\x02\x00\x00\x03\xe8\x80\x00\x00\x00\x00\x00\x00\x03\x00\x00\x03\xe8\x80\x00\x00\x00\x80\x26\x0f\x00\x00\x00\x00\x01\x3f\x00\x0a\x03\x00\x1e\x00\x07\x00\x0a\x80\x26\x15\xfb\x00\x00\xea\x60\x03\xe9\x00\x00\x00\x02\x3f\x03\xe9\x03\x03\xe9\x07\xd2\x00\x00\x80\x26\x19\xfd\x00\x00\x00\x03\x00\x00\x00\x03\x3f\x00\x02\x03\x00\x00\x00\x01\x00\x01\x00\x03\x00\x01\x00\x00";

/// Two extended descriptors for MPU 7, with pairs before and after.
const ONE_MPU: &[u8] =
    b"\x20\x00\x00x\xfc\x00\x00\x00\x01\x00\x00\x00\x00\x00\x00hev1\xfe\x01\x00\x01\x00\x00b\x80\x26\x1d\xfd\x00\x00\xea\x60\x00\x00\x00\x08\x3f\x00\x00\x01\x00\x01\x00\x00\x00\x00\x00\x07\x3f\x03\xe9\x01\x03\xe9\x03\xe9\x00\x01\x0c\x00\x00\x00\x07\x00\x00\x03\xe8\x80\x00\x00\x00\x80\x26\x15\xfd\x00\x00\xea\x60\x00\x00\x00\x07\x3f\x03\xe9\x02\x07\xd2\x00\x00\x0b\xbb\x00\x00\x00\x01\x18\x00\x00\x00\x07\x00\x00\x03\xe8\x80\x00\x00\x01\x00\x00\x00\x09\x00\x00\x00\x00\x00\x00\x00\x05";

/// Two pairs for MPU 7 at two packet ids, and three entries for it, of which the first two are out of
/// range at the time 0.
const RANGE: &[u8] =
    b"\x20\x00\x00p\xfc\x00\x00\x00\x01\x00\x00\x00\x00\x00\x00hev1\xfe\x02\x00\x01\x00\x00\x01\x01\x00W\x00\x01\x18\x00\x00\x00\x07\x00\x00\x00\x00\x00\x00\x00\x00\x00\x00\x00\x07\x00\x00\x03\xe8\x80\x00\x00\x00\x80\x26\x15\xfd\x00\x00\xea\x60\x00\x00\x00\x07\x3f\x00\x01\x02\x00\x01\x00\x00\x00\x00\x00\x00\x80\x26\x0f\xf9\x00\x00\x00\x01\x00\x00\x00\x07\x3f\x00\x01\x01\x00\x00\x80\x26\x0f\xf9\x00\x00\xea\x60\x00\x00\x00\x07\x3f\x00\x00\x01\x00\x3c";

/// An entry that is out of range, one without access units, and one with a time in range.
const NO_UNITS: &[u8] =
    b"\x20\x00\x00M\xfc\x00\x00\x00\x01\x00\x00\x00\x00\x00\x00hev1\xfe\x01\x00\x01\x00\x007\x00\x01\x0c\x00\x00\x00\x07\x00\x00\x00\x00\x00\x00\x00\x00\x80\x26\x25\xfd\x00\x00\xea\x60\x00\x00\x00\x07\x3f\x00\x01\x01\x00\x00\x00\x00\x00\x00\x00\x07\x3f\x00\x00\x00\x00\x00\x00\x07\x3f\x00\x00\x01\x00\x05\x00\x00";

/// Five pairs at two packet ids, and entries for three MPUs; neither the pairs nor the entries rise.
const NOT_RISING: &[u8] =
    b"\x20\x00\x00\x8e\xfc\x00\x00\x00\x01\x00\x00\x00\x00\x00\x00\x68\x65\x76\x31\xfe\x02\x00\x01\x00\x00\x01\x01\x00\x75\x00\x01\x3c\x00\x00\x00\x09\x00\x00\x00\x00\x00\x00\x00\x5a\x00\x00\x00\x07\x00\x00\x00\x00\x00\x00\x00\x46\x00\x00\x00\x08\x00\x00\x00\x00\x00\x00\x00\x50\x00\x00\x00\x06\x00\x00\x00\x00\x00\x00\x00\x3c\x00\x00\x00\x08\x00\x00\x00\x00\x00\x00\x00\x51\x80\x26\x1b\xf8\x00\x00\x00\x08\x3f\x00\x00\x02\x00\x00\x00\x00\x00\x00\x00\x09\x3f\x00\x00\x03\x00\x00\x00\x00\x00\x00\x80\x26\x15\xf8\x00\x00\x00\x07\x3f\x00\x00\x01\x00\x00\x00\x00\x00\x08\x3f\x00\x00\x01\x00\x00";

/// A name that is wanted: an entry with its packet id, MPU number, time and access unit times, or a
/// refusal.
#[derive(Clone, Copy)]
enum Want {
    Entry(u16, u32, u64, &'static [u64]),
    Refused(u32, TimesWhy),
}

fn same_times(rt: &impl Abort, entry: &Entry<'_>, times: &[u64]) {
    assert_eq!(rt; entry.count() as usize, times.len());
    let mut greatest = entry.time();
    let mut place = 0;
    for (time, want) in entry.times().zip(times) {
        assert_eq!(rt; time, Ntp(*want));
        assert!(rt; place < entry.count());
        assert_eq!(rt; entry.time_of(place), time);
        greatest = greatest.max(time);
        place += 1;
    }
    assert_eq!(rt; entry.greatest(), greatest);
}

fn same_names(rt: &impl Abort, table: &[u8], wants: &[Want]) {
    assert!(rt; table.len() < 1 << 31);
    assert!(rt; !table.is_empty());
    assert!(rt; table[0] == 0x20);
    match read_mpt(table) {
        Ok(mpt) => {
            let mut names = entries_of(&mpt, 90_000);
            for want in wants {
                match (names.next(), *want) {
                    (Some(Named::Entry(entry)), Want::Entry(packet_id, mpu, time, times)) => {
                        assert_eq!(rt;
                            (entry.packet_id(), entry.mpu(), entry.time()),
                            (packet_id, mpu, Ntp(time))
                        );
                        same_times(rt, &entry, times);
                    }
                    (Some(Named::Refused { at, why }), Want::Refused(place, reason)) => {
                        assert_eq!(rt; (at, why), (place, reason));
                    }
                    _ => panic!(rt; "another name"),
                }
            }
            assert!(rt; names.next().is_none());
        }
        Err(_) => panic!(rt; "no table"),
    }
}

#[test]
fn times_are_rounded_down_once_and_refused_out_of_range(rt: HostRuntime) {
    let last = u64::MAX;
    let cases: [(u64, u16, u32, u16, u32, Option<u64>); 13] = [
        (4294967296000, 1001, 1001, 2002, 60000, Some(4295110604742)),
        (4294967296, 1, 0, 0, 3, Some(2863311530)),
        (0, 1, 0, 0, 3, None),
        (100, 1, 0, 0, 4294967295, Some(98)),
        (1, 1, 0, 0, 4294967295, None),
        (4294967296, 1, 0, 0, 1, Some(0)),
        (4294967295, 1, 0, 0, 1, None),
        (last, 0, 0, 0, 1, Some(last)),
        (last, 0, 0, 1, 4294967295, None),
        (last - 1, 0, 0, 1, 4294967295, Some(last)),
        (0, 0, 4294967295, 0, 1, Some(18446744069414584320)),
        (0, 0, 4294967295, 1, 1, None),
        (0, 0, 4294967295, 65535, 4294967295, Some(4295032831)),
    ];
    for (time, offset, before, dts_pts, timescale, want) in cases {
        assert!(rt; timescale >= 1);
        assert_eq!(rt;
            time_at(Ntp(time), offset, before, dts_pts, timescale),
            want.map(Ntp)
        );
    }
    assert_eq!(rt; due_of(Ntp(4295110604742)), Tick(65538187));
}

#[test]
fn worked_table_names_one_mpu(rt: HostRuntime) {
    same_names(
        &rt,
        WORKED,
        &[Want::Entry(256, 7, 4297114779648, &[4297114779648, 4297258088390])],
    );
}

#[test]
fn refused_descriptors_stand_before_the_entries(rt: HostRuntime) {
    same_names(
        &rt,
        REFUSED,
        &[
            Want::Refused(29, TimesWhy::Length),
            Want::Refused(43, TimesWhy::OffsetType),
            Want::Refused(47, TimesWhy::TimescaleZero),
            Want::Refused(55, TimesWhy::Length),
            Want::Refused(59, TimesWhy::Length),
            Want::Refused(83, TimesWhy::Length),
            Want::Entry(256, 1, 4297114779648, &[]),
        ],
    );
}

#[test]
fn names_at_each_location_in_the_same_flow(rt: HostRuntime) {
    same_names(
        &rt,
        ELSEWHERE,
        &[
            Want::Refused(106, TimesWhy::Length),
            Want::Entry(257, 3, 4297114779648, &[]),
            Want::Entry(257, 4, 4297114779649, &[]),
            Want::Entry(258, 3, 4297114779648, &[]),
            Want::Entry(258, 4, 4297114779649, &[]),
        ],
    );
}

#[test]
fn pts_offsets_of_each_type(rt: HostRuntime) {
    same_names(
        &rt,
        TYPES,
        &[
            Want::Entry(
                256,
                1,
                4297114779648,
                &[4297115734085, 4297114636482, 4297114779648],
            ),
            Want::Entry(
                256,
                2,
                4297114779648,
                &[4297114779648, 4297258088390, 4297186434019],
            ),
            Want::Entry(
                256,
                3,
                4297114779648,
                &[4294251468117, 4297114779648, 4301409746944],
            ),
        ],
    );
}

#[test]
fn first_of_two_entries_for_an_mpu(rt: HostRuntime) {
    same_names(
        &rt,
        ONE_MPU,
        &[
            Want::Entry(256, 7, 4297114779648, &[4297114779648]),
            Want::Entry(256, 7, 4297114779649, &[4297114779649]),
            Want::Entry(256, 9, 5, &[]),
        ],
    );
}

#[test]
fn entries_out_of_range_stand_before_each_entry(rt: HostRuntime) {
    same_names(
        &rt,
        RANGE,
        &[
            Want::Refused(59, TimesWhy::Range),
            Want::Refused(83, TimesWhy::Range),
            Want::Entry(256, 7, 0, &[4294967]),
            Want::Entry(256, 7, 4297114779648, &[4297114779648, 4297114708065]),
            Want::Refused(59, TimesWhy::Range),
            Want::Refused(83, TimesWhy::Range),
            Want::Entry(257, 7, 0, &[4294967]),
            Want::Entry(257, 7, 4297114779648, &[4297114779648, 4297114708065]),
        ],
    );
}

#[test]
fn entry_without_access_units_ends_the_trying(rt: HostRuntime) {
    same_names(
        &rt,
        NO_UNITS,
        &[
            Want::Refused(44, TimesWhy::Range),
            Want::Entry(256, 7, 0, &[]),
        ],
    );
}

#[test]
fn pairs_and_entries_in_any_order(rt: HostRuntime) {
    same_names(
        &rt,
        NOT_RISING,
        &[
            Want::Entry(256, 9, 90, &[90, 90, 90]),
            Want::Entry(256, 7, 70, &[70]),
            Want::Entry(256, 8, 80, &[80, 80]),
            Want::Entry(256, 6, 60, &[]),
            Want::Entry(256, 8, 81, &[81, 81]),
            Want::Entry(257, 9, 90, &[90, 90, 90]),
            Want::Entry(257, 7, 70, &[70]),
            Want::Entry(257, 8, 80, &[80, 80]),
            Want::Entry(257, 6, 60, &[]),
            Want::Entry(257, 8, 81, &[81, 81]),
        ],
    );
}

#[test]
fn both_contents_are_written(rt: HostRuntime) -> Result<(), Fail> {
    let mut out = Vec::new(rt.alloc());
    let pairs = [(7, Ntp(4297114779648))];
    assert_eq!(rt; write_stamps(&mut out, &pairs), Ok(()));
    assert_eq!(rt;
        out.as_slice(),
        b"\x00\x00\x00\x07\x00\x00\x03\xe8\x80\x00\x00\x00".as_slice()
    );
    let mut aus = List::new(rt.alloc());
    aus.push(Au {
        dts_pts: 1001,
        pts: 1001,
    })?;
    aus.push(Au {
        dts_pts: 2002,
        pts: 0,
    })?;
    let mpu = Mpu {
        number: 7,
        time: Ntp(4297114779648),
        decoding_offset: 1001,
        aus,
        units: List::new(rt.alloc()),
    };
    let mut out = Vec::new(rt.alloc());
    assert_eq!(rt; write_extended(&mut out, 60_000, &mpu), Ok(()));
    assert_eq!(rt;
        out.as_slice(),
        b"\xfd\x00\x00\xea\x60\x00\x00\x00\x07\x3f\x03\xe9\x02\x03\xe9\x03\xe9\x07\xd2\x00\x00".as_slice()
    );
    Ok(())
}
