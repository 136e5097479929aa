ghost use Rattle.std.specs.Prelude.{◌≡◌};
ghost use Rattle.mmt_model.specs.declared.keys.UnitKey.TheVariants.{Item};

use crate::{DataUnit, MpuHead, MpuWhy, MpuWriter, read_mpu};
use mmt_base::Refused;
use mmt_model::{Part, UnitKey};
use std::test::Fail;

/// One unit of timed media, `abc`.
const ONE: &[u8] =
    b"\x00\x17\x28\x00\x00\x00\x00\x07\x00\x00\x00\x01\x00\x00\x00\x01\x00\x00\x00\x00\x00\x00abc";

/// Three items: `a`, no bytes, and `bcd`.
const THREE: &[u8] =
    b"\x00\x1c\x21\x05\x00\x00\x00\x09\x00\x05\x00\x00\x00\x01a\x00\x04\x00\x00\x00\x02\x00\x07\x00\x00\x00\x03bcd";

/// An item as a unit.
fn item(item: u32, bytes: &[u8]) -> DataUnit<'_>
    ensures key { result.key ≡ Item item }
    ensures ranks { (result.priority ≡ 0) × (result.dependency ≡ 0) }
    ensures bytes { result.bytes.now ≡ bytes.now }
{
    DataUnit {
        key: UnitKey::Item { item },
        priority: 0,
        dependency: 0,
        from: 0,
        bytes,
    }
}

#[test]
fn read_mpu_one_timed_unit(rt: HostRuntime) -> Result<(), Fail> {
    let payload = read_mpu(ONE)?;
    let head = MpuHead {
        timed: true,
        part: Part::Whole,
        aggregated: false,
        counter: 0,
        mpu: 7,
    };
    let key = UnitKey::Timed {
        movie_fragment: 1,
        sample: 1,
        offset: 0,
    };
    assert_eq!(rt; (payload.head(), payload.count()), (head, 1));
    let mut units = payload.units();
    let found = units
        .next()
        .map(|unit| (unit.key, unit.priority, unit.dependency));
    assert_eq!(rt; found, Some((key, 0, 0)));
    assert!(rt; units.next().is_none());
    let found = payload.units().next().map(|unit| (unit.from, unit.bytes));
    assert_eq!(rt; found, Some((22, b"abc".as_slice())));
    let mut out = Vec::new(rt.alloc());
    let mut writer = MpuWriter::begin(&mut out, &head)?;
    let unit = DataUnit {
        key,
        priority: 0,
        dependency: 0,
        from: 0,
        bytes: b"abc",
    };
    assert_eq!(rt; writer.unit(&mut out, &unit), Ok(()));
    writer.end(&mut out);
    assert_eq!(rt; out.as_slice(), ONE);
    Ok(())
}

#[test]
fn three_items_both_ways(rt: HostRuntime) -> Result<(), Fail> {
    let payload = read_mpu(THREE)?;
    let head = MpuHead {
        timed: false,
        part: Part::Whole,
        aggregated: true,
        counter: 5,
        mpu: 9,
    };
    assert_eq!(rt; (payload.head(), payload.count()), (head, 3));
    let mut units = payload.units();
    for (item, from, bytes) in [(1, 14, b"a".as_slice()), (2, 21, b""), (3, 27, b"bcd")] {
        let found = units.next().map(|unit| (unit.key, unit.from, unit.bytes));
        assert_eq!(rt; found, Some((UnitKey::Item { item }, from, bytes)));
    }
    assert!(rt; units.next().is_none());
    let mut out = Vec::new(rt.alloc());
    let mut writer = MpuWriter::begin(&mut out, &head)?;
    assert_eq!(rt; writer.unit(&mut out, &item(1, b"a")), Ok(()));
    assert_eq!(rt; writer.unit(&mut out, &item(2, b"")), Ok(()));
    assert_eq!(rt; writer.unit(&mut out, &item(3, b"bcd")), Ok(()));
    writer.end(&mut out);
    assert_eq!(rt; out.as_slice(), THREE);
    Ok(())
}

#[test]
fn heads_and_counts(rt: HostRuntime) -> Result<(), Fail> {
    let heads: [(&[u8], bool, Part, bool, u32); 4] = [
        (
            b"\x00\x06\x29\x00\x00\x00\x00\x07",
            true,
            Part::Whole,
            true,
            0,
        ),
        (
            b"\x00\x0b\x22\x00\x00\x00\x00\x07\x00\x00\x00\x02x",
            false,
            Part::First,
            false,
            1,
        ),
        (
            b"\x00\x0b\x24\x00\x00\x00\x00\x07\x00\x00\x00\x02x",
            false,
            Part::Middle,
            false,
            1,
        ),
        (
            b"\x00\x0a\x26\x00\x00\x00\x00\x07\x00\x00\x00\x02",
            false,
            Part::Last,
            false,
            1,
        ),
    ];
    for (bytes, timed, part, aggregated, count) in heads {
        let payload = read_mpu(bytes)?;
        let head = MpuHead {
            timed,
            part,
            aggregated,
            counter: 0,
            mpu: 7,
        };
        assert_eq!(rt; (payload.head(), payload.count()), (head, count));
    }
    Ok(())
}

#[test]
fn each_refusal_at_its_place(rt: HostRuntime) {
    let refused: [(&[u8], u32, MpuWhy); 15] = [
        (b"", 0, MpuWhy::Short),
        (b"\x00\x01", 0, MpuWhy::Length),
        (
            b"\x00\x18\x28\x00\x00\x00\x00\x07\x00\x00\x00\x01\x00\x00\x00\x01\x00\x00\x00\x00\x00\x00abc",
            0,
            MpuWhy::Length,
        ),
        (b"\x00\x00", 2, MpuWhy::Short),
        (b"\x00\x01\x00", 2, MpuWhy::Metadata(0)),
        (b"\x00\x01\x1f", 2, MpuWhy::Metadata(1)),
        (b"\x00\x01\x33", 2, MpuWhy::FragmentType(3)),
        (b"\x00\x01\x23", 2, MpuWhy::AggregatedPart),
        (b"\x00\x01\x20", 3, MpuWhy::Short),
        (b"\x00\x02\x20\x00", 4, MpuWhy::Short),
        (b"\x00\x06\x20\x00\x00\x00\x00\x07", 8, MpuWhy::Short),
        (b"\x00\x07\x21\x00\x00\x00\x00\x07\x00", 8, MpuWhy::Short),
        (
            b"\x00\x08\x21\x00\x00\x00\x00\x07\x00\x03",
            8,
            MpuWhy::Overrun,
        ),
        (
            b"\x00\x08\x29\x00\x00\x00\x00\x07\x00\x0e",
            8,
            MpuWhy::Overrun,
        ),
        (
            b"\x00\x0e\x21\x00\x00\x00\x00\x07\x00\x04\x00\x00\x00\x01\x00\x03",
            14,
            MpuWhy::Overrun,
        ),
    ];
    for (bytes, at, why) in refused {
        assert_eq!(rt; read_mpu(bytes).err(), Some(Refused { at, why }));
    }
}

#[test]
fn each_prefix_is_refused(rt: HostRuntime) {
    for (count, _) in THREE.iter().enumerate() {
        let (prefix, _) = THREE.split_at(count);
        let why = if count < 2 {
            MpuWhy::Short
        } else {
            MpuWhy::Length
        };
        assert_eq!(rt; read_mpu(prefix).err(), Some(Refused { at: 0, why }));
    }
}
