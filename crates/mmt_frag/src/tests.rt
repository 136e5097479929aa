//! The parts of a unit of 3,000 bytes, and units that are gathered.

use crate::{PartOf, gathered, part_of, parts, write_part};
use mmt_base::LongTick;
use mmt_model::{Part, Unit, UnitKey};
use std::test::Fail;

/// A unit of timed media.
const UNIT: Unit = Unit {
    at: LongTick(65_536_200),
    from: 0,
    length: 3000,
    key: UnitKey::Timed {
        movie_fragment: 1,
        sample: 1,
        offset: 0,
    },
    priority: 0,
    dependency: 0,
};

/// An item.
const ITEM: Unit = Unit {
    at: LongTick(65_536_200),
    from: 0,
    length: 2,
    key: UnitKey::Item { item: 9 },
    priority: 0,
    dependency: 0,
};

#[test]
fn parts_of_3000_bytes(rt: HostRuntime) -> Result<(), Fail> {
    assert_eq!(rt; parts(3000, 1400), 3);
    // from, length, which part, how many follow; the third byte of the payload and its length
    let wanted = [
        (0, 1400, Part::First, 2, 0x2A, 1422),
        (1400, 1400, Part::Middle, 1, 0x2C, 1422),
        (2800, 200, Part::Last, 0, 0x2E, 222),
    ];
    let zeros = vec![in rt.alloc(); 0u8; 1400]?;
    let mut all = Vec::new(rt.alloc());
    let mut number = 0;
    for (from, length, part, left, third, size) in wanted {
        assert!(rt; number < 3);
        let cut = part_of(3000, 1400, number);
        let want = PartOf {
            from,
            length,
            part,
            left,
        };
        assert_eq!(rt; cut, want);
        let bytes = zeros.get(..cut.length as usize).ok_or("too long")?;
        assert!(rt; bytes.len() == cut.length as usize && bytes.len() <= 60_000);
        let start = all.len();
        write_part(&mut all, 7, &UNIT, &cut, bytes)?;
        let payload = all.get(start..).ok_or("nothing")?;
        assert_eq!(rt; payload.len(), size);
        assert_eq!(rt; payload.get(2).copied(), Some(third));
        assert_eq!(rt; payload.get(3).copied(), Some(left));
        number += 1;
    }
    assert_eq!(rt; all.len(), 3066);
    Ok(())
}

#[test]
fn an_item_is_written_whole(rt: HostRuntime) -> Result<(), Fail> {
    let cut = part_of(2, 1400, 0);
    let mut out = Vec::new(rt.alloc());
    let bytes = [0xAB, 0xCD];
    assert!(rt; cut.length == 2);
    write_part(&mut out, 7, &ITEM, &cut, bytes.as_slice())?;
    let want = [0, 12, 0x20, 0, 0, 0, 0, 7, 0, 0, 0, 9, 0xAB, 0xCD];
    assert_eq!(rt; out.as_slice(), want.as_slice());
    Ok(())
}

#[test]
fn the_counter_stays_at_255_where_more_parts_follow(rt: HostRuntime) {
    assert_eq!(rt; parts(1000, 2), 500);
    for (number, left) in [(0, 255), (243, 255), (244, 255), (245, 254), (499, 0)] {
        assert_eq!(rt; part_of(1000, 2, number).left, left, "part {number}");
    }
}

#[test]
fn gathered_two_units(rt: HostRuntime) {
    assert_eq!(rt; gathered([300, 300, 1000].as_slice(), 14, 1400), 2);
    // two units of 700 bytes with header and length fill the limit, and a byte more is too many
    assert_eq!(rt; gathered([684, 684].as_slice(), 14, 1400), 2);
    assert_eq!(rt; gathered([684, 685].as_slice(), 14, 1400), 1);
    // units of an item have a shorter header
    assert_eq!(rt; gathered([694, 694].as_slice(), 4, 1400), 2);
    // one unit is gathered also where it has no room, and none where there is none
    assert_eq!(rt; gathered([1400, 1].as_slice(), 14, 1400), 1);
    assert_eq!(rt; gathered([].as_slice(), 14, 1400), 0);
    // a later unit that would have room does not follow one that has none
    assert_eq!(rt; gathered([10, 2000, 10].as_slice(), 14, 1400), 1);
}
