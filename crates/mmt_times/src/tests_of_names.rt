//! What is learned of the entries of tables, and for how long.

use crate::{Learned, Named, Names, entries_of};
use mmt_base::{Ntp, Tick};
use mmt_model::UnitKey;
use mmt_mpt::read_mpt;
use std::process::Abort;
use std::test::Fail;

/// A table that names MPU 7 of packet id 256, with the time 4297114779648, and with access units at
/// that time and at 4297258088390.
const TABLE: &[u8] =
    b"\x20\x00\x00\x40\xfc\x02p1\x00\x00\x01\x00\x00\x00\x00\x00\x01vhev1\xfe\x01\x00\x01\x00\x00\x27\x00\x01\x0c\x00\x00\x00\x07\x00\x00\x03\xe8\x80\x00\x00\x00\x80\x26\x15\xfd\x00\x00\xea\x60\x00\x00\x00\x07\x3f\x03\xe9\x02\x03\xe9\x03\xe9\x07\xd2\x00\x00";

// A table that names an MPU of packet id 256, with this time and no access units.
fn table(mpu: u32, time: u64) -> [u8; 44] {
    let mut table =
        *b"\x20\x00\x00\x28\xfc\x02p1\x00\x00\x01\x00\x00\x00\x00\x00\x01vhev1\xfe\x01\x00\x01\x00\x00\x0f\x00\x01\x0c\x00\x00\x00\x00\x00\x00\x00\x00\x00\x00\x00\x00";
    table[32..36].copy_from_slice(&mpu.to_be_bytes());
    table[36..44].copy_from_slice(&time.to_be_bytes());
    table
}

// What becomes of the first entry of a table at a clock.
fn learn(rt: &impl Abort, names: &mut Names, clock: u32, table: &[u8]) -> Option<Learned> {
    assert!(rt; table.len() < 1 << 31);
    assert!(rt; !table.is_empty());
    assert!(rt; table[0] == 0x20);
    let mpt = read_mpt(table).ok()?;
    match entries_of(&mpt, 1).next()? {
        Named::Entry(entry) => Some(names.learn(Tick(clock), &entry)),
        Named::Refused { .. } => None,
    }
}

#[test]
fn an_entry_is_new_then_known_then_past(rt: HostRuntime) -> Result<(), Fail> {
    let mut names = Names::new(rt.alloc(), 1)?;
    assert_eq!(rt; names.len(), 0);
    assert_eq!(rt;
        learn(&rt, &mut names, 65_536_100, TABLE),
        Some(Learned::New)
    );
    assert_eq!(rt;
        learn(&rt, &mut names, 65_536_100, TABLE),
        Some(Learned::Known)
    );
    let past = table(7, 0);
    assert_eq!(rt;
        learn(&rt, &mut names, 65_536_100, &past),
        Some(Learned::Past)
    );
    assert_eq!(rt;
        learn(&rt, &mut names, 65_570_954, TABLE),
        Some(Learned::Known)
    );
    assert_eq!(rt;
        learn(&rt, &mut names, 65_570_955, TABLE),
        Some(Learned::Past)
    );
    assert_eq!(rt; names.len(), 1);
    Ok(())
}

#[test]
fn an_entry_with_other_times_differs(rt: HostRuntime) -> Result<(), Fail> {
    let mut names = Names::new(rt.alloc(), 1)?;
    assert_eq!(rt;
        learn(&rt, &mut names, 65_536_100, TABLE),
        Some(Learned::New)
    );
    let differs = Learned::Differs {
        kept: Ntp(4_297_114_779_648),
    };
    let later = table(7, 4_297_114_779_649);
    assert_eq!(rt; learn(&rt, &mut names, 65_536_100, &later), Some(differs));
    let without_access_units = table(7, 4_297_114_779_648);
    assert_eq!(rt;
        learn(&rt, &mut names, 65_536_100, &without_access_units),
        Some(differs)
    );
    let another_mpu = table(8, 4_297_114_779_649);
    assert_eq!(rt;
        learn(&rt, &mut names, 65_536_100, &another_mpu),
        Some(Learned::New)
    );
    assert_eq!(rt; names.len(), 2);
    Ok(())
}

#[test]
fn there_is_room_for_1024_entries(rt: HostRuntime) -> Result<(), Fail> {
    let mut names = Names::new(rt.alloc(), 1)?;
    for mpu in 0..1024 {
        let named = table(mpu, 4_297_114_779_648);
        assert_eq!(rt;
            learn(&rt, &mut names, 65_536_100, &named),
            Some(Learned::New)
        );
    }
    let another = table(1024, 4_297_114_779_648);
    assert_eq!(rt;
        learn(&rt, &mut names, 65_536_100, &another),
        Some(Learned::EntriesFull)
    );
    let first = table(0, 4_297_114_779_648);
    assert_eq!(rt;
        learn(&rt, &mut names, 65_536_100, &first),
        Some(Learned::Known)
    );
    assert_eq!(rt; names.len(), 1024);
    names.forget(Tick(65_536_100), Tick(65_568_768));
    assert_eq!(rt; names.len(), 0);
    Ok(())
}

#[test]
fn an_entry_is_forgotten_at_its_last_due_tick(rt: HostRuntime) -> Result<(), Fail> {
    let mut names = Names::new(rt.alloc(), 1)?;
    assert_eq!(rt;
        learn(&rt, &mut names, 65_536_100, TABLE),
        Some(Learned::New)
    );
    names.forget(Tick(65_536_100), Tick(65_570_954));
    assert_eq!(rt; names.len(), 1);
    names.forget(Tick(65_570_955), Tick(65_570_956));
    assert_eq!(rt; names.len(), 1);
    names.forget(Tick(65_570_954), Tick(65_570_955));
    assert_eq!(rt; names.len(), 0);
    Ok(())
}

// The time of a sample of MPU 7.
fn time_of(names: &Names, sample: u32) -> Option<Ntp> {
    let key = UnitKey::Timed {
        movie_fragment: 1,
        sample,
        offset: 0,
    };
    names.time_of(256, 7, &key)
}

#[test]
fn samples_are_counted_from_the_base(rt: HostRuntime) -> Result<(), Fail> {
    let first = Some(Ntp(4_297_114_779_648));
    let second = Some(Ntp(4_297_258_088_390));
    let mut from_one = Names::new(rt.alloc(), 1)?;
    assert_eq!(rt;
        learn(&rt, &mut from_one, 65_536_100, TABLE),
        Some(Learned::New)
    );
    assert_eq!(rt; time_of(&from_one, 0), first);
    assert_eq!(rt; time_of(&from_one, 1), first);
    assert_eq!(rt; time_of(&from_one, 2), second);
    assert_eq!(rt; time_of(&from_one, 3), first);
    let mut from_zero = Names::new(rt.alloc(), 0)?;
    assert_eq!(rt;
        learn(&rt, &mut from_zero, 65_536_100, TABLE),
        Some(Learned::New)
    );
    assert_eq!(rt; time_of(&from_zero, 0), first);
    assert_eq!(rt; time_of(&from_zero, 1), second);
    assert_eq!(rt; time_of(&from_zero, 2), first);
    Ok(())
}

#[test]
fn an_item_has_the_time_of_its_mpu(rt: HostRuntime) -> Result<(), Fail> {
    let mut names = Names::new(rt.alloc(), 1)?;
    assert_eq!(rt;
        learn(&rt, &mut names, 65_536_100, TABLE),
        Some(Learned::New)
    );
    let key = UnitKey::Item { item: 2 };
    assert_eq!(rt; names.time_of(256, 7, &key), Some(Ntp(4_297_114_779_648)));
    assert_eq!(rt; names.time_of(256, 8, &key), None);
    assert_eq!(rt; names.time_of(257, 7, &key), None);
    Ok(())
}
