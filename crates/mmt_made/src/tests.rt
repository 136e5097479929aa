//! What is made from numbers, as it was worked out by hand.

use crate::dropping::delivery;
use crate::filling::bytes;
use crate::programmes::programme;
use mmt_model::Signal;
use std::test::Fail;

#[test]
fn bytes_come_from_the_number_the_file_and_the_place(rt: HostRuntime) -> Result<(), Fail> {
    let alloc = rt.alloc();
    let video = bytes(alloc, 7, 0, 600)?;
    assert_eq!(rt; video.len(), 600);
    assert_eq!(rt; video.get(0), Some(&7u8));
    // 7 + 31 * 9 is 286, which is 30 modulo 256.
    assert_eq!(rt; video.get(9), Some(&30u8));
    // 7 + 31 * 512 + 2 is 15,881, which is 9 modulo 256.
    assert_eq!(rt; video.get(512), Some(&9u8));
    let item = bytes(alloc, 65_535, 2, 2)?;
    // 65,535 + 31 + 14 is 44 modulo 256.
    assert_eq!(rt; item.get(1), Some(&44u8));
    Ok(())
}

#[test]
fn packets_come_in_swapped_pairs_some_not_at_all_and_some_twice(
    rt: HostRuntime,
) -> Result<(), Fail> {
    let alloc = rt.alloc();
    // Of 7 the places 49, 99 and so on are left out.
    let list = delivery(alloc, 7, 14)?;
    assert_eq!(rt;
        list.as_slice(),
        [0, 2, 1, 4, 3, 6, 5, 8, 7, 10, 10, 9, 12, 11, 13].as_slice()
    );
    // Of 0 the places 0, 50 and so on.
    let list = delivery(alloc, 0, 4)?;
    assert_eq!(rt; list.as_slice(), [2, 1, 3].as_slice());
    let list = delivery(alloc, 9, 15)?;
    // 7 * 9 is 13 modulo 50.
    assert_eq!(rt;
        list.as_slice(),
        [0, 2, 1, 4, 3, 6, 5, 8, 7, 10, 10, 9, 12, 11, 14].as_slice()
    );
    let list = delivery(alloc, 7, 0)?;
    assert_eq!(rt; list.len(), 0);
    Ok(())
}

#[test]
fn the_programme_is_of_sixty_seconds(rt: HostRuntime) -> Result<(), Fail> {
    let alloc = rt.alloc();
    let programme = programme(alloc)?;
    assert_eq!(rt; programme.signals.len(), 240);
    assert_eq!(rt; programme.assets.len(), 3);
    match programme.signals.get(1) {
        Some(Signal::Table { at, names }) => {
            assert_eq!(rt; at.0, 65_536_000);
            assert_eq!(rt;
                names.as_slice(),
                [(0, 0), (0, 1), (1, 0), (1, 1)].as_slice()
            );
        }
        _ => Err("no table")?,
    }
    match programme.signals.get(239) {
        Some(Signal::Table { at, names }) => {
            assert_eq!(rt; at.0, 65_536_000 + 3_899_392);
            assert_eq!(rt; names.as_slice(), [(0, 119), (1, 119), (2, 0)].as_slice());
        }
        _ => Err("no table")?,
    }
    Ok(())
}
