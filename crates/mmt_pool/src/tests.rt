//! What a pool answers and keeps.

ghost use Rattle.std.specs.Prelude.{◌≡◌, true, ◌<◌, ◌≤◌, ◌^◌, length, filter};
ghost use Rattle.mmt_pool.specs.Holding.{is_in_window, is_kept_kind};

use crate::{NotStored, Pool, Span};
use mmt_base::Tick;
use mmt_packet::{Kind, Packet};
use std::test::Fail;

// Offers a packet on id 7 whose payload is the rest of the bytes from `from` on, at a delay of 1,000.
fn store(
    pool: &mut Pool,
    clock: u32,
    kind: Kind,
    number: u32,
    time: u32,
    tlv: &[u8],
    from: u32,
) -> Result<Span, NotStored>
    requires kind { is_kept_kind kind ≡ true }
    requires short { length tlv.now < 2 ^ 31 }
    requires from { from ≤ length tlv.now }
{
    let packet = Packet {
        counter: None,
        rap: false,
        reserved: 0,
        kind,
        packet_id: 7,
        time: Tick(time),
        number,
        extension: None,
        payload: &tlv[from as usize..],
    };
    pool.store(Tick(clock), 1000, tlv, from, &packet)
}

// Offers a packet on id 7 with this payload, to be counted alone, at a delay of 1,000.
fn count(
    pool: &mut Pool,
    clock: u32,
    number: u32,
    time: u32,
    payload: &[u8],
) -> Result<Span, NotStored>
    requires { length payload.now ≤ 65536 }
{
    let packet = Packet {
        counter: None,
        rap: false,
        reserved: 0,
        kind: Kind::Mpu,
        packet_id: 7,
        time: Tick(time),
        number,
        extension: None,
        payload,
    };
    pool.count(Tick(clock), 1000, &packet)
}

// Takes out every packet that is no longer in the window.
fn expire(pool: &mut Pool, clock: Tick, window: u32)
    ensures { pool.new ≡ record pool.old { kept = filter (is_in_window clock.0 window) pool.old.kept } }
{
    'packets: while let Some(_) = pool.expire_one(clock, window) {}
}

// `length` bytes of a payload from `from` on, where they are there.
fn part(pool: &Pool, span: Span, from: u32, length: u32) -> Option<&[u8]> {
    let payload = pool.payload(span)?;
    if payload.len() < from as usize + length as usize {
        return None;
    }
    Some(pool.part(span, from, length))
}

fn span(number: u32) -> Span {
    Span {
        packet_id: 7,
        number,
    }
}

#[test]
fn pool_third_packet_full(rt: HostRuntime) -> Result<(), Fail> {
    let zeros = [0; 1422];
    let mut pool = Pool::new(rt.alloc(), 3065)?;
    let full = NotStored::Full {
        held: 2844,
        length: 222,
    };
    assert_eq!(rt;
        store(&mut pool, 5000, Kind::Mpu, 0, 5000, &zeros, 0),
        Ok(span(0))
    );
    assert_eq!(rt;
        store(&mut pool, 5000, Kind::Mpu, 1, 5000, &zeros, 0),
        Ok(span(1))
    );
    assert_eq!(rt;
        store(&mut pool, 5000, Kind::Mpu, 2, 5000, &zeros, 1200),
        Err(full)
    );
    assert_eq!(rt; (pool.held(), pool.peak()), (2844, 2844));
    Ok(())
}

#[test]
fn store_at_the_delay_and_past_it(rt: HostRuntime) -> Result<(), Fail> {
    let mut pool = Pool::new(rt.alloc(), 1)?;
    let late = NotStored::Late { clock: Tick(6001) };
    assert_eq!(rt;
        store(&mut pool, 6001, Kind::Mpu, 0, 5000, &[1], 0),
        Err(late)
    );
    assert_eq!(rt;
        store(&mut pool, 6000, Kind::Mpu, 0, 5000, &[1], 0),
        Ok(span(0))
    );
    assert_eq!(rt;
        store(&mut pool, 6000, Kind::Mpu, 0, 5000, &[1], 0),
        Err(NotStored::Repeat)
    );
    assert_eq!(rt; (pool.held(), pool.peak()), (1, 1));
    Ok(())
}

#[test]
fn lends_what_is_kept_until_it_expires(rt: HostRuntime) -> Result<(), Fail> {
    let mut pool = Pool::new(rt.alloc(), 4)?;
    assert_eq!(rt;
        store(&mut pool, 300, Kind::Mpu, 1, 100, &[9, 9, 1, 2, 3], 2),
        Ok(span(1))
    );
    assert_eq!(rt;
        store(&mut pool, 300, Kind::Signalling, 0, 300, &[4], 0),
        Ok(span(0))
    );
    assert_eq!(rt;
        (pool.kind(span(0)), pool.kind(span(2))),
        (Some(Kind::Signalling), None)
    );
    assert_eq!(rt;
        pool.payload(span(1)).ok_or("payload")?,
        [1, 2, 3].as_slice()
    );
    assert_eq!(rt;
        part(&pool, span(1), 1, 2).ok_or("part")?,
        [2, 3].as_slice()
    );

    // A packet is out of the window from the tick of its timestamp plus the window on.
    assert_eq!(rt; pool.expire_one(Tick(1099), 1000), None);
    assert_eq!(rt; pool.expire_one(Tick(1100), 1000), Some(span(1)));
    assert_eq!(rt; (pool.held(), pool.peak()), (1, 4));
    expire(&mut pool, Tick(1300), 1000);
    assert!(rt; pool.payload(span(0)).is_none());
    assert_eq!(rt; (pool.held(), pool.peak()), (0, 4));
    Ok(())
}

// What is counted has the same answers as what is stored, and zeros in place of its bytes.
#[test]
fn counts_without_the_bytes(rt: HostRuntime) -> Result<(), Fail> {
    let mut pool = Pool::new(rt.alloc(), 6)?;
    let answers = [
        count(&mut pool, 300, 1, 300, &[1, 2, 3]),
        count(&mut pool, 300, 1, 300, &[1, 2, 3]),
        count(&mut pool, 300, 2, 300, &[1, 2, 3, 4]),
        count(&mut pool, 1301, 2, 300, &[1]),
        count(&mut pool, 1300, 2, 300, &[1]),
    ];
    let full = NotStored::Full { held: 3, length: 4 };
    let late = NotStored::Late { clock: Tick(1301) };
    assert_eq!(rt; answers[0], Ok(span(1)));
    assert_eq!(rt; answers[1], Err(NotStored::Repeat));
    assert_eq!(rt; answers[2], Err(full));
    assert_eq!(rt; answers[3], Err(late));
    assert_eq!(rt; answers[4], Ok(span(2)));
    assert_eq!(rt;
        pool.payload(span(1)).ok_or("payload")?,
        [0, 0, 0].as_slice()
    );
    assert_eq!(rt; (pool.held(), pool.peak()), (4, 4));

    // The longest payload.
    let mut longest = Pool::new(rt.alloc(), 65_536)?;
    let zeros = [9; 65_536];
    assert_eq!(rt; count(&mut longest, 300, 7, 300, &zeros), Ok(span(7)));
    assert_eq!(rt; (longest.held(), longest.peak()), (65_536, 65_536));
    Ok(())
}

#[test]
fn pool_400000_packets(rt: HostRuntime) -> Result<(), Fail> {
    let mut pool = Pool::new(rt.alloc(), 400_000)?;
    for number in 0..400_000 {
        assert_eq!(rt;
            store(&mut pool, 0, Kind::Mpu, number, number ^ 0xFF, &[1], 0),
            Ok(span(number))
        );
    }
    assert_eq!(rt; pool.held(), 400_000);
    expire(&mut pool, Tick(500_000), 1000);
    assert_eq!(rt; (pool.held(), pool.peak()), (0, 400_000));
    Ok(())
}

#[test]
fn strays_expire_with_the_row(rt: HostRuntime) -> Result<(), Fail> {
    let mut pool = Pool::new(rt.alloc(), 9)?;
    let times: [u32; 6] = [100, 300, 200, 250, 300, 400];
    let mut number = 0;
    for time in times {
        assert_eq!(rt;
            store(&mut pool, time, Kind::Mpu, number, time, &[1], 0),
            Ok(span(number))
        );
        number = number.wrapping_add(1);
    }

    // 200 and 250 came after 300.
    let clock = Tick(1250);
    assert_eq!(rt; pool.expire_one(clock, 1000), Some(span(0)));
    assert_eq!(rt; pool.expire_one(clock, 1000), Some(span(2)));
    assert_eq!(rt; pool.expire_one(clock, 1000), Some(span(3)));
    assert_eq!(rt; pool.expire_one(clock, 1000), None);
    assert_eq!(rt; pool.held(), 3);
    expire(&mut pool, Tick(1400), 1000);
    assert_eq!(rt; pool.held(), 0);
    Ok(())
}

#[test]
fn row_wraps_at_2_32(rt: HostRuntime) -> Result<(), Fail> {
    let mut pool = Pool::new(rt.alloc(), 9)?;
    let times: [u32; 4] = [0xFFFF_FF00, 0xFFFF_FFF0, 0x10, 0x20];
    let mut number = 0;
    for time in times {
        assert_eq!(rt;
            store(&mut pool, time, Kind::Mpu, number, time, &[1], 0),
            Ok(span(number))
        );
        number = number.wrapping_add(1);
    }
    assert_eq!(rt; pool.expire_one(Tick(0xEFF), 0x1000), None);
    assert_eq!(rt; pool.expire_one(Tick(0xF00), 0x1000), Some(span(0)));
    assert_eq!(rt; pool.expire_one(Tick(0x1010), 0x1000), Some(span(1)));
    assert_eq!(rt; pool.expire_one(Tick(0x1010), 0x1000), Some(span(2)));
    assert_eq!(rt; pool.expire_one(Tick(0x1010), 0x1000), None);

    // The row is empty, and begins anew.
    assert_eq!(rt;
        store(&mut pool, 0x30, Kind::Mpu, 4, 0x30, &[1], 0),
        Ok(span(4))
    );
    assert_eq!(rt; pool.expire_one(Tick(0x1020), 0x1000), Some(span(3)));
    assert_eq!(rt; pool.expire_one(Tick(0x1020), 0x1000), None);
    assert_eq!(rt; pool.expire_one(Tick(0x1030), 0x1000), Some(span(4)));
    Ok(())
}

#[test]
fn takes_out_of_the_row_where_its_first_packet_stays(rt: HostRuntime) -> Result<(), Fail> {
    let mut pool = Pool::new(rt.alloc(), 9)?;
    let times: [u32; 3] = [50, 200, (1 << 31) + 200];
    let mut number = 0;
    for time in times {
        assert_eq!(rt;
            store(&mut pool, time, Kind::Mpu, number, time, &[1], 0),
            Ok(span(number))
        );
        number = number.wrapping_add(1);
    }

    // Timestamps from 100 to 2^31 + 100 are out of the window.
    let clock = Tick((1 << 31) + 100);
    assert_eq!(rt; pool.expire_one(clock, 0), Some(span(1)));
    assert_eq!(rt; pool.expire_one(clock, 0), None);

    // And now those up to 10 and from 2^31 + 10 on.
    assert_eq!(rt; pool.expire_one(Tick(10), 0), Some(span(2)));
    assert_eq!(rt; pool.expire_one(Tick(10), 0), None);
    assert_eq!(rt; pool.held(), 1);
    Ok(())
}

// Run with one allocation that fails, this finds the pool as it was, and the packet is stored when it is
// offered again.
#[test]
fn without_memory_the_pool_stays(rt: HostRuntime) -> Result<(), Fail> {
    let mut pool = Pool::new(rt.alloc(), 99)?;
    let mut kept = 0;
    for number in 0..99 {
        let time = number ^ 1;
        match store(&mut pool, 0, Kind::Mpu, number, time, &[1], 0) {
            Ok(_) => {}
            Err(refusal) => {
                assert_eq!(rt; refusal, NotStored::OutOfMemory);
                assert_eq!(rt; (pool.held(), pool.peak()), (kept, kept));
                assert!(rt; pool.payload(span(number)).is_none());
                assert_eq!(rt;
                    store(&mut pool, 0, Kind::Mpu, number, time, &[1], 0),
                    Ok(span(number))
                );
            }
        }
        kept = pool.held();
        assert_eq!(rt; kept, number + 1);
    }
    expire(&mut pool, Tick(2000), 1000);
    assert_eq!(rt; pool.held(), 0);
    Ok(())
}
