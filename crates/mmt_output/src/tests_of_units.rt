//! The records of units that a pool keeps.

ghost use Rattle.std.specs.Prelude.{◌<◌, ◌^◌, length};

use crate::{Handed, hand_out, write_unit};
use mmt_base::Tick;
use mmt_io::{Fault, MemoryPort};
use mmt_mpt::read_mpt;
use mmt_packet::{Kind, Packet};
use mmt_pool::{NotStored, Pool};
use mmt_runs::Runs;
use mmt_times::{Learned, Named, Names, entries_of};
use std::alloc::Global;
use std::process::Abort;
use std::test::Fail;

// A tick before the units are due, and the one at which they are.
const BEFORE: Tick = Tick(65_568_000);

const DUE: Tick = Tick(65_568_768);

// A table that names MPU 7 of packet id 256, with the time 4297114779648.
const TABLE: [u8; 44] =
    *b"\x20\x00\x00\x28\xfc\x02p1\x00\x00\x01\x00\x00\x00\x00\x00\x01vhev1\xfe\x01\x00\x01\x00\x00\x0f\x00\x01\x0c\x00\x00\x00\x07\x00\x00\x03\xe8\x80\x00\x00\x00";

// The payloads of three packets: the parts of a sample, of which the second has no bytes.
const FIRST: &[u8] =
    b"\x00\x15\x2a\x00\x00\x00\x00\x07\x00\x00\x00\x01\x00\x00\x00\x01\x00\x00\x00\x00\x05\x06a";

const SECOND: &[u8] =
    b"\x00\x14\x2c\x00\x00\x00\x00\x07\x00\x00\x00\x01\x00\x00\x00\x01\x00\x00\x00\x00\x05\x06";

const THIRD: &[u8] =
    b"\x00\x15\x2e\x00\x00\x00\x00\x07\x00\x00\x00\x01\x00\x00\x00\x01\x00\x00\x00\x00\x05\x06c";

// Keeps a packet of packet id 256 with this number.
fn keep(
    pool: &mut Pool,
    names: &Names,
    runs: &mut Runs,
    number: u32,
    payload: &[u8],
) -> Result<(), NotStored>
    requires { length payload.now < 2 ^ 31 }
{
    let packet = Packet {
        counter: None,
        rap: false,
        reserved: 0,
        kind: Kind::Mpu,
        packet_id: 256,
        time: BEFORE,
        number,
        extension: None,
        payload,
    };
    let span = pool.store(BEFORE, 100, payload, 0, &packet)?;
    match runs.added(pool, span, names) {
        Ok(()) => Ok(()),
        Err(_) => Err(NotStored::OutOfMemory),
    }
}

// Learns what the table names.
fn learn(rt: &impl Abort, names: &mut Names) {
    let mpt = match read_mpt(&TABLE) {
        Ok(mpt) => mpt,
        Err(_) => panic!(rt; "no table"),
    };
    match entries_of(&mpt, 1).next() {
        Some(Named::Entry(entry)) => {
            assert_eq!(rt; names.learn(BEFORE, &entry), Learned::New);
        }
        _ => panic!(rt; "no entry"),
    }
}

// What is written of the record of the sample to a port with room for N calls.
fn written(rt: &impl Abort, alloc: Global, calls: u32) -> Result<(bool, Vec<u8>), Fail> {
    let mut pool = Pool::new(alloc, 4000)?;
    let mut names = Names::new(alloc, 1)?;
    let mut runs = Runs::new(alloc);
    learn(rt, &mut names);
    assert_eq!(rt; keep(&mut pool, &names, &mut runs, 5, FIRST), Ok(()));
    assert_eq!(rt; keep(&mut pool, &names, &mut runs, 6, SECOND), Ok(()));
    assert_eq!(rt; keep(&mut pool, &names, &mut runs, 7, THIRD), Ok(()));
    let mut port = MemoryPort::new(alloc, Vec::new(alloc), calls, 1000, Vec::new(alloc))?;
    let done = match runs.least_due(&pool, &names, None, BEFORE, DUE) {
        Some(unit) => write_unit(&mut port, unit).is_ok(),
        None => panic!(rt; "no unit"),
    };
    Ok((done, Vec::from_slice(alloc, port.written())?))
}

#[test]
fn three_calls_write_a_record_whose_second_part_is_empty(rt: HostRuntime) -> Result<(), Fail> {
    let want =
        b"\x55\x01\x01\x00\x00\x00\x03\xe8\x80\x00\x00\x00\x00\x00\x00\x07\x00\x00\x00\x01\x00\x00\x00\x01\x00\x00\x00\x00\x05\x06\x00\x00\x00\x02ac";
    let (done, bytes) = written(&rt, rt.alloc(), 3)?;
    assert!(rt; done);
    assert_eq!(rt; bytes.as_slice(), want.as_slice());
    let (done, bytes) = written(&rt, rt.alloc(), 2)?;
    assert!(rt; !done);
    assert_eq!(rt; bytes.as_slice(), &want[..35]);
    Ok(())
}

#[test]
fn nothing_is_handed_out_of_an_empty_pool(rt: HostRuntime) -> Result<(), Fail> {
    let alloc = rt.alloc();
    let pool = Pool::new(alloc, 4000)?;
    let names = Names::new(alloc, 1)?;
    let runs = Runs::new(alloc);
    let mut port = MemoryPort::new(alloc, Vec::new(alloc), 0, 0, Vec::new(alloc))?;
    let handed: Result<Handed, Fault> = hand_out(&mut port, &pool, &names, &runs, BEFORE, DUE);
    assert_eq!(rt; handed, Ok(Handed { units: 0, bytes: 0 }));
    assert_eq!(rt;
        Handed::nothing().and(Handed { units: 2, bytes: 3 }),
        Handed { units: 2, bytes: 3 }
    );
    Ok(())
}
