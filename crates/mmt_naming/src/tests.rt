//! What messages teach, and what is noted of them.

ghost use Rattle.std.specs.Prelude.{IfOk};
ghost use Rattle.mmt_runs.specs.Told.{IsTold};

use crate::{By, take_message, take_messages};
use mmt_base::{OutOfMemory, Tick};
use mmt_io::{CallKind, FailAt, MemoryPort};
use mmt_model::Params;
use mmt_output::Untold;
use mmt_pool::Pool;
use mmt_runs::Runs;
use mmt_sig::read_sig;
use mmt_times::Names;
use std::alloc::{AllocError, Global};
use std::process::Abort;
use std::test::Fail;

// A PA message with one table, an MPT that names MPU 7 of packet id 256, with the time
// 4297114779648 and two access units.
const MESSAGE: [u8; 80] =
    *b"\x00\x00\x00\x00\x00\x00\x49\x01\x20\x00\x00\x44\x20\x00\x00\x40\xfc\x02p1\x00\x00\x01\x00\x00\x00\x00\x00\x01vhev1\xfe\x01\x00\x01\x00\x00\x27\x00\x01\x0c\x00\x00\x00\x07\x00\x00\x03\xe8\x80\x00\x00\x00\x80\x26\x15\xfd\x00\x00\xea\x60\x00\x00\x00\x07\x3f\x03\xe9\x02\x03\xe9\x03\xe9\x07\xd2\x00\x00";

// A PA message with two tables: one that is no MPT, and an MPT with one asset whose clock relation
// flag is set.
const SECOND: [u8; 65] =
    *b"\x00\x00\x00\x00\x00\x00\x3a\x02\x81\x00\x00\x06\x20\x00\x00\x2b\x81\x00\x00\x02ab\x20\x00\x00\x27\xfc\x02p1\x00\x00\x01\x00\x00\x00\x00\x00\x01vhev1\xff\x01\x00\x01\x00\x00\x0e\x00\x01\x0b\x00\x00\x00\x07\x00\x00\x03\xe8\x80\x00\x00";

// A buffer message for 4,000 bytes, with a window of 65,536 ticks and a delay of 1,000.
const BUFFER: [u8; 17] = *b"\xf1\x00\x00\x00\x0c\x00\x00\x0f\xa0\x00\x01\x00\x00\x00\x00\x03\xe8";

// What a receiver keeps, and its port.
#[derive(Drop)]
struct Kept {
    pool: Pool,
    names: Names,
    runs: Runs,
    port: MemoryPort,
}

// Nothing is kept and nothing is named; the calls of a port that are listed fail.
fn nothing(alloc: Global, failing: &[FailAt]) -> Result<Kept, OutOfMemory>
    ensures { IfOk result (λ kept. IsTold kept.runs kept.pool.kept kept.names) }
{
    let failing = Vec::from_slice(alloc, failing)?;
    let port = MemoryPort::new(alloc, Vec::new(alloc), 4000, 100_000, failing)?;
    Ok(Kept {
        pool: Pool::new(alloc, 4000)?,
        names: Names::new(alloc, 1)?,
        runs: Runs::new(alloc),
        port,
    })
}

// A packet with its payload at place 1000, at a clock.
fn by(alloc: Global, clock: u32) -> By {
    By {
        alloc,
        place: 1000,
        timescale: 1,
        tuned: Params {
            bound: 4000,
            window: 65_536,
            delay: 1000,
        },
        clock: Tick(clock),
    }
}

// Takes message 0 at the clock 100.
fn take(rt: &impl Abort, alloc: Global, kept: &mut Kept, bytes: &[u8])
    requires { IsTold kept.old.runs kept.old.pool.kept kept.old.names }
    ensures { IsTold kept.new.runs kept.new.pool.kept kept.new.names }
{
    assert!(rt; bytes.len() < 1 << 31);
    let by = by(alloc, 100);
    let Kept {
        pool,
        names,
        runs,
        port,
    } = kept;
    match take_message(port, pool, names, runs, &by, 0, bytes) {
        Ok(()) => {}
        Err(_) => panic!(rt; "not told"),
    }
}

#[test]
fn an_entry_is_learned_once_and_another_time_is_noted(rt: HostRuntime) -> Result<(), Fail> {
    let mut kept = nothing(rt.alloc(), &[])?;
    let message = MESSAGE;
    take(&rt, rt.alloc(), &mut kept, &message);
    assert_eq!(rt; kept.names.len(), 1);
    take(&rt, rt.alloc(), &mut kept, &message);
    assert_eq!(rt; kept.names.len(), 1);
    assert_eq!(rt; kept.port.noted(), b"".as_slice());
    let mut other = MESSAGE;
    other[51] = 0xe9;
    take(&rt, rt.alloc(), &mut kept, &other);
    assert_eq!(rt; kept.names.len(), 1);
    assert_eq!(rt;
        kept.port.noted(),
        b"1000 names-differ 0 0 256 7\n".as_slice()
    );
    Ok(())
}

#[test]
fn a_refused_table_is_noted_at_its_place(rt: HostRuntime) -> Result<(), Fail> {
    let mut kept = nothing(rt.alloc(), &[])?;
    let mut message = MESSAGE;
    message[34] = 0xff;
    take(&rt, rt.alloc(), &mut kept, &message);
    assert_eq!(rt; kept.names.len(), 0);
    assert_eq!(rt; kept.port.noted(), b"1000 mpt-clock 0 34 0\n".as_slice());
    Ok(())
}

#[test]
fn a_table_that_is_no_mpt_is_passed_over(rt: HostRuntime) -> Result<(), Fail> {
    let mut kept = nothing(rt.alloc(), &[])?;
    let message = SECOND;
    take(&rt, rt.alloc(), &mut kept, &message);
    assert_eq!(rt; kept.names.len(), 0);
    assert_eq!(rt; kept.port.noted(), b"1000 mpt-clock 0 44 0\n".as_slice());
    Ok(())
}

#[test]
fn a_refused_descriptor_is_noted_at_its_place(rt: HostRuntime) -> Result<(), Fail> {
    let mut kept = nothing(rt.alloc(), &[])?;
    let mut message = MESSAGE;
    message[62] = 0;
    message[63] = 0;
    take(&rt, rt.alloc(), &mut kept, &message);
    assert_eq!(rt; kept.names.len(), 1);
    assert_eq!(rt;
        kept.port.noted(),
        b"1000 times-timescale 0 59\n".as_slice()
    );
    Ok(())
}

#[test]
fn a_refused_message_is_noted_at_its_place(rt: HostRuntime) -> Result<(), Fail> {
    let mut kept = nothing(rt.alloc(), &[])?;
    let mut message = MESSAGE;
    message[6] = 0x48;
    take(&rt, rt.alloc(), &mut kept, &message);
    assert_eq!(rt; kept.names.len(), 0);
    assert_eq!(rt; kept.port.noted(), b"1000 message-length 0 3\n".as_slice());
    Ok(())
}

#[test]
fn a_buffer_message_with_other_values_is_noted(rt: HostRuntime) -> Result<(), Fail> {
    let mut kept = nothing(rt.alloc(), &[])?;
    let mut buffer = BUFFER;
    take(&rt, rt.alloc(), &mut kept, &buffer);
    assert_eq!(rt; kept.port.noted(), b"".as_slice());
    buffer[16] = 0xe9;
    take(&rt, rt.alloc(), &mut kept, &buffer);
    assert_eq!(rt; kept.port.noted(), b"1000 hrbm-differs 0 0\n".as_slice());
    Ok(())
}

#[test]
fn messages_are_numbered_from_0(rt: HostRuntime) -> Result<(), Fail> {
    let mut kept = nothing(rt.alloc(), &[])?;
    let by = by(rt.alloc(), 100);
    let payload = read_sig(
        b"\x01\x00\x00\x01\x00\x00\x03\x00\x01\x07\x00\x11\xf1\x00\x00\x00\x0c\x00\x00\x0f\xa0\x00\x01\x00\x00\x00\x00\x03\xe7",
    )?;
    let told = take_messages(
        &mut kept.port,
        &kept.pool,
        &mut kept.names,
        &mut kept.runs,
        &by,
        payload.messages(),
    );
    assert_eq!(rt; told, Ok(()));
    assert_eq!(rt;
        kept.port.noted(),
        b"1000 message-short 0 0\n1000 hrbm-differs 2 0\n".as_slice()
    );
    Ok(())
}

#[test]
fn a_note_that_fails_ends_the_call(rt: HostRuntime) -> Result<(), Fail> {
    let failing = [FailAt {
        kind: CallKind::Note,
        number: 0,
        through: 6,
    }];
    let mut kept = nothing(rt.alloc(), &failing)?;
    let by = by(rt.alloc(), 100);
    let mut message = MESSAGE;
    message[62] = 0;
    message[63] = 0;
    let told = take_message(
        &mut kept.port,
        &kept.pool,
        &mut kept.names,
        &mut kept.runs,
        &by,
        0,
        &message,
    );
    assert_eq!(rt; told, Err(Untold::WriteFault));
    assert_eq!(rt; kept.port.noted(), b"1000 t".as_slice());
    assert_eq!(rt; kept.names.len(), 0);
    Ok(())
}

// A PA message with an MPT that names the MPUs 0 to 1,024 of packet id 256, each in a descriptor of
// its own.
fn many(alloc: Global) -> Result<Vec<u8>, AllocError> {
    let mut bytes = Vec::from_slice(
        alloc,
        b"\x00\x00\x00\x00\x00\x3c\x31\x01\x20\x00\x3c\x2c\x20\x00\x3c\x28\xfc\x02p1\x00\x00\x01\x00\x00\x00\x00\x00\x01vhev1\xfe\x01\x00\x01\x00\x3c\x0f",
    )?;
    for mpu in 0..1025u32 {
        bytes.extend_from_slice(b"\x00\x01\x0c")?;
        bytes.extend_from_slice(&mpu.to_be_bytes())?;
        bytes.extend_from_slice(b"\x00\x00\x03\xe8\x80\x00\x00\x00")?;
    }
    Ok(bytes)
}

#[test]
fn an_entry_beyond_1_024_is_noted(rt: HostRuntime) -> Result<(), Fail> {
    let mut kept = nothing(rt.alloc(), &[])?;
    let message = many(rt.alloc())?;
    take(&rt, rt.alloc(), &mut kept, &message);
    assert_eq!(rt; kept.names.len(), 1024);
    assert_eq!(rt;
        kept.port.noted(),
        b"1000 names-full 0 0 256 1024\n".as_slice()
    );
    Ok(())
}
