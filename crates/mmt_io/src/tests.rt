//! Failing calls of each kind, a room that is too small, and a port over streams that fail.

use crate::{CallKind, FailAt, Fault, MemoryPort, Port, RealPort};
use std::alloc::Global;
use std::io;
use std::io::{ErrorKind, Read};
use std::test::Fail;

fn port(alloc: Global, calls: u32, bytes: u32, failing: &[FailAt]) -> Result<MemoryPort, Fail> {
    let input = Vec::from_slice(alloc, b"12345")?;
    let failing = Vec::from_slice(alloc, failing)?;
    Ok(MemoryPort::new(alloc, input, calls, bytes, failing)?)
}

// The calls of any port, of which a test knows their answers alone.
fn read<P: Port>(port: &mut P, buf: &mut [u8]) -> Result<usize, Fault> {
    port.read(buf)
}

fn write<P: Port>(port: &mut P, bytes: &[u8]) -> Result<(), Fault> {
    port.write(bytes)
}

fn note<P: Port>(port: &mut P, bytes: &[u8]) -> Result<(), Fault> {
    port.note(bytes)
}

fn failing(kind: CallKind, number: u64, through: u32) -> FailAt {
    FailAt {
        kind,
        number,
        through,
    }
}

#[test]
fn listed_calls_of_each_kind_fail(rt: HostRuntime) -> Result<(), Fail> {
    let list = [
        failing(CallKind::Read, 1, 9),
        failing(CallKind::Write, 1, 1),
        failing(CallKind::Note, 0, 9),
    ];
    let mut port = port(rt.alloc(), 10, 100, &list)?;
    let mut buf = [0; 3];
    assert_eq!(rt; read(&mut port, &mut buf), Ok(3));
    assert_eq!(rt; &buf, b"123");
    assert_eq!(rt; read(&mut port, &mut buf), Err(Fault));
    assert_eq!(rt; read(&mut port, &mut buf), Ok(2));
    assert_eq!(rt; &buf, b"453");
    assert_eq!(rt; read(&mut port, &mut buf), Ok(0));
    assert_eq!(rt; write(&mut port, b"ab"), Ok(()));
    assert_eq!(rt; write(&mut port, b"cd"), Err(Fault));
    assert_eq!(rt; write(&mut port, b"ef"), Ok(()));
    assert_eq!(rt; note(&mut port, b"gh"), Err(Fault));
    assert_eq!(rt; note(&mut port, b"ij"), Ok(()));
    assert_eq!(rt; port.written(), b"abcef".as_slice());
    assert_eq!(rt; port.noted(), b"ghij".as_slice());
    Ok(())
}

#[test]
fn calls_past_the_room_fail_and_add_nothing(rt: HostRuntime) -> Result<(), Fail> {
    let mut port = port(rt.alloc(), 3, 3, &[failing(CallKind::Write, 0, 1)])?;
    let mut buf = [0; 3];
    assert_eq!(rt;
        write(&mut port, b"abcd"),
        Err(Fault),
        "the room decides, and not the list"
    );
    assert_eq!(rt; port.written().len(), 0);
    assert_eq!(rt; write(&mut port, b"ab"), Ok(()));
    assert_eq!(rt; note(&mut port, b"cd"), Err(Fault));
    assert_eq!(rt; note(&mut port, b"c"), Ok(()));
    assert_eq!(rt; read(&mut port, &mut buf), Ok(3));
    assert_eq!(rt; read(&mut port, &mut buf), Err(Fault));
    assert_eq!(rt; port.written(), b"ab".as_slice());
    assert_eq!(rt; port.noted(), b"c".as_slice());
    Ok(())
}

// A reader that a signal interrupts once, and that fails where its bytes are gone.
#[derive(Drop)]
struct Unsteady {
    interrupted: bool,
    bytes: &'static [u8],
}

impl Read for Unsteady {
    fn read(&mut self, buf: &mut [u8]) -> io::Result<usize> {
        if !self.interrupted {
            self.interrupted = true;
            return Err(io::Error::from(ErrorKind::Interrupted));
        }
        if self.bytes.is_empty() {
            return Err(io::Error::from(ErrorKind::Other));
        }
        self.bytes.read(buf)
    }
}

#[test]
fn a_real_port_passes_bytes_and_tells_failures(rt: HostRuntime) -> Result<(), Fail> {
    let input = Unsteady {
        interrupted: false,
        bytes: b"12",
    };
    let mut output = Vec::new(rt.alloc());
    let mut notes = [0; 3];
    let mut port = RealPort::new(rt.alloc(), input, &mut output, &mut notes[..])?;
    let mut buf = [0; 3];
    assert_eq!(rt; write(&mut port, b"ab"), Ok(()));
    assert_eq!(rt; write(&mut port, b""), Ok(()));
    assert_eq!(rt; note(&mut port, b"xyz"), Ok(()));
    assert_eq!(rt; read(&mut port, &mut buf), Ok(2));
    assert_eq!(rt; &buf[..2], b"12".as_slice());
    assert_eq!(rt; read(&mut port, &mut buf), Err(Fault));
    assert_eq!(rt; write(&mut port, b"c"), Ok(()));
    assert_eq!(rt; port.close(), Ok(()));
    drop(port);
    assert_eq!(rt; output.as_slice(), b"abc".as_slice());
    assert_eq!(rt; &notes, b"xyz");
    Ok(())
}

#[test]
fn gathered_bytes_that_fail_are_told_by_the_next_call(rt: HostRuntime) -> Result<(), Fail> {
    let mut notes = [0; 3];
    let mut port = RealPort::new(rt.alloc(), b"12345".as_slice(), io::sink(), &mut notes[..])?;
    let mut buf = [0; 3];
    assert_eq!(rt; note(&mut port, b"xyz!"), Ok(()), "it is gathered");
    assert_eq!(rt; read(&mut port, &mut buf), Ok(3), "the input is there");
    assert_eq!(rt; write(&mut port, b"a"), Err(Fault), "the notes failed");
    assert_eq!(rt; note(&mut port, b"?"), Err(Fault));
    assert_eq!(rt; port.close(), Err(Fault), "a writer that takes no byte");
    drop(port);
    assert_eq!(rt; &notes, b"xyz");
    Ok(())
}

#[test]
fn a_piece_longer_than_the_buffer_goes_out_after_what_came_before(
    rt: HostRuntime,
) -> Result<(), Fail> {
    let mut output = Vec::new(rt.alloc());
    let mut port = RealPort::new(rt.alloc(), b"".as_slice(), &mut output, io::sink())?;
    let long = vec![in rt.alloc(); 7u8; 65_537]?;
    assert_eq!(rt; write(&mut port, b"ab"), Ok(()));
    assert_eq!(rt; write(&mut port, &long), Ok(()));
    assert_eq!(rt; write(&mut port, b"c"), Ok(()));
    assert_eq!(rt; port.close(), Ok(()));
    drop(port);
    let mut want = Vec::from_slice(rt.alloc(), b"ab")?;
    want.extend_from_slice(&long)?;
    want.push(b'c')?;
    assert!(rt; output.as_slice() == want.as_slice());
    Ok(())
}
