//! The commands `expand` and `squeeze` over the worked stream.

use crate::run::run;
use crate::status::Status;
use crate::take_tests::{Units, records};
use crate::tests::words;
use crate::worked::{packet, stream};
use mmt_io::{MemoryPort, MemoryShelf};
use std::alloc::Global;
use std::test::Fail;

const SQUEEZE: &[&str] = &["squeeze", "--context", "1", "--full-every", "3"];

// The first two packets of the worked stream as plain ones, the second up to its timestamp.
const FIRST: &[u8] =
    b"\x7f\x02\x00\x4f\x60\x00\x00\x00\x00\x27\x11\x40\x20\x01\x0d\xb8\x00\x00\x00\x00\x00\x00\x00\x00\x00\x00\x00\x01\xff\x0e\x00\x00\x00\x00\x00\x00\x00\x00\x00\x00\x00\x00\x01\x01\xc8\x64\xc8\x64\x00\x27\xb7\x0e\x00\x02\x00\x00\x03\xe8\x00\x00\x00\x00\x00\x00\x00\x00\xf1\x00\x00\x00\x0c\x00\x00\x0f\xa0\x00\x01\x00\x00\x00\x00\x03\xe8";

const SECOND: &[u8] =
    b"\x7f\x02\x00\x8e\x60\x00\x00\x00\x00\x66\x11\x40\x20\x01\x0d\xb8\x00\x00\x00\x00\x00\x00\x00\x00\x00\x00\x00\x01\xff\x0e\x00\x00\x00\x00\x00\x00\x00\x00\x00\x00\x00\x00\x01\x01\xc8\x64\xc8\x64\x00\x66\x03\x45\x00\x02\x00\x00\x03\xe8\x00\x64";

// The port after a command that has done its work.
fn done(alloc: Global, texts: &[&str], input: Vec<u8>) -> Result<MemoryPort, Fail> {
    let words = words(alloc, texts)?;
    let mut port = MemoryPort::new(alloc, input, 100, 10_000, Vec::new(alloc))?;
    let mut shelf = MemoryShelf::new(alloc, Vec::new(alloc));
    match run(alloc, &words, &mut port, &mut shelf) {
        Status::Done => Ok(port),
        _ => Err("not done")?,
    }
}

/// The worked stream with all headers.
pub(crate) fn plain(alloc: Global) -> Result<Vec<u8>, Fail> {
    let port = done(alloc, &["expand"], stream(alloc)?)?;
    Ok(Vec::from_slice(alloc, port.written())?)
}

#[test]
fn expands_the_worked_stream(rt: HostRuntime) -> Result<(), Fail> {
    let alloc = rt.alloc();
    let port = done(alloc, &["expand"], stream(alloc)?)?;
    assert_eq!(rt; port.written().len(), 4073);
    assert_eq!(rt; port.written().get(..83), Some(FIRST));
    assert_eq!(rt; port.written().get(83..143), Some(SECOND));
    assert!(rt; port.noted().is_empty());
    let taken = done(alloc, &["take"], plain(alloc)?)?;
    assert_eq!(rt; taken.written(), records(alloc, Units::Both)?.as_slice());
    Ok(())
}

#[test]
fn squeezes_the_worked_stream_back(rt: HostRuntime) -> Result<(), Fail> {
    let alloc = rt.alloc();
    let port = done(alloc, SQUEEZE, plain(alloc)?)?;
    assert_eq!(rt; port.written(), stream(alloc)?.as_slice());
    assert!(rt; port.noted().is_empty());
    Ok(())
}

#[test]
fn notes_a_packet_without_a_header(rt: HostRuntime) -> Result<(), Fail> {
    let alloc = rt.alloc();
    let port = done(alloc, &["expand"], packet(alloc, 1)?)?;
    assert!(rt; port.written().is_empty());
    assert_eq!(rt; port.noted(), b"4 ctx-none 1\n".as_slice());
    Ok(())
}

#[test]
fn notes_a_packet_that_is_compressed_already(rt: HostRuntime) -> Result<(), Fail> {
    let alloc = rt.alloc();
    let words = ["squeeze", "--context", "0", "--full-every", "1"];
    let port = done(alloc, &words, packet(alloc, 0)?)?;
    assert!(rt; port.written().is_empty());
    assert_eq!(rt; port.noted(), b"1 gate-squeezed\n".as_slice());
    Ok(())
}
