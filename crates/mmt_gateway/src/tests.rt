//! Streams in both directions, with packets that are left out, and a note that fails.

ghost use Rattle.std.specs.Prelude.{◌<◌, ◌≤◌, ◌^◌, length};

use crate::{ExpandCommand, SqueezeCommand};
use mmt_base::OutOfMemory;
use mmt_io::{CallKind, FailAt, MemoryPort};
use mmt_stream::{StreamEnd, stream};
use mmt_tlv::{Tlv, write_tlv};
use std::alloc::Global;
use std::test::Fail;

// An IPv6 packet from 2001:db8::1 to ff0e::101, both by port 51300, with the payload `abc`.
const PLAIN: &[u8] =
    b"\x60\x00\x00\x00\x00\x0b\x11\x40\x20\x01\x0d\xb8\x00\x00\x00\x00\x00\x00\x00\x00\x00\x00\x00\x01\xff\x0e\x00\x00\x00\x00\x00\x00\x00\x00\x00\x00\x00\x00\x01\x01\xc8\x64\xc8\x64\x00\x0b\x7c\xe2abc";

// The same packet in context 1, the first of its flow, with its header.
const FULL: &[u8] =
    b"\x00\x10\x60\x60\x00\x00\x00\x11\x40\x20\x01\x0d\xb8\x00\x00\x00\x00\x00\x00\x00\x00\x00\x00\x00\x01\xff\x0e\x00\x00\x00\x00\x00\x00\x00\x00\x00\x00\x00\x00\x01\x01\xc8\x64\xc8\x64abc";

// The same packet as the second one of its flow, without its header.
const SHORT: &[u8] = b"\x00\x11\x61abc";

// Appends a TLV packet of a type with a body.
fn put(out: &mut Vec<u8>, kind: u8, body: &[u8]) -> Result<(), OutOfMemory>
    requires { length body.now < 2 ^ 16 }
{
    write_tlv(out, &Tlv { kind, body })
}

// A port over these bytes.
fn port(alloc: Global, input: Vec<u8>, failing: &[FailAt]) -> Result<MemoryPort, Fail> {
    let failing = Vec::from_slice(alloc, failing)?;
    Ok(MemoryPort::new(alloc, input, 100, 1000, failing)?)
}

// How a stream ends that is expanded.
#[tactic(auto, unfolding(mmt_model::specs::Delivery::newest_first, mmt_model::specs::Delivery::onto))]
fn expand(alloc: Global, port: &mut MemoryPort) -> Result<StreamEnd, Fail> {
    let command = ExpandCommand::new(alloc)?;
    Ok(stream(alloc, port, command, 1_000_000))
}

// How a stream ends that is squeezed, with contexts from 1 on and every second header.
#[tactic(auto, unfolding(mmt_model::specs::Delivery::newest_first, mmt_model::specs::Delivery::onto, mmt_gate::specs::Flows::headers))]
fn squeeze(alloc: Global, port: &mut MemoryPort) -> Result<StreamEnd, Fail> {
    let command = SqueezeCommand::new(alloc, 1, 2)?;
    Ok(stream(alloc, port, command, 1_000_000))
}

// A null packet of 7 bytes, a packet without its header, one with it, and the first again.
fn compressed(alloc: Global) -> Result<Vec<u8>, OutOfMemory> {
    let mut out = Vec::new(alloc);
    put(&mut out, 0xFF, b"abc")?;
    put(&mut out, 3, SHORT)?;
    put(&mut out, 3, FULL)?;
    put(&mut out, 3, SHORT)?;
    Ok(out)
}

#[test]
fn a_stream_is_expanded(rt: HostRuntime) -> Result<(), Fail> {
    let alloc = rt.alloc();
    let mut expected = Vec::new(alloc);
    put(&mut expected, 0xFF, b"abc")?;
    put(&mut expected, 2, PLAIN)?;
    put(&mut expected, 2, PLAIN)?;
    let mut port = port(alloc, compressed(alloc)?, &[])?;
    assert_eq!(rt; expand(alloc, &mut port)?, StreamEnd::Done);
    assert_eq!(rt; port.written(), expected.as_slice());
    assert_eq!(rt; port.noted(), b"11 ctx-none 1\n".as_slice());
    Ok(())
}

#[test]
fn a_stream_is_squeezed(rt: HostRuntime) -> Result<(), Fail> {
    let alloc = rt.alloc();
    let mut input = Vec::new(alloc);
    put(&mut input, 2, PLAIN)?;
    put(&mut input, 3, SHORT)?;
    put(&mut input, 2, PLAIN)?;
    let mut expected = Vec::new(alloc);
    put(&mut expected, 3, FULL)?;
    put(&mut expected, 3, SHORT)?;
    let mut port = port(alloc, input, &[])?;
    assert_eq!(rt; squeeze(alloc, &mut port)?, StreamEnd::Done);
    assert_eq!(rt; port.written(), expected.as_slice());
    assert_eq!(rt; port.noted(), b"56 gate-squeezed\n".as_slice());
    Ok(())
}

#[test]
fn a_payload_that_is_too_long_is_noted(rt: HostRuntime) -> Result<(), Fail> {
    let alloc = rt.alloc();
    let mut body = vec![in alloc; 0x5Au8; 65_533]?;
    body[..45].copy_from_slice(&FULL[..45]);
    let mut input = Vec::new(alloc);
    put(&mut input, 3, &body)?;
    let mut port = port(alloc, input, &[])?;
    assert_eq!(rt; expand(alloc, &mut port)?, StreamEnd::Done);
    assert!(rt; port.written().is_empty());
    assert_eq!(rt; port.noted(), b"1 gate-long 65488\n".as_slice());
    Ok(())
}

#[test]
fn a_note_that_fails_halts(rt: HostRuntime) -> Result<(), Fail> {
    let alloc = rt.alloc();
    let failing = FailAt {
        kind: CallKind::Note,
        number: 0,
        through: 4,
    };
    let mut port = port(alloc, compressed(alloc)?, &[failing])?;
    assert_eq!(rt; expand(alloc, &mut port)?, StreamEnd::WriteFault);
    assert_eq!(rt; port.noted(), b"11 c".as_slice());
    Ok(())
}
