//! A receiver packet by packet.

ghost use Rattle.std.specs.Prelude.{◌<◌, ◌^◌, length, IfOk};
ghost use Rattle.mmt_tlv.specs.Cutting.{IsPacket};

use crate::{Config, Receiver, Summary};
use mmt_base::OutOfMemory;
use mmt_io::MemoryPort;
use mmt_model::FlowChoice;
use mmt_tlv::{Tlv, write_tlv};
use std::alloc::Global;
use std::test::Fail;

// A TLV packet of a type with a body.
fn packet(alloc: Global, kind: u8, body: &[u8]) -> Result<Vec<u8>, OutOfMemory>
    requires { length body.now < 2 ^ 16 }
    ensures { IfOk result (λ v. IsPacket v.items) }
{
    let mut out = Vec::new(alloc);
    write_tlv(&mut out, &Tlv { kind, body })?;
    Ok(out)
}

// A receiver of any flow.
fn receiver(alloc: Global) -> Result<Receiver, OutOfMemory> {
    let config = Config {
        bound: 4000,
        flow: FlowChoice::Any,
        sample_base: 1,
        timescale: 90_000,
        assumed: None,
    };
    Receiver::new(alloc, config)
}

// A port without input.
fn port(alloc: Global) -> Result<MemoryPort, Fail> {
    Ok(MemoryPort::new(alloc, Vec::new(alloc), 100, 1000, Vec::new(alloc))?)
}

const NOTHING: Summary = Summary {
    units: 0,
    bytes: 0,
    peak: 0,
    late: 0,
    repeat: 0,
    full: 0,
};

#[test]
fn a_stream_without_packets(rt: HostRuntime) -> Result<(), Fail> {
    let receiver = receiver(rt.alloc())?;
    let mut port = port(rt.alloc())?;
    assert_eq!(rt; receiver.held(), 0);
    let summary = receiver.finish(&mut port).ok().ok_or("finish")?;
    assert_eq!(rt; summary, NOTHING);
    assert_eq!(rt; port.written().len(), 0);
    assert_eq!(rt; port.noted().len(), 0);
    Ok(())
}

#[test]
fn a_refused_packet_is_noted_and_the_next_is_received(rt: HostRuntime) -> Result<(), Fail> {
    let receiver = receiver(rt.alloc())?;
    let mut port = port(rt.alloc())?;
    let old = packet(rt.alloc(), 1, &[])?;
    let empty = packet(rt.alloc(), 255, &[])?;
    let receiver = receiver.push(&mut port, 10, &old).ok().ok_or("push")?;
    let receiver = receiver.push(&mut port, 14, &empty).ok().ok_or("push")?;
    assert_eq!(rt; receiver.held(), 0);
    assert_eq!(rt; port.noted(), b"11 ip4\n".as_slice());
    assert_eq!(rt; port.written().len(), 0);
    Ok(())
}
