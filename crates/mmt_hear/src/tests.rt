//! Packets that are heard, that are none of ours, and that are refused.
ghost use Rattle.std.specs.Prelude.{◌<◌, ◌^◌, length, IfOk};
ghost use Rattle.mmt_tlv.specs.Cutting.{IsPacket};

use crate::{Heard, Hearer, Why};
use mmt_base::OutOfMemory;
use mmt_ip::{Ip6Header, Ip6Udp, write_ip6udp};
use mmt_model::{Flow, FlowChoice};
use mmt_tlv::{Tlv, write_tlv};
use std::alloc::Global;
use std::test::Fail;

const DESTINATION: u128 = 0xff0e_0000_0000_0000_0000_0000_0000_0101;

// A TLV packet of a type with a body.
fn packet(alloc: Global, kind: u8, body: &[u8]) -> Result<Vec<u8>, OutOfMemory>
    requires { length body.now < 2 ^ 16 }
    ensures { IfOk result (λ v. IsPacket v.items) }
{
    let mut out = Vec::new(alloc);
    write_tlv(&mut out, &Tlv { kind, body })?;
    Ok(out)
}

// A plain IPv6 packet without a checksum, as a TLV packet.
fn plain(alloc: Global, port: u16, payload: &[u8]) -> Result<Vec<u8>, OutOfMemory>
    requires { length payload.now < 64 }
    ensures { IfOk result (λ v. IsPacket v.items) }
{
    let header = Ip6Header {
        traffic_class: 0,
        flow_label: 0,
        hop_limit: 64,
        source: 0x2001_0db8_0000_0000_0000_0000_0000_0001,
        destination: DESTINATION,
        source_port: 51300,
        destination_port: port,
    };
    let mut body = Vec::new(alloc);
    let ip = Ip6Udp {
        header,
        summed: false,
        payload,
    };
    write_ip6udp(&mut body, &ip)?;
    if body.len() < 1000 {
        packet(alloc, 2, &body)
    } else {
        Err(OutOfMemory)
    }
}

// Where an MMTP packet or a refusal stands, and the refusal.
fn told(heard: Heard<'_>) -> (u32, Option<Why>) {
    match heard {
        Heard::Packet { packet: _, from } => (from, None),
        Heard::NotOurs => (0, None),
        Heard::Refused { at, why } => (at, Some(why)),
    }
}

const BARE: [u8; 12] = [0, 0, 0, 0x10, 0, 1, 0, 0, 0, 0, 0, 5];

#[test]
fn plain_packets(rt: HostRuntime) -> Result<(), Fail> {
    let alloc = rt.alloc();
    let mut hearer = Hearer::new(alloc)?;
    let one = FlowChoice::One(Flow {
        address: DESTINATION,
        port: 51300,
    });
    let ours = plain(alloc, 51300, &BARE)?;
    assert_eq!(rt; told(hearer.hear(&FlowChoice::Any, &ours)), (52, None));
    assert_eq!(rt; told(hearer.hear(&one, &ours)), (52, None));
    let other = plain(alloc, 51301, &BARE)?;
    assert_eq!(rt; told(hearer.hear(&one, &other)), (0, None));
    let ntp = plain(alloc, 123, &BARE)?;
    assert_eq!(rt; told(hearer.hear(&FlowChoice::Any, &ntp)), (0, None));
    let text = plain(alloc, 51300, b"abc")?;
    assert_eq!(rt;
        told(hearer.hear(&one, &text)),
        (52, Some(Why::MmtpVersion(1)))
    );
    Ok(())
}

#[test]
fn other_types(rt: HostRuntime) -> Result<(), Fail> {
    let alloc = rt.alloc();
    let mut hearer = Hearer::new(alloc)?;
    let table: [(u8, &[u8], u32, Option<Why>); 7] = [
        (0x01, &[], 1, Some(Why::Ip4)),
        (0x05, &[], 1, Some(Why::TlvKind(5))),
        (0xFE, &[], 0, None),
        (0xFF, &[], 0, None),
        (0x02, &[0x60], 4, Some(Why::IpShort)),
        (0x03, &[0, 0x10, 0x61, 0x41], 4, Some(Why::CtxNone(1))),
        (0x03, &[0, 0x10, 0x20], 6, Some(Why::CtxKind(32))),
    ];
    for (kind, body, at, why) in table {
        assert!(rt; body.len() < 64);
        let tlv = packet(alloc, kind, body)?;
        assert_eq!(rt; told(hearer.hear(&FlowChoice::Any, &tlv)), (at, why));
    }
    Ok(())
}
