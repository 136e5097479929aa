//! Packets in both directions, and those that are left out.
ghost use Rattle.std.specs.Prelude.{◌<◌, ◌≤◌, ◌^◌, length, IfOk};
ghost use Rattle.mmt_tlv.specs.Cutting.{IsPacket};

use crate::{ExpandEnd, Expander, ShrinkEnd, Shrinker};
use mmt_base::OutOfMemory;
use mmt_ctx::CtxWhy;
use mmt_ip::{Ip6Header, Ip6Udp, write_ip6udp};
use mmt_tlv::{Tlv, write_tlv};
use std::alloc::Global;
use std::test::Fail;

// An IPv6 packet from 2001:db8::1 to ff0e::101, both by port 51300, with the payload `abc`.
const PLAIN: [u8; 51] = [
    0x60, 0, 0, 0, 0, 11, 17, 64, 0x20, 1, 0x0D, 0xB8, 0, 0, 0, 0, 0, 0, 0, 0, 0, 0, 0, 1, 0xFF,
    0x0E, 0, 0, 0, 0, 0, 0, 0, 0, 0, 0, 0, 0, 1, 1, 0xC8, 0x64, 0xC8, 0x64, 0, 11, 0x7C, 0xE2,
    0x61, 0x62, 0x63,
];

// The same packet in context 1, the first of its flow, with its header.
const FULL: &[u8] =
    b"\x00\x10\x60\x60\x00\x00\x00\x11\x40\x20\x01\x0d\xb8\x00\x00\x00\x00\x00\x00\x00\x00\x00\x00\x00\x01\xff\x0e\x00\x00\x00\x00\x00\x00\x00\x00\x00\x00\x00\x00\x01\x01\xc8\x64\xc8\x64abc";

// The same packet as the second one of its flow, without its header.
const SHORT: &[u8] = b"\x00\x11\x61abc";

// A TLV packet of a type with a body.
fn packet(alloc: Global, kind: u8, body: &[u8]) -> Result<Vec<u8>, OutOfMemory>
    requires { length body.now < 2 ^ 16 }
    ensures { IfOk result (λ v. IsPacket v.items) }
{
    let mut out = Vec::new(alloc);
    write_tlv(&mut out, &Tlv { kind, body })?;
    Ok(out)
}

#[test]
fn a_compressed_packet_becomes_plain(rt: HostRuntime) -> Result<(), Fail> {
    let alloc = rt.alloc();
    let mut expander = Expander::new(alloc)?;
    let full = packet(alloc, 3, FULL)?;
    let short = packet(alloc, 3, SHORT)?;
    let plain = packet(alloc, 2, &PLAIN)?;
    let mut out = Vec::new(alloc);
    assert_eq!(rt; expander.next(&mut out, &full), Ok(()));
    assert_eq!(rt; out, plain);
    let mut second = Vec::new(alloc);
    assert_eq!(rt; expander.next(&mut second, &short), Ok(()));
    assert_eq!(rt; second, plain);
    Ok(())
}

#[test]
fn a_packet_without_a_header_is_refused(rt: HostRuntime) -> Result<(), Fail> {
    let alloc = rt.alloc();
    let mut expander = Expander::new(alloc)?;
    let short = packet(alloc, 3, SHORT)?;
    let mut out = Vec::new(alloc);
    let refused = ExpandEnd::Refused {
        at: 0,
        why: CtxWhy::NoContext(1),
    };
    assert_eq!(rt; expander.next(&mut out, &short), Err(refused));
    assert!(rt; out.is_empty());
    Ok(())
}

#[test]
fn other_packets_stay_as_they_are(rt: HostRuntime) -> Result<(), Fail> {
    let alloc = rt.alloc();
    let mut expander = Expander::new(alloc)?;
    let mut shrinker = Shrinker::new(alloc, 0, 1)?;
    let null = packet(alloc, 0xFF, b"abc")?;
    let mut out = Vec::new(alloc);
    assert_eq!(rt; expander.next(&mut out, &null), Ok(()));
    assert_eq!(rt; out, null);
    let mut squeezed = Vec::new(alloc);
    assert_eq!(rt; shrinker.next(&mut squeezed, &null), Ok(()));
    assert_eq!(rt; squeezed, null);
    Ok(())
}

#[test]
fn a_plain_packet_is_compressed(rt: HostRuntime) -> Result<(), Fail> {
    let alloc = rt.alloc();
    let mut shrinker = Shrinker::new(alloc, 1, 3)?;
    let full = packet(alloc, 3, FULL)?;
    let short = packet(alloc, 3, SHORT)?;
    let plain = packet(alloc, 2, &PLAIN)?;
    let mut out = Vec::new(alloc);
    assert_eq!(rt; shrinker.next(&mut out, &plain), Ok(()));
    assert_eq!(rt; out, full);
    let mut second = Vec::new(alloc);
    assert_eq!(rt; shrinker.next(&mut second, &plain), Ok(()));
    assert_eq!(rt; second, short);
    Ok(())
}

#[test]
fn a_compressed_packet_is_not_squeezed(rt: HostRuntime) -> Result<(), Fail> {
    let alloc = rt.alloc();
    let mut shrinker = Shrinker::new(alloc, 0, 1)?;
    let full = packet(alloc, 3, FULL)?;
    let mut out = Vec::new(alloc);
    assert_eq!(rt; shrinker.next(&mut out, &full), Err(ShrinkEnd::Squeezed));
    assert!(rt; out.is_empty());
    Ok(())
}

#[test]
fn a_plain_packet_that_is_refused_stays(rt: HostRuntime) -> Result<(), Fail> {
    let alloc = rt.alloc();
    let mut shrinker = Shrinker::new(alloc, 0, 1)?;
    let mut body = PLAIN;
    body[47] = 0xE3;
    let wrong_sum = packet(alloc, 2, &body)?;
    let mut out = Vec::new(alloc);
    assert_eq!(rt; shrinker.next(&mut out, &wrong_sum), Ok(()));
    assert_eq!(rt; out, wrong_sum);
    Ok(())
}

// A plain packet with an empty payload, from 2001:db8::1 by a port.
fn from_port(alloc: Global, source_port: u16) -> Result<Vec<u8>, OutOfMemory>
    ensures { IfOk result (λ v. IsPacket v.items) }
{
    let header = Ip6Header {
        traffic_class: 0,
        flow_label: 0,
        hop_limit: 64,
        source: 0x2001_0db8_0000_0000_0000_0000_0000_0001,
        destination: 0xff0e_0000_0000_0000_0000_0000_0000_0101,
        source_port,
        destination_port: 51300,
    };
    let mut body = Vec::new(alloc);
    let ip = Ip6Udp {
        header,
        summed: true,
        payload: &[],
    };
    write_ip6udp(&mut body, &ip)?;
    if body.len() < 1000 {
        packet(alloc, 2, &body)
    } else {
        Err(OutOfMemory)
    }
}

// The type and the context of the TLV packet that a packet from a port becomes, and 0 for the context
// where it stays as it is.
fn squeezed_from(
    alloc: Global,
    shrinker: &mut Shrinker,
    port: u16,
) -> Result<(u8, u16), OutOfMemory> {
    let tlv = from_port(alloc, port)?;
    let mut out = Vec::new(alloc);
    match shrinker.next(&mut out, &tlv) {
        Ok(()) => {}
        Err(_) => return Err(OutOfMemory),
    }
    match out.as_slice() {
        [_, 3, _, _, high, low, ..] => Ok((3, (*high as u16 * 256 + *low as u16) / 16)),
        [_, kind, ..] => Ok((*kind, 0)),
        _ => Err(OutOfMemory),
    }
}

// Whether the packets from the ports below `count` are compressed, each in the context of its port.
fn are_in_their_contexts(
    alloc: Global,
    shrinker: &mut Shrinker,
    count: u16,
) -> Result<bool, OutOfMemory> {
    for port in 0..count {
        if squeezed_from(alloc, shrinker, port)? != (3, port) {
            return Ok(false);
        }
    }
    Ok(true)
}

#[test]
fn headers_past_the_last_context(rt: HostRuntime) -> Result<(), Fail> {
    let alloc = rt.alloc();
    let mut shrinker = Shrinker::new(alloc, 0, 1)?;
    assert!(rt; are_in_their_contexts(alloc, &mut shrinker, 4096)?);
    assert_eq!(rt; squeezed_from(alloc, &mut shrinker, 4096)?, (2, 0));
    assert_eq!(rt; squeezed_from(alloc, &mut shrinker, 4095)?, (3, 4095));
    assert_eq!(rt; squeezed_from(alloc, &mut shrinker, 4096)?, (2, 0));
    Ok(())
}

#[test]
fn contexts_from_a_later_one(rt: HostRuntime) -> Result<(), Fail> {
    let alloc = rt.alloc();
    let mut shrinker = Shrinker::new(alloc, 4094, 1)?;
    assert_eq!(rt; squeezed_from(alloc, &mut shrinker, 7)?, (3, 4094));
    assert_eq!(rt; squeezed_from(alloc, &mut shrinker, 8)?, (3, 4095));
    assert_eq!(rt; squeezed_from(alloc, &mut shrinker, 9)?, (2, 0));
    assert_eq!(rt; squeezed_from(alloc, &mut shrinker, 7)?, (3, 4094));
    Ok(())
}

// A TLV packet of type 3 in context 1, with a header, where it is to have one, and this many payload bytes.
fn of_length(alloc: Global, full: bool, count: usize) -> Result<Vec<u8>, OutOfMemory>
    requires { count ≤ 65488 }
    ensures { IfOk result (λ v. IsPacket v.items) }
{
    let mut body = Vec::new(alloc);
    let front = if full { &FULL[..45] } else { &SHORT[..3] };
    body.extend_from_slice(front)?;
    let payload = vec![in alloc; 0x5Au8; count]?;
    body.extend_from_slice(&payload)?;
    if body.len() < 65_536 {
        packet(alloc, 3, &body)
    } else {
        Err(OutOfMemory)
    }
}

// What is expanded of a packet of such a length, and how many bytes it becomes.
fn expanded(
    alloc: Global,
    expander: &mut Expander,
    full: bool,
    count: usize,
) -> Result<(Result<(), ExpandEnd>, usize), OutOfMemory>
    requires { count ≤ 65488 }
{
    let tlv = of_length(alloc, full, count)?;
    let mut out = Vec::new(alloc);
    let answer = expander.next(&mut out, &tlv);
    Ok((answer, out.len()))
}

#[test]
fn payloads_that_just_fit_a_plain_packet(rt: HostRuntime) -> Result<(), Fail> {
    let alloc = rt.alloc();
    let mut expander = Expander::new(alloc)?;
    let too_long = ExpandEnd::TooLong { length: 65_488 };
    assert_eq!(rt;
        expanded(alloc, &mut expander, true, 65_488)?,
        (Err(too_long), 0)
    );
    assert_eq!(rt;
        expanded(alloc, &mut expander, false, 65_487)?,
        (Ok(()), 65_539)
    );
    assert_eq!(rt;
        expanded(alloc, &mut expander, false, 65_488)?,
        (Err(too_long), 0)
    );
    assert_eq!(rt;
        expanded(alloc, &mut expander, true, 65_487)?,
        (Ok(()), 65_539)
    );
    Ok(())
}
