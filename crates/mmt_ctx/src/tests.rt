//! Worked bytes, and calls with ample memory.

use crate::{Contexts, CtxWhy, Opened, Squeezer};
use mmt_base::Refused;
use mmt_ip::Ip6Header;
use std::test::Fail;

const HEADER: Ip6Header = Ip6Header {
    traffic_class: 0,
    flow_label: 0,
    hop_limit: 64,
    source: 0x2001_0db8_0000_0000_0000_0000_0000_0001,
    destination: 0xff0e_0000_0000_0000_0000_0000_0000_0101,
    source_port: 51300,
    destination_port: 51300,
};

// A packet of context 1 and sequence number 0 with a full header and one byte, most of it zeros.
fn full(version: u8, next: u8) -> [u8; 46] {
    let mut body = [0; 46];
    body[1] = 0x10;
    body[2] = 0x60;
    body[3] = version;
    body[7] = next;
    body
}

fn refusal(read: Result<Opened<'_>, Refused<CtxWhy>>) -> Option<Refused<CtxWhy>> {
    read.err()
}

#[test]
fn each_refusal_has_its_place(rt: HostRuntime) -> Result<(), Fail> {
    let alloc = rt.alloc();
    let mut contexts = Contexts::new(alloc)?;
    let version = full(0x40, 17);
    let next = full(0x60, 6);
    let table: [(&[u8], u32, CtxWhy); 7] = [
        (&[], 0, CtxWhy::Short),
        (&[0, 0x10], 0, CtxWhy::Short),
        (&[0, 0x10, 0x20], 2, CtxWhy::OtherKind(32)),
        (&[0, 0x10, 0x60], 3, CtxWhy::Short),
        (&version, 3, CtxWhy::Version(4)),
        (&next, 7, CtxWhy::NextHeader(6)),
        (&[0, 0x10, 0x61, 0x41], 0, CtxWhy::NoContext(1)),
    ];
    for (body, at, why) in table {
        assert!(rt; body.len() < 64);
        let wanted = Refused { at, why };
        assert_eq!(rt; refusal(contexts.read(body)), Some(wanted));
    }
    Ok(())
}

#[test]
fn a_header_serves_the_packets_after_it(rt: HostRuntime) -> Result<(), Fail> {
    let alloc = rt.alloc();
    let mut contexts = Contexts::new(alloc)?;
    let body = full(0x60, 17);
    let first = contexts.read(&body).ok().ok_or("no full header")?;
    assert!(rt; first.full && first.header.hop_limit == 0 && first.payload == [0].as_slice());
    let later = contexts
        .read(&[0, 0x15, 0x61, 0x41])
        .ok()
        .ok_or("no header kept")?;
    assert!(rt; !later.full && later.context == 1 && later.number == 5);
    assert!(rt; later.header == first.header && later.payload == [0x41].as_slice());
    Ok(())
}

#[test]
fn the_squeezer_counts_its_calls(rt: HostRuntime) -> Result<(), Fail> {
    let alloc = rt.alloc();
    let mut squeezer = Squeezer::new(1, 3, HEADER);
    let mut contexts = Contexts::new(alloc)?;
    for call in 0..18u8 {
        let mut out = Vec::new(alloc);
        squeezer.next(&mut out, &[0x41])?;
        let length = if call % 3 == 0 { 46 } else { 4 };
        assert_eq!(rt; out.len(), length);
        let opened = contexts.read(&out).ok().ok_or("not read")?;
        assert!(rt; opened.number == call % 16 && opened.header == HEADER);
        if call == 17 {
            assert_eq!(rt; out.as_slice(), [0x00, 0x11, 0x61, 0x41].as_slice());
        }
    }
    Ok(())
}
