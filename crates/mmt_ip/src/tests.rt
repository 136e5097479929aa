use crate::{Ip6Header, IpWhy, read_ip6udp, udp_sum, write_ip6udp};
use mmt_base::Refused;
use std::test::Fail;

/// A datagram of three bytes from 2001:db8::1 to ff0e::101, both ports 51300.
const PLAIN: &[u8] =
    b"\x60\x00\x00\x00\x00\x0b\x11\x40\x20\x01\x0d\xb8\x00\x00\x00\x00\x00\x00\x00\x00\x00\x00\x00\x01\xff\x0e\x00\x00\x00\x00\x00\x00\x00\x00\x00\x00\x00\x00\x01\x01\xc8\x64\xc8\x64\x00\x0b\x7c\xe2abc";

const HEADER: Ip6Header = Ip6Header {
    traffic_class: 0,
    flow_label: 0,
    hop_limit: 64,
    source: 0x2001_0DB8_0000_0000_0000_0000_0000_0001,
    destination: 0xFF0E_0000_0000_0000_0000_0000_0000_0101,
    source_port: 51300,
    destination_port: 51300,
};

#[test]
fn a_plain_packet_both_ways(rt: HostRuntime) -> Result<(), Fail> {
    let packet = read_ip6udp(PLAIN)?;
    assert_eq!(rt; packet.header, HEADER);
    assert!(rt; packet.summed);
    assert_eq!(rt; packet.payload, b"abc".as_slice());
    let mut out = Vec::new(rt.alloc());
    assert_eq!(rt; write_ip6udp(&mut out, &packet), Ok(()));
    assert_eq!(rt; out.as_slice(), PLAIN);
    Ok(())
}

#[test]
fn checksums_of_a_program_that_adds_words(rt: HostRuntime) {
    let sums: [(&[u8], u16); 7] = [
        (b"abc", 0x7CE2),
        (b"", 0x414B),
        (b"\xff", 0x4248),
        (b"\xff\xff\xff\xff\xff\xff\xff\xff\xff", 0x4238),
        (
            b"\x00\x01\x02\x03\x04\x05\x06\x07\x08\x09\x0a\x0b\x0c\x0d\x0e\x0f\x10",
            0xF8E8,
        ),
        (
            b"\x01\x02\x03\x04\x05\x06\x07\x08\x09\x0a\x0b\x0c\x0d\x0e\x0f",
            0x00F5,
        ),
        (b"\x41\x47", 0xFFFF),
    ];
    for (payload, sum) in sums {
        assert!(rt; payload.len() <= 65487);
        assert_eq!(rt; udp_sum(&HEADER, payload), sum);
    }
}

#[test]
fn each_refusal_at_its_place(rt: HostRuntime) {
    // The count of bytes, those of them that are not 0, and the refusal.
    let refused: [(usize, [(usize, u8); 4], u32, IpWhy); 8] = [
        (0, [(0, 0); 4], 0, IpWhy::Short),
        (39, [(0, 0x60); 4], 0, IpWhy::Short),
        (40, [(0, 0x4F); 4], 0, IpWhy::Version(4)),
        (40, [(0, 0x60); 4], 6, IpWhy::NextHeader(0)),
        (40, [(0, 0x60), (6, 17), (5, 8), (5, 8)], 4, IpWhy::Length),
        (40, [(0, 0x60), (6, 17), (5, 0), (5, 0)], 40, IpWhy::Short),
        (48, [(0, 0x60), (6, 17), (5, 8), (45, 9)], 44, IpWhy::Length),
        (
            48,
            [(0, 0x60), (6, 17), (5, 8), (45, 8)],
            46,
            IpWhy::Checksum,
        ),
    ];
    for (count, parts, at, why) in refused {
        let mut bytes = [0; 48];
        for (place, byte) in parts {
            assert!(rt; place < 48);
            bytes[place] = byte;
        }
        if why == IpWhy::Checksum {
            bytes[47] = 1;
        }
        assert!(rt; count <= 48);
        assert_eq!(rt;
            read_ip6udp(&bytes[..count]).err(),
            Some(Refused { at, why })
        );
    }
}

#[test]
fn each_prefix_is_refused(rt: HostRuntime) {
    for (count, _) in PLAIN.iter().enumerate() {
        let (prefix, _) = PLAIN.split_at(count);
        let (at, why) = if count < 40 {
            (0, IpWhy::Short)
        } else {
            (4, IpWhy::Length)
        };
        assert_eq!(rt; read_ip6udp(prefix).err(), Some(Refused { at, why }));
    }
}

#[test]
fn a_packet_with_no_checksum_both_ways(rt: HostRuntime) -> Result<(), Fail> {
    let mut bytes = PLAIN.to_vec(rt.alloc())?;
    assert_eq!(rt; bytes.len(), 51);
    bytes[46] = 0;
    bytes[47] = 0;
    let packet = read_ip6udp(&bytes)?;
    assert!(rt; !packet.summed);
    assert_eq!(rt; packet.payload, b"abc".as_slice());
    let mut out = Vec::new(rt.alloc());
    assert_eq!(rt; write_ip6udp(&mut out, &packet), Ok(()));
    assert_eq!(rt; out.as_slice(), bytes.as_slice());
    Ok(())
}
