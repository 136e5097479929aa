use crate::{Kind, PacketWhy, header_length, read_packet, write_packet};
use mmt_base::{Refused, Tick};
use std::test::Fail;

/// An MPU packet of a header alone.
const BARE: &[u8] = b"\x00\x00\x00\x10\x00\x01\x00\x00\x00\x00\x00\x05";

/// A signalling packet with each optional field, and a payload of two bytes.
const LONG: &[u8] =
    b"\x27\x82\x01\x00\x00\x00\x00\x02\xff\xff\xff\xfe\x00\x00\x00\x09\x00\x01\x00\x03abcde";

#[test]
fn read_packet_bare_header(rt: HostRuntime) -> Result<(), Fail> {
    let packet = read_packet(BARE)?;
    assert_eq!(rt; packet.kind, Kind::Mpu);
    assert_eq!(rt;
        (packet.packet_id, packet.time, packet.number),
        (16, Tick(65536), 5)
    );
    assert_eq!(rt;
        (packet.counter, packet.rap, packet.reserved),
        (None, false, 0)
    );
    assert_eq!(rt; packet.payload.len(), 0);
    assert_eq!(rt; header_length(&packet), 12);
    Ok(())
}

#[test]
fn what_was_read_is_written_back(rt: HostRuntime) -> Result<(), Fail> {
    for bytes in [BARE, LONG] {
        let packet = read_packet(bytes)?;
        let mut out = Vec::new(rt.alloc());
        assert_eq!(rt; write_packet(&mut out, &packet), Ok(()));
        assert_eq!(rt; out.as_slice(), bytes);
    }
    Ok(())
}

#[test]
fn each_refusal_at_its_place(rt: HostRuntime) {
    let refused: [(&[u8], u32, PacketWhy); 8] = [
        (b"", 0, PacketWhy::Short),
        (b"\x40", 0, PacketWhy::Version(1)),
        (b"\x61\x62\x63", 0, PacketWhy::Version(1)),
        (b"\x08", 0, PacketWhy::Fec(1)),
        (
            b"\x08\x00\x00\x10\x00\x01\x00\x00\x00\x00\x00\x05",
            0,
            PacketWhy::Fec(1),
        ),
        (b"\x00", 1, PacketWhy::Short),
        (b"\x00\x03", 1, PacketWhy::Kind(3)),
        (
            b"\x02\x00\x00\x10\x00\x01\x00\x00\x00\x00\x00\x05\x00\x00\x00\x05\x80\x01\x00\x01\x08",
            16,
            PacketWhy::Scrambled,
        ),
    ];
    for (bytes, at, why) in refused {
        assert_eq!(rt; read_packet(bytes).err(), Some(Refused { at, why }));
    }
}

#[test]
fn each_prefix_is_short_at_the_field_that_it_cuts(rt: HostRuntime) {
    let starts = [
        0, 1, 2, 2, 4, 4, 4, 4, 8, 8, 8, 8, 12, 12, 12, 12, 16, 16, 18, 18, 20, 20, 20,
    ];
    for (length, at) in starts.iter().enumerate() {
        let (prefix, _) = LONG.split_at(length);
        let why = PacketWhy::Short;
        assert_eq!(rt; read_packet(prefix).err(), Some(Refused { at: *at, why }));
    }
}
