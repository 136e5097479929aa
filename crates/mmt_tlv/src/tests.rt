//! Packets written out by hand, and a stream cut in two at every place.
ghost use Rattle.std.specs.Prelude.{◌≤◌, ◌<◌, length};

use crate::{
    CutEnd, Cutter, Fed, FrameEnd, FramedStream, Span, Tlv, TlvRead, frame, read_tlv, write_tlv,
};
use mmt_base::OutOfMemory;
use std::alloc::Global;
use std::test::Fail;

// A null packet, a packet of type 2 with the body 1, 2, 3, and one of type 0xFE with the body 0x7F.
const THREE: [u8; 16] = [
    0x7F, 0xFF, 0, 0, 0x7F, 2, 0, 3, 1, 2, 3, 0x7F, 0xFE, 0, 1, 0x7F,
];

#[test]
fn each_type_is_read_and_written(rt: HostRuntime) -> Result<(), Fail> {
    for kind in [0x01, 0x02, 0x03, 0xFE, 0xFF, 0x00, 0x80] {
        let mut out = Vec::new(rt.alloc());
        out.push(9)?;
        let body = [7u8; 258];
        write_tlv(&mut out, &Tlv { kind, body: &body })?;
        assert_eq!(rt; out.len(), 263);
        assert_eq!(rt; &out[..6], [9, 0x7F, kind, 1, 2, 7].as_slice());
        out.push(0x47)?;
        match read_tlv(&out[1..]) {
            TlvRead::Whole { tlv, used } => {
                assert_eq!(rt; (tlv.kind, used), (kind, 262));
                assert_eq!(rt; tlv.body, body.as_slice());
            }
            TlvRead::Short | TlvRead::Sync => assert!(rt; false),
        }
        assert!(rt; matches!(read_tlv(&out[1..262]), TlvRead::Short));
        assert!(rt; matches!(read_tlv(&out), TlvRead::Sync));
    }
    Ok(())
}

fn cut_at(alloc: Global, stream: &[u8], at: usize) -> Result<FramedStream, OutOfMemory>
    requires within { at ≤ length stream.now }
    requires short { length stream.now < 100 }
{
    let first = Vec::from_slice(alloc, &stream[..at])?;
    let second = Vec::from_slice(alloc, &stream[at..])?;
    frame(alloc, &[first, second])
}

#[test]
fn a_stream_cut_at_every_place_gives_the_same_packets(rt: HostRuntime) -> Result<(), Fail> {
    let spans = [(0, 4), (4, 7), (11, 5)].map(|(place, length)| Span { place, length });
    for at in 0..17 {
        let framed = cut_at(rt.alloc(), &THREE, at)?;
        assert_eq!(rt; framed.packets.as_slice(), spans.as_slice(), "cut at {at}");
        assert_eq!(rt; framed.end, FrameEnd::Whole, "cut at {at}");
    }
    let framed = cut_at(rt.alloc(), &THREE[..15], 5)?;
    assert_eq!(rt; framed.packets.as_slice(), &spans[..2]);
    assert_eq!(rt; framed.end, FrameEnd::Cut { place: 11 });
    let framed = cut_at(rt.alloc(), &THREE[1..], 0)?;
    assert_eq!(rt; framed.packets.len(), 0);
    assert_eq!(rt; framed.end, FrameEnd::Sync { place: 0 });
    Ok(())
}

#[test]
fn a_cutter_tells_where_no_packet_begins_and_where_one_is_cut(rt: HostRuntime) -> Result<(), Fail> {
    let mut cutter = Cutter::new(rt.alloc())?;
    assert_eq!(rt; cutter.finish(), CutEnd::Whole);
    assert_eq!(rt; cutter.feed(&THREE[..2]), Fed::Taken);
    assert_eq!(rt; cutter.finish(), CutEnd::Cut { place: 0 });
    assert_eq!(rt; cutter.feed(&THREE[2..6]), Fed::Packet { used: 2 });
    assert_eq!(rt; cutter.place(), 0);
    assert_eq!(rt; cutter.finish(), CutEnd::Whole);
    assert_eq!(rt; cutter.feed(&[0x47, 0x7F]), Fed::Sync { place: 4 });
    assert_eq!(rt; cutter.feed(&THREE), Fed::Sync { place: 4 });
    assert_eq!(rt; cutter.finish(), CutEnd::Whole);
    Ok(())
}

#[test]
fn a_packet_that_lies_whole_in_a_piece_is_lent(rt: HostRuntime) -> Result<(), Fail> {
    let mut cutter = Cutter::new(rt.alloc())?;
    assert_eq!(rt; cutter.lend(&THREE), Some(&THREE[..4]));
    assert_eq!(rt; cutter.place(), 4);
    // One whose end is missing is not lent, nor one of which the cutter holds some bytes.
    assert_eq!(rt; cutter.lend(&THREE[4..10]), None);
    assert_eq!(rt; cutter.feed(&THREE[4..10]), Fed::Taken);
    assert_eq!(rt; cutter.lend(&THREE[10..]), None);
    assert_eq!(rt; cutter.feed(&THREE[10..]), Fed::Packet { used: 1 });
    assert_eq!(rt; cutter.place(), 4);
    assert_eq!(rt; cutter.lend(&THREE[11..]), Some(&THREE[11..]));
    assert_eq!(rt; cutter.place(), 16);
    assert_eq!(rt; cutter.lend(&[0x47, 0, 0, 0]), None);
    assert_eq!(rt; cutter.feed(&[0x47, 0, 0, 0]), Fed::Sync { place: 16 });
    assert_eq!(rt; cutter.lend(&THREE), None);
    Ok(())
}
