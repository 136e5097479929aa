use crate::{
    Message, MessageWhy, SigHead, SigWhy, read_message, read_sig, write_hrbm, write_pa, write_sig,
};
use mmt_base::Refused;
use mmt_model::{Params, Part};
use std::test::Fail;

/// A buffer message with a bound of 4,000 bytes, a window of 65,536 ticks and a delay of 1,000.
const BUFFER: &[u8] = b"\xf1\x00\x00\x00\x0c\x00\x00\x0f\xa0\x00\x01\x00\x00\x00\x00\x03\xe8";

/// A PA message of two tables, whose directory says nothing true of them.
const TWO_TABLES: &[u8] =
    b"\x00\x00\x07\x00\x00\x00\x14\x02\xaa\xbb\xcc\xdd\x00\x00\x00\x01\x20\x05\x00\x03abc\x80\x06\x00\x00";

/// A payload of two messages after lengths of 16 bits.
const TWO_SHORT: &[u8] = b"\x01\x00\x00\x02ab\x00\x00";

/// A payload of two messages after lengths of 32 bits, with reserved bits 1001.
const TWO_LONG: &[u8] = b"\x27\x09\x00\x00\x00\x01a\x00\x00\x00\x02bc";

#[test]
fn read_message_buffer(rt: HostRuntime) -> Result<(), Fail> {
    let params = Params {
        bound: 4000,
        window: 65536,
        delay: 1000,
    };
    match read_message(BUFFER)? {
        Message::Hrbm {
            version,
            params: found,
        } => assert_eq!(rt; (version, found), (0, params)),
        _ => panic!(rt; "no buffer message"),
    }
    let mut out = Vec::new(rt.alloc());
    assert_eq!(rt; write_hrbm(&mut out, 0, &params), Ok(()));
    assert_eq!(rt; out.as_slice(), BUFFER);
    Ok(())
}

#[test]
fn tables_are_read_by_their_own_headers(rt: HostRuntime) -> Result<(), Fail> {
    match read_message(TWO_TABLES)? {
        Message::Pa(pa) => {
            assert_eq!(rt; (pa.version(), pa.count()), (7, 2));
            let want: [(u8, u8, u32, &[u8]); 2] = [
                (0x20, 5, 0xaabb_ccdd, b"\x20\x05\x00\x03abc"),
                (0x80, 6, 1, b"\x80\x06\x00\x00"),
            ];
            let mut tables = pa.tables();
            for (id, version, listed, bytes) in want {
                match tables.next() {
                    Some(table) => {
                        assert_eq!(rt;
                            (table.id, table.version, table.listed),
                            (id, version, listed)
                        );
                        assert_eq!(rt; table.bytes, bytes);
                    }
                    None => panic!(rt; "a table too few"),
                }
            }
            assert!(rt; tables.next().is_none());
        }
        _ => panic!(rt; "no PA message"),
    }
    Ok(())
}

#[test]
fn another_message_keeps_all_its_bytes(rt: HostRuntime) -> Result<(), Fail> {
    match read_message(b"\x00\x01abc")? {
        Message::Other { id, bytes } => {
            assert_eq!(rt; id, 1);
            assert_eq!(rt; bytes, b"abc".as_slice());
        }
        _ => panic!(rt; "another kind of message"),
    }
    Ok(())
}

#[test]
fn each_refused_message_at_its_place(rt: HostRuntime) {
    let refused: [(&[u8], u32, MessageWhy); 16] = [
        (b"", 0, MessageWhy::Short),
        (b"\x00\x00", 2, MessageWhy::Short),
        (b"\x00\x00\x00\x00\x00\x00", 3, MessageWhy::Short),
        (b"\x00\x00\x00\x00\x00\x00\x01", 3, MessageWhy::Length),
        (b"\x00\x00\x00\x00\x00\x00\x00", 7, MessageWhy::Short),
        (b"\x00\x00\x00\x00\x00\x00\x04\x01abc", 8, MessageWhy::Short),
        (
            b"\x00\x00\x00\x00\x00\x00\x05\x01abcd",
            12,
            MessageWhy::Short,
        ),
        (
            b"\x00\x00\x00\x00\x00\x00\x09\x01abcd\x20\x00\x00\x01",
            12,
            MessageWhy::Short,
        ),
        (b"\x00\x00\x00\x00\x00\x00\x02\x00a", 8, MessageWhy::Length),
        (b"\xf1\x00", 2, MessageWhy::Short),
        (b"\xf1\x00\x00\x00", 3, MessageWhy::Short),
        (b"\xf1\x00\x00\x00\x0b", 3, MessageWhy::Length),
        (b"\xf1\x00\x00\x00\x0c", 3, MessageWhy::Length),
        (
            b"\xf1\x00\x00\x00\x0c\x00\x00\x0f\xa0\x00\x01\x00\x00\x00\x01\x00\x00",
            5,
            MessageWhy::HrbmValues,
        ),
        (
            b"\xf1\x00\x00\x00\x0c\x00\x00\x00\x00\x00\x01\x00\x00\x00\x00\x03\xe8",
            5,
            MessageWhy::HrbmValues,
        ),
        (
            b"\xf1\x00\x00\x00\x0c\x00\x00\x0f\xa0\x01\x00\x00\x01\x00\x00\x03\xe8",
            5,
            MessageWhy::HrbmValues,
        ),
    ];
    for (bytes, at, why) in refused {
        match read_message(bytes) {
            Ok(_) => panic!(rt; "{bytes:?} was read"),
            Err(found) => assert_eq!(rt; found, Refused { at, why }),
        }
    }
}

#[test]
fn messages_of_a_payload(rt: HostRuntime) -> Result<(), Fail> {
    let cases: [(&[u8], bool, u8, [&[u8]; 2]); 2] = [
        (TWO_SHORT, false, 0, [b"ab", b""]),
        (TWO_LONG, true, 9, [b"a", b"bc"]),
    ];
    for (bytes, long, reserved, want) in cases {
        let payload = read_sig(bytes)?;
        let head = payload.head();
        assert_eq!(rt; (head.part, head.aggregated), (Part::Whole, true));
        assert_eq!(rt; (head.long, head.reserved), (long, reserved));
        assert_eq!(rt; payload.count(), 2);
        let mut messages = payload.messages();
        assert_eq!(rt; messages.next(), Some(want[0]));
        assert_eq!(rt; messages.next(), Some(want[1]));
        assert_eq!(rt; messages.next(), None);
    }
    Ok(())
}

#[test]
fn each_refused_payload_at_its_place(rt: HostRuntime) {
    let refused: [(&[u8], u32, SigWhy); 6] = [
        (b"", 0, SigWhy::Short),
        (b"\x41", 0, SigWhy::AggregatedPart),
        (b"\x00", 1, SigWhy::Short),
        (b"\x01\x00\x00", 2, SigWhy::Short),
        (b"\x01\x00\x00\x01", 2, SigWhy::Overrun),
        (
            b"\x03\x00\x00\x00\x00\x00\x00\x00\x00\x01",
            6,
            SigWhy::Overrun,
        ),
    ];
    for (bytes, at, why) in refused {
        match read_sig(bytes) {
            Ok(_) => panic!(rt; "{bytes:?} was read"),
            Err(found) => assert_eq!(rt; found, Refused { at, why }),
        }
    }
}

#[test]
#[tactic(auto, unfolding(mmt_fields::specs::Reading::big_endian))]
fn written_payloads_and_tables(rt: HostRuntime) -> Result<(), Fail> {
    let head = SigHead {
        part: Part::Middle,
        reserved: 5,
        long: true,
        aggregated: false,
        counter: 3,
    };
    let mut out = Vec::new(rt.alloc());
    assert_eq!(rt; write_sig(&mut out, &head, b"abc"), Ok(()));
    assert_eq!(rt; out.as_slice(), b"\x96\x03abc".as_slice());
    let payload = read_sig(b"\x96\x03abc")?;
    assert_eq!(rt; (payload.head(), payload.count()), (head, 1));
    assert_eq!(rt; payload.messages().next(), Some(b"abc".as_slice()));
    let mut out = Vec::new(rt.alloc());
    assert_eq!(rt; write_pa(&mut out, 7, b"\x20\x05\x00\x03abc"), Ok(()));
    assert_eq!(rt;
        out.as_slice(),
        b"\x00\x00\x07\x00\x00\x00\x0c\x01\x20\x05\x00\x07\x20\x05\x00\x03abc".as_slice()
    );
    Ok(())
}
