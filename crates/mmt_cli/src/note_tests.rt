//! What `take` notes, word by word, over the worked stream with bytes changed or with packets after it.

use crate::status::Status;
use crate::take_tests::Units::{Both, BothAtOnce, First, Neither, Second};
use crate::take_tests::{Units, Wanted, packets, takes};
use crate::worked::stream;
use std::alloc::Global;
use std::test::Fail;

// Whether `take` with these words reads the input to its end, writes the records of these units, and has these notes
// before the last one, with this peak.
fn notes(
    alloc: Global,
    texts: &[&str],
    input: Vec<u8>,
    units: Units,
    peak: u32,
    notes: &str,
) -> Result<bool, Fail> {
    let last = match units {
        Neither => "units 0 bytes 0",
        First => "units 1 bytes 3000",
        Second => "units 1 bytes 500",
        Both | BothAtOnce => "units 2 bytes 3500",
    };
    let notes = format!(in alloc; "{notes}{last} peak {peak}\n")?;
    let wanted = Wanted {
        status: Status::Done,
        units,
        notes: &notes,
    };
    takes(alloc, texts, input, wanted)
}

// The input with these bytes at these places.
fn changed(input: Vec<u8>, changes: &[(usize, u8)]) -> Result<Vec<u8>, Fail> {
    let mut bytes = input;
    for (place, byte) in changes {
        *bytes.get_mut(*place).ok_or("short")? = *byte;
    }
    Ok(bytes)
}

// The worked stream, and after it a TLV packet of a kind with a body.
fn followed(alloc: Global, kind: u8, body: &[u8]) -> Result<Vec<u8>, Fail> {
    let mut out = stream(alloc)?;
    add(&mut out, kind, body, &[])?;
    Ok(out)
}

// Adds a TLV packet of a kind with a body in two parts.
fn add(out: &mut Vec<u8>, kind: u8, front: &[u8], rest: &[u8]) -> Result<(), Fail> {
    let length = front.len().saturating_add(rest.len());
    if length > 65_535 {
        return Err("long")?;
    }
    let [high, low] = (length as u16).to_be_bytes();
    out.extend_from_slice(&[0x7F, kind, high, low])?;
    out.extend_from_slice(front)?;
    out.extend_from_slice(rest)?;
    Ok(())
}

// What stands before a payload: the context of the worked stream without a header, and an MMTP header of a kind on
// packet id 0, with a number and the timestamp of the stream's last packet.
fn head(kind: u8, number: u8) -> [u8; 15] {
    [
        0x00, 0x14, 0x61, 0x00, kind, 0x00, 0x00, 0x03, 0xE8, 0x01, 0x2C, 0x00, 0x00, 0x00, number,
    ]
}

// Bytes of the worked stream that are changed, the units that come out, the peak, and the notes before the last.
const CHANGES: [(&[(usize, u8)], Units, u32, &str); 17] = [
    // The second full header: its version, and its next header.
    (&[(1629, 0x40)], Second, 2267, "1629 ip-version 4\n"),
    (&[(1633, 0x06)], Second, 2267, "1633 ip-next 6\n"),
    // The fragment type of the first part of unit 0.
    (&[(202, 0x3A)], Second, 2267, "202 mpu-type 3\n"),
    // Unit 1 read as aggregated, where its first two bytes are a length of 0.
    (&[(3367, 0x29)], First, 3167, "3373 mpu-overrun\n"),
    // The packet id of the table's packet.
    (&[(90, 1)], Neither, 3607, "87 elsewhere\n"),
    // The flags of the table's payload: a part that is aggregated, and too great a length of two and of four bytes.
    (&[(99, 0x41)], Neither, 3607, "99 sig-aggregated-part\n"),
    (&[(99, 1), (101, 0xFF)], Neither, 3607, "101 sig-overrun\n"),
    (&[(99, 3)], Neither, 3607, "105 sig-overrun\n"),
    // The delay of the buffer message is 0, before anything tuned.
    (&[(78, 0), (79, 0)], Neither, 0, "61 hrbm-values 0 5\n"),
    // The length of the message with the table, its number of assets, and the type of the asset's location.
    (&[(107, 0x48)], Neither, 3689, "99 message-length 0 3\n"),
    (&[(123, 2)], Neither, 3689, "99 mpt-short 0 80\n"),
    (&[(123, 0)], Neither, 3689, "99 mpt-length 0 23\n"),
    (&[(137, 6)], Neither, 3689, "99 mpt-location 0 36 6\n"),
    // The extended descriptor: it has the tag of pairs, or an access unit too many, or type 3.
    (
        &[(157, 0), (158, 1)],
        BothAtOnce,
        3689,
        "99 times-length 0 59\n",
    ),
    (&[(172, 3)], BothAtOnce, 3689, "99 times-length 0 59\n"),
    (
        &[(160, 0xFF)],
        BothAtOnce,
        3689,
        "99 times-offset-type 0 59\n",
    ),
    // The MPU is at half a second, which is past, and its first access unit would be before 0.
    (
        &[(151, 0), (152, 0), (170, 0xFF), (171, 0xFF)],
        Neither,
        3689,
        "99 times-range 0 59\n",
    ),
];

#[test]
fn notes_what_is_changed(rt: HostRuntime) -> Result<(), Fail> {
    let alloc = rt.alloc();
    for (changes, units, peak, lines) in CHANGES {
        let input = changed(stream(alloc)?, changes)?;
        assert!(rt;
            notes(alloc, &["take"], input, units, peak, lines)?,
            "{lines}"
        );
    }
    Ok(())
}

// The packet from 2001:db8::1 to ff0e::101 with the payload 61 62 63, whose checksum is right.
const PLAIN: [u8; 51] = [
    0x60, 0, 0, 0, 0, 11, 17, 64, 0x20, 0x01, 0x0D, 0xB8, 0, 0, 0, 0, 0, 0, 0, 0, 0, 0, 0, 1, 0xFF,
    0x0E, 0, 0, 0, 0, 0, 0, 0, 0, 0, 0, 0, 0, 0x01, 0x01, 0xC8, 0x64, 0xC8, 0x64, 0, 11, 0x7C,
    0xE2, 0x61, 0x62, 0x63,
];

// A place in that packet after the worked stream, the byte that is put there, and the note. The first byte stands there
// already: then all is right but the MMTP packet.
const PLAIN_CHANGES: [(usize, u8, &str); 6] = [
    (3939, 0x61, "3939 mmtp-version 1\n"),
    (3891, 0x40, "3891 ip-version 4\n"),
    (3897, 0x06, "3897 ip-next 6\n"),
    (3896, 0x0A, "3895 ip-length\n"),
    (3936, 0x0A, "3935 ip-length\n"),
    (3938, 0xE3, "3937 ip-checksum\n"),
];

#[test]
fn notes_plain_packets(rt: HostRuntime) -> Result<(), Fail> {
    let alloc = rt.alloc();
    for (place, byte, lines) in PLAIN_CHANGES {
        let input = changed(followed(alloc, 2, &PLAIN)?, &[(place, byte)])?;
        assert!(rt;
            notes(alloc, &["take"], input, Both, 3689, lines)?,
            "{lines}"
        );
    }
    Ok(())
}

// An MMTP packet after a context, with an extension whose five bytes say that the payload is scrambled.
const SCRAMBLED: [u8; 24] = [
    0x00, 0x14, 0x61, 0x02, 0, 1, 0, 3, 0xE8, 1, 0x2C, 0, 0, 0, 4, 0, 0, 0, 5, 0x80, 1, 0, 1, 0x10,
];

// The kind and body of a TLV packet after the worked stream, and the note.
const BODIES: [(u8, &[u8], &str); 9] = [
    (2, &[0x60; 39], "3891 ip-short\n"),
    (3, &[0x00, 0x14], "3891 ctx-short\n"),
    (3, &[0x00, 0x14, 0x60], "3894 ctx-short\n"),
    (3, &[0x00, 0x14, 0x61], "3894 mmtp-short\n"),
    (3, &[0x00, 0x14, 0x61, 0x00], "3895 mmtp-short\n"),
    // A version of 1 in a packet of three bytes.
    (3, &[0x00, 0x14, 0x61, 0x61, 0, 0], "3894 mmtp-version 1\n"),
    (3, &SCRAMBLED, "3910 scrambled\n"),
    // A control signal and a null packet have no note.
    (0xFE, &[1, 2, 3], ""),
    (0xFF, &[1, 2, 3], ""),
];

#[test]
fn notes_packets_that_are_not_heard(rt: HostRuntime) -> Result<(), Fail> {
    let alloc = rt.alloc();
    for (kind, body, lines) in BODIES {
        let input = followed(alloc, kind, body)?;
        assert!(rt;
            notes(alloc, &["take"], input, Both, 3689, lines)?,
            "{lines}"
        );
    }
    Ok(())
}

// The kind and payload of an MMTP packet after the worked stream, 0 for media and 2 for signalling, how many of its
// bytes are kept, and the note.
const PAYLOADS: [(u8, &[u8], u32, &str); 14] = [
    (0, &[], 0, "3906 mpu-short\n"),
    (0, &[0, 0], 0, "3908 mpu-short\n"),
    (0, &[0, 6, 0x28, 0, 0, 0, 0, 7], 0, "3914 mpu-short\n"),
    // A unit of 14 bytes, its header alone, of which none are there.
    (
        0,
        &[0, 8, 0x29, 0, 0, 0, 0, 7, 0, 14],
        0,
        "3914 mpu-overrun\n",
    ),
    (2, &[], 0, "3906 sig-short\n"),
    (2, &[0], 0, "3907 sig-short\n"),
    (2, &[1, 0, 0], 0, "3908 sig-short\n"),
    // A message without an id, one that ends in its length, and one of a byte after another message.
    (2, &[0, 0], 2, "3906 message-short 0 0\n"),
    (2, &[0, 0, 0xF1, 0, 0, 0], 6, "3906 message-short 0 3\n"),
    (
        2,
        &[1, 0, 0, 2, 9, 9, 0, 1, 0],
        9,
        "3906 message-short 1 0\n",
    ),
    // Buffer messages for 4,001 bytes, and with a delay as long as the window.
    (
        2,
        &[
            0, 0, 0xF1, 0, 0, 0, 12, 0, 0, 0x0F, 0xA1, 0, 1, 0, 0, 0, 0, 3, 0xE8,
        ],
        19,
        "3906 hrbm-differs 0 0\n",
    ),
    (
        2,
        &[
            0, 0, 0xF1, 0, 0, 0, 12, 0, 0, 0x0F, 0xA0, 0, 0, 3, 0xE8, 0, 0, 3, 0xE8,
        ],
        19,
        "3906 hrbm-values 0 5\n",
    ),
    // Tables whose descriptors have more bytes than the table, and whose one descriptor has more than they.
    (
        2,
        &[
            0, 0, 0, 0, 0, 0, 0, 0, 16, 1, 0x20, 0, 0, 11, 0x20, 0, 0, 7, 0xFC, 0, 0, 5, 0, 1, 1,
        ],
        25,
        "3906 mpt-short 0 20\n",
    ),
    (
        2,
        &[
            0, 0, 0, 0, 0, 0, 0, 0, 17, 1, 0x20, 0, 0, 12, 0x20, 0, 0, 8, 0xFC, 0, 0, 3, 0, 1, 2, 0,
        ],
        26,
        "3906 mpt-short 0 23\n",
    ),
];

#[test]
fn notes_payloads_and_messages(rt: HostRuntime) -> Result<(), Fail> {
    let alloc = rt.alloc();
    for (kind, payload, kept, lines) in PAYLOADS {
        let mut input = stream(alloc)?;
        add(&mut input, 3, &head(kind, 4), payload)?;
        let peak = kept.saturating_add(3689);
        assert!(rt;
            notes(alloc, &["take"], input, Both, peak, lines)?,
            "{lines}"
        );
    }
    Ok(())
}

// Words, packets of the worked stream, bytes that are changed in them, the units that come out, the peak, and the notes
// before the last.
const CASES: [(&[&str], &[usize], &[(usize, u8)], Units, u32, &str); 4] = [
    // A buffer of 3,688 bytes, one less than the payloads have.
    (
        &["take", "--bound", "3688"],
        &[0, 1, 2, 3, 4, 5],
        &[(70, 0x0E), (71, 0x68)],
        First,
        3167,
        "3353 full 3167 522\n",
    ),
    // The values of the words, from which those of the buffer message differ.
    (
        &["take", "--assume", "65536:1000", "--bound", "3688"],
        &[0, 1, 2, 3, 4, 5],
        &[],
        First,
        3167,
        "61 hrbm-differs 0 0\n3353 full 3167 522\n",
    ),
    // The table again in a packet of another number, with the same times and with another time.
    (
        &["take"],
        &[0, 1, 1, 2, 3, 4, 5],
        &[(199, 2)],
        Both,
        3771,
        "",
    ),
    (
        &["take"],
        &[0, 1, 1, 2, 3, 4, 5],
        &[(199, 2), (254, 0x90)],
        Both,
        3771,
        "200 names-differ 0 0 256 7\n",
    ),
];

#[test]
fn notes_what_is_left_out(rt: HostRuntime) -> Result<(), Fail> {
    let alloc = rt.alloc();
    for (texts, numbers, changes, units, peak, lines) in CASES {
        let input = changed(packets(alloc, numbers)?, changes)?;
        assert!(rt; notes(alloc, texts, input, units, peak, lines)?, "{lines}");
    }
    Ok(())
}

// The bytes before the descriptors of a table that is alone in its message and payload: its one asset is on packet id
// 257, and has 15,360 bytes of descriptors.
const MANY: [u8; 40] = [
    0, 0, 0, 0, 0, 0, 0, 0x3C, 0x1F, 1, 0x20, 0, 0x3C, 0x1A, 0x20, 0, 0x3C, 0x16, 0xFC, 0, 0, 0, 1,
    0, 0, 0, 0, 0, 0, 0x68, 0x65, 0x76, 0x31, 0xFE, 1, 0, 0x01, 0x01, 0x3C, 0x00,
];

#[test]
fn notes_the_first_name_after_1024(rt: HostRuntime) -> Result<(), Fail> {
    let alloc = rt.alloc();
    let mut payload = Vec::from_slice(alloc, &MANY)?;
    for number in 0..1024_u16 {
        let [high, low] = number.to_be_bytes();
        payload.extend_from_slice(&[0, 1, 12, 0, 0, high, low, 0, 0, 0x03, 0xE8, 0x80, 0, 0, 0])?;
    }
    let mut input = stream(alloc)?;
    add(&mut input, 3, &head(2, 4), &payload)?;
    // MPU 7 of packet id 256 and MPUs 0 to 1022 of packet id 257 are 1,024 names.
    let lines = "3906 names-full 0 0 257 1023\n";
    assert!(rt; notes(alloc, &["take"], input, Both, 19_089, lines)?);
    // The table names MPUs 0 to 1024 of packet id 256, after the buffer message alone.
    let mut payload = changed(
        payload,
        &[(8, 0x2E), (13, 0x29), (17, 0x25), (37, 0), (39, 0x0F)],
    )?;
    payload.extend_from_slice(&[0, 1, 12, 0, 0, 4, 0, 0, 0, 0x03, 0xE8, 0x80, 0, 0, 0])?;
    let mut input = packets(alloc, &[0])?;
    let mut head = head(2, 1);
    head[9] = 0;
    head[10] = 0x64;
    add(&mut input, 3, &head, &payload)?;
    let lines = "99 names-full 0 0 256 1024\n";
    assert!(rt; notes(alloc, &["take"], input, Neither, 15_434, lines)?);
    Ok(())
}

// How many bytes the last of three parts of a message has, of which the two others have 65,000 each, the peak, and the
// note. The middle part comes last.
const LAST_PARTS: [(usize, u32, &str); 2] = [
    (1072, 134_767, "70020 message-length 0 3\n"),
    (1073, 134_768, "70021 message-long 0 0 131073\n"),
];

#[test]
fn notes_a_message_over_131072_bytes(rt: HostRuntime) -> Result<(), Fail> {
    let alloc = rt.alloc();
    for (last, peak, lines) in LAST_PARTS {
        let mut input = stream(alloc)?;
        for (number, flags, length) in [(4, 0x40, 65_000), (6, 0xC0, last), (5, 0x80, 65_000)] {
            let mut payload = vec![in alloc; 0_u8; length]?;
            payload.extend_from_slice(&[0, 0])?;
            *payload.get_mut(0).ok_or("short")? = flags;
            add(&mut input, 3, &head(2, number), &payload)?;
        }
        assert!(rt;
            notes(alloc, &["take"], input, Both, peak, lines)?,
            "{lines}"
        );
    }
    Ok(())
}
