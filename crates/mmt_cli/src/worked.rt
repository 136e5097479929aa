//! The worked stream: six packets of one flow, in one context with a full header every three, which
//! carry a buffer message, a table of one asset and two units of it.

ghost use Rattle.std.specs.Prelude.{◌<◌, ◌≤◌, ◌^◌, length, map, IfOk, IfSome};
ghost use Rattle.mmt_mpt.specs.Asset.{AssetFits, DescriptorsFit};
ghost use Rattle.mmt_mpt.specs.Owned.{owned_asset, owned_descriptor, owned_mpt};
ghost use Rattle.mmt_mpt.specs.Table.{PartsFit};
ghost use Rattle.mmt_sig.specs.Tables.{HasOwnLength};

use mmt_base::{Ntp, OutOfMemory, Tick};
use mmt_ctx::Squeezer;
use mmt_ip::Ip6Header;
use mmt_model::{Au, List, Mpu, Params, Part, UnitKey};
use mmt_mpt::{OwnedAsset, OwnedDescriptor, OwnedLocation, OwnedMpt, write_mpt};
use mmt_mpu::{DataUnit, MpuHead, MpuWriter};
use mmt_packet::{Kind, Packet, write_packet};
use mmt_sig::{SigHead, write_hrbm, write_pa, write_sig};
use mmt_times::{write_extended, write_stamps};
use mmt_tlv::{Tlv, write_tlv};
use std::alloc::Global;
use std::test::Fail;

/// How many bytes the worked stream has.
pub const LENGTH: usize = 3887;

/// Where each packet of the worked stream begins, and how many bytes it has.
pub const PACKETS: [(usize, usize); 6] = [
    (0, 80),
    (80, 101),
    (181, 1441),
    (1622, 1483),
    (3105, 241),
    (3346, 541),
];

// From 2001:db8::1 to ff0e::101, both by port 51300.
const HEADER: Ip6Header = Ip6Header {
    traffic_class: 0,
    flow_label: 0,
    hop_limit: 64,
    source: 0x2001_0DB8_0000_0000_0000_0000_0000_0001,
    destination: 0xFF0E_0000_0000_0000_0000_0000_0000_0101,
    source_port: 51300,
    destination_port: 51300,
};

// The MPU's number, its presentation time, and its asset's packet id and timescale.
const NUMBER: u32 = 7;

const TIME: Ntp = Ntp(4_297_114_779_648);

const ASSET: u16 = 256;

const TIMESCALE: u32 = 60_000;

// What the header of a packet says: its kind and packet id, its number and time in ticks, and whether it is
// the first of its MPU.
#[derive(Clone, Copy)]
struct Sent {
    kind: Kind,
    packet_id: u16,
    number: u32,
    time: u32,
    first: bool,
}

// A packet with a part of a unit: its number and time, which part it is and how many follow, the sample, and
// its bytes in the file, N from a place on.
#[derive(Clone, Copy)]
struct Piece {
    number: u32,
    time: u32,
    part: Part,
    left: u8,
    sample: u32,
    from: u16,
    length: u16,
}

const PIECES: [Piece; 4] = [
    Piece {
        number: 0,
        time: 65_536_200,
        part: Part::First,
        left: 2,
        sample: 1,
        from: 0,
        length: 1400,
    },
    Piece {
        number: 1,
        time: 65_536_210,
        part: Part::Middle,
        left: 1,
        sample: 1,
        from: 1400,
        length: 1400,
    },
    Piece {
        number: 2,
        time: 65_536_220,
        part: Part::Last,
        left: 0,
        sample: 1,
        from: 2800,
        length: 200,
    },
    Piece {
        number: 3,
        time: 65_536_300,
        part: Part::Whole,
        left: 0,
        sample: 2,
        from: 3000,
        length: 500,
    },
];

/// The bytes of the worked stream.
pub fn stream(alloc: Global) -> Result<Vec<u8>, Fail> {
    let mut out = Vec::new(alloc);
    let mut squeezer = Squeezer::new(1, 3, HEADER);
    let parameters = parameters(alloc)?;
    add(
        alloc,
        &mut out,
        &mut squeezer,
        signalling(0, 65_536_000),
        &parameters,
    )?;
    let table = table_payload(alloc)?;
    add(
        alloc,
        &mut out,
        &mut squeezer,
        signalling(1, 65_536_100),
        &table,
    )?;
    for piece in PIECES {
        let payload = unit(alloc, piece)?;
        add(alloc, &mut out, &mut squeezer, media(piece), &payload)?;
    }
    Ok(out)
}

/// The bytes of one packet of the worked stream, counted from 0.
pub fn packet(alloc: Global, number: usize) -> Result<Vec<u8>, Fail> {
    let (place, length) = PACKETS.get(number).copied().ok_or("packet")?;
    let all = stream(alloc)?;
    let bytes = all.get(place..place.saturating_add(length)).ok_or("short")?;
    Ok(Vec::from_slice(alloc, bytes)?)
}

// A packet of signalling.
fn signalling(number: u32, time: u32) -> Sent {
    Sent {
        kind: Kind::Signalling,
        packet_id: 0,
        number,
        time,
        first: false,
    }
}

// A packet of the one MPU.
fn media(piece: Piece) -> Sent {
    Sent {
        kind: Kind::Mpu,
        packet_id: ASSET,
        number: piece.number,
        time: piece.time,
        first: piece.number == 0,
    }
}

// Adds a packet to the stream.
fn add(
    alloc: Global,
    out: &mut Vec<u8>,
    squeezer: &mut Squeezer,
    sent: Sent,
    payload: &[u8],
) -> Result<(), Fail> {
    let packet = Packet {
        counter: None,
        rap: sent.first,
        reserved: 0,
        kind: sent.kind,
        packet_id: sent.packet_id,
        time: Tick(sent.time),
        number: sent.number,
        extension: None,
        payload,
    };
    let mut mmtp = Vec::new(alloc);
    write_packet(&mut mmtp, &packet)?;
    let mut body = Vec::new(alloc);
    squeezer.next(&mut body, at_most(&mmtp, 65_490).ok_or("long")?)?;
    let body = at_most(&body, 65_535).ok_or("long")?;
    write_tlv(out, &Tlv { kind: 3, body })?;
    Ok(())
}

// The bytes, where they are N or fewer.
fn at_most(bytes: &[u8], most: usize) -> Option<&[u8]>
    ensures { IfSome result (λ b. length b.now ≤ most) }
{
    if bytes.len() <= most {
        Some(bytes)
    } else {
        None
    }
}

// A payload of one message.
fn payload_of(alloc: Global, message: &[u8]) -> Result<Vec<u8>, Fail> {
    let head = SigHead {
        part: Part::Whole,
        reserved: 0,
        long: false,
        aggregated: false,
        counter: 0,
    };
    let mut payload = Vec::new(alloc);
    write_sig(&mut payload, &head, message)?;
    Ok(payload)
}

// The payload with the buffer message.
fn parameters(alloc: Global) -> Result<Vec<u8>, Fail> {
    let params = Params {
        bound: 4000,
        window: 65_536,
        delay: 1000,
    };
    let mut message = Vec::new(alloc);
    write_hrbm(&mut message, 0, &params)?;
    payload_of(alloc, &message)
}

// The payload with the table.
fn table_payload(alloc: Global) -> Result<Vec<u8>, Fail> {
    let table = table(alloc)?;
    let mut message = Vec::new(alloc);
    write_pa(&mut message, 0, &table)?;
    payload_of(alloc, &message)
}

// The bytes of the table.
fn table(alloc: Global) -> Result<Vec<u8>, Fail>
    ensures least { IfOk result (λ t. 4 ≤ length t.items) }
    ensures most { IfOk result (λ t. length t.items < 2 ^ 16) }
    ensures own_length { IfOk result (λ t. HasOwnLength t.items) }
{
    let owned = owned(alloc, asset(alloc, descriptors(alloc)?)?)?;
    let bytes = written(alloc, &owned)?;
    if bytes.len() < 1 << 16 {
        Ok(bytes)
    } else {
        Err("long")?
    }
}

// The bytes of a table.
#[tactic(auto, unfolding(mmt_mpt::specs::Table::mpt_spelling, mmt_fields::specs::Reading::big_endian))]
fn written(alloc: Global, table: &OwnedMpt) -> Result<Vec<u8>, Fail>
    requires { PartsFit (owned_mpt table.now) }
    ensures least { IfOk result (λ t. 4 ≤ length t.items) }
    ensures own_length { IfOk result (λ t. HasOwnLength t.items) }
{
    let mut out = Vec::new(alloc);
    match write_mpt(&mut out, table) {
        Ok(()) => Ok(out),
        Err(_) => Err("unwritten")?,
    }
}

// The MPU, whose data units are sent apart.
fn mpu(alloc: Global) -> Result<Mpu, OutOfMemory>
    ensures { IfOk result (λ m. length m.aus ≤ 60) }
{
    let mut aus = List::new(alloc);
    aus.push(Au {
        dts_pts: 1001,
        pts: 1001,
    })?;
    aus.push(Au {
        dts_pts: 2002,
        pts: 0,
    })?;
    Ok(Mpu {
        number: NUMBER,
        time: TIME,
        decoding_offset: 1001,
        aus,
        units: List::new(alloc),
    })
}

// The bytes, where they fit a length of 8 bits.
fn short(bytes: Vec<u8>) -> Result<Vec<u8>, Fail>
    ensures { IfOk result (λ b. length b.items < 256) }
{
    if bytes.len() < 256 {
        Ok(bytes)
    } else {
        Err("long")?
    }
}

// The timestamp descriptor with the MPU's presentation time, and the extended one with its access units.
fn descriptors(alloc: Global) -> Result<List<OwnedDescriptor>, Fail>
    ensures { IfOk result (λ ds. DescriptorsFit (map owned_descriptor ds)) }
{
    let mut stamps = Vec::new(alloc);
    write_stamps(&mut stamps, &[(NUMBER, TIME)])?;
    let mut extended = Vec::new(alloc);
    write_extended(&mut extended, TIMESCALE, &mpu(alloc)?)?;
    Ok(both(alloc, short(stamps)?, short(extended)?)?)
}

// Both descriptors with their contents.
fn both(
    alloc: Global,
    stamps: Vec<u8>,
    extended: Vec<u8>,
) -> Result<List<OwnedDescriptor>, OutOfMemory>
    requires stamps { length stamps.items < 256 }
    requires extended { length extended.items < 256 }
    ensures { IfOk result (λ ds. DescriptorsFit (map owned_descriptor ds)) }
{
    let stamps = OwnedDescriptor {
        tag: 0x0001,
        bytes: List::from_vec(stamps),
    };
    let extended = OwnedDescriptor {
        tag: 0x8026,
        bytes: List::from_vec(extended),
    };
    Ok(List::from_vec(vec![in alloc; stamps, extended]?))
}

// The asset with its descriptors.
fn asset(alloc: Global, descriptors: List<OwnedDescriptor>) -> Result<OwnedAsset, OutOfMemory>
    requires { DescriptorsFit (map owned_descriptor descriptors) }
    ensures { IfOk result (λ a. AssetFits (owned_asset a)) }
{
    let mut locations = List::new(alloc);
    locations.push(OwnedLocation::Here { packet_id: ASSET })?;
    let mut id = List::new(alloc);
    id.push(b'v')?;
    Ok(OwnedAsset {
        identifier_type: 0,
        scheme: 0,
        id,
        kind: 0x6865_7631,
        reserved: 127,
        locations,
        descriptors,
    })
}

// The table of this one asset.
fn owned(alloc: Global, asset: OwnedAsset) -> Result<OwnedMpt, OutOfMemory>
    requires { AssetFits (owned_asset asset) }
    ensures { IfOk result (λ m. PartsFit (owned_mpt m)) }
{
    let mut assets = List::new(alloc);
    assets.push(asset)?;
    let mut package = List::new(alloc);
    package.push(b'p')?;
    package.push(b'1')?;
    Ok(OwnedMpt {
        version: 0,
        mode: 0,
        reserved: 63,
        package,
        descriptors: List::new(alloc),
        assets,
    })
}

// So many bytes of the asset's file from a place on, of which the one at p is p modulo 251.
fn bytes_of(alloc: Global, from: u16, length: u16) -> Result<Vec<u8>, Fail> {
    let mut bytes = Vec::with_capacity(alloc, length as usize)?;
    for place in 0..length {
        bytes.push(((from as u32 + place as u32) % 251) as u8)?;
    }
    Ok(bytes)
}

// The payload with a part of a unit.
fn unit(alloc: Global, piece: Piece) -> Result<Vec<u8>, Fail> {
    let head = MpuHead {
        timed: true,
        part: piece.part,
        aggregated: false,
        counter: piece.left,
        mpu: NUMBER,
    };
    let key = UnitKey::Timed {
        movie_fragment: 1,
        sample: piece.sample,
        offset: 0,
    };
    let bytes = bytes_of(alloc, piece.from, piece.length)?;
    let unit = DataUnit {
        key,
        priority: 0,
        dependency: 0,
        from: 0,
        bytes: at_most(&bytes, 60_000).ok_or("long")?,
    };
    let mut out = Vec::new(alloc);
    let mut writer = MpuWriter::begin(&mut out, &head)?;
    writer.unit(&mut out, &unit)?;
    writer.end(&mut out);
    Ok(out)
}
