ghost use Rattle.std.specs.Prelude.{◌<◌, IfOk};
ghost use Rattle.mmt_mpt.specs.Table.{PartsFit};
ghost use Rattle.mmt_mpt.specs.Owned.{owned_mpt};

use crate::{
    Location, LocationWhy, MptWhy, OwnedDescriptor, OwnedLocation, OwnedMpt, Unwritten, own_mpt,
    read_location, read_mpt, write_location, write_mpt,
};
use mmt_base::{OutOfMemory, Refused};
use mmt_model::List;
use std::alloc::Global;
use std::process::Abort;
use std::test::Fail;

/// A table of one asset, found in its own flow, with a timestamp descriptor and an extended one.
const WORKED: &[u8] =
    b"\x20\x00\x00\x40\xfc\x02p1\x00\x00\x01\x00\x00\x00\x00\x00\x01vhev1\xfe\x01\x00\x01\x00\x00\x27\x00\x01\x0c\x00\x00\x00\x07\x00\x00\x03\xe8\x80\x00\x00\x00\x80\x26\x15\xfd\x00\x00\xea\x60\x00\x00\x00\x07\x3f\x03\xe9\x02\x03\xe9\x03\xe9\x07\xd2\x00\x00";

/// A table without assets, with a descriptor of each range of tags.
const WIDTHS: &[u8] =
    b"\x20\x05\x00\x1e\x02\x00\x00\x19\x00\x01\x01a\x40\x00\x00\x01b\x70\x00\x00\x00\x00\x01c\x80\x00\x01d\xf0\x00\x00\x01e\x00";

/// A table of one asset with a location of each type, mode 2 and asset type `aaaa`.
const LOCATIONS: &[u8] =
    b"\x20\x07\x00\x7a\xfe\x00\x00\x00\x01\x01\x00\x00\x00\x02\x01aaaaa\xfe\x06\x00\x00\x10\x01\x01\x02\x03\x04\x05\x06\x07\x08\xc8\x64\x00\x10\x02aaaabbbbccccddddeeeeffffgggghhhh\xc8\x64\x00\x10\x03\x00\x01\x00\x02\xff\xfe\x04aaaabbbbccccddddeeeeffffgggghhhh\xc8\x64\xe0\x10\x05\x03a:b\x00\x00";

fn refusal(rt: &impl Abort, table: &[u8]) -> Option<Refused<MptWhy>> {
    assert!(rt; table.len() < 1 << 31);
    assert!(rt; !table.is_empty());
    assert!(rt; table[0] == 0x20);
    read_mpt(table).err()
}

#[test]
fn worked_table_is_read_and_owned(rt: HostRuntime) -> Result<(), Fail> {
    let mpt = read_mpt(WORKED)?;
    assert_eq!(rt; (mpt.version(), mpt.mode(), mpt.reserved()), (0, 0, 63));
    assert_eq!(rt; mpt.package(), b"p1".as_slice());
    assert!(rt; mpt.descriptors().next().is_none());
    let mut assets = mpt.assets();
    let asset = assets.next().ok_or("no asset")?;
    assert!(rt; assets.next().is_none());
    assert_eq!(rt;
        (asset.identifier_type(), asset.scheme(), asset.reserved()),
        (0, 0, 127)
    );
    assert_eq!(rt; asset.id(), b"v".as_slice());
    assert_eq!(rt; asset.kind(), 0x6865_7631);
    let mut locations = asset.locations();
    let here = locations.next().ok_or("no location")?;
    assert_eq!(rt; here, Location::Here { packet_id: 256 });
    assert!(rt; locations.next().is_none());
    let mut descriptors = asset.descriptors();
    for (tag, from, length) in [(1, 32, 12), (0x8026, 47, 21)] {
        let descriptor = descriptors.next().ok_or("no descriptor")?;
        assert_eq!(rt;
            (descriptor.tag, descriptor.from, descriptor.bytes.len()),
            (tag, from, length)
        );
    }
    assert!(rt; descriptors.next().is_none());
    let owned = own_mpt(rt.alloc(), &mpt)?;
    assert_eq!(rt; owned.package.as_slice(), b"p1".as_slice());
    assert_eq!(rt; (owned.descriptors.len(), owned.assets.len()), (0, 1));
    for asset in owned.assets.as_slice() {
        assert_eq!(rt; asset.id.as_slice(), b"v".as_slice());
        assert_eq!(rt; asset.descriptors.len(), 2);
        for location in asset.locations.as_slice() {
            assert!(rt; matches!(location, OwnedLocation::Here { packet_id: 256 }));
        }
    }
    Ok(())
}

#[test]
fn descriptors_have_the_width_of_their_tags(rt: HostRuntime) -> Result<(), Fail> {
    let mut descriptors = read_mpt(WIDTHS)?.descriptors();
    let want: [(u16, u32, &[u8]); 5] = [
        (0x0001, 11, b"a"),
        (0x4000, 16, b"b"),
        (0x7000, 23, b"c"),
        (0x8000, 27, b"d"),
        (0xf000, 32, b"e"),
    ];
    for (tag, from, bytes) in want {
        let descriptor = descriptors.next().ok_or("no descriptor")?;
        assert_eq!(rt; (descriptor.tag, descriptor.from), (tag, from));
        assert_eq!(rt; descriptor.bytes, bytes);
    }
    assert!(rt; descriptors.next().is_none());
    Ok(())
}

#[test]
fn worked_table_cut_at_every_length(rt: HostRuntime) -> Result<(), Fail> {
    let starts = [
        4, 5, 6, 6, 8, 8, 10, 11, 12, 12, 12, 12, 16, 17, 18, 18, 18, 18, 22, 23, 24, 25, 25, 27,
        27,
    ];
    for length in 1..68 {
        let (front, _) = WORKED.split_at(length);
        let (at, why) = match length {
            1 => (1, MptWhy::Short),
            2 | 3 => (2, MptWhy::Short),
            _ => (2, MptWhy::Length),
        };
        assert_eq!(rt; refusal(&rt, front), Some(Refused { at, why }));
        if length >= 4 {
            let mut cut = front.to_vec(rt.alloc())?;
            assert!(rt; cut.len() >= 4);
            cut[3] = (length - 4) as u8;
            let at = starts.get(length - 4).copied().unwrap_or(29);
            let why = MptWhy::Short;
            assert_eq!(rt; refusal(&rt, cut.as_slice()), Some(Refused { at, why }));
        }
    }
    Ok(())
}

#[test]
fn each_refused_table_at_its_place(rt: HostRuntime) {
    let refused: [(&[u8], u32, MptWhy); 6] = [
        (
            b"\x20\x00\x00\x07\xfc\x00\x00\x05\x00\x01\x01",
            8,
            MptWhy::Short,
        ),
        (
            b"\x20\x00\x00\x08\xfc\x00\x00\x03\x00\x01\x02\x00",
            11,
            MptWhy::Short,
        ),
        (
            b"\x20\x00\x00\x06\xfc\x00\x00\x00\x00\xaa",
            9,
            MptWhy::Length,
        ),
        (
            b"\x20\x00\x00\x10\xfc\x00\x00\x00\x01\x00\x00\x00\x00\x00\x00abcd\xff",
            19,
            MptWhy::ClockRelation(0),
        ),
        (
            b"\x20\x00\x00\x21\xfc\x00\x00\x00\x02\x00\x00\x00\x00\x00\x00abcd\xfe\x00\x00\x00\x00\x00\x00\x00\x00\x00abcd\xff\x00\x00\x00",
            33,
            MptWhy::ClockRelation(1),
        ),
        (
            b"\x20\x00\x00\x12\xfc\x00\x00\x00\x01\x00\x00\x00\x00\x00\x00abcd\xfe\x01\x06",
            21,
            MptWhy::LocationKind(6),
        ),
    ];
    for (table, at, why) in refused {
        assert_eq!(rt; refusal(&rt, table), Some(Refused { at, why }));
    }
}

#[test]
#[tactic(auto, using(crate::proofs::LocationLaw::fits_can))]
fn each_location_both_ways(rt: HostRuntime) -> Result<(), Fail> {
    let spelled: [&[u8]; 6] = [
        b"\x00\x00\x10",
        b"\x01\x01\x02\x03\x04\x05\x06\x07\x08\xc8\x64\x00\x10",
        b"\x02aaaabbbbccccddddeeeeffffgggghhhh\xc8\x64\x00\x10",
        b"\x03\x00\x01\x00\x02\xff\xfe",
        b"\x04aaaabbbbccccddddeeeeffffgggghhhh\xc8\x64\xe0\x10",
        b"\x05\x03a:b",
    ];
    for bytes in spelled {
        assert!(rt; bytes.len() < 1 << 31);
        let (location, length) = read_location(bytes)?;
        assert_eq!(rt; length as usize, bytes.len());
        let mut out = Vec::new(rt.alloc());
        assert_eq!(rt; write_location(&mut out, &location), Ok(()));
        assert_eq!(rt; out.as_slice(), bytes);
    }
    let (location, length) = read_location(b"\x00\x00\x10\x01b")?;
    assert_eq!(rt; (location, length), (Location::Here { packet_id: 16 }, 3));
    Ok(())
}

#[test]
fn each_refused_location_at_its_place(rt: HostRuntime) {
    let refused: [(&[u8], u32, LocationWhy); 5] = [
        (b"", 0, LocationWhy::Short),
        (b"\x06", 0, LocationWhy::Kind(6)),
        (b"\x00\x00", 1, LocationWhy::Short),
        (b"\x01\x01\x02\x03\x04\x05", 5, LocationWhy::Short),
        (b"\x05\x02a", 2, LocationWhy::Short),
    ];
    for (bytes, at, why) in refused {
        assert!(rt; bytes.len() < 1 << 31);
        assert_eq!(rt; read_location(bytes).err(), Some(Refused { at, why }));
    }
}

#[test]
#[tactic(auto, using(crate::proofs::TableLaw::parts_of))]
fn table_that_was_read_is_written_back(rt: HostRuntime) -> Result<(), Fail> {
    for table in [WORKED, WIDTHS, LOCATIONS] {
        assert!(rt; table.len() < 1 << 31);
        assert!(rt; !table.is_empty());
        assert!(rt; table[0] == 0x20);
        let mpt = read_mpt(table)?;
        let owned = own_mpt(rt.alloc(), &mpt)?;
        let mut out = Vec::new(rt.alloc());
        assert_eq!(rt; write_mpt(&mut out, &owned), Ok(()));
        assert_eq!(rt; out.as_slice(), table);
    }
    Ok(())
}

/// A table without package id and assets, with one descriptor of so many bytes of content.
fn with_content(alloc: Global, length: usize) -> Result<OwnedMpt, OutOfMemory>
    requires { length < 65532 }
    ensures { IfOk result (λ m. PartsFit (owned_mpt m)) }
{
    let content = vec![in alloc; 0; length]?;
    let mut descriptors = List::new(alloc);
    descriptors.push(OwnedDescriptor {
        tag: 0xf000,
        bytes: List::from_vec(content),
    })?;
    Ok(OwnedMpt {
        version: 0,
        mode: 0,
        reserved: 63,
        package: List::new(alloc),
        descriptors,
        assets: List::new(alloc),
    })
}

#[test]
fn longest_table_is_written_and_a_longer_one_is_not(rt: HostRuntime) -> Result<(), Fail> {
    let mut out = b"ab".to_vec(rt.alloc())?;
    let longest = with_content(rt.alloc(), 65526)?;
    assert_eq!(rt; write_mpt(&mut out, &longest), Ok(()));
    assert_eq!(rt; out.len(), 65541);
    let (head, _) = out.as_slice().split_at(6);
    assert_eq!(rt; head, b"ab\x20\x00\xff\xff".as_slice());
    let mut out = b"ab".to_vec(rt.alloc())?;
    let longer = with_content(rt.alloc(), 65527)?;
    assert_eq!(rt;
        write_mpt(&mut out, &longer),
        Err(Unwritten::TooLong(65536))
    );
    assert_eq!(rt; out.as_slice(), b"ab".as_slice());
    Ok(())
}
