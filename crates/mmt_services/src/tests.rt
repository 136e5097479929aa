ghost use Rattle.std.specs.Prelude.{◌<◌};

use crate::{PltWhy, read_plt, write_plt};
use mmt_base::Refused;
use mmt_mpt::Location;
use std::process::Abort;
use std::test::Fail;

/// The packages `a` and `b`, each found in its own flow.
const TWO: &[u8] = b"\x80\x00\x00\x0b\x02\x01a\x00\x00\x10\x01b\x00\x00\x20";

fn refusal(rt: &impl Abort, table: &[u8]) -> Option<Refused<PltWhy>> {
    assert!(rt; table.len() < 1 << 31);
    assert!(rt; !table.is_empty());
    assert!(rt; table[0] == 0x80);
    read_plt(table).err()
}

#[test]
fn two_packages_are_read_and_written_back(rt: HostRuntime) -> Result<(), Fail> {
    let plt = read_plt(TWO)?;
    assert_eq!(rt; plt.version(), 0);
    assert!(rt; plt.rest().is_empty());
    let mut packages = plt.packages();
    for (id, packet_id) in [(b"a", 16), (b"b", 32)] {
        let package = packages.next().ok_or("no package")?;
        assert_eq!(rt; package.id, id.as_slice());
        assert_eq!(rt; package.location, Location::Here { packet_id });
    }
    assert!(rt; packages.next().is_none());
    let mut out = Vec::new(rt.alloc());
    write_plt(&mut out, &plt)?;
    assert_eq!(rt; out.as_slice(), TWO);
    Ok(())
}

#[test]
fn length_of_another_table_is_refused(rt: HostRuntime) -> Result<(), Fail> {
    let table = b"\x80\x00\x00\x0c\x02\x01a\x00\x00\x10\x01b\x00\x00\x20";
    let want = Refused {
        at: 2,
        why: PltWhy::Length,
    };
    assert_eq!(rt; refusal(&rt, table), Some(want));
    Ok(())
}

#[test]
fn bytes_after_the_last_package_are_kept(rt: HostRuntime) -> Result<(), Fail> {
    let table = b"\x80\x07\x00\x0a\x01\x01a\x05\x02u:xyz";
    let plt = read_plt(table)?;
    assert_eq!(rt; plt.version(), 7);
    assert_eq!(rt; plt.rest(), b"xyz".as_slice());
    let mut out = Vec::new(rt.alloc());
    out.push(1)?;
    write_plt(&mut out, &plt)?;
    assert_eq!(rt;
        out.as_slice(),
        b"\x01\x80\x07\x00\x0a\x01\x01a\x05\x02u:xyz".as_slice()
    );
    Ok(())
}

#[test]
fn refusals_name_their_field(rt: HostRuntime) -> Result<(), Fail> {
    let cases: [(&[u8], u32, PltWhy); 6] = [
        (b"\x80", 1, PltWhy::Short),
        (b"\x80\x00\x00", 2, PltWhy::Short),
        (b"\x80\x00\x00\x00", 4, PltWhy::Short),
        (b"\x80\x00\x00\x03\x01\x02a", 6, PltWhy::Short),
        (b"\x80\x00\x00\x04\x01\x01a\x06", 7, PltWhy::LocationKind(6)),
        (b"\x80\x00\x00\x05\x01\x01a\x00\x00", 8, PltWhy::Short),
    ];
    for (table, at, why) in cases {
        assert_eq!(rt; refusal(&rt, table), Some(Refused { at, why }));
    }
    Ok(())
}
