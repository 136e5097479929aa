//! Shelves: in memory, with files and failing reads, and over real files.

use crate::ahead::Ahead;
use crate::{MemoryShelf, RealShelf, Shelf, ShelfFault};
use std::cell::Cell;
use std::io::ErrorKind;
use std::os::unix::fs::FileExt;
use std::test::Fail;
use std::{fs, io};

// A read of any shelf, of which a test knows its answer alone.
fn read<S: Shelf>(shelf: &mut S, name: &str, at: u64, buf: &mut [u8]) -> Result<usize, ShelfFault> {
    shelf.read_at(name, at, buf)
}

#[test]
fn a_shelf_without_files_fails_where_listed(rt: HostRuntime) -> Result<(), Fail> {
    let list = Vec::from_slice(rt.alloc(), &[1])?;
    let mut shelf = MemoryShelf::new(rt.alloc(), list);
    let mut buf = [0; 3];
    for want in [ShelfFault::Absent, ShelfFault::Failed, ShelfFault::Absent] {
        assert_eq!(rt; read(&mut shelf, "a", 0, &mut buf), Err(want));
    }
    Ok(())
}

#[test]
fn a_file_that_is_put_is_read_until_another_of_its_name_is(rt: HostRuntime) -> Result<(), Fail> {
    let alloc = rt.alloc();
    let mut shelf = MemoryShelf::new(alloc, Vec::from_slice(alloc, &[2])?);
    let mut buf = [0; 3];
    assert_eq!(rt;
        shelf.put("v.bin", Vec::from_slice(alloc, b"01234")?),
        Ok(())
    );
    assert_eq!(rt; shelf.put("", Vec::new(alloc)), Ok(()));
    assert_eq!(rt; read(&mut shelf, "v.bin", 1, &mut buf), Ok(3));
    assert_eq!(rt; &buf, b"123");
    assert_eq!(rt; read(&mut shelf, "v.bin", 4, &mut buf), Ok(1));
    assert_eq!(rt; &buf, b"423", "what is behind the bytes stays");
    assert_eq!(rt;
        read(&mut shelf, "v.bin", 0, &mut buf),
        Err(ShelfFault::Failed)
    );
    assert_eq!(rt; read(&mut shelf, "v.bin", 5, &mut buf), Ok(0));
    assert_eq!(rt; read(&mut shelf, "v.bin", u64::MAX, &mut buf), Ok(0));
    assert_eq!(rt; read(&mut shelf, "", 0, &mut buf), Ok(0));
    assert_eq!(rt; read(&mut shelf, "v", 0, &mut buf), Err(ShelfFault::Absent));
    assert_eq!(rt; shelf.put("v.bin", Vec::from_slice(alloc, b"x")?), Ok(()));
    assert_eq!(rt; read(&mut shelf, "v.bin", 0, &mut buf), Ok(1));
    assert_eq!(rt; &buf, b"x23");
    Ok(())
}

#[test]
fn a_real_file_is_read_from_a_place_on(rt: HostRuntime) -> Result<(), Fail> {
    let name = "mmt_io_there.bin";
    fs::write(&rt, name, "0123456789")?;
    let mut shelf = RealShelf::new(rt);
    let mut buf = [0; 4];
    assert_eq!(rt; read(&mut shelf, name, 3, &mut buf), Ok(4));
    assert_eq!(rt; &buf, b"3456");
    assert_eq!(rt; read(&mut shelf, name, 8, &mut buf), Ok(2));
    assert_eq!(rt; &buf, b"8956");
    assert_eq!(rt; read(&mut shelf, name, 10, &mut buf), Ok(0));
    fs::remove_file(&rt, name)?;
    assert_eq!(rt;
        read(&mut shelf, name, 0, &mut buf),
        Ok(4),
        "the file is still open"
    );
    assert_eq!(rt; &buf, b"0123");
    Ok(())
}

#[test]
fn a_real_file_that_is_not_there_is_absent(rt: HostRuntime) -> Result<(), Fail> {
    let mut shelf = RealShelf::new(rt);
    let mut buf = [0; 4];
    let long = String::from_utf8(vec![in rt.alloc(); b'a'; 300]?)
        .ok()
        .ok_or("no text")?;
    for name in [
        "mmt_io_absent.bin",
        "mmt_io_absent/v.bin",
        "",
        "v\0.bin",
        long.as_str(),
    ] {
        assert_eq!(rt;
            read(&mut shelf, name, 0, &mut buf),
            Err(ShelfFault::Absent),
            "{name}"
        );
    }
    Ok(())
}

#[test]
fn a_folder_cannot_be_read(rt: HostRuntime) -> Result<(), Fail> {
    let mut shelf = RealShelf::new(rt);
    let mut buf = [0; 4];
    assert_eq!(rt; read(&mut shelf, ".", 0, &mut buf), Err(ShelfFault::Failed));
    assert_eq!(rt;
        read(&mut shelf, "mmt_io_absent.bin", 0, &mut buf),
        Err(ShelfFault::Absent)
    );
    Ok(())
}

// A file that gives a byte at a time, each after a call that a signal interrupts, and fails at its end.
#[derive(Drop)]
struct Unsteady {
    interrupted: Cell<bool>,
    bytes: &'static [u8],
}

impl FileExt for Unsteady {
    fn read_at(&self, buf: &mut [u8], offset: u64) -> io::Result<usize> {
        self.interrupted.set(!self.interrupted.get());
        if self.interrupted.get() {
            return Err(io::Error::from(ErrorKind::Interrupted));
        }
        match (buf.first_mut(), self.bytes.get(offset as usize)) {
            (Some(first), Some(byte)) => {
                *first = *byte;
                Ok(1)
            }
            _ => Err(io::Error::from(ErrorKind::Other)),
        }
    }

    fn write_at(&self, _buf: &[u8], _offset: u64) -> io::Result<usize> {
        Ok(0)
    }
}

#[test]
fn what_a_signal_interrupts_is_tried_again(rt: HostRuntime) -> Result<(), Fail> {
    let file = Unsteady {
        interrupted: Cell::new(false),
        bytes: b"0123",
    };
    let mut ahead = Ahead::new(rt.alloc());
    let mut buf = [0; 3];
    assert_eq!(rt; ahead.read(&file, 1, &mut buf), Ok(3));
    assert_eq!(rt; &buf, b"123");
    assert_eq!(rt; ahead.read(&file, 2, &mut buf), Err(ShelfFault::Failed));
    Ok(())
}

// A file of so many bytes, the byte at place p being p mod 251. A read fails that takes a byte from
// `broken` on. It counts the reads, and the bytes that they gave.
#[derive(Drop)]
struct Counted {
    length: Cell<u64>,
    broken: u64,
    reads: Cell<u32>,
    given: Cell<u64>,
}

impl Counted {
    fn new(length: u64, broken: u64) -> Counted {
        Counted {
            length: Cell::new(length),
            broken,
            reads: Cell::new(0),
            given: Cell::new(0),
        }
    }
}

impl FileExt for Counted {
    fn read_at(&self, buf: &mut [u8], offset: u64) -> io::Result<usize> {
        self.reads.set(self.reads.get().wrapping_add(1));
        let left = self.length.get().saturating_sub(offset);
        let count = (buf.len() as u64).min(left);
        if self.broken < offset.saturating_add(count) {
            return Err(io::Error::from(ErrorKind::Other));
        }
        self.given.set(self.given.get().wrapping_add(count));
        let mut place = offset;
        for byte in &mut buf[..count as usize] {
            *byte = (place % 251) as u8;
            place = place.wrapping_add(1);
        }
        Ok(count as usize)
    }

    fn write_at(&self, _buf: &[u8], _offset: u64) -> io::Result<usize> {
        Ok(0)
    }
}

// Whether these are the bytes of such a file from a place on.
fn are_from(bytes: &[u8], from: u64) -> bool {
    let mut place = from;
    for byte in bytes {
        if *byte as u64 != place % 251 {
            return false;
        }
        place = place.wrapping_add(1);
    }
    true
}

#[test]
fn reads_that_go_on_from_one_another_are_few_reads_of_the_file(
    rt: HostRuntime,
) -> Result<(), Fail> {
    let file = Counted::new(200_000, u64::MAX);
    let mut ahead = Ahead::new(rt.alloc());
    let mut buf = [0; 1400];
    for n in 0..142u64 {
        let at = 1400 * n;
        assert_eq!(rt; ahead.read(&file, at, &mut buf), Ok(1400));
        assert!(rt; are_from(&buf, at), "read {n}");
    }
    assert_eq!(rt; file.reads.get(), 4, "three of 65,536 bytes, and the rest");
    assert_eq!(rt; file.given.get(), 200_000, "no byte is read twice");
    let mut last = [0; 1200];
    assert_eq!(rt; ahead.read(&file, 198_800, &mut last), Ok(1200));
    assert!(rt; are_from(&last, 198_800));
    assert_eq!(rt; file.reads.get(), 4, "its last bytes are held");
    assert_eq!(rt; ahead.read(&file, 200_000, &mut last), Ok(0));
    assert_eq!(rt; file.reads.get(), 5, "the end is asked for");
    Ok(())
}

#[test]
fn a_read_elsewhere_reads_little_ahead(rt: HostRuntime) -> Result<(), Fail> {
    let file = Counted::new(1_000_000, u64::MAX);
    let mut ahead = Ahead::new(rt.alloc());
    let mut buf = [0; 10];
    for at in [900_000, 300_000, 301_000, 299_999] {
        assert_eq!(rt; ahead.read(&file, at, &mut buf), Ok(10));
        assert!(rt; are_from(&buf, at), "at {at}");
    }
    assert_eq!(rt;
        file.reads.get(),
        3,
        "the third lies in what the second read"
    );
    assert_eq!(rt; file.given.get(), 3 * 4096);
    Ok(())
}

#[test]
fn a_read_of_as_many_bytes_as_are_held_is_one_read_of_the_file(
    rt: HostRuntime,
) -> Result<(), Fail> {
    let file = Counted::new(200_000, u64::MAX);
    let mut ahead = Ahead::new(rt.alloc());
    let mut buf = vec![in rt.alloc(); 0; 65_536]?;
    assert_eq!(rt; ahead.read(&file, 7, &mut buf), Ok(65_536));
    assert!(rt; are_from(&buf, 7));
    assert_eq!(rt; file.given.get(), 65_536);
    assert_eq!(rt; file.reads.get(), 1);
    Ok(())
}

#[test]
fn a_fault_comes_where_its_bytes_are_asked_for(rt: HostRuntime) -> Result<(), Fail> {
    let file = Counted::new(10_000, 5000);
    let mut ahead = Ahead::new(rt.alloc());
    let mut buf = [0; 1000];
    for at in [0, 1000, 2000, 3000, 4000] {
        assert_eq!(rt; ahead.read(&file, at, &mut buf), Ok(1000), "at {at}");
        assert!(rt; are_from(&buf, at), "at {at}");
    }
    assert_eq!(rt; ahead.read(&file, 5000, &mut buf), Err(ShelfFault::Failed));
    assert_eq!(rt;
        ahead.read(&file, 4001, &mut buf),
        Err(ShelfFault::Failed),
        "its last byte"
    );
    assert_eq!(rt; ahead.read(&file, 4000, &mut buf), Ok(1000));
    assert!(rt; are_from(&buf, 4000));
    Ok(())
}

#[test]
fn a_file_that_has_become_shorter_or_longer_shows(rt: HostRuntime) -> Result<(), Fail> {
    let file = Counted::new(100_000, u64::MAX);
    let mut ahead = Ahead::new(rt.alloc());
    let mut buf = [0; 1000];
    assert_eq!(rt; ahead.read(&file, 0, &mut buf), Ok(1000));
    file.length.set(65_600);
    assert_eq!(rt;
        ahead.read(&file, 65_000, &mut buf),
        Ok(600),
        "536 bytes that were read ahead, and the 64 behind them"
    );
    assert!(rt; are_from(&buf[..600], 65_000));
    assert_eq!(rt; ahead.read(&file, 65_600, &mut buf), Ok(0));
    file.length.set(65_610);
    assert_eq!(rt; ahead.read(&file, 65_600, &mut buf), Ok(10));
    assert!(rt; are_from(&buf[..10], 65_600));
    file.length.set(70_000);
    assert_eq!(rt; ahead.read(&file, 65_600, &mut buf), Ok(1000));
    assert!(rt; are_from(&buf, 65_600));
    Ok(())
}

// Whether five bytes of a file are those of its own name, from a place on.
fn gives_its_name(shelf: &mut RealShelf, name: &str, at: usize) -> bool {
    let mut buf = [0; 5];
    let count = shelf.read_at(name, at as u64, &mut buf);
    match name.as_bytes().get(at..) {
        Some(rest) => count == Ok(5) && rest.starts_with(&buf),
        None => false,
    }
}

#[test]
fn nine_real_files_are_read_in_turn(rt: HostRuntime) -> Result<(), Fail> {
    let names = [
        "mmt_io_1.bin",
        "mmt_io_2.bin",
        "mmt_io_3.bin",
        "mmt_io_4.bin",
        "mmt_io_5.bin",
        "mmt_io_6.bin",
        "mmt_io_7.bin",
        "mmt_io_8.bin",
        "mmt_io_9.bin",
    ];
    for name in names {
        fs::write(&rt, name, name)?;
    }
    let mut shelf = RealShelf::new(rt);
    for name in names {
        assert!(rt; gives_its_name(&mut shelf, name, 0), "{name}");
    }
    for name in names {
        assert!(rt; gives_its_name(&mut shelf, name, 5), "{name}");
    }
    for name in names {
        fs::remove_file(&rt, name)?;
    }
    Ok(())
}
