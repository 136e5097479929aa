//! The line of a trial, and what is made from a number.

use crate::{make, tell};
use mmt_io::MemoryPort;
use mmt_trial::Tried;
use std::test::Fail;

#[test]
fn a_line_has_each_number_after_its_word(rt: HostRuntime) -> Result<(), Fail> {
    let alloc = rt.alloc();
    let tried = Tried {
        sent: 6,
        delivered: 5,
        units: 1,
        expected: 2,
        bytes: 500,
        peak: 2267,
        bound: 4000,
        late: 3,
        repeat: 4,
        full: 7,
    };
    let mut port = MemoryPort::new(alloc, Vec::new(alloc), 2, 1000, Vec::new(alloc))?;
    assert_eq!(rt; tell(alloc, &mut port, &tried), Ok(()));
    let line =
        "sent 6 delivered 5 units 1 expected 2 bytes 500 peak 2267 bound 4000 late 3 repeat 4 full 7\n";
    assert!(rt; port.written() == line.as_bytes());
    Ok(())
}

#[test]
fn a_minute_made_of_seven(rt: HostRuntime) -> Result<(), Fail> {
    let alloc = rt.alloc();
    let mut port = MemoryPort::new(alloc, Vec::new(alloc), 2, 1000, Vec::new(alloc))?;
    assert_eq!(rt; make(alloc, 7, &mut port), Ok(()));
    let line =
        "sent 12004 delivered 12364 units 4321 expected 4321 bytes 10373000 peak 374714 bound 400000 late 0 repeat 600 full 0\n";
    assert!(rt; port.written() == line.as_bytes());
    Ok(())
}
