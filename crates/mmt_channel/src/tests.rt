//! Lists of deliveries, and texts that are none.

use crate::{ListEnd, read_deliveries};
use std::test::Fail;

#[test]
fn reads_a_list(rt: HostRuntime) -> Result<(), Fail> {
    let alloc = rt.alloc();
    match read_deliveries(alloc, b"0\n5\n5\n", 6) {
        Ok(list) => assert_eq!(rt; list.as_slice(), [0, 5, 5].as_slice()),
        Err(_) => Err("a list")?,
    }
    match read_deliveries(alloc, b"", 6) {
        Ok(list) => assert_eq!(rt; list.len(), 0),
        Err(_) => Err("an empty list")?,
    }
    Ok(())
}

#[test]
fn refuses_the_first_line_that_is_no_place(rt: HostRuntime) -> Result<(), Fail> {
    let alloc = rt.alloc();
    for (text, sent, line) in [
        ("6\n", 6, 0),
        ("0\n", 0, 0),
        ("0\n\n", 6, 1),
        ("0\n1\n2", 6, 2),
        ("00\n", 6, 0),
        ("+1\n", 6, 0),
        ("1 \n", 6, 0),
        ("1\r\n", 6, 0),
        ("1\n2\n01\n9\n", 6, 2),
        ("\u{e9}\n", 6, 0),
        ("4294967296\n", 4_294_967_295, 0),
    ] {
        match read_deliveries(alloc, text.as_bytes(), sent) {
            Ok(_) => Err("no list")?,
            Err(end) => assert_eq!(rt; end, ListEnd::Line { line }),
        }
    }
    Ok(())
}
