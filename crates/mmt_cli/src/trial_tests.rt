//! The commands `trial` and `make` over files in memory. The lines were worked out from the worked plan by hand, and that of
//! a made programme by a plain program.

use crate::mux_tests::shelf;
use crate::run::run;
use crate::status::Status;
use crate::tests::words;
use mmt_io::{MemoryPort, MemoryShelf};
use std::alloc::Global;
use std::test::Fail;

const TRIAL: &[&str] = &["trial", "plan.json", "list"];

// A port without input.
fn port(alloc: Global) -> Result<MemoryPort, Fail> {
    Ok(MemoryPort::new(alloc, Vec::new(alloc), 100, 10_000, Vec::new(alloc))?)
}

// The shelf with the worked plan, of which one place is changed, its file, and a list of deliveries.
fn with_list(alloc: Global, change: (&str, &str), list: &str) -> Result<MemoryShelf, Fail> {
    let mut shelf = shelf(alloc, change, 3500, &[])?;
    shelf.put("list", Vec::from_slice(alloc, list.as_bytes())?)?;
    Ok(shelf)
}

// The line of a trial of the worked plan, of which one place is changed, with this list.
fn tried(alloc: Global, change: (&str, &str), list: &str) -> Result<MemoryPort, Fail> {
    let mut shelf = with_list(alloc, change, list)?;
    let mut port = port(alloc)?;
    let words = words(alloc, TRIAL)?;
    let status = run(alloc, &words, &mut port, &mut shelf);
    if status != Status::Done {
        return Err(Fail::from("not done"));
    }
    Ok(port)
}

#[test]
fn a_lost_part_loses_its_unit(rt: HostRuntime) -> Result<(), Fail> {
    let port = tried(rt.alloc(), ("", ""), "0\n1\n2\n4\n5\n")?;
    let line =
        "sent 6 delivered 5 units 1 expected 1 bytes 500 peak 2267 bound 4000 late 0 repeat 0 full 0\n";
    assert_eq!(rt; port.written(), line.as_bytes());
    assert_eq!(rt; port.noted().len(), 0);
    Ok(())
}

#[test]
fn parts_after_the_delay_are_late(rt: HostRuntime) -> Result<(), Fail> {
    let short = ("\"delay\":1000", "\"delay\":80");
    let port = tried(rt.alloc(), short, "0\n1\n5\n2\n3\n4\n")?;
    let line =
        "sent 6 delivered 6 units 1 expected 1 bytes 500 peak 845 bound 4000 late 2 repeat 0 full 0\n";
    assert_eq!(rt; port.written(), line.as_bytes());
    Ok(())
}

#[test]
fn a_packet_before_tuning_is_not_kept(rt: HostRuntime) -> Result<(), Fail> {
    let port = tried(rt.alloc(), ("", ""), "3\n0\n1\n2\n4\n5\n")?;
    let line =
        "sent 6 delivered 6 units 1 expected 1 bytes 500 peak 2267 bound 4000 late 0 repeat 0 full 0\n";
    assert_eq!(rt; port.written(), line.as_bytes());
    Ok(())
}

// The text of the status of a trial with this list, which writes nothing.
fn told(alloc: Global, list: &str) -> Result<String, Fail> {
    let mut shelf = with_list(alloc, ("", ""), list)?;
    let mut port = port(alloc)?;
    let words = words(alloc, TRIAL)?;
    let status = run(alloc, &words, &mut port, &mut shelf);
    if !port.written().is_empty() {
        return Err(Fail::from("something was written"));
    }
    Ok(format!(in alloc; "{status}")?)
}

#[test]
fn tells_the_first_line_that_is_no_place(rt: HostRuntime) -> Result<(), Fail> {
    let alloc = rt.alloc();
    assert_eq!(rt;
        told(alloc, "6\n")?.as_str(),
        "plan: list-line at line 0 0 0 field 0"
    );
    assert_eq!(rt;
        told(alloc, "0\n5\n05\n")?.as_str(),
        "plan: list-line at line 2 0 0 field 0"
    );
    assert_eq!(rt;
        told(alloc, "0\n5")?.as_str(),
        "plan: list-line at line 1 0 0 field 0"
    );
    Ok(())
}

#[test]
fn tells_a_list_that_is_absent(rt: HostRuntime) -> Result<(), Fail> {
    let alloc = rt.alloc();
    let mut shelf = shelf(alloc, ("", ""), 3500, &[])?;
    let mut port = port(alloc)?;
    let words = words(alloc, TRIAL)?;
    let status = run(alloc, &words, &mut port, &mut shelf);
    let told = format!(in alloc; "{status}")?;
    assert_eq!(rt; told.as_str(), "plan: list-absent at line 0 0 0 field 0");
    Ok(())
}

#[test]
fn makes_a_programme_of_a_minute(rt: HostRuntime) -> Result<(), Fail> {
    let alloc = rt.alloc();
    let mut shelf = MemoryShelf::new(alloc, Vec::new(alloc));
    let mut port = port(alloc)?;
    let words = words(alloc, &["make", "7"])?;
    assert_eq!(rt; run(alloc, &words, &mut port, &mut shelf), Status::Done);
    let line =
        "sent 12004 delivered 12364 units 4321 expected 4321 bytes 10373000 peak 374714 bound 400000 late 0 repeat 600 full 0\n";
    assert_eq!(rt; port.written(), line.as_bytes());
    Ok(())
}
