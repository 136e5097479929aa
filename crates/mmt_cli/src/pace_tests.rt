//! The command `pace` over files in memory: the stream of the worked plan in slots, and how it ends otherwise.

use crate::mux_tests::shelf;
use crate::run::run;
use crate::status::Status;
use crate::take_tests::{Units, Wanted, takes};
use crate::tests::words;
use crate::worked::stream;
use mmt_io::MemoryPort;
use std::alloc::Global;
use std::test::Fail;

// A run of `pace` with a step over the worked plan, one place of which is changed, and its file of N bytes; these
// reads of the shelf fail.
fn paced(
    alloc: Global,
    step: &str,
    change: (&str, &str),
    length: usize,
    failing: &[u64],
) -> Result<(Status, MemoryPort), Fail> {
    let words = words(alloc, &["pace", "plan.json", "--step", step])?;
    let mut shelf = shelf(alloc, change, length, failing)?;
    let mut port = MemoryPort::new(alloc, Vec::new(alloc), 1_000, 10_000, Vec::new(alloc))?;
    let status = run(alloc, &words, &mut port, &mut shelf);
    Ok((status, port))
}

#[test]
fn packets_that_stand_on_slots_are_sent_as_by_mux(rt: HostRuntime) -> Result<(), Fail> {
    let alloc = rt.alloc();
    let (status, port) = paced(alloc, "10", ("", ""), 3500, &[])?;
    assert_eq!(rt; status, Status::Done);
    assert_eq!(rt; port.written(), stream(alloc)?.as_slice());
    assert_eq!(rt; port.noted().len(), 0);
    Ok(())
}

#[test]
fn take_gives_back_what_was_sent_in_slots(rt: HostRuntime) -> Result<(), Fail> {
    let alloc = rt.alloc();
    // Both units go later than by `mux`, and in time.
    for step in ["1000", "6790"] {
        let (status, port) = paced(alloc, step, ("", ""), 3500, &[])?;
        assert_eq!(rt; status, Status::Done);
        assert_eq!(rt; port.written() == stream(alloc)?.as_slice(), false);
        let wanted = Wanted {
            status: Status::Done,
            units: Units::Both,
            notes: "units 2 bytes 3500 peak 3689\n",
        };
        assert!(rt;
            takes(
                alloc,
                &["take"],
                Vec::from_slice(alloc, port.written())?,
                wanted
            )?
        );
    }
    Ok(())
}

// From which tick on and until which tick each packet of the worked plan may be sent. The delay of 1000 ends before the
// first unit is due, 32768 ticks after the first packet, and before the second, 34955 ticks after it.
const JOBS: [(u64, u64); 6] = [
    (65_536_000, 65_567_767),
    (65_536_100, 65_567_767),
    (65_536_200, 65_567_767),
    (65_536_210, 65_567_767),
    (65_536_220, 65_567_767),
    (65_536_300, 65_569_954),
];

// The slots from the first packet on, as far as the last deadline.
const SLOTS: [u64; 3] = [65_536_000, 65_552_000, 65_568_000];

#[test]
fn an_interval_with_more_packets_than_slots_is_told(rt: HostRuntime) -> Result<(), Fail> {
    let alloc = rt.alloc();
    let (status, port) = paced(alloc, "16000", ("", ""), 3500, &[])?;
    assert_eq!(rt; status.number(), 9);
    assert_eq!(rt; port.written().len(), 0);
    let told = format!(in alloc; "{status}")?;
    assert_eq!(rt; told.as_str(), "not paced: 65536000 65567767 5 2");
    let Status::NotPaced {
        from,
        to,
        jobs,
        slots,
    } = status
    else {
        return Err(Fail::from("another status"));
    };
    // Counted again.
    let mut due: u32 = 0;
    for (release, deadline) in JOBS {
        if from <= release && deadline <= to {
            due = due.saturating_add(1);
        }
    }
    let mut room: u32 = 0;
    for slot in SLOTS {
        if from <= slot && slot <= to {
            room = room.saturating_add(1);
        }
    }
    assert_eq!(rt; (jobs, slots), (due, room));
    assert_eq!(rt; room < due, true);
    Ok(())
}

#[test]
fn the_first_reason_is_told_and_nothing_written(rt: HostRuntime) -> Result<(), Fail> {
    let alloc = rt.alloc();
    // The plan, its file, the schedule and admission are looked at in this order.
    let against = [
        (
            "16000",
            ("hev1", "hev"),
            3499,
            "plan: value at asset 0 0 0 field 3",
        ),
        (
            "16000",
            ("", ""),
            3499,
            "plan: unit-short at unit 0 0 1 field 3",
        ),
        (
            "16000",
            ("4000", "3688"),
            3500,
            "not paced: 65536000 65567767 5 2",
        ),
        (
            "1000",
            ("4000", "3688"),
            3500,
            "not admitted: A6 5 3689 3688",
        ),
    ];
    for (step, change, length, text) in against {
        let (status, port) = paced(alloc, step, change, length, &[])?;
        let told = format!(in alloc; "{status}")?;
        assert_eq!(rt; told.as_str(), text);
        assert_eq!(rt; port.written().len(), 0);
    }
    Ok(())
}

#[test]
fn a_read_that_fails_leaves_a_prefix(rt: HostRuntime) -> Result<(), Fail> {
    let alloc = rt.alloc();
    let (done, whole) = paced(alloc, "1000", ("", ""), 3500, &[])?;
    assert_eq!(rt; done, Status::Done);
    let mut most = 0;
    for call in 0..20_u64 {
        let (status, port) = paced(alloc, "1000", ("", ""), 3500, &[call])?;
        if status == Status::Done {
            break;
        }
        assert_eq!(rt; status, Status::ReadFault);
        most = port.written().len();
        assert_eq!(rt; Some(port.written()), whole.written().get(..most));
    }
    // The last read is that of the second unit.
    assert_eq!(rt; most, 3346);
    Ok(())
}
