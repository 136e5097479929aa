//! The command `list` over ports in memory, and what is said of each status.
ghost use Rattle.std.specs.Prelude.{◌≤◌, ◌^◌, [], false};

use crate::help::{HELP, VERSION, answer_to};
use crate::run::{run, run_within};
use crate::status::Status;
use mmt_admit::{NotAdmitted, Rule};
use mmt_io::{CallKind, FailAt, Fault, MemoryPort, MemoryShelf, Port};
use mmt_plan::{PlanPart, PlanPlace, Reason};
use mmt_stream::BrokenKind;
use std::alloc::{AllocError, Global};
use std::test::Fail;

const LIMIT: u64 = 1 << 40;

const NULL: [u8; 4] = [0x7F, 0xFF, 0, 0];

const THREE: [u8; 15] = [
    0x7F, 0x02, 0, 2, 0x60, 0x7F, 0x7F, 0x2A, 0, 1, 0x7F, 0x7F, 0xFE, 0, 0,
];

/// The words of a command, one for each text.
pub fn words(alloc: Global, texts: &[&str]) -> Result<Vec<String>, AllocError> {
    let mut words = Vec::new(alloc);
    for text in texts {
        words.push(String::from_str(alloc, text)?)?;
    }
    Ok(words)
}

/// A port in memory with this input, where these calls fail.
pub fn port(alloc: Global, input: &[u8], failing: &[FailAt]) -> Result<MemoryPort, Fail> {
    let input = Vec::from_slice(alloc, input)?;
    let failing = Vec::from_slice(alloc, failing)?;
    Ok(MemoryPort::new(alloc, input, 100, 1000, failing)?)
}

// What `list` answers.
fn listed<P: Port>(alloc: Global, port: &mut P, limit: u64) -> Result<Status, Fail>
    requires { limit ≤ 2 ^ 40 }
{
    let words = words(alloc, &["list"])?;
    let mut shelf = MemoryShelf::new(alloc, Vec::new(alloc));
    Ok(run_within(alloc, &words, port, &mut shelf, limit))
}

const CUT: Status = Status::Broken {
    kind: BrokenKind::Cut,
    place: 0,
};

const SYNC: Status = Status::Broken {
    kind: BrokenKind::Sync,
    place: 4,
};

const KINDS: [u8; 28] = [
    0x7F, 1, 0, 1, 9, 0x7F, 2, 0, 0, 0x7F, 3, 0, 0, 0x7F, 0xFE, 0, 2, 9, 9, 0x7F, 0xFF, 0, 0, 0x7F,
    0xA0, 0, 1, 9,
];

// A plain packet of the worked flow, with the checksum 0 and an MPU of one timed unit.
const PLAIN: [u8; 89] = [
    0x7F, 0x02, 0, 85, 0x60, 0, 0, 0, 0, 45, 17, 64, 0x20, 0x01, 0x0D, 0xB8, 0, 0, 0, 0, 0, 0, 0,
    0, 0, 0, 0, 1, 0xFF, 0x0E, 0, 0, 0, 0, 0, 0, 0, 0, 0, 0, 0, 0, 0x01, 0x01, 0xC8, 0x64, 0xC8,
    0x64, 0, 45, 0, 0, 0, 0, 0, 0x10, 0, 1, 0, 0, 0, 0, 0, 5, 0, 0x17, 0x28, 0, 0, 0, 0, 7, 0, 0,
    0, 1, 0, 0, 0, 1, 0, 0, 0, 0, 0, 0, 0x61, 0x62, 0x63,
];

#[test]
fn lists_streams(rt: HostRuntime) -> Result<(), Fail> {
    let lost: &[u8] = &[0x7F, 0xFF, 0, 0, 0x47];
    let kinds =
        "0 ip4 1\n5 ip6 0 | refused 9 ip-short\n9 ctx 0 | refused 13 ctx-short\n13 signal 2\n19 null 0\n23 other-a0 1\n";
    let plain =
        "0 ip6 85 | 20010db8000000000000000000000001:51300 ff0e0000000000000000000000000101:51300 | mmtp id 16 type 0 time 65536 number 5 rap 0 payload 25 | mpu 7 timed 1 part 0 units 1 [1 1 0 3]\n";
    let table: [(&[u8], u64, Status, &str); 10] = [
        (&NULL, LIMIT, Status::Done, "0 null 0\n"),
        (&[], LIMIT, Status::Done, ""),
        (&[0x7F, 0x02, 0], LIMIT, CUT, ""),
        (lost, LIMIT, SYNC, "0 null 0\n"),
        (lost, 5, SYNC, "0 null 0\n"),
        (lost, 4, Status::TooLong, "0 null 0\n"),
        (&NULL, 4, Status::Done, "0 null 0\n"),
        (&NULL, 0, Status::TooLong, ""),
        (&KINDS, LIMIT, Status::Done, kinds),
        (&PLAIN, LIMIT, Status::Done, plain),
    ];
    for (input, limit, status, output) in table {
        if limit > LIMIT {
            continue;
        }
        let mut port = port(rt.alloc(), input, &[])?;
        assert_eq!(rt;
            listed(rt.alloc(), &mut port, limit)?,
            status,
            "of {input:?}"
        );
        assert_eq!(rt; port.written(), output.as_bytes(), "of {input:?}");
        assert_eq!(rt; port.noted().len(), 0);
    }
    Ok(())
}

#[test]
fn fails_with_each_call(rt: HostRuntime) -> Result<(), Fail> {
    let alloc = rt.alloc();
    // A packet whose last bytes come with the second read.
    let mut input = Vec::from_slice(alloc, &NULL)?;
    input.extend_from_slice(&[0x7F, 0x03, 0xFF, 0xFF])?;
    input.extend_from_slice(&[0; 65_535])?;
    let (one, both) = (
        "0 null 0\n",
        "0 null 0\n4 ctx 65535 | refused 10 ctx-kind 0\n",
    );
    let table = [
        (CallKind::Read, 0, 0, Status::ReadFault, ""),
        (CallKind::Read, 1, 0, Status::ReadFault, one),
        (CallKind::Read, 2, 0, Status::ReadFault, both),
        (CallKind::Read, 3, 0, Status::Done, both),
        (CallKind::Write, 0, 0, Status::WriteFault, ""),
        (CallKind::Write, 0, 1, Status::WriteFault, "0"),
        (CallKind::Write, 1, 0, Status::WriteFault, one),
        (CallKind::Write, 1, 1, Status::WriteFault, "0 null 0\n4"),
        (CallKind::Write, 2, 0, Status::Done, both),
    ];
    for (kind, number, through, status, output) in table {
        let failing = [FailAt {
            kind,
            number,
            through,
        }];
        let mut port = port(alloc, &input, &failing)?;
        assert_eq!(rt;
            listed(alloc, &mut port, LIMIT)?,
            status,
            "at {kind:?} {number}"
        );
        assert_eq!(rt; port.written(), output.as_bytes(), "at {kind:?} {number}");
    }
    Ok(())
}

// A port that gives its input in two pieces, and keeps what is written.
#[derive(Drop)]
struct TwoPieces {
    input: Vec<u8>,
    cut: usize,
    taken: usize,
    written: Vec<u8>,
    faults: u64,
}

impl Port for TwoPieces {
    ghost tells = { λ _. false };

    ghost history = { λ _. [] };

    ghost left = { λ _. [] };

    ghost read_faults = { λ _. 0 };

    ghost write_faults = { λ p. p.faults };

    fn read(&mut self, buf: &mut [u8]) -> Result<usize, Fault> {
        let end = if self.taken < self.cut {
            self.cut
        } else {
            self.input.len()
        };
        let rest = self.input.get(self.taken..end).unwrap_or(&[]);
        let count = rest.len().min(buf.len());
        buf[..count].copy_from_slice(&rest[..count]);
        self.taken = self.taken.saturating_add(count);
        Ok(count)
    }

    fn write(&mut self, bytes: &[u8]) -> Result<(), Fault> {
        if self.written.extend_from_slice(bytes).is_err() {
            self.faults = self.faults.saturating_add(1);
            return Err(Fault);
        }
        Ok(())
    }

    fn note(&mut self, _bytes: &[u8]) -> Result<(), Fault> {
        self.faults = self.faults.saturating_add(1);
        Err(Fault)
    }
}

#[test]
fn lists_the_same_in_any_pieces(rt: HostRuntime) -> Result<(), Fail> {
    let alloc = rt.alloc();
    for cut in 0..=THREE.len() {
        let mut port = TwoPieces {
            input: Vec::from_slice(alloc, &THREE)?,
            cut,
            taken: 0,
            written: Vec::new(alloc),
            faults: 0,
        };
        assert_eq!(rt;
            listed(alloc, &mut port, LIMIT)?,
            Status::Done,
            "cut at {cut}"
        );
        let lines = b"0 ip6 2 | refused 4 ip-short\n6 other-2a 1\n11 signal 0\n".as_slice();
        assert_eq!(rt; port.written.as_slice(), lines, "cut at {cut}");
    }
    Ok(())
}

#[test]
fn refuses_wrong_words(rt: HostRuntime) -> Result<(), Fail> {
    let alloc = rt.alloc();
    let table: [(&[&str], u32); 10] = [
        (&[], 0),
        (&["lists"], 0),
        (&["List"], 0),
        (&["--help"], 0),
        (&["list", "list"], 1),
        (&["mux"], 1),
        (&["mux", "plan.json", "--"], 2),
        (&["", "list"], 0),
        (&["take", "--bound"], 2),
        (&["peak", "--delay", "5", "--window", "5"], 4),
    ];
    for (texts, index) in table {
        let words = words(alloc, texts)?;
        let mut port = port(alloc, &NULL, &[])?;
        let mut shelf = MemoryShelf::new(alloc, Vec::new(alloc));
        let status = run(alloc, &words, &mut port, &mut shelf);
        assert_eq!(rt; status, Status::Usage { index });
        assert_eq!(rt; port.written().len(), 0);
    }
    Ok(())
}

const ABSENT: Status = Status::PlanRefused {
    reason: Reason::PlanAbsent,
    place: PlanPlace {
        part: PlanPart::Top,
        a: 0,
        b: 0,
        c: 0,
        field: 0,
    },
};

const LATE: Status = Status::NotAdmitted {
    refusal: NotAdmitted {
        rule: Rule::A4,
        number: 1,
        found: 65_570_955,
        allowed: 65_568_868,
    },
};

// Four packets for three slots.
const FULL: Status = Status::NotPaced {
    from: 10,
    to: 30,
    jobs: 4,
    slots: 3,
};

#[test]
fn tells_each_status(rt: HostRuntime) -> Result<(), Fail> {
    let alloc = rt.alloc();
    let table = [
        (Status::Done, 0, "done"),
        (Status::Usage { index: 3 }, 1, "usage: word 3"),
        (Status::ReadFault, 2, "read fault"),
        (Status::WriteFault, 3, "write fault"),
        (CUT, 4, "broken: cut at 0"),
        (SYNC, 4, "broken: sync at 4"),
        (ABSENT, 5, "plan: plan-absent at top 0 0 0 field 0"),
        (LATE, 6, "not admitted: A4 1 65570955 65568868"),
        (Status::OutOfMemory, 7, "out of memory"),
        (Status::TooLong, 8, "too long"),
        (FULL, 9, "not paced: 10 30 4 3"),
    ];
    for (status, number, text) in table {
        assert_eq!(rt; status.number(), number);
        let told = format!(in alloc; "{status}")?;
        assert_eq!(rt; told.as_str(), text);
    }
    assert_eq!(rt; answer_to(&words(alloc, &["--help"])?), Some(HELP));
    assert_eq!(rt; answer_to(&words(alloc, &["--version"])?), Some(VERSION));
    assert_eq!(rt; answer_to(&words(alloc, &["--help", "list"])?), None);
    Ok(())
}
