//! Each call of a command fails once, and some of its bytes are let through: reads, writes and notes of the port, and
//! reads of files. What is to be is worked out from a run of the command in which no call fails.

use crate::gateway_tests::plain;
use crate::mux_tests::{ONE_MORE_TABLE, shelf};
use crate::run::run;
use crate::status::Status;
use crate::tests::words;
use crate::worked::{packet, stream};
use mmt_io::{CallKind, FailAt, MemoryPort};
use std::alloc::Global;
use std::test::Fail;

const MUX: &[&str] = &["mux", "plan.json"];

const PACE: &[&str] = &["pace", "plan.json", "--step", "10"];

const TAKE: &[&str] = &["take"];

const LIST: &[&str] = &["list"];

const PEAK: &[&str] = &[
    "peak", "--delay", "1000", "--window", "65536", "--bound", "4000",
];

const TRIAL: &[&str] = &["trial", "plan.json", "list"];

const MAKE: &[&str] = &["make", "7"];

const EXPAND: &[&str] = &["expand"];

const SQUEEZE: &[&str] = &["squeeze", "--context", "1", "--full-every", "3"];

// The worked plan, and the same with one more table: what is there and what stands in its place.
const PLANS: [(&str, &str); 2] = [("", ""), ("[[0,0]]}],", ONE_MORE_TABLE)];

// A command over the stream of a plan, the plan and its file, and a list of deliveries.
#[derive(Drop)]
struct Case<'a> {
    texts: &'a [&'a str],
    plan: (&'a str, &'a str),
    stream: &'a [u8],
}

// The calls that fail: of the port, and reads of files.
#[derive(Clone, Copy)]
struct Failing<'a> {
    port: &'a [FailAt],
    files: &'a [u64],
}

const NONE: Failing<'static> = Failing {
    port: &[],
    files: &[],
};

// A run of a command in which these calls fail.
fn ended(
    alloc: Global,
    case: &Case<'_>,
    failing: Failing<'_>,
) -> Result<(Status, MemoryPort), Fail> {
    let words = words(alloc, case.texts)?;
    let input = Vec::from_slice(alloc, case.stream)?;
    let calls = Vec::from_slice(alloc, failing.port)?;
    let mut port = MemoryPort::new(alloc, input, 1_000, 10_000, calls)?;
    let mut shelf = shelf(alloc, case.plan, 3500, failing.files)?;
    shelf.put("list", Vec::from_slice(alloc, b"0\n1\n2\n4\n5\n")?)?;
    let status = run(alloc, &words, &mut port, &mut shelf);
    Ok((status, port))
}

// The run in which no call fails.
fn whole(alloc: Global, case: &Case<'_>) -> Result<MemoryPort, Fail> {
    let (status, port) = ended(alloc, case, NONE)?;
    if status != Status::Done {
        return Err(Fail::from("not done"));
    }
    Ok(port)
}

// The stream of a plan.
fn sent(alloc: Global, plan: (&str, &str)) -> Result<Vec<u8>, Fail> {
    let case = Case {
        texts: MUX,
        plan,
        stream: &[],
    };
    let port = whole(alloc, &case)?;
    Ok(Vec::from_slice(alloc, port.written())?)
}

// Whether what was written and what was noted are prefixes of what another run wrote and noted.
fn is_prefix(port: &MemoryPort, whole: &MemoryPort) -> bool {
    whole.written().get(..port.written().len()) == Some(port.written())
        && whole.noted().get(..port.noted().len()) == Some(port.noted())
}

// How many bytes went out by calls of a kind.
fn count(port: &MemoryPort, kind: CallKind) -> usize {
    match kind {
        CallKind::Note => port.noted().len(),
        _ => port.written().len(),
    }
}

// Lets one write, or one note, of a command fail, after each count of its first 64 bytes and then after each 61st. Each
// run ends with a write fault, and what went out is what went out before that call and these bytes of it. Answers
// whether there is such a call.
fn fails_at_each_byte(
    alloc: Global,
    case: &Case<'_>,
    kind: CallKind,
    number: u64,
    whole: &MemoryPort,
) -> Result<bool, Fail> {
    let mut before = 0;
    for step in 0..1_000_u32 {
        let through = if step < 64 { step } else { step * 61 - 3_840 };
        let fail = FailAt {
            kind,
            number,
            through,
        };
        let failing = Failing {
            port: &[fail],
            files: &[],
        };
        let (status, port) = ended(alloc, case, failing)?;
        if status == Status::Done {
            return Ok(false);
        }
        if status != Status::WriteFault || !is_prefix(&port, whole) {
            return Err(Fail::from("another end"));
        }
        let length = count(&port, kind);
        if through == 0 {
            before = length;
        }
        let got = length.saturating_sub(before);
        if got < through as usize {
            // The call has no more bytes.
            return Ok(true);
        }
        if got > through as usize {
            return Err(Fail::from("more bytes"));
        }
    }
    Err(Fail::from("bytes without end"))
}

// Lets each write, or each note, of a command fail in turn. Answers how many there were.
fn fails_at_each_call(alloc: Global, case: &Case<'_>, kind: CallKind) -> Result<u64, Fail> {
    let whole = whole(alloc, case)?;
    for number in 0..100_u64 {
        if !fails_at_each_byte(alloc, case, kind, number, &whole)? {
            return Ok(number);
        }
    }
    Err(Fail::from("calls without end"))
}

// Lets each read of the port, or of a file, by a command fail in turn. Each run ends with a read fault, and what went
// out is a prefix. Answers how many there were.
fn fails_at_each_read(alloc: Global, case: &Case<'_>, is_file: bool) -> Result<u64, Fail> {
    let whole = whole(alloc, case)?;
    for number in 0..100_u64 {
        let fail = FailAt {
            kind: CallKind::Read,
            number,
            through: 0,
        };
        let (status, port) = if is_file {
            let failing = Failing {
                port: &[],
                files: &[number],
            };
            ended(alloc, case, failing)?
        } else {
            let failing = Failing {
                port: &[fail],
                files: &[],
            };
            ended(alloc, case, failing)?
        };
        if status == Status::Done {
            return Ok(number);
        }
        if status != Status::ReadFault || !is_prefix(&port, &whole) {
            return Err(Fail::from("another end"));
        }
    }
    Err(Fail::from("reads without end"))
}

// How many calls a command makes: writes, notes, reads of the port and reads of files. Each of them fails in turn.
fn calls_over(alloc: Global, case: &Case<'_>) -> Result<[u64; 4], Fail> {
    Ok([
        fails_at_each_call(alloc, case, CallKind::Write)?,
        fails_at_each_call(alloc, case, CallKind::Note)?,
        fails_at_each_read(alloc, case, false)?,
        fails_at_each_read(alloc, case, true)?,
    ])
}

// The same of a command over the stream of a plan.
fn calls(alloc: Global, texts: &[&str], plan: (&str, &str)) -> Result<[u64; 4], Fail> {
    let stream = sent(alloc, plan)?;
    let case = Case {
        texts,
        plan,
        stream: &stream,
    };
    calls_over(alloc, &case)
}

// The same of a command over the packets of two streams, one after the other.
fn calls_over_both(
    alloc: Global,
    texts: &[&str],
    first: &[u8],
    second: &[u8],
) -> Result<[u64; 4], Fail> {
    let mut both = Vec::from_slice(alloc, first)?;
    both.extend_from_slice(second)?;
    let case = Case {
        texts,
        plan: ("", ""),
        stream: &both,
    };
    calls_over(alloc, &case)
}

#[test]
fn each_call_of_mux_and_pace_fails(rt: HostRuntime) -> Result<(), Fail> {
    // One write for each packet. The plan is read by two calls, its file is looked at once, and each part is read.
    for (plan, packets) in PLANS.iter().zip([6, 7]) {
        for words in [MUX, PACE] {
            let [writes, notes, reads, files] = calls(rt.alloc(), words, *plan)?;
            assert_eq!(rt; [writes, notes, reads, files], [packets, 0, 0, 7]);
        }
    }
    Ok(())
}

#[test]
fn each_call_of_take_fails(rt: HostRuntime) -> Result<(), Fail> {
    // A record of three parts of a unit, and one of a whole unit, each after its header; and the last note.
    for plan in PLANS {
        assert_eq!(rt; calls(rt.alloc(), TAKE, plan)?, [6, 1, 2, 0]);
    }
    Ok(())
}

#[test]
fn each_call_of_list_and_peak_fails(rt: HostRuntime) -> Result<(), Fail> {
    for plan in PLANS {
        assert_eq!(rt; calls(rt.alloc(), LIST, plan)?, [1, 0, 2, 0]);
        assert_eq!(rt; calls(rt.alloc(), PEAK, plan)?, [1, 0, 2, 0]);
    }
    Ok(())
}

#[test]
fn each_call_of_trial_and_make_fails(rt: HostRuntime) -> Result<(), Fail> {
    // `trial` also reads its list, by two calls, and so reads more files than `mux`.
    for plan in PLANS {
        assert_eq!(rt; calls(rt.alloc(), TRIAL, plan)?, [1, 0, 0, 9]);
    }
    assert_eq!(rt; calls(rt.alloc(), MAKE, ("", ""))?, [1, 0, 0, 0]);
    Ok(())
}

#[test]
fn each_call_of_expand_and_squeeze_fails(rt: HostRuntime) -> Result<(), Fail> {
    // One packet of each stream is left out and noted: one without its header before it, and a compressed one.
    let alloc = rt.alloc();
    let worked = stream(alloc)?;
    let no_header = packet(alloc, 1)?;
    assert_eq!(rt;
        calls_over_both(alloc, EXPAND, &no_header, &worked)?,
        [1, 1, 2, 0]
    );
    let compressed = packet(alloc, 0)?;
    assert_eq!(rt;
        calls_over_both(alloc, SQUEEZE, &plain(alloc)?, &compressed)?,
        [1, 1, 2, 0]
    );
    Ok(())
}
