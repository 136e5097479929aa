//! Words that are a command, and the first wrong word of others.

use crate::{Command, command_of};
use mmt_model::{Flow, FlowChoice, Params};
use std::alloc::{AllocError, Global};
use std::test::Fail;

/// The words of a text with one blank between two.
pub fn words(alloc: Global, text: &str) -> Result<Vec<String>, AllocError> {
    let mut words = Vec::new(alloc);
    for word in text.split(' ') {
        words.push(String::from_str(alloc, word)?)?;
    }
    Ok(words)
}

#[test]
fn tells_each_command(rt: HostRuntime) -> Result<(), Fail> {
    let alloc = rt.alloc();
    let list = words(alloc, "list")?;
    assert_eq!(rt; command_of(&list), Ok(Command::List));
    let params = Params {
        bound: 35,
        window: 1000,
        delay: 300,
    };
    let any = words(alloc, "peak --delay 300 --window 1000 --bound 35")?;
    let flow = FlowChoice::Any;
    assert_eq!(rt; command_of(&any), Ok(Command::Peak { flow, params }));
    let one = words(
        alloc,
        "peak --delay 300 --window 1000 --bound 35 --flow ff0e0000000000000000000000000101:51300",
    )?;
    let flow = FlowChoice::One(Flow {
        address: 0xff0e_0000_0000_0000_0000_0000_0000_0101,
        port: 51300,
    });
    assert_eq!(rt; command_of(&one), Ok(Command::Peak { flow, params }));
    Ok(())
}

// Words with blanks between them, and the place of the first wrong one.
const WRONG: [(&str, u32); 37] = [
    ("peaks", 0),
    ("Peak", 0),
    ("peak", 1),
    ("peak --window", 1),
    ("peak --delay", 2),
    ("peak --delay 0", 2),
    ("peak --delay 01", 2),
    ("peak --delay +1", 2),
    ("peak --delay -1", 2),
    ("peak --delay 0x1", 2),
    ("peak --delay 16777216", 2),
    ("peak --delay 4294967297", 2),
    ("peak --delay 5", 3),
    ("peak --delay 5 --bound", 3),
    ("peak --delay 5 --window", 4),
    ("peak --delay 5 --window 5", 4),
    ("peak --delay 5 --window 06", 4),
    ("peak --delay 5 --window 16777217", 4),
    ("peak --delay 5 --window 6", 5),
    ("peak --delay 5 --window 6 --Bound 1", 5),
    ("peak --delay 5 --window 6 --bound", 6),
    ("peak --delay 5 --window 6 --bound 0", 6),
    ("peak --delay 5 --window 6 --bound 1073741825", 6),
    ("peak --delay 5 --window 6 --bound 1,", 6),
    ("peak --delay 5 --window 6 --bound 1 x", 7),
    ("peak --delay 1 --window 2 --bound 1 --bound 1", 7),
    ("peak --delay 5 --window 0 --bound 0", 4),
    ("peak --delay 5 --window 6 --bound 1 x 1", 7),
    ("peak --delay 5 --window 6 --bound 1 --flow", 8),
    (
        "peak --delay 5 --window 6 --bound 1 --flow ff0e0000000000000000000000000101",
        8,
    ),
    (
        "peak --delay 5 --window 6 --bound 1 --flow FF0e0000000000000000000000000101:1",
        8,
    ),
    (
        "peak --delay 5 --window 6 --bound 1 --flow ff0e000000000000000000000000101:1",
        8,
    ),
    (
        "peak --delay 5 --window 6 --bound 1 --flow ff0e0000000000000000000000000101:0",
        8,
    ),
    (
        "peak --delay 5 --window 6 --bound 1 --flow ff0e0000000000000000000000000101:123",
        8,
    ),
    (
        "peak --delay 5 --window 6 --bound 1 --flow ff0e0000000000000000000000000101:65536",
        8,
    ),
    (
        "peak --delay 5 --window 6 --bound 1 --flow ff0e0000000000000000000000000101:00080",
        8,
    ),
    (
        "peak --delay 5 --window 6 --bound 1 --flow ff0e0000000000000000000000000101:1 1",
        9,
    ),
];

#[test]
fn refuses_wrong_words_of_peak(rt: HostRuntime) -> Result<(), Fail> {
    let alloc = rt.alloc();
    for (text, index) in WRONG {
        let words = words(alloc, text)?;
        assert_eq!(rt; command_of(&words), Err(index), "of {text}");
    }
    Ok(())
}

#[test]
fn refuses_other_words(rt: HostRuntime) -> Result<(), Fail> {
    let alloc = rt.alloc();
    assert_eq!(rt; command_of(&[]), Err(0));
    for (text, index) in [
        ("", 0),
        ("lists", 0),
        ("List", 0),
        ("--help", 0),
        ("list list", 1),
        (" list", 0),
    ] {
        let words = words(alloc, text)?;
        assert_eq!(rt; command_of(&words), Err(index), "of {text}");
    }
    Ok(())
}
