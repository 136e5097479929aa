//! The words of `take`: its options alone and together, their defaults and ranges, and the first wrong word.

use crate::tests::words;
use crate::{Command, TakeOptions, command_of};
use mmt_model::{Flow, FlowChoice};
use std::test::Fail;

const DEFAULTS: TakeOptions = TakeOptions {
    bound: 67_108_864,
    flow: FlowChoice::Any,
    sample_base: 1,
    timescale: 90_000,
    assumed: None,
};

const ONE: FlowChoice = FlowChoice::One(Flow {
    address: 0xff0e_0000_0000_0000_0000_0000_0000_0101,
    port: 51300,
});

const ALL: TakeOptions = TakeOptions {
    bound: 35,
    flow: ONE,
    sample_base: 0,
    timescale: 180_000,
    assumed: Some((1000, 300)),
};

// Words with a blank between two, and what they ask for.
const ASKED: [(&str, TakeOptions); 17] = [
    ("take", DEFAULTS),
    (
        "take --bound 1",
        TakeOptions {
            bound: 1,
            ..DEFAULTS
        },
    ),
    (
        "take --bound 1073741824",
        TakeOptions {
            bound: 1_073_741_824,
            ..DEFAULTS
        },
    ),
    ("take --bound 67108864", DEFAULTS),
    (
        "take --flow ff0e0000000000000000000000000101:51300",
        TakeOptions {
            flow: ONE,
            ..DEFAULTS
        },
    ),
    (
        "take --flow 00000000000000000000000000000000:1",
        TakeOptions {
            flow: FlowChoice::One(Flow {
                address: 0,
                port: 1,
            }),
            ..DEFAULTS
        },
    ),
    (
        "take --flow ffffffffffffffffffffffffffffffff:65535",
        TakeOptions {
            flow: FlowChoice::One(Flow {
                address: u128::MAX,
                port: 65535,
            }),
            ..DEFAULTS
        },
    ),
    (
        "take --sample-base 0",
        TakeOptions {
            sample_base: 0,
            ..DEFAULTS
        },
    ),
    ("take --sample-base 1", DEFAULTS),
    (
        "take --timescale 1",
        TakeOptions {
            timescale: 1,
            ..DEFAULTS
        },
    ),
    (
        "take --timescale 4294967295",
        TakeOptions {
            timescale: 4_294_967_295,
            ..DEFAULTS
        },
    ),
    ("take --timescale 90000", DEFAULTS),
    (
        "take --assume 2:1",
        TakeOptions {
            assumed: Some((2, 1)),
            ..DEFAULTS
        },
    ),
    (
        "take --assume 16777216:16777215",
        TakeOptions {
            assumed: Some((16_777_216, 16_777_215)),
            ..DEFAULTS
        },
    ),
    (
        "take --bound 35 --flow ff0e0000000000000000000000000101:51300 --sample-base 0 --timescale 180000 --assume 1000:300",
        ALL,
    ),
    (
        "take --assume 1000:300 --timescale 180000 --flow ff0e0000000000000000000000000101:51300 --bound 35 --sample-base 0",
        ALL,
    ),
    (
        "take --sample-base 1 --bound 35",
        TakeOptions {
            bound: 35,
            ..DEFAULTS
        },
    ),
];

#[test]
fn takes_options_in_any_order(rt: HostRuntime) -> Result<(), Fail> {
    for (text, options) in ASKED {
        let words = words(rt.alloc(), text)?;
        assert_eq!(rt; command_of(&words), Ok(Command::Take(options)), "of {text}");
    }
    Ok(())
}

// Words with a blank between two, and the place of the first wrong one.
const WRONG: [(&str, u32); 56] = [
    ("Take", 0),
    ("taken", 0),
    ("take extra", 1),
    ("take ", 1),
    ("take take", 1),
    ("take 5", 1),
    ("take --Bound 5", 1),
    ("take --bound=5", 1),
    ("take --delay 5", 1),
    ("take --bound", 2),
    ("take --bound x", 2),
    ("take --bound 0", 2),
    ("take --bound 01", 2),
    ("take --bound +1", 2),
    ("take --bound -1", 2),
    ("take --bound 1073741825", 2),
    ("take --bound 4294967297", 2),
    ("take --bound --bound", 2),
    ("take --bound 0 --bound 0", 2),
    ("take --bound 5 --bound", 3),
    ("take --bound 5 --bound 6", 3),
    ("take --bound 5 5", 3),
    ("take --flow", 2),
    ("take --flow any", 2),
    ("take --flow ff0e0000000000000000000000000101", 2),
    ("take --flow ff0e0000000000000000000000000101:123", 2),
    ("take --flow FF0e0000000000000000000000000101:1", 2),
    (
        "take --flow ff0e0000000000000000000000000101:1 --flow ff0e0000000000000000000000000101:1",
        3,
    ),
    ("take --sample-base", 2),
    ("take --sample-base 2", 2),
    ("take --sample-base 00", 2),
    ("take --sample-base 0 --sample-base 1", 3),
    ("take --timescale", 2),
    ("take --timescale 0", 2),
    ("take --timescale 4294967296", 2),
    ("take --timescale 1 --timescale 1", 3),
    ("take --assume", 2),
    ("take --assume 5", 2),
    ("take --assume :5", 2),
    ("take --assume 6:", 2),
    ("take --assume 6:0", 2),
    ("take --assume 5:5", 2),
    ("take --assume 5:6", 2),
    ("take --assume 06:5", 2),
    ("take --assume 6:05", 2),
    ("take --assume 6:5:4", 2),
    ("take --assume 16777217:1", 2),
    ("take --assume 16777217:16777216", 2),
    ("take --assume 6:5 --assume 6:5", 3),
    ("take --bound 5 --sample-base 2", 4),
    ("take --bound 5 --sample-base 0 --bound 5", 5),
    ("take --bound 5 --sample-base 0 --timescale", 6),
    ("take --bound 5 --sample-base 0 --timescale 1 x", 7),
    (
        "take --bound 5 --sample-base 0 --timescale 1 --assume 1:1",
        8,
    ),
    (
        "take --bound 5 --sample-base 0 --timescale 1 --assume 2:1 --flow x",
        10,
    ),
    (
        "take --bound 5 --sample-base 0 --timescale 1 --assume 2:1 --flow ff0e0000000000000000000000000101:1 --bound 5",
        11,
    ),
];

#[test]
fn refuses_wrong_words_of_take(rt: HostRuntime) -> Result<(), Fail> {
    for (text, index) in WRONG {
        let words = words(rt.alloc(), text)?;
        assert_eq!(rt; command_of(&words), Err(index), "of {text}");
    }
    Ok(())
}
