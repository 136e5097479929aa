//! The words of `mux`, `trial`, `make`, `pace` and the gateway.

use crate::tests::words;
use crate::{Command, command_of};
use std::test::Fail;

#[test]
fn tells_the_commands_that_read_a_plan(rt: HostRuntime) -> Result<(), Fail> {
    let alloc = rt.alloc();
    let mux = words(alloc, "mux plan.json")?;
    assert_eq!(rt; command_of(&mux), Ok(Command::Mux));
    let trial = words(alloc, "trial plan.json list")?;
    assert_eq!(rt; command_of(&trial), Ok(Command::Trial));
    Ok(())
}

#[test]
fn tells_the_command_with_a_number_alone(rt: HostRuntime) -> Result<(), Fail> {
    let alloc = rt.alloc();
    let first = words(alloc, "make 0")?;
    assert_eq!(rt; command_of(&first), Ok(Command::Make { seed: 0 }));
    let last = words(alloc, "make 65535")?;
    assert_eq!(rt; command_of(&last), Ok(Command::Make { seed: 65_535 }));
    Ok(())
}

#[test]
fn tells_the_commands_with_options_in_a_fixed_order(rt: HostRuntime) -> Result<(), Fail> {
    let alloc = rt.alloc();
    let expand = words(alloc, "expand")?;
    assert_eq!(rt; command_of(&expand), Ok(Command::Expand));
    for (text, context, full_every) in [
        ("squeeze --context 0 --full-every 1", 0u16, 1u32),
        ("squeeze --context 4095 --full-every 65535", 4095, 65_535),
    ] {
        let squeeze = words(alloc, text)?;
        let wanted = Command::Squeeze {
            context,
            full_every,
        };
        assert_eq!(rt; command_of(&squeeze), Ok(wanted), "of {text}");
    }
    for (text, step) in [
        ("pace plan.json --step 1", 1u32),
        ("pace --step --step 16777215", 16_777_215),
    ] {
        let pace = words(alloc, text)?;
        assert_eq!(rt; command_of(&pace), Ok(Command::Pace { step }), "of {text}");
    }
    Ok(())
}

// Words with blanks between them, and the place of the first wrong one.
const WRONG: [(&str, u32); 40] = [
    ("muxes plan.json", 0),
    ("mux", 1),
    ("mux plan.json more", 2),
    ("trials plan.json list", 0),
    ("trial", 1),
    ("trial plan.json", 2),
    ("trial plan.json list more", 3),
    ("trial plan.json list more words", 3),
    ("make", 1),
    ("make 65536", 1),
    ("make 07", 1),
    ("make -1", 1),
    ("make 7 more", 2),
    ("makes 7", 0),
    ("expands", 0),
    ("expand more", 1),
    ("squeezed", 0),
    ("squeeze", 1),
    ("squeeze --full-every 1 --context 0", 1),
    ("squeeze --context", 2),
    ("squeeze --context 4096", 2),
    ("squeeze --context 00", 2),
    ("squeeze --context 0", 3),
    ("squeeze --context 0 --context 0", 3),
    ("squeeze --context 0 --full-every", 4),
    ("squeeze --context 0 --full-every 0", 4),
    ("squeeze --context 0 --full-every 65536", 4),
    ("squeeze --context 0 --full-every 1 more", 5),
    ("paces plan.json --step 1", 0),
    ("pace", 1),
    ("pace plan.json", 2),
    ("pace plan.json 1", 2),
    ("pace --step 1", 2),
    ("pace plan.json --step", 3),
    ("pace plan.json --step 0", 3),
    ("pace plan.json --step 01", 3),
    ("pace plan.json --step 16777216", 3),
    ("pace plan.json --step 1 more", 4),
    ("pace plan.json --step 1 --step 1", 4),
    ("pace plan.json --steps 1", 2),
];

#[test]
fn refuses_wrong_words_of_other_commands(rt: HostRuntime) -> Result<(), Fail> {
    let alloc = rt.alloc();
    for (text, index) in WRONG {
        let words = words(alloc, text)?;
        assert_eq!(rt; command_of(&words), Err(index), "of {text}");
    }
    Ok(())
}
