//! Each rule broken by one, and just kept.

use crate::samples::{Sample, wrong_row};
use std::test::Fail;

// The rules in their order: a value that breaks each part of one, and one that just keeps it.
const RULES: &str = "\
delay 0 @ not admitted: A1 0 0 1
delay 1 @ admitted
window 1000 @ not admitted: A1 1 1000 1001
window 1001 @ not admitted: A4 0 65568768 65537201
window 16777217 @ not admitted: A1 2 16777217 16777216
window 16777216 @ admitted
bound 0 @ not admitted: A1 3 0 1
bound 1 @ not admitted: A6 0 19 1
bound 1073741825 @ not admitted: A1 4 1073741825 1073741824
bound 1073741824 @ admitted
at 1 65535999 @ not admitted: A2 1 65535999 65536000
at 1 65536000 @ admitted
at 5 1139278044 @ not admitted: A2 5 1139278044 1139278043
at 5 1139278043 @ admitted
number 0 1 @ not admitted: A3 0 1 0
number 1 0 @ not admitted: A3 1 0 1
number 5 2 @ not admitted: A3 5 2 3
number 5 4 @ not admitted: A3 5 4 3
number 5 3 @ admitted
due 0 65537220 @ not admitted: A4 0 65537220 65537219
due 0 65537221 @ admitted
last 1 65569955 @ not admitted: A4 1 65570955 65570954
last 1 65569954 @ admitted
due 0 65601737 @ not admitted: A4 0 65601737 65601736
due 0 65601736 @ admitted
first 1 65505418 @ not admitted: A4 1 65570955 65570954
first 1 65505419 @ admitted
mpu-last 0 65537100 @ not admitted: A5 0 65537100 65537099
mpu-last 0 65537101 @ admitted
mpu-last 0 1139277925 @ not admitted: A5 0 1139277925 1139277924
mpu-last 0 1139277924 @ admitted
copy-first 0 65471564 @ not admitted: A5 0 65537100 65537099
copy-first 0 65471565 @ admitted
copy-last 0 65600636 @ not admitted: A5 0 65601636 65570954
bound 3688 @ not admitted: A6 5 3689 3688
bound 3689 @ admitted
key 1 1 1 0 @ not admitted: A8 1 1 1
key 1 1 1 1 @ admitted
key 1 1 0 9 @ not admitted: A8 1 0 1
key 1 0 5 0 @ not admitted: A8 1 5 1
key 1 2 0 0 @ admitted
item 1 7 @ not admitted: A8 1 7 1
item 0 7 @ admitted
carries-unit 0 @ not admitted: A9 0 6 0
carries-message 0 @ admitted
mpu-unnamed 0 @ not admitted: A10 0 0 1
mpu-from 0 65567768 @ not admitted: A10 0 65568768 65568767
mpu-from 0 65567767 @ admitted
mpu-least 0 65537100 @ not admitted: A10 0 65537100 65537099
mpu-least 0 65537101 @ admitted";

#[test]
fn one_change_breaks_a_rule_or_just_keeps_it(rt: HostRuntime) -> Result<(), Fail> {
    assert_eq!(rt; wrong_row(rt.alloc(), RULES)?.as_str(), "");
    Ok(())
}

// The window that ends with a packet has its end and not its start, and of packets of one tick the first
// has all of them in its window; the keys of another MPU may begin anew; a buffer message further on; an
// allowed value that would be negative is 0.
const TWO: &str = "\
at 5 65601536 && bound 3670 @ admitted
at 5 65601535 && bound 3670 @ not admitted: A6 5 3689 3670
at 5 65536220 && bound 3688 @ not admitted: A6 4 3689 3688
key 1 1 1 0 && of-mpu 1 1 @ admitted
item 0 3 && item 1 3 @ not admitted: A8 1 3 3
item 0 3 && item 1 4 @ admitted
carries-unit 0 && carries-message 3 @ not admitted: A9 0 3 0
due 0 0 && delay 1 @ not admitted: A4 0 65536221 0
mpu-last 0 0 && delay 1 @ not admitted: A5 0 65536101 0
mpu-least 0 0 && delay 1 @ not admitted: A10 0 65536101 0";

#[test]
fn two_changes_break_a_rule_or_just_keep_it(rt: HostRuntime) -> Result<(), Fail> {
    assert_eq!(rt; wrong_row(rt.alloc(), TWO)?.as_str(), "");
    Ok(())
}

// Two faults of one rule: the lowest number, the first comparison, what a copy names before its own
// packets, and what it names from the first on.
const LOWEST: &str = "\
at 4 65536000 && at 2 65536000 @ not admitted: A2 2 65536000 65536100
number 5 9 && number 3 9 @ not admitted: A3 3 9 1
due 1 65537300 && due 0 65537220 @ not admitted: A4 0 65537220 65537219
due 0 65537220 && first 0 65000000 @ not admitted: A4 0 65537220 65537219
copy-first 0 65471564 && mpu-last 0 1139300000 @ not admitted: A5 0 1139300000 1139213388
delay 0 && bound 0 @ not admitted: A1 0 0 1
mpu 65568768 65537099 65536100 && copy-names 0 1 @ not admitted: A5 0 65537100 65537098
mpu 65568768 65537099 65536100 && copy-names 0 1 && mpu-last 0 65537100 @ not admitted: A5 0 65537100 65537099";

#[test]
fn within_a_rule_the_lowest_number_comes_first(rt: HostRuntime) -> Result<(), Fail> {
    assert_eq!(rt; wrong_row(rt.alloc(), LOWEST)?.as_str(), "");
    Ok(())
}

// Each rule broken with the one before it.
const FIRST: &str = "\
at 1 65535999 && delay 0 @ not admitted: A1 0 0 1
number 5 2 && at 1 65535999 @ not admitted: A2 1 65535999 65536000
due 0 65537220 && number 5 2 @ not admitted: A3 5 2 3
mpu-last 0 65537100 && due 1 65537300 @ not admitted: A4 1 65537300 65537299
bound 3688 && mpu-last 0 65537100 @ not admitted: A5 0 65537100 65537099
key 1 1 1 0 && bound 3688 @ not admitted: A6 5 3689 3688
carries-unit 0 && key 1 1 1 0 @ not admitted: A8 1 1 1
mpu-unnamed 0 && carries-unit 0 @ not admitted: A9 0 6 0";

#[test]
fn of_two_broken_rules_the_first_is_told(rt: HostRuntime) -> Result<(), Fail> {
    assert_eq!(rt; wrong_row(rt.alloc(), FIRST)?.as_str(), "");
    Ok(())
}

#[test]
fn nothing_sent_has_no_buffer_message(rt: HostRuntime) -> Result<(), Fail> {
    let told = Sample::empty(rt.alloc()).told(rt.alloc())?;
    assert_eq!(rt; told.as_str(), "not admitted: A9 0 0 0");
    let mut sample = Sample::empty(rt.alloc());
    sample.change(rt.alloc(), "bound 0")?;
    assert_eq!(rt; sample.told(rt.alloc())?.as_str(), "not admitted: A1 3 0 1");
    Ok(())
}

// The worked programme with other values; without its buffer message; with the second unit's packet
// between those of the first; with a second table, in time and too late, and with that one alone.
const WORKED: &str = "\
window 65536 @ admitted
window 32567 @ not admitted: A4 0 65568768 65568767
window 32568 @ not admitted: A4 1 65570955 65568868
bound 3688 @ not admitted: A6 5 3689 3688
without 0 && number 0 0 @ not admitted: A9 0 5 0
move 5 3 && at 3 65536205 @ not admitted: A3 3 3 1
packet 65568800 0 2 82 && copy 65568800 && copy-names 1 0 @ admitted
packet 65569955 0 2 82 && copy 65569955 && copy-names 1 0 @ not admitted: A5 1 65570955 65570954
without 1 && packet 65568800 0 1 82 && copy-first 0 65568800 && copy-last 0 65568800 && mpu-from 0 65568800 @ not admitted: A10 0 65569800 65568767";

#[test]
fn small_programmes_are_refused_as_worked(rt: HostRuntime) -> Result<(), Fail> {
    assert_eq!(rt; wrong_row(rt.alloc(), WORKED)?.as_str(), "");
    Ok(())
}

// A second MPU 18 hours later, with a table, number 2 or 10, and a unit.
const LATER: &str =
    "packet 4360503496 256 4 522 && mpu 4360536064 4360536064 4360503396 && copy 4360503396 && copy-names 1 1";

#[test]
fn a_long_silence_is_refused_and_a_long_programme_is_not(rt: HostRuntime) -> Result<(), Fail> {
    let alloc = rt.alloc();
    let mut silent = Sample::worked(alloc)?;
    silent.change(alloc, "packet 4360503396 0 2 78")?;
    silent.changes(alloc, LATER)?;
    let told = silent.told(alloc)?;
    assert_eq!(rt; told.as_str(), "not admitted: A2 6 4360503396 1139278123");
    let mut sample = Sample::worked(alloc)?;
    for k in 1..9u64 {
        let at = 65_536_000 + k * 536_870_912;
        let message = format!(in alloc; "packet {at} 0 {} 19", k + 1)?;
        sample.change(alloc, message.as_str())?;
    }
    sample.change(alloc, "packet 4360503396 0 10 78")?;
    sample.changes(alloc, LATER)?;
    assert_eq!(rt; sample.packets.len(), 16);
    assert_eq!(rt; sample.told(alloc)?.as_str(), "admitted");
    Ok(())
}
