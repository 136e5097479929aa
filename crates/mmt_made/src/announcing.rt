//! The signalling of the programme.

ghost use Rattle.std.specs.Prelude.{◌≡◌, ◌<◌, ◌++◌, IfOk, OnOk};
ghost use Rattle.mmt_made.specs.Generator.{all_signals, names_at, names_of_asset};

use crate::tracks::{BLOCKS, START};
use mmt_base::{LongTick, OutOfMemory};
use mmt_model::{List, Signal};
use std::alloc::Global;

/// Appends the MPUs of an asset that the table of a block names.
fn name_asset(names: &mut List<(u32, u32)>, block: u32, asset: u32) -> Result<(), OutOfMemory>
    requires { block < 120 }
    ensures { OnOk result (names.new ≡ names.old ++ names_of_asset block asset) }
{
    match names.push((asset, block)) {
        Ok(()) => {}
        Err(refused) => return Err(refused),
    }
    if block + 1 == BLOCKS {
        return Ok(());
    }
    names.push((asset, block + 1))
}

/// The MPUs that the table of a block names.
#[tactic(auto, unfolding(crate::specs::Generator::names_at))]
fn names(alloc: Global, block: u32) -> Result<List<(u32, u32)>, OutOfMemory>
    requires { block < 120 }
    ensures { IfOk result (λ names. names ≡ names_at block) }
{
    let mut names = List::new(alloc);
    match name_asset(&mut names, block, 0) {
        Ok(()) => {}
        Err(refused) => return Err(refused),
    }
    match name_asset(&mut names, block, 1) {
        Ok(()) => {}
        Err(refused) => return Err(refused),
    }
    if block + 1 == BLOCKS {
        match names.push((2, 0)) {
            Ok(()) => {}
            Err(refused) => return Err(refused),
        }
    }
    Ok(names)
}

/// All signalling messages, in their order.
pub fn signals(alloc: Global) -> Result<List<Signal>, OutOfMemory>
    ensures { IfOk result (λ list. list ≡ all_signals) }
{
    let mut list = List::new(alloc);
    for block in 0..BLOCKS {
        let at = LongTick(START + 32_768 * block as u64);
        let names = match names(alloc, block) {
            Ok(names) => names,
            Err(refused) => return Err(refused),
        };
        match list.push(Signal::Parameters { at }) {
            Ok(()) => {}
            Err(refused) => return Err(refused),
        }
        match list.push(Signal::Table { at, names }) {
            Ok(()) => {}
            Err(refused) => return Err(refused),
        }
    }
    Ok(list)
}
