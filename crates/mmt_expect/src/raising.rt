//! How far a delivery is when all packets of a unit or of a table have survived.

ghost use Rattle.std.specs.Prelude.{◌≡◌, ◌<◌, ◌≤◌, length, get_or, slice_index, EachIndex, IfOk};
ghost use Rattle.mmt_model.specs.Survival.{no_packet};
ghost use Rattle.mmt_expect.specs.Latest.{AreLatest, IsRaised, IsTaken, signal_in, unit_in};

use mmt_base::OutOfMemory;
use mmt_model::{Carries, Sent};
use std::alloc::Global;

/// For each unit, and for each signalling message, the greatest of the reaches of its packets.
#[derive(Drop)]
pub struct Latest {
    pub units: Vec<u64>,
    pub signals: Vec<u64>,
}

/// Raises the numbers of `count` places from `first` on to at least this one.
fn raise(numbers: &mut [u64], first: u32, count: u32, least: u64)
    ensures raised { IsRaised numbers.old numbers.new first count least }
{
    let from = (first as usize).min(numbers.len());
    let to = (first as usize + count as usize).min(numbers.len());
    for place in from..to {
        numbers[place] = numbers[place].max(least);
    }
}

/// What the packet at a place carries.
fn carries_at(packets: &[Sent], place: usize) -> Carries
    requires { place < length packets.now }
    ensures { result ≡ (get_or packets.now place no_packet).carries }
{
    packets[place].carries
}

/// Raises the numbers of what a packet carries to at least its reach.
fn take_packet(carries: Carries, reach: u64, units: &mut [u64], signals: &mut [u64])
    ensures units { IsTaken unit_in carries reach units.old units.new }
    ensures signals { IsTaken signal_in carries reach signals.old signals.new }
{
    match carries {
        Carries::Whole { unit } => raise(units, unit, 1, reach),
        Carries::Fragment { unit, .. } => raise(units, unit, 1, reach),
        Carries::Group { first, count } => raise(units, first, count, reach),
        Carries::Table { signal } => raise(signals, signal, 1, reach),
        Carries::TablePart { signal, .. } => raise(signals, signal, 1, reach),
        Carries::Parameters { .. } => {}
    }
}

/// Takes all packets, where none was taken before.
fn take_packets(packets: &[Sent], reaches: &[u64], units: &mut [u64], signals: &mut [u64])
    requires reaches { length packets.now ≤ length reaches.now }
    requires no_units { EachIndex units.old (λ u. slice_index units.old u ≡ 0) }
    requires no_signals { EachIndex signals.old (λ u. slice_index signals.old u ≡ 0) }
    ensures units { AreLatest unit_in packets.now reaches.now (length units.old) units.new }
    ensures signals { AreLatest signal_in packets.now reaches.now (length signals.old) signals.new }
{
    for place in 0..packets.len() {
        take_packet(carries_at(packets, place), reaches[place], units, signals);
    }
}

/// For `units` units and `signals` signalling messages the greatest of the reaches of their packets.
pub fn latest_reaches(
    alloc: Global,
    packets: &[Sent],
    reaches: &[u64],
    units: usize,
    signals: usize,
) -> Result<Latest, OutOfMemory>
    requires { length packets.now ≤ length reaches.now }
    ensures units { IfOk result (λ l. AreLatest unit_in packets.now reaches.now units l.units.items) }
    ensures signals { IfOk result (λ l. AreLatest signal_in packets.now reaches.now signals l.signals.items) }
{
    let mut of_units = vec![in alloc; 0u64; units]?;
    let mut of_signals = vec![in alloc; 0u64; signals]?;
    take_packets(packets, reaches, &mut of_units, &mut of_signals);
    Ok(Latest {
        units: of_units,
        signals: of_signals,
    })
}
