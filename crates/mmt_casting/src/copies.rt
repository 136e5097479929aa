//! The table copies.

ghost use Rattle.std.specs.Prelude.{◌≡◌, ◌≤◌, ◌^◌, ◌++◌, map, None, OnOk, IfOk};
ghost use Rattle.std.specs.List.{AllByRecursion};
ghost use Rattle.mmt_cast.specs.Casting.{copies_as_sent, place_of_mpu};
ghost use Rattle.mmt_cast.specs.Placing.{all_mpus};
ghost use Rattle.mmt_cast.specs.Readable.{tick_of_signal};
ghost use Rattle.mmt_cast.specs.Refusing.{refusal, refusal_of_signal};
ghost use Rattle.mmt_casting.specs.Ends.{SignalFits};
ghost use Rattle.mmt_casting.specs.Spans.{copies_at, listed, starts as starts_by};
ghost use Rattle.mmt_model.specs.Right.{IsKnown, IsRight};

use crate::counting::message_packets;
use mmt_base::{LongTick, OutOfMemory};
use mmt_model::{List, Programme, Signal, TableCopy};
use std::alloc::Global;

/// A signalling message of a programme, and the number of its first packet.
#[derive(Clone, Copy, Debug)]
struct MessagePlace {
    signal: u32,
    number: u32,
}

/// How many MPUs stand before those of each asset.
fn starts_of(alloc: Global, programme: &Programme) -> Result<Vec<u32>, OutOfMemory>
    requires { IsRight programme.now }
    ensures { IfOk result (λ list. list.items ≡ starts_by programme.now) }
{
    let assets = programme.assets.as_slice();
    let mut starts = Vec::new(alloc);
    let mut sum = 0u32;
    for a in 0..assets.len() {
        starts.push(sum)?;
        sum += assets[a].mpus.len() as u32;
    }
    Ok(starts)
}

/// The place among all MPUs of one that a table names.
fn place_of(programme: &Programme, starts: &[u32], name: (u32, u32)) -> u32
    requires right { IsRight programme.now }
    requires starts { starts.now ≡ starts_by programme.now }
    requires known { IsKnown programme.now.assets name }
    ensures { result ≡ place_of_mpu (all_mpus programme.now) name }
{
    starts[name.0 as usize] + name.1
}

/// The places among all MPUs of those that a table names.
fn places_of(
    alloc: Global,
    programme: &Programme,
    starts: &[u32],
    names: &[(u32, u32)],
) -> Result<List<u32>, OutOfMemory>
    requires right { IsRight programme.now }
    requires starts { starts.now ≡ starts_by programme.now }
    requires known { AllByRecursion (IsKnown programme.now.assets) names.now }
    ensures { IfOk result (λ list. list ≡ map (place_of_mpu (all_mpus programme.now)) names.now) }
{
    let mut places = List::new(alloc);
    for i in 0..names.len() {
        places.push(place_of(programme, starts, names[i]))?;
    }
    Ok(places)
}

/// A signalling message as a table copy, where it is a table.
fn copy_of(
    alloc: Global,
    programme: &Programme,
    starts: &[u32],
    place: MessagePlace,
    signal: &Signal,
) -> Result<Option<TableCopy>, OutOfMemory>
    requires right { IsRight programme.now }
    requires starts { starts.now ≡ starts_by programme.now }
    requires names { SignalFits programme.now signal.now }
    requires short { refusal_of_signal programme.now place.signal signal.now ≡ None }
    requires at { tick_of_signal signal.now ≤ 2 ^ 48 }
    ensures { IfOk result (λ copy. listed copy ≡ copies_at programme.now place.signal place.number signal.now) }
{
    match signal {
        Signal::Parameters { .. } => Ok(None),
        Signal::Table { at, names } => {
            let count = message_packets(programme, place.signal, signal);
            let names = places_of(alloc, programme, starts, names.as_slice())?;
            Ok(Some(TableCopy {
                signal: place.signal,
                names,
                first: *at,
                last: LongTick(at.0 + (count - 1) as u64 * programme.spacing as u64),
                first_number: place.number,
                count,
            }))
        }
    }
}

/// Appends a copy, where it is there.
fn put_copy(copies: &mut Vec<TableCopy>, copy: Option<TableCopy>) -> Result<(), OutOfMemory>
    ensures { OnOk result (copies.new.items ≡ copies.old.items ++ listed copy) }
{
    if let Some(copy) = copy {
        copies.push(copy)?;
    }
    Ok(())
}

/// The table copies of a programme.
pub(crate) fn copies_of(alloc: Global, programme: &Programme) -> Result<Vec<TableCopy>, OutOfMemory>
    requires right { IsRight programme.now }
    requires none { refusal programme.now ≡ None }
    ensures { IfOk result (λ copies. copies.items ≡ copies_as_sent programme.now) }
{
    let starts = starts_of(alloc, programme)?;
    let signals = programme.signals.as_slice();
    let mut copies = Vec::new(alloc);
    let mut number = 0u32;
    for s in 0..signals.len() {
        let signal = &signals[s];
        let place = MessagePlace {
            signal: s as u32,
            number,
        };
        let copy = copy_of(alloc, programme, starts.as_slice(), place, signal)?;
        put_copy(&mut copies, copy)?;
        number += message_packets(programme, s as u32, signal);
    }
    Ok(copies)
}
