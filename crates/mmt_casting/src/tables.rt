//! How long a table is, and the first that is too long.

ghost use Rattle.std.specs.Prelude.{◌≡◌, ◌+◌, ◌*◌, ◌≤◌, ◌<◌, ◌^◌, drop, length, option_map};
ghost use Rattle.std.specs.Int.{div_ceil};
ghost use Rattle.mmt_casting.specs.Ends.{NamesFit, ProgrammeFits, SignalFits, extended_of_mpu, own_count, part_bytes, end_of};
ghost use Rattle.mmt_cast.specs.Tables.{table_length as length_of_table, table_message_length};
ghost use Rattle.mmt_cast.specs.Refusing.{refusal_of_signals, refusal_of_signal};
ghost use Rattle.mmt_model.specs.Right.{IsRight};

use crate::ends::CastEnd;
use mmt_model::{Asset, Mpu, Programme, Signal};

/// How many bytes an MPU's extended timestamp descriptor has.
fn extended_length(mpu: &Mpu) -> u64
    requires { length mpu.now.aus ≤ 60 }
    ensures value { result ≡ extended_of_mpu mpu.now }
    ensures short { result ≤ 256 }
{
    let aus = mpu.aus.len() as u64;
    if 0 < aus { 16 + 4 * aus } else { 0 }
}

/// The bytes of an asset in a table, and where the names of later assets' MPUs begin.
#[derive(Clone, Copy, Debug)]
struct Part {
    length: u64,
    end: usize,
}

/// The bytes of an asset with `named` MPUs named, whose extended descriptors have `extended` bytes.
fn part_of(asset: &Asset, named: u64, extended: u64, end: usize) -> Part
    requires id { length asset.now.id < 2 ^ 8 }
    requires named { named < 2 ^ 32 }
    requires extended { extended < 2 ^ 41 }
    ensures length { result.length ≡ 17 + length asset.now.id + (3 * div_ceil named 21 + 12 * named + extended) }
    ensures end { result.end ≡ end }
{
    Part {
        length: 17 + asset.id.len() as u64 + (3 * named.div_ceil(21) + 12 * named + extended),
        end,
    }
}

/// The bytes of an asset by the names of its MPUs, which begin at a place. It goes over these alone.
fn asset_part(programme: &Programme, listed: &[(u32, u32)], first: usize, a: usize) -> Part
    requires fits { ProgrammeFits programme.now }
    requires names { NamesFit programme.now listed.now }
    requires inside { a < length programme.now.assets }
    requires first { first ≤ length listed.now }
    requires few { own_count a (drop first listed.now) < 2 ^ 32 }
    ensures length { result.length ≡ part_bytes programme.now a (drop first listed.now) }
    ensures short { result.length < 2 ^ 48 }
    ensures end { result.end ≡ first + own_count a (drop first listed.now) }
    ensures within { result.end ≤ length listed.now }
{
    let asset = &programme.assets.as_slice()[a];
    let mut named = 0u64;
    let mut extended = 0u64;
    for i in first..listed.len() {
        let name = listed[i];
        if name.0 as usize != a {
            return part_of(asset, named, extended, i);
        }
        named += 1;
        extended += extended_length(&asset.mpus.as_slice()[name.1 as usize]);
    }
    part_of(asset, named, extended, listed.len())
}

/// How many bytes a table has. It goes once over the assets and the names.
pub(crate) fn table_length(programme: &Programme, listed: &[(u32, u32)]) -> u64
    requires fits { ProgrammeFits programme.now }
    requires names { NamesFit programme.now listed.now }
    ensures value { result ≡ length_of_table programme.now listed.now }
    ensures short { result < 2 ^ 57 }
{
    let mut sum = 0u64;
    let mut first = 0usize;
    for a in 0..programme.assets.len() {
        let part = asset_part(programme, listed, first, a);
        sum += part.length;
        first = part.end;
    }
    9 + programme.package.len() as u64 + sum
}

/// The refusal of a table that is too long.
fn table_end(programme: &Programme, s: u32, signal: &Signal) -> Option<CastEnd>
    requires fits { ProgrammeFits programme.now }
    requires names { SignalFits programme.now signal.now }
    ensures { result ≡ option_map end_of (refusal_of_signal programme.now s signal.now) }
{
    match signal {
        Signal::Parameters { .. } => None,
        Signal::Table { names, .. } => {
            if table_length(programme, names.as_slice()) <= 65535 {
                None
            } else {
                Some(CastEnd::TableLong { signal: s })
            }
        }
    }
}

/// The first refusal of a programme's tables.
pub(crate) fn tables_end(programme: &Programme) -> Option<CastEnd>
    requires { IsRight programme.now }
    ensures { result ≡ option_map end_of (refusal_of_signals programme.now 0 programme.now.signals) }
{
    let signals = programme.signals.as_slice();
    for s in 0..signals.len() {
        let end = table_end(programme, s as u32, &signals[s]);
        if end.is_some() {
            return end;
        }
    }
    None
}

/// How many bytes the message with a table has.
#[tactic(auto, unfolding(mmt_cast::specs::Tables::table_message_length))]
pub(crate) fn message_length(programme: &Programme, listed: &[(u32, u32)]) -> u64
    requires fits { ProgrammeFits programme.now }
    requires names { NamesFit programme.now listed.now }
    ensures value { result ≡ table_message_length programme.now listed.now }
    ensures short { result < 2 ^ 58 }
{
    12 + table_length(programme, listed)
}
