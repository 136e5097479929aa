//! How many packets a programme has.

ghost use Rattle.std.specs.Prelude.{◌≡◌, ◌≤◌, ◌<◌, ◌^◌, length, None};
ghost use Rattle.std.specs.List.{sum_by};
ghost use Rattle.mmt_cast.specs.Casting.{planned};
ghost use Rattle.mmt_cast.specs.Placing.{map_from};
ghost use Rattle.mmt_cast.specs.Refusing.{refusal_of_signal, refusal_of_signals};
ghost use Rattle.mmt_cast.specs.Right.{unit_at};
ghost use Rattle.mmt_cast.specs.Sending.{packet_count, sending_of_signal};
ghost use Rattle.mmt_casting.specs.Ends.{SignalFits};
ghost use Rattle.mmt_casting.specs.Places.{IsGroup, IsSpot, sending_at, sendings_from};
ghost use Rattle.mmt_model.specs.Right.{IsRight};

use crate::groups::Group;
use crate::places::{Spot, after, mpu_of};
use crate::tables::message_length;
use crate::walking::group_at;
use mmt_frag::parts;
use mmt_model::{Programme, Signal, Unit};

/// The unit of a spot.
pub(crate) fn unit_of(programme: &Programme, spot: Spot) -> &Unit
    requires spot { IsSpot programme.now spot }
    requires inside { spot.asset < length programme.now.assets }
    ensures { result.now ≡ (unit_at programme.now spot.unit_place).value }
{
    &mpu_of(programme, spot).units.as_slice()[spot.unit as usize]
}

/// How many packets a group has.
pub(crate) fn group_packets(programme: &Programme, spot: Spot, group: Group) -> u32
    requires right { IsRight programme.now }
    requires spot { IsSpot programme.now spot }
    requires inside { spot.asset < length programme.now.assets }
    requires group { IsGroup programme.now spot group }
    ensures count { result ≡ packet_count programme.now (sending_at programme.now spot.unit_place) }
    ensures few { result ≤ 16777216 }
{
    if 1 < group.size {
        1
    } else {
        parts(unit_of(programme, spot).length, programme.limit)
    }
}

/// How many packets a signalling message has.
pub(crate) fn message_packets(programme: &Programme, s: u32, signal: &Signal) -> u32
    requires right { IsRight programme.now }
    requires names { SignalFits programme.now signal.now }
    requires short { refusal_of_signal programme.now s signal.now ≡ None }
    ensures count { result ≡ packet_count programme.now (sending_of_signal programme.now s signal.now) }
    ensures few { result ≤ 65547 }
{
    match signal {
        Signal::Parameters { .. } => 1,
        Signal::Table { names, .. } => {
            let bytes = message_length(programme, names.as_slice());
            parts(bytes as u32, programme.limit)
        }
    }
}

/// How many packets the signalling messages have.
fn signalling_packets(programme: &Programme) -> u64
    requires right { IsRight programme.now }
    requires short { refusal_of_signals programme.now 0 programme.now.signals ≡ None }
    ensures count { result ≡ sum_by (packet_count programme.now) (map_from (sending_of_signal programme.now) 0 programme.now.signals) }
    ensures few { result < 2 ^ 49 }
{
    let signals = programme.signals.as_slice();
    let mut count = 0u64;
    for s in 0..signals.len() {
        count += message_packets(programme, s as u32, &signals[s]) as u64;
    }
    count
}

/// How many packets the units have.
fn media_packets(programme: &Programme) -> u64
    requires { IsRight programme.now }
    ensures count { result ≡ sum_by (packet_count programme.now) (sendings_from programme.now 0) }
    ensures few { result < 2 ^ 57 }
{
    let assets = programme.assets.len();
    let mut count = 0u64;
    let mut spot = Spot::first();
    while (spot.asset as usize) < assets {
        let group = group_at(programme, spot);
        count += group_packets(programme, spot, group) as u64;
        spot = after(programme, spot, group.size);
    }
    count
}

/// How many packets a programme has of which no table is too long.
pub(crate) fn packets_of(programme: &Programme) -> u64
    requires right { IsRight programme.now }
    requires short { refusal_of_signals programme.now 0 programme.now.signals ≡ None }
    ensures { result ≡ length (planned programme.now) }
{
    signalling_packets(programme) + media_packets(programme)
}
