//! The kept packets that came in the order of their timestamps, in a row.

ghost use Rattle.std.specs.Prelude.{◌<◌, ◌^◌, ◌↔◌, IsTrue};
ghost use Rattle.mmt_pool.specs.Queue.{IsRow, IsShort, EndsBy, StandsFrom, FindsPlaceBetween, FindsPlaceOut};

use crate::queue::Queued;
use mmt_base::Tick;
use std::collections::VecDeque;

/// Whether no packet of the row has a timestamp that is, as a number, greater than this one.
pub(crate) fn ends_by(row: &VecDeque<Queued>, time: u32) -> bool
    requires { IsRow row.now.items }
    ensures { IsTrue result ↔ EndsBy row.now.items time }
{
    match row.back() {
        Some(last) => last.time <= time,
        None => true,
    }
}

// The place in the row from which on the timestamps are, as numbers, at least `first`.
fn place_from(row: &VecDeque<Queued>, first: u32) -> usize
    requires { IsRow row.now.items }
    ensures { StandsFrom row.now.items first result }
{
    row.partition_point(|queued| queued.time < first)
}

// The place of some packet of the row whose timestamp is, as a number, from `first` to `last`.
fn place_between(row: &VecDeque<Queued>, first: u32, last: u32) -> Option<usize>
    requires { IsRow row.now.items }
    ensures { FindsPlaceBetween row.now.items first last result }
{
    let place = place_from(row, first);
    let queued = row.get(place)?;
    if queued.time <= last {
        Some(place)
    } else {
        None
    }
}

/// The place of some packet of the row whose timestamp plus the window is not after the clock. Such
/// timestamps are that of the clock minus the window and the 2^31 ticks before it, modulo 2^32.
///
/// Mostly the first packet tells: it is such a packet, or there is none.
pub(crate) fn place_out(row: &VecDeque<Queued>, clock: Tick, window: u32) -> Option<usize>
    requires clock { clock.0 < 2 ^ 32 }
    requires row { IsRow row.now.items }
    requires short { IsShort row.now.items }
    ensures { FindsPlaceOut row.now.items clock.0 window result }
{
    let least = row.front()?;
    if !Tick(least.time).plus(window).is_after(clock) {
        return Some(0);
    }
    let last = clock.ahead_of(Tick(window));
    let first = Tick(last).plus(1 << 31).0;
    if first <= last {
        if last < least.time {
            return None;
        }
        return place_between(row, first, last);
    }
    let greatest = row.back()?;
    if first <= greatest.time {
        Some(row.len() - 1)
    } else {
        None
    }
}
