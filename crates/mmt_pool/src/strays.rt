//! The kept packets that came out of the order of their timestamps, in a tree.

ghost use Rattle.std.specs.Prelude.{◌<◌, ◌^◌};
ghost use Rattle.mmt_pool.specs.Queue.{IsShort, FindsFrom, FindsLeast, FindsGreatest, FindsOneFrom, FindsBetween, FindsOut};

use crate::queue::Queued;
use crate::types::Span;
use mmt_base::Tick;
use std::collections::BTreeSet;

// The first packet of the tree whose timestamp is, as a number, at least this one.
fn first_from(strays: &BTreeSet<Queued>, time: u32) -> Option<Queued>
    ensures { FindsFrom strays.now.keys time result }
{
    let from = Queued {
        time,
        span: Span {
            packet_id: 0,
            number: 0,
        },
    };
    let queued = strays.range(from..).next()?;
    Some(*queued)
}

// The packet of the least timestamp, as a number.
fn least(strays: &BTreeSet<Queued>) -> Option<Queued>
    ensures { FindsLeast strays.now.keys result }
{
    match strays.first() {
        Some(queued) => Some(*queued),
        None => None,
    }
}

// The packet of the greatest timestamp, as a number.
fn greatest(strays: &BTreeSet<Queued>) -> Option<Queued>
    ensures { FindsGreatest strays.now.keys result }
{
    match strays.last() {
        Some(queued) => Some(*queued),
        None => None,
    }
}

// The packet of the greatest timestamp, where this is, as a number, at least `first`.
fn greatest_from(strays: &BTreeSet<Queued>, first: u32) -> Option<Queued>
    ensures { FindsOneFrom strays.now.keys first result }
{
    let queued = greatest(strays)?;
    if first <= queued.time {
        Some(queued)
    } else {
        None
    }
}

// Some packet of the tree whose timestamp is, as a number, from `first` to `last`.
fn between(strays: &BTreeSet<Queued>, first: u32, last: u32) -> Option<Queued>
    ensures { FindsBetween strays.now.keys first last result }
{
    let queued = first_from(strays, first)?;
    if queued.time <= last {
        Some(queued)
    } else {
        None
    }
}

/// Some packet of the tree whose timestamp plus the window is not after the clock. Such timestamps
/// are that of the clock minus the window and the 2^31 ticks before it, modulo 2^32.
///
/// Mostly the packet of the least timestamp tells: it is such a packet, or there is none.
pub(crate) fn first_out(strays: &BTreeSet<Queued>, clock: Tick, window: u32) -> Option<Queued>
    requires clock { clock.0 < 2 ^ 32 }
    requires short { IsShort strays.now.keys }
    ensures { FindsOut strays.now.keys clock.0 window result }
{
    let queued = match least(strays) {
        Some(queued) => queued,
        None => return None,
    };
    if !Tick(queued.time).plus(window).is_after(clock) {
        return Some(queued);
    }
    let last = clock.ahead_of(Tick(window));
    let first = Tick(last).plus(1 << 31).0;
    if last < first {
        return greatest_from(strays, first);
    }
    if last < queued.time {
        return None;
    }
    between(strays, first, last)
}
