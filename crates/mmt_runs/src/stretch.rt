//! The stretch of time in which units are due.

ghost use Rattle.std.specs.Prelude.{◌≡◌, ◌+◌, ◌*◌, ◌<◌, ◌^◌, IfSome};
ghost use Rattle.mmt_runs.specs.Stretch.{HoldsDue};

use mmt_base::{Ntp, Tick, due_of, long_due_of};

/// The times after the one and before the other.
#[derive(Clone, Copy)]
pub(crate) struct Stretch {
    pub after: u64,
    pub before: u64,
}

// How many units of 2^-32 second so many ticks have.
fn time_at(ticks: u64) -> Option<u64>
    ensures { IfSome result (λ t. t ≡ 65536 * ticks) }
{
    ticks.checked_mul(65_536)
}

// From the tick `first` on, for so many ticks.
fn stretch_from(first: u64, ticks: u64) -> Option<Stretch>
    requires first { first < 2 ^ 50 }
    requires ticks { ticks < 2 ^ 50 }
    ensures { IfSome result (λ s. (s.after ≡ 65536 * first) × (s.before ≡ 65536 * (first + ticks) + 1)) }
{
    let after = time_at(first)?;
    let before = time_at(first + ticks)?.checked_add(1)?;
    Some(Stretch { after, before })
}

/// The stretch of time in which all times lie, of those from one to another, that have a due tick after
/// `from` and at most at `to`, modulo 2^32; `None` where the times or the two ticks are so far apart that
/// there may be more than one such stretch.
pub(crate) fn stretch_of(least: Ntp, greatest: Ntp, from: Tick, to: Tick) -> Option<Stretch>
    ensures { IfSome result (HoldsDue least.0 greatest.0 from.0 to.0) }
{
    let first = long_due_of(least).0;
    let last = long_due_of(greatest).0;
    let ticks = to.ahead_of(from) as u64;
    if ticks >= 1 << 31 {
        return None;
    }
    if last >= first + (1 << 31) {
        return None;
    }
    let ahead = due_of(least).ahead_of(from) as u64;
    if ahead == 0 {
        return stretch_from(first, ticks);
    }
    if ahead > ticks {
        return stretch_from(first + ((1 << 32) - ahead), ticks);
    }
    let found = stretch_from(first, ticks - ahead)?;
    let after = least.0.checked_sub(1)?;
    Some(Stretch {
        after,
        before: found.before,
    })
}
