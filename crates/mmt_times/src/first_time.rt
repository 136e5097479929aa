//! The first of the times of access units.

ghost use Rattle.std.specs.Prelude.{◌≡◌, ◌+◌, [], ◌∷◌, length, MatchOption, IfSome, Some, None, option_map};
ghost use Rattle.mmt_times.specs.Times.{pts_or as pts_by, all_in_range};
ghost use Rattle.mmt_times.specs.TimesLeft.{view_time, units_left, times_left};

use crate::exact::time_at;
use crate::reading_aus::first_au;
use crate::times::Times;
use mmt_base::Ntp;

/// An access unit's own pts_offset, or else the one that holds without it.
fn pts_or(default: u16, pts: Option<u16>) -> u16
    ensures { result ≡ pts_by default pts }
{
    match pts {
        Some(pts) => pts,
        None => default,
    }
}

/// The time of the first access unit that is left, where it is in range, and the access units after
/// it.
#[tactic(auto, using(crate::proofs::TimesSteps::units_none))]
fn first_unit<'a>(times: &Times<'a>) -> Option<(Option<Ntp>, Times<'a>)>
    ensures first { MatchOption result (units_left times.now ≡ [])
        (λ x. units_left times.now ≡ option_map view_time x.0 ∷ units_left x.1) }
    ensures less { IfSome result (λ x. x.1.left + 1 ≡ times.now.left) }
{
    let (au, rest) = first_au(times.each, times.left, times.rest)?;
    let time = time_at(
        times.time,
        times.offset,
        times.before,
        au.dts_pts,
        times.timescale,
    );
    let after = Times {
        time: times.time,
        offset: times.offset,
        timescale: times.timescale,
        default: times.default,
        each: times.each,
        before: times.before + pts_or(times.default, au.pts) as u32,
        left: times.left - 1,
        rest,
    };
    Some((time, after))
}

/// The first of the times that are left, and those after it.
#[tactic(auto, using(crate::proofs::TimesSteps::range_none))]
pub(crate) fn first_time<'a>(times: &Times<'a>) -> Option<(Ntp, Times<'a>)>
    ensures { MatchOption result (times_left times.now ≡ [])
        (λ x. times_left times.now ≡ view_time x.0 ∷ times_left x.1) }
{
    match first_unit(times) {
        Some((Some(time), after)) => Some((time, after)),
        Some((None, _)) => None,
        None => None,
    }
}

/// How many times are left, where all of them are in range.
pub(crate) fn count_times(times: &Times<'_>) -> Option<u8>
    ensures { MatchOption result (all_in_range (units_left times.now) ≡ None)
        (λ n. (all_in_range (units_left times.now) ≡ Some (times_left times.now)) × (n ≡ length (times_left times.now))) }
{
    let mut rest = *times;
    loop {
        match first_unit(&rest) {
            Some((Some(_), after)) => rest = after,
            Some((None, _)) => return None,
            None => return Some(times.left - rest.left),
        }
    }
}
