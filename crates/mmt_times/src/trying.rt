//! Trying the extended entries for an MPU in order.

ghost use Rattle.std.specs.Prelude.{◌≡◌, ◌≤◌, [], ◌∷◌, length, MatchOption, Some, None};
ghost use Rattle.mmt_times.specs.NamesOf.{for_mpu, times_by};
ghost use Rattle.mmt_times.specs.TimesLeft.{times_left};
ghost use Rattle.mmt_times.specs.CandidateView.{view_candidate};
ghost use Rattle.mmt_times.specs.NamesLeft.{candidates_left};
ghost use Rattle.mmt_times.specs.NamedView.{view_named};
ghost use Rattle.mmt_times.specs.TryingLeft.{trying_left, or_nothing};

use crate::candidate::Candidate;
use crate::entry::Entry;
use crate::first_time::count_times;
use crate::named::Named;
use crate::pair::Pair;
use crate::parts_left::Candidates;
use crate::times::Times;
use crate::times_why::TimesWhy;
use mmt_base::Ntp;

/// A pair at a packet id, and the extended entries of its asset that are left to be tried.
#[derive(Clone, Copy, Debug)]
pub(crate) struct Trying<'a> {
    pub packet_id: u16,
    pub pair: Pair,
    pub candidates: Candidates<'a>,
}

/// The first of the entries for an MPU number, and the entries after it.
fn first_for<'a>(mpu: u32, candidates: &Candidates<'a>) -> Option<(Candidate<'a>, Candidates<'a>)>
    ensures { MatchOption result (for_mpu mpu (candidates_left candidates.now) ≡ [])
        (λ x. for_mpu mpu (candidates_left candidates.now) ≡ view_candidate x.0 ∷ for_mpu mpu (candidates_left x.1)) }
{
    let mut rest = *candidates;
    loop {
        let candidate = rest.next()?;
        if candidate.mpu.mpu == mpu {
            return Some((candidate, rest));
        }
    }
}

/// No access unit times at a presentation time.
fn no_times<'a>(time: Ntp) -> Times<'a>
    ensures none { times_left result ≡ [] }
    ensures time { result.time ≡ time }
{
    Times {
        time,
        offset: 0,
        timescale: 1,
        default: 0,
        each: false,
        before: 0,
        left: 0,
        rest: &[],
    }
}

/// The access unit times by an entry, and how many they are, where all are in range.
fn times_of<'a>(time: Ntp, candidate: Candidate<'a>) -> Option<(Times<'a>, u8)>
    ensures { MatchOption result (times_by time.0 (view_candidate candidate.entry) ≡ None)
        (λ x. (times_by time.0 (view_candidate candidate.entry) ≡ Some (times_left x.0)) × (x.0.time ≡ time) × (x.1 ≡ length (times_left x.0))) }
{
    let mpu = candidate.mpu;
    let times = Times {
        time,
        offset: mpu.offset,
        timescale: candidate.timescale,
        default: candidate.default,
        each: candidate.each,
        before: 0,
        left: mpu.count,
        rest: mpu.aus,
    };
    let count = count_times(&times)?;
    Some((times, count))
}

/// The first name that the trying gives, and the trying after it: none after an entry.
pub(crate) fn first_try<'a>(trying: &Trying<'a>) -> (Named<'a>, Option<Trying<'a>>)
    ensures { trying_left trying.now ≡ view_named result.0 ∷ or_nothing result.1 }
{
    let packet_id = trying.packet_id;
    let Pair { mpu, time } = trying.pair;
    let Some((candidate, candidates)) = first_for(mpu, &trying.candidates) else {
        let entry = Entry {
            packet_id,
            mpu,
            count: 0,
            times: no_times(time),
        };
        return (Named::Entry(entry), None);
    };
    match times_of(time, candidate) {
        Some((times, count)) => {
            let entry = Entry {
                packet_id,
                mpu,
                count,
                times,
            };
            (Named::Entry(entry), None)
        }
        None => {
            let refused = Named::Refused {
                at: candidate.at,
                why: TimesWhy::Range,
            };
            let left = Trying {
                packet_id,
                pair: trying.pair,
                candidates,
            };
            (refused, Some(left))
        }
    }
}
