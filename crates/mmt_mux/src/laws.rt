//! When a run of `pace` is done.

ghost use Rattle.mmt_mux.specs.Pacing.{PaceIsComplete};

use mmt_pace::paced_casts_are_one;

/// Where the plan, the cast and the files are not refused, there is a schedule, and the paced cast is admitted, a run of
/// `pace` is done, unless a call failed or memory ran out.
pub fn pace_is_complete()
    ensures { PaceIsComplete }
{
    paced_casts_are_one();
}
