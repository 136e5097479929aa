//! What holds of casts whose packets are sent at other ticks.

ghost use Rattle.mmt_pace.specs.Asked.{CastsCanBePaced};
ghost use Rattle.mmt_pace.specs.Laws.{CastsAreTold, CastsBeginInTime, PacedCastsAreOne, PacedCastsAreReadable};
ghost use Rattle.mmt_pace.specs.Laws.{RecastProgrammesAreDelivered};
ghost use Rattle.mmt_pace.specs.Laws.{RecastProgrammesAreRight, RecastsAreRight};

use mmt_delivery::delivery_theorem;
use mmt_slots::schedules_are_one;

/// A cast that goes with its contents goes with them at any other ticks too, where packet id and number tell its
/// packets apart.
pub fn recasts_are_right()
    ensures { RecastsAreRight }
{}

/// Packet id and number tell the packets of a programme's cast apart.
pub fn casts_are_told()
    ensures { CastsAreTold }
{}

/// The cast of a right programme that has one may be paced.
pub fn casts_can_be_paced()
    ensures { CastsCanBePaced }
{}

/// The cast of a right programme that has one goes with what it is to carry, at any ticks.
pub fn recast_programmes_are_right()
    ensures { RecastProgrammesAreRight }
{}

/// Of a right programme whose cast is admitted at other ticks, as where it is paced, and of any near delivery of that
/// cast: what a receiver with the programme's window and delay and with at least its bound hands out are the expected
/// units.
pub fn recast_programmes_are_delivered()
    ensures { RecastProgrammesAreDelivered }
{
    delivery_theorem();
}

/// Admission may be asked about a paced cast.
pub fn paced_casts_are_readable()
    ensures { PacedCastsAreReadable }
{}

/// The cast of a right programme begins at a tick at which slots may start.
pub fn casts_begin_in_time()
    ensures { CastsBeginInTime }
{}

/// Of a cast there is one cast that is paced with a step.
pub fn paced_casts_are_one()
    ensures { PacedCastsAreOne }
{
    schedules_are_one();
}
