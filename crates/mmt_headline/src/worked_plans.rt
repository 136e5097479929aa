//! The worked plans: they meet the premises, and what a receiver gives back of ten deliveries of them.

ghost use Rattle.mmt_cast.specs.PlanOne.{EachWorked};
ghost use Rattle.mmt_headline.specs.WorkedDeliveries.{AreRead, IsDelivered};
ghost use Rattle.mmt_headline.specs.WorkedPlans.{MeetsPremises};

use crate::programmes_received::programmes_are_received;

/// The premises can be met: each worked plan can be sent, its cast goes with what is sent of it, a receiver
/// with the usual options is one of it, and every delivery of it is near.
pub fn worked_plans_meet_the_premises()
    ensures { EachWorked MeetsPremises }
{}

/// In each table that is sent of the worked plans a receiver reads the entry of their MPU.
pub fn worked_tables_are_read()
    ensures { AreRead }
{}

/// Deliveries of the worked plans, in order, with a lost part, repeated, reordered, with a late part, with
/// the first table lost, without a table, and at the limits of what is in time, kept and due: what a
/// receiver hands out of the bytes of each, by its definitions, and what is expected of it, are these units.
pub fn worked_deliveries_agree()
    ensures { IsDelivered }
{
    programmes_are_received();
}
