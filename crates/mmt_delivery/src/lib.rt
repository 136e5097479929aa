//! The delivery theorem: what a receiver hands out of a near delivery of an admitted cast are exactly
//! the expected units, each once, in their order. Its laws are the contracts of functions that do
//! nothing.
#![tactic(auto)]

ghost use Rattle.mmt_delivery.specs.Laws.{Delivers, OutcomesAre, HoldsAlways, PeakFits, ShortIsNear};
ghost use Rattle.mmt_delivery.specs.Tables.{MessagesAreSent, NamesAreLearned};

/// Of a cast without a fault, with the contents of a right programme, and of any near delivery of it:
/// what a receiver with the cast's window and delay and with at least its bound hands out, up to the
/// end, are the expected units with their times, each once, in the order of handing out.
pub fn delivery_theorem()
    ensures { Delivers }
{}

/// At each moment of such a delivery, each once: the kept packets are exactly those that survived and
/// are in the window; their units are exactly the cast's units all of whose packets are kept; the live
/// entries are exactly those of the MPUs that a whole table copy named and whose last due tick is
/// after the clock; and the kept bytes are no more than the cast's load at the clock, and so than its
/// bound.
pub fn laws_at_each_moment()
    ensures { HoldsAlways }
{}

/// Of such a delivery only late packets and repeats are not stored, so that the buffer is never full.
pub fn only_late_and_repeats()
    ensures { OutcomesAre }
{}

/// The peak of such a delivery, the greatest sum of kept bytes, is no more than the cast's bound.
pub fn peak_is_within_the_bound()
    ensures { PeakFits }
{}

/// Where all timestamps of a cast lie less than 2,113,929,216 ticks (8 hours, 57 minutes and 36
/// seconds) above the first, every delivery of it is near.
pub fn close_timestamps_are_near()
    ensures { ShortIsNear }
{}

/// Each name in the messages of a stored packet of such a delivery is among the live entries, and no other
/// entry of its MPU is there. So none is left out, and none differs.
pub fn names_are_learned()
    ensures { NamesAreLearned }
{}

/// Each message in parts that is whole in the kept packets of such a delivery is a table of the cast.
pub fn messages_are_sent()
    ensures { MessagesAreSent }
{}
