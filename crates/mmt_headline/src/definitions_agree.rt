//! The definitions of a receiver and those of the delivery theorem say the same: which packet tunes, which
//! packets follow, when the clock begins, and what is handed out.

ghost use Rattle.mmt_headline.specs.Tuning.{StartsAlike, TunesAlike, SessionsAlike};
ghost use Rattle.mmt_headline.specs.Joining.{UnitsAlike, ReadsAlike, DeliveriesAreReceived};

use mmt_delivery::delivery_theorem;

/// The clock of a session begins at the timestamp of its first packet.
pub fn sessions_start_alike()
    ensures { StartsAlike }
{}

/// A packet tunes with the same values by what is read of it and by what its payload spells.
pub fn packets_tune_alike()
    ensures { TunesAlike }
{}

/// The heard packets that a receiver keeps to are those from the first that tunes on.
pub fn sessions_are_alike()
    ensures { SessionsAlike }
{}

/// All that is handed out of a stream is what the theorem's definition gives for its session.
pub fn units_are_alike()
    ensures { UnitsAlike }
{}

/// With sample base 1 a receiver reads as the theorem says.
pub fn readings_are_alike()
    ensures { ReadsAlike }
{}

/// Of a near delivery of an admitted cast that is heard, a receiver of sample base 1 without assumed
/// values hands out exactly the expected units, each once, in their order.
pub fn deliveries_are_received()
    ensures { DeliveriesAreReceived }
{
    delivery_theorem();
}
