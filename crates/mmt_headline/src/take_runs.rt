//! What `take` writes of a delivery of the cast of a programme: the records of the expected units.

ghost use Rattle.mmt_headline.specs.GivesBack.{TakeGivesBack};
ghost use Rattle.mmt_headline.specs.Taken.{TakesDelivery, TakesAStart};

use crate::programmes_received::{programmes_are_received, receivers_have_room, streams_are_quiet};

/// A run of `take` over the bytes of a near delivery that is done put out exactly the records of the
/// expected units, the notes of the packets and the last line.
pub fn takes_delivery()
    ensures { TakesDelivery }
{
    programmes_are_received();
}

/// A run that ends in any way put out a prefix of these.
pub fn takes_a_start()
    ensures { TakesAStart }
{
    programmes_are_received();
}

/// `take` over the bytes of a near delivery gives back the programme: done, it wrote exactly the records of
/// the expected units and noted quietly; ended in any way, it wrote and noted a prefix of these; and it is
/// done where no call failed, unless memory ran out.
pub fn take_gives_back()
    ensures { TakeGivesBack }
{
    takes_delivery();
    takes_a_start();
    programmes_are_received();
    receivers_have_room();
    streams_are_quiet();
}
