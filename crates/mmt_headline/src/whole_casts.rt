//! What `take` gives back of the whole stream of a programme: all its units.

ghost use Rattle.mmt_headline.specs.WholeCasts.{TakeGivesAllBack, UnitsArePresented, WholeCastsAreExpected};

use crate::take_runs::take_gives_back;

/// Each unit of a programme is presented with the numbers and the time of the plan, and with the bytes of
/// its asset's file.
pub fn units_are_presented()
    ensures { UnitsArePresented }
{}

/// The whole cast in its order is a near delivery, of which all units are expected.
pub fn whole_casts_are_expected()
    ensures { WholeCastsAreExpected }
{}

/// `take` over the stream of a programme, each packet once and in its order, writes the records of all
/// its units, in the order in which they are handed out.
pub fn take_gives_all_back()
    ensures { TakeGivesAllBack }
{
    take_gives_back();
    whole_casts_are_expected();
}
