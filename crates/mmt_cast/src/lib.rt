//! The cast of a programme: the packets of each signal and unit, cut or gathered, and that the cast of a
//! right programme goes with what it is to carry, so that the delivery theorem holds of it.
#![tactic(auto)]

ghost use Rattle.mmt_cast.specs.Examples.{AreExamples};
ghost use Rattle.mmt_cast.specs.FromRight.{RightProgrammesFit};
ghost use Rattle.mmt_cast.specs.PlanOne.{AreRefusedPlans};
ghost use Rattle.mmt_cast.specs.Readable.{CastsAreReadable};
ghost use Rattle.mmt_cast.specs.Right.{CastIsRight};
ghost use Rattle.mmt_cast.specs.TablesRead.{TablesAreRead, TablesAreSpelled};
ghost use Rattle.mmt_cast.specs.WorkedCasts.{WorkedPlansCompute};
ghost use Rattle.mmt_cast.specs.Headline.{ProgrammesAreDelivered};

use mmt_delivery::delivery_theorem;

/// The casts of the worked plans, with one table, with two, and at the limits of what is in time, kept and
/// due, have their packets, units, MPU and table copies; and the table has its bytes.
pub fn worked_plans_compute()
    ensures { WorkedPlansCompute }
{}

/// Plans like the worked one whose casts are not admitted, each with its first fault.
pub fn refused_plans_compute()
    ensures { AreRefusedPlans }
{}

/// A small plan is cut and gathered as it should be, and the worked plans meet what the theorems ask of a
/// programme.
pub fn examples_compute()
    ensures { AreExamples }
{}

/// A right programme has all that the laws below ask of a programme, in the ranges that they ask for.
pub fn right_programmes_fit()
    ensures { RightProgrammesFit }
{}

/// The cast of a right programme goes with what it is to carry.
pub fn cast_is_right()
    ensures { CastIsRight }
{}

/// The cast of a right programme that has one is one that admission may be asked about.
pub fn casts_are_readable()
    ensures { CastsAreReadable }
{}

/// In a table that is sent a receiver reads exactly the entries of the MPUs that it names.
pub fn tables_are_read()
    ensures { TablesAreRead }
{}

/// A table that is sent has as many bytes as the cast says, and is read back.
pub fn tables_are_spelled()
    ensures { TablesAreSpelled }
{}

/// Of a right programme whose cast is admitted, and of any near delivery of the cast: what a receiver
/// with the programme's window and delay and with at least its bound hands out are the expected units.
pub fn programmes_are_delivered()
    ensures { ProgrammesAreDelivered }
{
    delivery_theorem();
}
