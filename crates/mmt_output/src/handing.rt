//! The media units that are due, handed out in their order.

ghost use Rattle.std.specs.Prelude.{◌≡◌, ◌≤◌, IsTrue, IsErr, IfOk};
ghost use Rattle.mmt_io.specs.Port.{OnlySends, Rose};
ghost use Rattle.mmt_runs.specs.Told.{IsTold};
ghost use Rattle.mmt_io.specs.Output.{Writes};
ghost use Rattle.mmt_output.specs.Due.{due_among};
ghost use Rattle.mmt_output.specs.Records.{records, amount_of};

use crate::handed::Handed;
use crate::writing::write_unit;
use mmt_base::Tick;
use mmt_io::{Fault, Port};
use mmt_pool::Pool;
use mmt_runs::{Runs, UnitOrder};
use mmt_times::Names;

/// Hands out the units that are due while the clock goes from one tick to another: it writes their
/// records in the order of their times, and counts them. It takes no memory.
///
/// # Errors
///
/// The port failed, and wrote a prefix of the records.
pub fn hand_out<P: Port>(
    port: &mut P,
    pool: &Pool,
    names: &Names,
    runs: &Runs,
    from: Tick,
    to: Tick,
) -> Result<Handed, Fault>
    requires { IsTold runs.now pool.now.kept names.now }
    ensures sends { OnlySends P.tells P.left P.read_faults P.write_faults port.old port.new }
    ensures cause { IsErr result → Rose (P.write_faults port.old) (P.write_faults port.new) }
    ensures put { Writes P.tells P.history port.old port.new
        (records (due_among names.now pool.now.kept from.0 to.0)) result }
    ensures counts { IfOk result (λ handed. handed ≡ amount_of (due_among names.now pool.now.kept from.0 to.0)) }
{
    let mut after: Option<UnitOrder> = None;
    let mut handed = Handed::nothing();
    'units: while let Some(unit) = runs.least_due(pool, names, after.as_ref(), from, to) {
        let order = unit.order();
        let length = unit.length();
        match write_unit(port, unit) {
            Ok(()) => {}
            Err(fault) => return Err(fault),
        }
        handed = handed.and_one(length);
        after = Some(order);
    }
    Ok(handed)
}
