//! Units by themselves: their due ticks (rule A4) and their keys (rule A8).

ghost use Rattle.std.specs.Prelude.{◌≡◌, length};
ghost use Rattle.mmt_admit.specs.Faults.{as_fault, IsReadable};
ghost use Rattle.mmt_model.specs.Admission.{fault_of_key, fault_of_unit, first_below};

use crate::answers::NotAdmitted;
use crate::rising::key_by;
use crate::timely::unit_by;
use mmt_model::Cast;

/// The first faults of units by themselves.
#[derive(Clone, Copy, Debug)]
pub(crate) struct UnitFaults {
    /// Of a unit that is due too early or too late (rule A4).
    pub due: Option<NotAdmitted>,
    /// Of a unit whose key does not come after that of the unit before it (rule A8).
    pub key: Option<NotAdmitted>,
}

/// The first faults of units by themselves, in one walk.
pub(crate) fn unit_faults(cast: &Cast) -> UnitFaults
    requires { IsReadable cast.now }
    ensures due { as_fault result.due ≡ first_below (fault_of_unit cast.now) (length cast.now.units) }
    ensures key { as_fault result.key ≡ first_below (fault_of_key cast.now) (length cast.now.units) }
{
    let mut due = None;
    let mut key = None;
    for u in 0..cast.units.len() {
        due = unit_by(cast, u, due);
        key = key_by(cast, u, key);
    }
    UnitFaults { due, key }
}
