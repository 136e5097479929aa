//! Units that are due too early or too late (rule A4).

ghost use Rattle.std.specs.Prelude.{◌≡◌, ◌<◌, length};
ghost use Rattle.mmt_admit.specs.Faults.{as_fault, IsReadable};
ghost use Rattle.mmt_model.specs.Admission.{fault_of_unit, or_else};

use crate::answers::{NotAdmitted, Rule, earlier, unless};
use crate::reads::{unit_at, widened};
use mmt_model::Cast;

/// The fault of a unit that is due too early or too late.
#[tactic(auto, unfolding(mmt_model::specs::Admission::fault_of_unit))]
fn unit_fault(cast: &Cast, u: usize) -> Option<NotAdmitted>
    requires readable { IsReadable cast.now }
    requires place { u < length cast.now.units }
    ensures { as_fault result ≡ fault_of_unit cast.now u }
{
    let unit = unit_at(cast, u);
    let delay = widened(cast.params.delay);
    let window = widened(cast.params.window);
    let sent = unit.last.0 + delay;
    let gone = unit.first.0 + window;
    let due = unit.due.0;
    earlier(
        unless(sent < due, Rule::A4, u as u32, sent, due.saturating_sub(1)),
        unless(due <= gone, Rule::A4, u as u32, due, gone),
    )
}

/// The first fault of a unit's due tick so far, or else that of a unit.
pub(crate) fn unit_by(cast: &Cast, u: usize, so_far: Option<NotAdmitted>) -> Option<NotAdmitted>
    requires readable { IsReadable cast.now }
    requires place { u < length cast.now.units }
    ensures { as_fault result ≡ or_else (as_fault so_far) (fault_of_unit cast.now u) }
{
    match so_far {
        Some(_) => so_far,
        None => unit_fault(cast, u),
    }
}
