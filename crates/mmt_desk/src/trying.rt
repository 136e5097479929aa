//! The trial of a plan and a list.

ghost use Rattle.std.specs.Prelude.{◌≡◌, ℕ, IsTrue, IsErrOf, IfOk, IfErr};
ghost use Rattle.mmt_desk.specs.Answers.{IsTrialAnswer, trial_end};
ghost use Rattle.mmt_io.specs.Port.{Rose};
ghost use Rattle.mmt_mux.specs.Ending.{unit_place};
ghost use Rattle.mmt_plan.specs.Plan.{Stays};

use crate::listing::read_list;
use crate::planning::read;
use mmt_admit::admit;
use mmt_io::Shelf;
use mmt_model::Cast;
use mmt_mux::MuxEnd;
use mmt_plan::{PlanPart, PlanPlace, Reason};
use mmt_trial::{TrialEnd, Tried, trial};
use std::alloc::Global;

/// Where a unit of a cast stands in its plan, the member that is its length.
#[tactic(auto, using(mmt_mux::proofs::Checks::unit_found, mmt_mux::proofs::Checks::unit_absent))]
fn place_of_unit(cast: &Cast, unit: u32) -> PlanPlace
    ensures { result ≡ unit_place cast.now unit }
{
    let (a, b, c) = match cast.units.get(unit as usize) {
        Some(sent) => (sent.asset, sent.mpu, sent.unit),
        None => (0, 0, 0),
    };
    PlanPlace {
        part: PlanPart::Unit,
        a,
        b,
        c,
        field: 3,
    }
}

/// The end of a run by that of its trial.
fn end_of_trial(cast: &Cast, end: TrialEnd) -> MuxEnd
    ensures { result ≡ trial_end cast.now end }
{
    match end {
        TrialEnd::ReadFault => MuxEnd::ReadFault,
        TrialEnd::UnitShort { unit, .. } => MuxEnd::Refused {
            reason: Reason::UnitShort,
            place: place_of_unit(cast, unit),
        },
        TrialEnd::OutOfMemory => MuxEnd::OutOfMemory,
    }
}

/// The numbers of the trial of a plan of a name and a list of a name. The plan, the cast, the files, admission and the list are
/// checked in this order.
///
/// # Errors
///
/// The first of these that is refused; a fault of a read; or there was no memory.
pub fn try_list<H: Shelf>(
    alloc: Global,
    plan: &str,
    list: &str,
    shelf: &mut H,
) -> Result<Tried, MuxEnd>
    ensures shelf { Stays (H.tells shelf.old) (H.tells shelf.new) (H.file shelf.old) (H.file shelf.new)
        (H.faults shelf.old) (H.faults shelf.new) }
    ensures fault { IsErrOf result MuxEnd.ReadFault → Rose (H.faults shelf.old) (H.faults shelf.new) }
    ensures never { IsErrOf result MuxEnd.WriteFault → ⊥ }
    ensures answer { IsTrue (H.tells shelf.old) → IsTrialAnswer (H.file shelf.old) plan.now list.now result }
{
    let (programme, cast) = match read(alloc, plan, shelf) {
        Ok(both) => both,
        Err(end) => return Err(end),
    };
    let admitted = match admit(&cast) {
        Ok(admitted) => admitted,
        Err(refusal) => return Err(MuxEnd::NotAdmitted(refusal)),
    };
    let sent = cast.packets.len() as u32;
    let deliveries = match read_list(alloc, shelf, list, sent) {
        Ok(deliveries) => deliveries,
        Err(end) => return Err(end),
    };
    match trial(alloc, &programme, &admitted, shelf, &deliveries) {
        Ok(tried) => Ok(tried),
        Err(end) => Err(end_of_trial(&cast, end)),
    }
}
