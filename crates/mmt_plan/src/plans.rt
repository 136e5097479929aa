//! A plan: the programme that a file is, or the first reason why it is none.

ghost use Rattle.std.specs.Prelude.{◌≡◌, ◌≤◌, ◌+◌, length, IfOk, IsErrOf};
ghost use Rattle.serde_json.specs.View.{view};
ghost use Rattle.mmt_io.specs.Port.{Rose};
ghost use Rattle.mmt_plan.specs.Plan.{json_of, programme_in, plan, IsReadOf, Stays};
ghost use Rattle.mmt_plan.specs.Nodes.{nodes};
ghost use Rattle.mmt_model.specs.Right.{IsRight};
ghost use Rattle.mmt_plan.specs.Reading.{IsAnswer, ok_map};

use crate::ends::{PlanEnd, Reason};
use crate::loads::{load, refused};
use crate::tops::programme;
use crate::wholes::agreeing;
use mmt_io::Shelf;
use mmt_model::Programme;
use serde_json::Value;
use std::alloc::Global;

// The JSON value that bytes are.
fn value_in(alloc: Global, bytes: &[u8]) -> Result<Value, PlanEnd>
    ensures value { IsAnswer (json_of bytes.now) (ok_map view result) }
    ensures size { IfOk result (λ v. nodes (view v) ≤ length bytes.now + 1) }
{
    match Value::from_slice(alloc, bytes) {
        Ok(value) => Ok(value),
        Err(error) => {
            if error.is_memory() {
                Err(PlanEnd::OutOfMemory)
            } else {
                Err(refused(Reason::NotJson))
            }
        }
    }
}

// The programme that the bytes of a plan are.
#[tactic(auto, unfolding(crate::specs::Plan::programme_in))]
fn programme_in(alloc: Global, bytes: &[u8]) -> Result<Programme, PlanEnd>
    requires { length bytes.now ≤ 16777216 }
    ensures value { IsAnswer (programme_in bytes.now) result }
    ensures right { IfOk result IsRight }
{
    let value = value_in(alloc, bytes)?;
    let programme = programme(alloc, &value)?;
    agreeing(alloc, programme)
}

/// The programme that the plan of a name is. It takes the memory of the plan, of its JSON value and of
/// the programme.
///
/// `Refused` carries the first reason why the plan is none, and its place. `ReadFault` comes only where
/// the count of faults rose.
pub fn read_plan<H: Shelf>(alloc: Global, shelf: &mut H, name: &str) -> Result<Programme, PlanEnd>
    ensures shelf { Stays (H.tells shelf.old) (H.tells shelf.new) (H.file shelf.old) (H.file shelf.new) (H.faults shelf.old) (H.faults shelf.new) }
    ensures fault { IsErrOf result PlanEnd.ReadFault → Rose (H.faults shelf.old) (H.faults shelf.new) }
    ensures plan { IsReadOf plan (H.tells shelf.old) (H.file shelf.old name.now) result }
    ensures right { IfOk result IsRight }
{
    let bytes = match load(alloc, shelf, name) {
        Ok(bytes) => bytes,
        Err(end) => return Err(end),
    };
    programme_in(alloc, &bytes)
}
