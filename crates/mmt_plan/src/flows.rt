//! The flows of a plan.

ghost use Rattle.std.specs.Prelude.{◌≡◌, true, IfOk, IfSome};
ghost use Rattle.serde_json.specs.View.{view};
ghost use Rattle.mmt_model.specs.Right.{IsRightFlow};
ghost use Rattle.mmt_plan.specs.Flows.{flow_at, flow_in};

use crate::ends::{Reason, Refusal};
use crate::members::member;
use crate::spots::Spot;
use mmt_model::Flow;
use serde_json::Value;

// The flow that a text is, in the form of the command line.
fn flow_in(text: &str) -> Option<Flow>
    ensures value { result ≡ flow_in text.now }
    ensures range { IfSome result IsRightFlow }
{
    mmt_command::flow_of(text)
}

/// The member that is a flow.
#[tactic(auto, unfolding(crate::specs::Flows::flow_at))]
pub fn flow(object: &Value, spot: Spot, field: u32, name: &str) -> Result<Flow, Refusal>
    ensures value { result ≡ flow_at spot field name.now (view object.now) }
    ensures range { IfOk result IsRightFlow }
{
    match member(object, spot, field, name)?.as_str() {
        Some(text) => match flow_in(text) {
            Some(flow) => Ok(flow),
            None => Err(spot.refused(Reason::Value, field)),
        },
        None => Err(spot.refused(Reason::Value, field)),
    }
}
