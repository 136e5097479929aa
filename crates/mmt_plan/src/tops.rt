//! A plan as a whole.

ghost use Rattle.std.specs.Prelude.{◌≡◌, ◌<◌, ◌≤◌, ◌^◌, [], length, IfOk, OnOk};
ghost use Rattle.serde_json.specs.View.{view};
ghost use Rattle.std.specs.List.{All};
ghost use Rattle.mmt_plan.specs.Nodes.{nodes};
ghost use Rattle.mmt_model.specs.Right.{IsFileName, IsRightParams};
ghost use Rattle.mmt_plan.specs.Alone.{IsAlone, IsAssetAlone, IsFew, IsRightSending};
ghost use Rattle.mmt_plan.specs.Reading.{IsAnswer, ok_map};
ghost use Rattle.mmt_plan.specs.Tops.{sending_at, params_at, assets_at, top_spot, programme_at, programme_of};

use crate::assets::{assets, bytes_of};
use crate::ends::{PlanEnd, PlanPart, PlanPlace, Refusal};
use crate::flows::flow;
use crate::members::{array, no_other, number, object, text};
use crate::names::FileNames;
use crate::parts::list_from;
use crate::spots::Spot;
use mmt_model::{Asset, Flow, List, Params, Programme};
use serde_json::Value;
use std::alloc::Global;

/// How packets are sent: where to and from, by which header compression, how long a packet is at most
/// and how many ticks the packets of one unit are apart.
#[derive(Clone, Copy, Debug, PartialEq, Eq)]
pub struct SendingValues {
    pub flow: Flow,
    pub source: Flow,
    pub context: u16,
    pub full_every: u32,
    pub limit: u32,
    pub spacing: u32,
}

/// The spot of the plan itself.
pub fn top_spot() -> Spot
    ensures { result ≡ top_spot }
{
    Spot {
        place: PlanPlace {
            part: PlanPart::Top,
            a: 0,
            b: 0,
            c: 0,
            field: 0,
        },
        start: 0,
        timed: false,
    }
}

// How packets are sent.
#[tactic(auto, unfolding(crate::specs::Tops::sending_at))]
fn sending(value: &Value, spot: Spot) -> Result<SendingValues, Refusal>
    ensures value { result ≡ sending_at spot (view value.now) }
    ensures right { IfOk result IsRightSending }
{
    let flow_to = flow(value, spot, 1, "flow")?;
    let source = flow(value, spot, 2, "source")?;
    let context = number(value, spot, 3, "context", 0, 4095)?;
    let full_every = number(value, spot, 4, "full_every", 0, 0xFFFF)?;
    let limit = number(value, spot, 5, "limit", 64, 60_000)?;
    let spacing = number(value, spot, 6, "spacing", 0, 0xFFFF)?;
    Ok(SendingValues {
        flow: flow_to,
        source,
        context: context as u16,
        full_every: full_every as u32,
        limit: limit as u32,
        spacing: spacing as u32,
    })
}

// The values of the buffer message.
#[tactic(auto, unfolding(crate::specs::Tops::params_at))]
fn params(value: &Value, spot: Spot) -> Result<Params, Refusal>
    ensures value { result ≡ params_at spot (view value.now) }
    ensures right { IfOk result IsRightParams }
{
    let bound = number(value, spot, 8, "bound", 0, 0xFFFF_FFFF)?;
    let window = number(value, spot, 9, "window", 0, 0xFFFF_FFFF)?;
    let delay = number(value, spot, 10, "delay", 0, 0xFFFF_FFFF)?;
    Ok(Params {
        bound: bound as u32,
        window: window as u32,
        delay: delay as u32,
    })
}

// The assets.
#[tactic(auto, unfolding(crate::specs::Tops::assets_at))]
fn assets_in(
    alloc: Global,
    value: &Value,
    spot: Spot,
    files: &mut FileNames,
) -> Result<List<Asset>, PlanEnd>
    requires start { spot.start ≤ 2 ^ 47 }
    requires small { nodes (view value.now) < 2 ^ 32 }
    requires new { files.old ≡ [] }
    ensures value { IsAnswer (assets_at spot (view value.now)) (ok_map (λ list. (list, files.new)) result) }
    ensures right { IfOk result (λ list. All (IsAssetAlone spot.start (length files.new)) list) }
    ensures count { IfOk result (λ list. (1 ≤ length list) × (length list ≤ 255)) }
    ensures named { OnOk result (All IsFileName files.new) }
{
    let values = array(value, spot, 13, "assets", 1, 255)?;
    assets(alloc, values, spot, files)
}

// The programme that a value is at a spot.
#[tactic(auto, unfolding(crate::specs::Tops::programme_at))]
fn programme_at(alloc: Global, value: &Value, top: Spot) -> Result<Programme, PlanEnd>
    requires { nodes (view value.now) < 2 ^ 32 }
    ensures value { IsAnswer (programme_at top (view value.now)) result }
    ensures right { IfOk result IsAlone }
{
    object(value, top)?;
    let sending = sending(value, top)?;
    let package = text(value, top, 7, "package", 1, 255)?;
    let params = params(value, top)?;
    let start = number(value, top, 11, "start", 0, 1 << 47)?;
    let spot = Spot { start, ..top };
    let signals = list_from(alloc, value, spot, 12, "signalling", 0)?;
    let mut files = FileNames::new(alloc);
    let assets = assets_in(alloc, value, spot, &mut files)?;
    no_other(
        value,
        top,
        &[
            "flow",
            "source",
            "context",
            "full_every",
            "limit",
            "spacing",
            "package",
            "bound",
            "window",
            "delay",
            "start",
            "signalling",
            "assets",
        ],
    )?;
    let package = bytes_of(alloc, package)?;
    let files = files.list(alloc)?;
    Ok(Programme {
        flow: sending.flow,
        source: sending.source,
        context: sending.context,
        full_every: sending.full_every,
        limit: sending.limit,
        spacing: sending.spacing,
        package,
        params,
        signals,
        assets,
        files,
    })
}

/// The programme that a value is, as far as each object tells by itself.
pub fn programme(alloc: Global, value: &Value) -> Result<Programme, PlanEnd>
    requires { nodes (view value.now) < 2 ^ 32 }
    ensures value { IsAnswer (programme_of (view value.now)) result }
    ensures right { IfOk result IsAlone }
    ensures few { IfOk result IsFew }
{
    programme_at(alloc, value, top_spot())
}
