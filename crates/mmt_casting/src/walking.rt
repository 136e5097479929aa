//! The group that the unit of a spot begins.

ghost use Rattle.std.specs.Prelude.{◌<◌, length};
ghost use Rattle.mmt_casting.specs.Places.{IsGroup, IsSpot};
ghost use Rattle.mmt_model.specs.Right.{IsRight};

use crate::alone::header_length;
use crate::groups::{Group, group_of};
use crate::places::{Spot, asset_of, mpu_of};
use mmt_model::Programme;

/// The group that the unit of a spot begins.
pub(crate) fn group_at(programme: &Programme, spot: Spot) -> Group
    requires right { IsRight programme.now }
    requires spot { IsSpot programme.now spot }
    requires inside { spot.asset < length programme.now.assets }
    ensures { IsGroup programme.now spot result }
{
    let header = header_length(asset_of(programme, spot).timed);
    let units = mpu_of(programme, spot).units.as_slice();
    group_of(units, spot.unit, header, programme.limit)
}
