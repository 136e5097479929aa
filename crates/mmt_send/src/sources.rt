//! Where the bytes of a unit come from.

ghost use Rattle.std.specs.Prelude.{◌≡◌, ◌<◌, length, None};
ghost use Rattle.mmt_cast.specs.Placing.{all_units};
ghost use Rattle.mmt_model.specs.Right.{IsRight};
ghost use Rattle.mmt_pace.specs.Recast.{IsItsCast};
ghost use Rattle.mmt_send.specs.Files.{IsSource};

use mmt_model::{Cast, Programme, Unit};

/// A unit by its number over the whole cast, whether it is of timed media, the number of its MPU, and the
/// name of its file.
#[derive(Clone, Copy, Debug)]
pub struct Source<'a> {
    pub number: u32,
    pub timed: bool,
    pub mpu: u32,
    pub unit: &'a Unit,
    pub name: &'a str,
}

/// The unit of a number in a cast of a programme.
pub fn source_of<'a>(programme: &'a Programme, cast: &Cast, number: u32) -> Source<'a>
    requires right { IsRight programme.now }
    requires cast { IsItsCast programme.now cast.now }
    requires known { number < length (all_units programme.now) }
    ensures number { result.number ≡ number }
    ensures source { IsSource programme.now result }
{
    let sent_units = cast.units.as_slice();
    let sent = sent_units[number as usize];
    let assets = programme.assets.as_slice();
    let asset = &assets[sent.asset as usize];
    let mpus = asset.mpus.as_slice();
    let mpu = &mpus[sent.mpu as usize];
    let units = mpu.units.as_slice();
    let files = programme.files.as_slice();
    Source {
        number,
        timed: asset.timed,
        mpu: mpu.number,
        unit: &units[sent.unit as usize],
        name: files[asset.file as usize].as_str(),
    }
}
