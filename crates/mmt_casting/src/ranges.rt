//! The first access unit whose time is out of range.

ghost use Rattle.std.specs.Prelude.{◌≡◌, ◌≤◌, length, map, option_map};
ghost use Rattle.mmt_cast.specs.Placing.{all_mpus, mpus_of};
ghost use Rattle.mmt_cast.specs.Refusing.{out_of_range, refusal_of_mpus};
ghost use Rattle.mmt_casting.specs.Ends.{end_of, AssetFits, ProgrammeFits};
ghost use Rattle.mmt_times.specs.Times.{unit_times};
ghost use Rattle.mmt_times.specs.Writing.{au_value};

use crate::ends::CastEnd;
use mmt_model::{Asset, Mpu, Programme};
use mmt_times::time_at;

/// The place of the first access unit whose time is out of range.
fn first_out(mpu: &Mpu, timescale: u32) -> Option<u32>
    requires few { length mpu.now.aus ≤ 60 }
    requires some { 1 ≤ timescale }
    ensures { result ≡ out_of_range 0 (unit_times mpu.now.time.0 mpu.now.decoding_offset timescale 0 0 (map au_value mpu.now.aus)) }
{
    let aus = mpu.aus.as_slice();
    let mut before = 0u32;
    for i in 0..aus.len() {
        let au = aus[i];
        let time = time_at(mpu.time, mpu.decoding_offset, before, au.dts_pts, timescale);
        if time.is_none() {
            return Some(i as u32);
        }
        before += au.pts as u32;
    }
    None
}

/// The first refusal of an asset's MPUs.
fn asset_end(a: u32, asset: &Asset) -> Option<CastEnd>
    requires { AssetFits asset.now }
    ensures { result ≡ option_map end_of (refusal_of_mpus (mpus_of a asset.now)) }
{
    let mpus = asset.mpus.as_slice();
    for b in 0..mpus.len() {
        let out = first_out(&mpus[b], asset.timescale);
        if let Some(au) = out {
            return Some(CastEnd::TimeRange {
                asset: a,
                mpu: b as u32,
                au,
            });
        }
    }
    None
}

/// The first refusal of a programme's MPUs.
pub(crate) fn mpus_end(programme: &Programme) -> Option<CastEnd>
    requires { ProgrammeFits programme.now }
    ensures { result ≡ option_map end_of (refusal_of_mpus (all_mpus programme.now)) }
{
    let assets = programme.assets.as_slice();
    for a in 0..assets.len() {
        let end = asset_end(a as u32, &assets[a]);
        if end.is_some() {
            return end;
        }
    }
    None
}
