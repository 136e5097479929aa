//! The time of an access unit.

ghost use Rattle.std.specs.Prelude.{◌≡◌, ◌≤◌, option_map};
ghost use Rattle.mmt_times.specs.Times.{time_at as time_by, TimesFollowTheFormula};
ghost use Rattle.mmt_times.specs.TimesLeft.{view_time};

use mmt_base::Ntp;

/// The time of an access unit: `time`, and from it `sum_before + dts_pts - decoding_offset` units of
/// `timescale` a second, in units of 2^-32 second with one rounding down. `None` comes exactly where
/// that lies outside 0 to 2^64 - 1.
///
/// `sum_before` is the sum of the pts_offsets of the access units before it (the MPU extended
/// timestamp descriptor). The timescale is at least 1.
#[tactic(auto, unfolding(crate::specs::Times::time_at))]
pub fn time_at(
    time: Ntp,
    decoding_offset: u16,
    sum_before: u32,
    dts_pts: u16,
    timescale: u32,
) -> Option<Ntp>
    requires { 1 ≤ timescale }
    ensures { option_map view_time result ≡ time_by time.0 decoding_offset sum_before dts_pts timescale }
{
    let ahead = sum_before as u64 + dts_pts as u64;
    let behind = decoding_offset as u64;
    if behind <= ahead {
        let later = (ahead - behind) as u128 * (1 << 32) / timescale as u128;
        let sum = time.0 as u128 + later;
        if sum < 1 << 64 {
            Some(Ntp(sum as u64))
        } else {
            None
        }
    } else {
        let earlier = ((behind - ahead) * (1 << 32)).div_ceil(timescale as u64);
        if earlier <= time.0 {
            Some(Ntp(time.0 - earlier))
        } else {
            None
        }
    }
}

/// The times of an MPU's access units, of which an entry has those that a table gives, are those of
/// `time_at`: each from the sum of the pts_offsets before it.
pub fn times_follow_the_formula()
    ensures { TimesFollowTheFormula }
{}
