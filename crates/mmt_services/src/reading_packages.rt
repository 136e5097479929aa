//! Reading packages.

ghost use Rattle.std.specs.Prelude.{◌≡◌, ◌+◌, ◌-◌, ◌<◌, ◌≤◌, ◌^◌, List, [], ◌∷◌, length, IfOk, IfErr, IfSome, Ok, Some, None, MatchResult, MatchOption};
ghost use Rattle.mmt_fields.specs.Reading.{Gives};
ghost use Rattle.mmt_lists.specs.Counted.{counted};
ghost use Rattle.mmt_mpt.specs.LocationView.{view_location};
ghost use Rattle.mmt_services.specs.PackageReading.{place_at as place_by, package_at as package_by};
ghost use Rattle.mmt_services.specs.PackageView.{view_package};

use crate::package::Package;
use crate::plt_why::{PltWhy, plt_why};
use mmt_base::Refused;
use mmt_fields::{bytes_at, u8_at};
use mmt_mpt::{Location, read_location};

/// A location of a package, and what follows it.
#[tactic(auto, unfolding(crate::specs::PackageReading::place_at))]
fn place_at(at: u32, bytes: &[u8]) -> Result<(Location<'_>, &[u8]), Refused<PltWhy>>
    requires { at + length bytes.now < 2 ^ 31 }
    ensures gives { Gives (λ x. (view_location x.0, x.1.now)) result (place_by at bytes.now) }
    ensures shorter { IfOk result (λ x. length x.1.now ≤ length bytes.now) }
    ensures place { IfErr result (λ e. e.at ≤ at + length bytes.now) }
{
    match read_location(bytes) {
        Ok((location, size)) => Ok((location, &bytes[size as usize..])),
        Err(refused) => Err(Refused {
            at: at + refused.at,
            why: plt_why(refused.why),
        }),
    }
}

/// A package, and what follows it.
#[tactic(auto, unfolding(crate::specs::PackageReading::package_at))]
fn package_at(at: u32, bytes: &[u8]) -> Result<(Package<'_>, &[u8]), Refused<PltWhy>>
    requires { at + length bytes.now < 2 ^ 31 }
    ensures gives { Gives (λ x. (view_package x.0, x.1.now)) result (package_by at bytes.now) }
    ensures shorter { IfOk result (λ x. length x.1.now ≤ length bytes.now) }
    ensures place { IfErr result (λ e. e.at ≤ at + length bytes.now) }
{
    let (len, rest) = u8_at(bytes, at, PltWhy::Short)?;
    let (id, rest) = bytes_at(rest, len as usize, at + 1, PltWhy::Short)?;
    let (location, rest) = place_at(at + 1 + len as u32, rest)?;
    Ok((Package { id, location }, rest))
}

/// The first of the packages that are left, and the bytes after it.
pub(crate) fn first_package(left: u8, at: u32, bytes: &[u8]) -> Option<(Package<'_>, &[u8])>
    requires some { 0 < left }
    requires fits { at + length bytes.now < 2 ^ 31 }
    ensures first { MatchOption result ((counted left package_by at bytes.now).items ≡ [])
        (λ x. (counted left package_by at bytes.now).items ≡ view_package x.0 ∷ (counted (left - 1) package_by (at + (length bytes.now - length x.1.now)) x.1.now).items) }
    ensures end { IfSome result (λ x. length x.1.now ≤ length bytes.now) }
{
    match package_at(at, bytes) {
        Ok(found) => Some(found),
        Err(_) => None,
    }
}

/// What follows so many packages.
#[tactic(auto, using(crate::proofs::PackageSteps::packages_stop, crate::proofs::PackageSteps::packages_rest, crate::proofs::PackageSteps::packages_here))]
pub(crate) fn after_packages(count: u8, bytes: &[u8]) -> Result<&[u8], Refused<PltWhy>>
    requires { 5 + length bytes.now < 2 ^ 31 }
    ensures walk { MatchResult result
        (λ rest. ((counted count package_by 5 bytes.now).stop ≡ None) × (rest.now ≡ (counted count package_by 5 bytes.now).rest) × (length rest.now ≤ length bytes.now))
        (λ e. (counted count package_by 5 bytes.now).stop ≡ Some e) }
    ensures place { IfErr result (λ e. e.at ≤ 5 + length bytes.now) }
{
    let mut left = count;
    let mut at = 5;
    let mut rest = bytes;
    while left > 0 {
        let (_, after) = package_at(at, rest)?;
        at += (rest.len() - after.len()) as u32;
        rest = after;
        left -= 1;
    }
    Ok(rest)
}
