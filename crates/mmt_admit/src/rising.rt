//! Keys that do not rise (rule A8).

ghost use Rattle.std.specs.Prelude.{◌≡◌, ◌<◌, ◌==◌, ◌&&◌, ◌||◌, nat_lt, [], ◌∷◌, length};
ghost use Rattle.mmt_admit.specs.Faults.{as_fault, IsReadable};
ghost use Rattle.mmt_model.specs.Admission.{fault_of_key, is_of_one_mpu, or_else, sample_or_item};
ghost use Rattle.mmt_model.specs.Handing.{key_numbers, precedes};

use crate::answers::{NotAdmitted, Rule, unless};
use crate::reads::unit_at;
use mmt_model::{Cast, SentUnit, UnitKey};

/// Whether a number comes before another one, or equals it and the rest comes before.
fn before_or(x: u32, y: u32, rest: bool) -> bool
    ensures { result ≡ (nat_lt x y || ((x == y) && rest)) }
{
    x < y || (x == y && rest)
}

/// Whether one of two tests holds.
fn either(first: bool, second: bool) -> bool
    ensures { result ≡ (first || second) }
{
    first || second
}

/// Whether a key comes before another one: items before timed units, and these by movie fragment,
/// sample and offset.
#[tactic(auto, unfolding(mmt_model::specs::Handing::precedes))]
fn comes_before(a: UnitKey, b: UnitKey) -> bool
    ensures { result ≡ precedes (key_numbers a) (key_numbers b) }
{
    let (kind, x, y, z) = numbers_of(a);
    let (other, u, v, w) = numbers_of(b);
    let fourth = before_or(z, w, false);
    let third = before_or(y, v, fourth);
    let second = before_or(x, u, third);
    before_or(kind, other, second)
}

/// A key as numbers.
#[tactic(auto, unfolding(mmt_model::specs::Handing::key_numbers))]
fn numbers_of(key: UnitKey) -> (u32, u32, u32, u32)
    ensures { key_numbers key ≡ result.0 ∷ result.1 ∷ result.2 ∷ result.3 ∷ [] }
{
    match key {
        UnitKey::Item { item } => (0, item, 0, 0),
        UnitKey::Timed {
            movie_fragment,
            sample,
            offset,
        } => (1, movie_fragment, sample, offset),
    }
}

/// The sample or the item of a key.
fn number_of(key: UnitKey) -> u32
    ensures { result ≡ sample_or_item key }
{
    match key {
        UnitKey::Item { item } => item,
        UnitKey::Timed { sample, .. } => sample,
    }
}

/// Whether two units are of one MPU.
#[tactic(auto, unfolding(mmt_model::specs::Admission::is_of_one_mpu))]
fn is_together(u: &SentUnit, v: &SentUnit) -> bool
    ensures { result ≡ is_of_one_mpu u.now v.now }
{
    u.asset == v.asset && u.mpu == v.mpu
}

/// The fault of a unit whose key does not come after that of the unit before it.
fn key_fault(cast: &Cast, u: usize) -> Option<NotAdmitted>
    requires readable { IsReadable cast.now }
    requires place { u < length cast.now.units }
    ensures { as_fault result ≡ fault_of_key cast.now u }
{
    if u == 0 {
        return None;
    }
    let before = unit_at(cast, u - 1);
    let unit = unit_at(cast, u);
    let together = is_together(&before, &unit);
    let rises = either(!together, comes_before(before.key, unit.key));
    unless(
        rises,
        Rule::A8,
        u as u32,
        number_of(unit.key) as u64,
        number_of(before.key) as u64,
    )
}

/// The first fault of a key so far, or else that of a unit's key.
pub(crate) fn key_by(cast: &Cast, u: usize, so_far: Option<NotAdmitted>) -> Option<NotAdmitted>
    requires readable { IsReadable cast.now }
    requires place { u < length cast.now.units }
    ensures { as_fault result ≡ or_else (as_fault so_far) (fault_of_key cast.now u) }
{
    match so_far {
        Some(_) => so_far,
        None => key_fault(cast, u),
    }
}
