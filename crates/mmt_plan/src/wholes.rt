//! What the objects of a plan ask of each other.

ghost use Rattle.std.specs.Prelude.{◌≡◌, ◌<◌, ◌^◌, ℕ, List, Result, length, IfOk};
ghost use Rattle.std.specs.List.{All, list_all};
ghost use Rattle.mmt_model.specs.declared.programmes.Asset.{Asset as Track};
ghost use Rattle.mmt_plan.specs.Reading.{IsAnswer};
ghost use Rattle.mmt_model.specs.Right.{IsRight};
ghost use Rattle.mmt_plan.specs.Alone.{IsAlone, IsFew};
ghost use Rattle.mmt_plan.specs.Wholes.{are_ids_once, are_numbers_once, is_named, are_named, each_checked, agreeing};
ghost use Rattle.mmt_plan.specs.declared.ends.Refusal.{Refusal as Why};

use crate::ends::{PlanEnd, PlanPart, Reason};
use crate::tops::top_spot;
use crate::twice::first_repeat;
use mmt_model::{Asset, Programme, Signal};
use std::alloc::Global;

/// What is checked against the assets of a plan.
pub trait Checked {
    /// The check of an object by its number among those of its kind.
    ghost check_of: { List Track → ℕ → Self → Result (Unit {0}) Why };
    /// An object has few enough parts to be counted in 32 bits.
    ghost is_few: { Self → Type 0 };

    /// The check.
    fn check(&self, alloc: Global, assets: &[Asset], number: u32) -> Result<(), PlanEnd>
        requires { is_few self.now }
        ensures { IsAnswer (check_of assets.now number self.now) result };
}

// That no two assets have one packet id.
#[tactic(auto, unfolding(crate::specs::Wholes::are_ids_once))]
fn ids(alloc: Global, assets: &[Asset]) -> Result<(), PlanEnd>
    requires { length assets.now < 2 ^ 32 }
    ensures { IsAnswer (are_ids_once assets.now) result }
{
    match first_repeat(alloc, assets)? {
        None => Ok(()),
        Some(place) => {
            let spot = top_spot().inner(PlanPart::Asset, place);
            Err(spot.refused(Reason::PacketIdTwice, 1).into())
        }
    }
}

impl Checked for Asset {
    ghost check_of = { λ _. are_numbers_once };

    ghost is_few = { λ a. length a.mpus < 2 ^ 32 };

    // That no two of its MPUs have one number.
    #[tactic(auto, unfolding(crate::specs::Wholes::are_numbers_once))]
    fn check(&self, alloc: Global, _assets: &[Asset], number: u32) -> Result<(), PlanEnd> {
        match first_repeat(alloc, self.mpus.as_slice())? {
            None => Ok(()),
            Some(place) => {
                let asset = top_spot().inner(PlanPart::Asset, number);
                let spot = asset.inner(PlanPart::Mpu, place);
                Err(spot.refused(Reason::MpuTwice, 1).into())
            }
        }
    }
}

// Whether there is an MPU at these places.
fn is_named(assets: &[Asset], name: (u32, u32)) -> bool
    ensures { result ≡ is_named assets.now name }
{
    match assets.get(name.0 as usize) {
        Some(asset) => (name.1 as usize) < asset.mpus.len(),
        None => false,
    }
}

// Whether there is an MPU at each of these places.
fn are_all_named(assets: &[Asset], names: &[(u32, u32)]) -> bool
    ensures { result ≡ list_all (is_named assets.now) names.now }
{
    names.iter().all(|name| is_named(assets, *name))
}

impl Checked for Signal {
    ghost check_of = { are_named };

    ghost is_few = { λ _. Unit {0} };

    // That there is each MPU that it names.
    #[tactic(auto, unfolding(crate::specs::Wholes::are_named))]
    fn check(&self, _alloc: Global, assets: &[Asset], number: u32) -> Result<(), PlanEnd> {
        match self {
            Signal::Parameters { .. } => Ok(()),
            Signal::Table { names, .. } => {
                if are_all_named(assets, names.as_slice()) {
                    Ok(())
                } else {
                    let spot = top_spot().inner(PlanPart::Signal, number);
                    Err(spot.refused(Reason::NoSuchMpu, 3).into())
                }
            }
        }
    }
}

// The checks of all objects of a kind, in order.
fn check_each<T: Checked>(alloc: Global, items: &[T], assets: &[Asset]) -> Result<(), PlanEnd>
    requires few { length items.now < 2 ^ 32 }
    requires each { All T.is_few items.now }
    ensures { IsAnswer (each_checked (T.check_of assets.now) 0 items.now) result }
{
    let mut number = 0u32;
    for item in items {
        match item.check(alloc, assets, number) {
            Ok(()) => {}
            Err(end) => return Err(end),
        }
        number += 1;
    }
    Ok(())
}

/// The programme, where its objects are what they ask of each other.
#[tactic(auto, unfolding(crate::specs::Wholes::agreeing))]
pub fn agreeing(alloc: Global, programme: Programme) -> Result<Programme, PlanEnd>
    requires alone { IsAlone programme }
    requires few { IsFew programme }
    ensures value { IsAnswer (agreeing programme) result }
    ensures right { IfOk result IsRight }
{
    ids(alloc, programme.assets.as_slice())?;
    check_each(
        alloc,
        programme.assets.as_slice(),
        programme.assets.as_slice(),
    )?;
    check_each(
        alloc,
        programme.signals.as_slice(),
        programme.assets.as_slice(),
    )?;
    Ok(programme)
}
