//! A programme, its files and a delivery.

ghost use Rattle.std.specs.Prelude.{◌≡◌, ◌<◌, ◌^◌, ℕ, List as Items, [], length, None, IfOk};
ghost use Rattle.mmt_cast.specs.Casting.{cast_of as cast_by};
ghost use Rattle.mmt_cast.specs.Refusing.{refusal};
ghost use Rattle.mmt_io.specs.Shelf.{file_in};
ghost use Rattle.mmt_made.specs.Generator.{delivery as made_delivery, made_file, made_programme};
ghost use Rattle.mmt_model.specs.Admission.{fault};
ghost use Rattle.mmt_model.specs.Received.{IsNear};
ghost use Rattle.mmt_model.specs.Right.{IsRight};
ghost use Rattle.mmt_model.specs.Survival.{AreOf};

use crate::dropping::delivery;
use crate::filling::shelf;
use crate::goods::Made;
use crate::programmes::programme;
use mmt_base::OutOfMemory;
use mmt_casting::{CastEnd, cast_of};
use mmt_model::{Cast, Programme};
use std::alloc::Global;

/// The cast of a right programme whose plan is not refused.
///
/// # Errors
///
/// There is no memory.
pub fn cast_of_made(alloc: Global, programme: &Programme) -> Result<Cast, OutOfMemory>
    requires right { IsRight programme.now }
    requires none { refusal programme.now ≡ None }
    ensures { IfOk result (λ cast. cast ≡ cast_by programme.now) }
{
    match cast_of(alloc, programme) {
        Ok(cast) => Ok(cast),
        Err(CastEnd::OutOfMemory) => Err(OutOfMemory),
        Err(CastEnd::TimeRange { .. }) => unreachable!(),
        Err(CastEnd::TableLong { .. }) => unreachable!(),
        Err(CastEnd::CastLong { .. }) => unreachable!(),
    }
}

/// How many packets the cast of such a programme has.
fn count_of(alloc: Global, programme: &Programme) -> Result<u32, OutOfMemory>
    requires right { IsRight programme.now }
    requires none { refusal programme.now ≡ None }
    ensures { IfOk result (λ count. count ≡ length (cast_by programme.now).packets) }
{
    let cast = match cast_of_made(alloc, programme) {
        Ok(cast) => cast,
        Err(refused) => return Err(refused),
    };
    let count = cast.packets.len() as u32;
    Ok(count)
}

/// Makes a programme of 60 seconds, its files and a delivery of its cast from a number. The programme is always the same,
/// the bytes of its files and which packets are lost come from the number. The plan of the programme is not refused, its cast
/// is admitted, and the delivery is near. It takes the memory of the files, of the programme and of its cast.
///
/// # Errors
///
/// There is no memory.
pub fn made(alloc: Global, seed: u16) -> Result<Made, OutOfMemory>
    ensures programme { IfOk result (λ made. made.programme ≡ made_programme) }
    ensures right { IfOk result (λ made. IsRight made.programme) }
    ensures none { IfOk result (λ made. refusal made.programme ≡ None) }
    ensures admitted { IfOk result (λ made. fault (cast_by made.programme) ≡ None) }
    ensures files { IfOk result (λ made. (name : Items ℕ) → file_in made.shelf.files name ≡ made_file seed name) }
    ensures failing { IfOk result (λ made. made.shelf.failing ≡ []) }
    ensures deliveries { IfOk result (λ made. made.deliveries ≡ made_delivery seed (length (cast_by made_programme).packets)) }
    ensures of { IfOk result (λ made. AreOf (cast_by made.programme).packets made.deliveries) }
    ensures few { IfOk result (λ made. length made.deliveries < 2 ^ 32) }
    ensures near { IfOk result (λ made. IsNear (cast_by made.programme) made.programme.full_every made.deliveries) }
{
    let programme = programme(alloc)?;
    let count = count_of(alloc, &programme)?;
    let shelf = shelf(alloc, seed)?;
    let deliveries = delivery(alloc, seed, count)?;
    Ok(Made {
        programme,
        shelf,
        deliveries,
    })
}
