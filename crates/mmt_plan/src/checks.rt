//! Whether the files of a programme are there and long enough.

ghost use Rattle.std.specs.Prelude.{◌≡◌, ◌≤◌, ◌<◌, ◌^◌, ℕ, Bool, length, is_some, IsErrOf, IsTrue, IfOk, IfErr};
ghost use Rattle.std.specs.List.{All};
ghost use Rattle.mmt_io.specs.Port.{Rose};
ghost use Rattle.mmt_plan.specs.Files.{IsMpuOfFile, IsUnitOfFile, EndsBy, MpuEndsBy, has_bytes, check_unit, check_mpu, check_asset_at, files_of, IsFilesAnswer};
ghost use Rattle.mmt_model.specs.Right.{IsRight};
ghost use Rattle.mmt_plan.specs.Plan.{Stays};
ghost use Rattle.mmt_plan.specs.Wholes.{each_checked};

use crate::ends::{FilesEnd, PlanPart, Reason, Refusal};
use crate::spots::Spot;
use crate::tops::top_spot;
use mmt_io::{Shelf, ShelfFault};
use mmt_model::{Asset, Mpu, Programme, Unit};

impl From<Refusal> for FilesEnd {
    ghost use Rattle.mmt_plan.specs.declared.ends.FilesEnd.TheVariants as ends;

    ghost from_gives = { λ r e. e ≡ ends.Refused r.reason r.place };

    fn from(refusal: Refusal) -> FilesEnd {
        FilesEnd::Refused {
            reason: refusal.reason,
            place: refusal.place,
        }
    }
}

// Whether the file of a name is there.
fn is_there<H: Shelf>(shelf: &mut H, name: &str) -> Result<bool, FilesEnd>
    ensures shelf { Stays (H.tells shelf.old) (H.tells shelf.new) (H.file shelf.old) (H.file shelf.new) (H.faults shelf.old) (H.faults shelf.new) }
    ensures fault { IfErr result (λ e. (e ≡ FilesEnd.ReadFault) × Rose (H.faults shelf.old) (H.faults shelf.new)) }
    ensures there { IsTrue (H.tells shelf.old) → IfOk result (λ b. b ≡ is_some (H.file shelf.old name.now)) }
{
    let mut byte = [0u8; 1];
    match shelf.read_at(name, 0, &mut byte) {
        Ok(_) => Ok(true),
        Err(ShelfFault::Absent) => Ok(false),
        Err(ShelfFault::Failed) => Err(FilesEnd::ReadFault),
    }
}

// Whether the file of a name is there and has this many bytes.
fn has_bytes<H: Shelf>(shelf: &mut H, name: &str, count: u64) -> Result<bool, FilesEnd>
    requires { 1 ≤ count }
    ensures shelf { Stays (H.tells shelf.old) (H.tells shelf.new) (H.file shelf.old) (H.file shelf.new) (H.faults shelf.old) (H.faults shelf.new) }
    ensures fault { IfErr result (λ e. (e ≡ FilesEnd.ReadFault) × Rose (H.faults shelf.old) (H.faults shelf.new)) }
    ensures bytes { IsTrue (H.tells shelf.old) → IfOk result (λ b. b ≡ has_bytes (H.file shelf.old name.now) count) }
{
    let mut byte = [0u8; 1];
    match shelf.read_at(name, count - 1, &mut byte) {
        Ok(got) => Ok(got == 1),
        Err(ShelfFault::Absent) => Ok(false),
        Err(ShelfFault::Failed) => Err(FilesEnd::ReadFault),
    }
}

// That the file of a name has the bytes of a unit.
#[tactic(auto, unfolding(crate::specs::Files::check_unit))]
fn unit<H: Shelf>(
    shelf: &mut H,
    name: &str,
    unit: &Unit,
    spot: Spot,
    number: u32,
) -> Result<(), FilesEnd>
    requires from { unit.now.from ≤ 2 ^ 40 }
    requires length { 1 ≤ unit.now.length }
    ensures shelf { Stays (H.tells shelf.old) (H.tells shelf.new) (H.file shelf.old) (H.file shelf.new) (H.faults shelf.old) (H.faults shelf.new) }
    ensures fault { IsErrOf result FilesEnd.ReadFault → Rose (H.faults shelf.old) (H.faults shelf.new) }
    ensures unit { IsTrue (H.tells shelf.old) → IsFilesAnswer (check_unit (H.file shelf.old name.now) spot number unit.now) result }
{
    let end = unit.from + unit.length as u64;
    if has_bytes(shelf, name, end)? {
        Ok(())
    } else {
        let spot = spot.inner(PlanPart::Unit, number);
        Err(spot.refused(Reason::UnitShort, 3).into())
    }
}

// That the file of a name has the bytes of the units of an MPU.
fn units<H: Shelf>(shelf: &mut H, name: &str, units: &[Unit], spot: Spot) -> Result<(), FilesEnd>
    requires few { length units.now < 2 ^ 32 }
    requires right { All IsUnitOfFile units.now }
    ensures shelf { Stays (H.tells shelf.old) (H.tells shelf.new) (H.file shelf.old) (H.file shelf.new) (H.faults shelf.old) (H.faults shelf.new) }
    ensures fault { IsErrOf result FilesEnd.ReadFault → Rose (H.faults shelf.old) (H.faults shelf.new) }
    ensures units { IsTrue (H.tells shelf.old) → IsFilesAnswer (each_checked (check_unit (H.file shelf.old name.now) spot) 0 units.now) result }
{
    let mut number = 0u32;
    for item in units {
        match unit(shelf, name, item, spot, number) {
            Ok(()) => {}
            Err(end) => return Err(end),
        }
        number += 1;
    }
    Ok(())
}

// That the file of a name has the bytes of an MPU.
#[tactic(auto, unfolding(crate::specs::Files::check_mpu))]
fn mpu<H: Shelf>(
    shelf: &mut H,
    name: &str,
    mpu: &Mpu,
    spot: Spot,
    number: u32,
) -> Result<(), FilesEnd>
    requires few { length mpu.now.units < 2 ^ 32 }
    requires right { All IsUnitOfFile mpu.now.units }
    ensures shelf { Stays (H.tells shelf.old) (H.tells shelf.new) (H.file shelf.old) (H.file shelf.new) (H.faults shelf.old) (H.faults shelf.new) }
    ensures fault { IsErrOf result FilesEnd.ReadFault → Rose (H.faults shelf.old) (H.faults shelf.new) }
    ensures mpu { IsTrue (H.tells shelf.old) → IsFilesAnswer (check_mpu (H.file shelf.old name.now) spot number mpu.now) result }
{
    units(
        shelf,
        name,
        mpu.units.as_slice(),
        spot.inner(PlanPart::Mpu, number),
    )
}

// That the file of a name has the bytes of the MPUs of an asset.
fn mpus<H: Shelf>(shelf: &mut H, name: &str, mpus: &[Mpu], spot: Spot) -> Result<(), FilesEnd>
    requires few { length mpus.now < 2 ^ 32 }
    requires right { All IsMpuOfFile mpus.now }
    ensures shelf { Stays (H.tells shelf.old) (H.tells shelf.new) (H.file shelf.old) (H.file shelf.new) (H.faults shelf.old) (H.faults shelf.new) }
    ensures fault { IsErrOf result FilesEnd.ReadFault → Rose (H.faults shelf.old) (H.faults shelf.new) }
    ensures mpus { IsTrue (H.tells shelf.old) → IsFilesAnswer (each_checked (check_mpu (H.file shelf.old name.now) spot) 0 mpus.now) result }
{
    let mut number = 0u32;
    for item in mpus {
        match mpu(shelf, name, item, spot, number) {
            Ok(()) => {}
            Err(end) => return Err(end),
        }
        number += 1;
    }
    Ok(())
}

// That the file of an asset is there and has the bytes of its units, asked unit by unit.
#[tactic(auto, unfolding(crate::specs::Files::check_asset_at, crate::specs::Files::is_there))]
fn asset_in_parts<H: Shelf>(
    shelf: &mut H,
    name: &str,
    asset: &Asset,
    spot: Spot,
) -> Result<(), FilesEnd>
    requires few { length asset.now.mpus < 2 ^ 32 }
    requires right { All IsMpuOfFile asset.now.mpus }
    ensures shelf { Stays (H.tells shelf.old) (H.tells shelf.new) (H.file shelf.old) (H.file shelf.new) (H.faults shelf.old) (H.faults shelf.new) }
    ensures fault { IsErrOf result FilesEnd.ReadFault → Rose (H.faults shelf.old) (H.faults shelf.new) }
    ensures asset { IsTrue (H.tells shelf.old) → IsFilesAnswer (check_asset_at (H.file shelf.old name.now) spot asset.now) result }
{
    if !is_there(shelf, name)? {
        return Err(spot.refused(Reason::FileAbsent, 6).into());
    }
    mpus(shelf, name, asset.mpus.as_slice(), spot)
}

// Where the units of an MPU end in their file at the latest, or 1.
fn end_of_units(units: &[Unit]) -> u64
    requires { All IsUnitOfFile units.now }
    ensures some { 1 ≤ result }
    ensures ends { All (EndsBy result) units.now }
{
    let mut end = 1;
    for unit in units {
        end = end.max(unit.from + unit.length as u64);
    }
    end
}

// Where the units of an asset end in their file at the latest, or 1.
fn end_of_mpus(mpus: &[Mpu]) -> u64
    requires { All IsMpuOfFile mpus.now }
    ensures some { 1 ≤ result }
    ensures ends { All (MpuEndsBy result) mpus.now }
{
    let mut end = 1;
    for mpu in mpus {
        end = end.max(end_of_units(mpu.units.as_slice()));
    }
    end
}

// That the file of an asset is there and has the bytes of its units. A file that has the byte where they
// all have ended is asked for no other.
fn asset<H: Shelf>(shelf: &mut H, name: &str, asset: &Asset, spot: Spot) -> Result<(), FilesEnd>
    requires few { length asset.now.mpus < 2 ^ 32 }
    requires right { All IsMpuOfFile asset.now.mpus }
    ensures shelf { Stays (H.tells shelf.old) (H.tells shelf.new) (H.file shelf.old) (H.file shelf.new) (H.faults shelf.old) (H.faults shelf.new) }
    ensures fault { IsErrOf result FilesEnd.ReadFault → Rose (H.faults shelf.old) (H.faults shelf.new) }
    ensures asset { IsTrue (H.tells shelf.old) → IsFilesAnswer (check_asset_at (H.file shelf.old name.now) spot asset.now) result }
{
    let end = end_of_mpus(asset.mpus.as_slice());
    if has_bytes(shelf, name, end)? {
        return Ok(());
    }
    asset_in_parts(shelf, name, asset, spot)
}

/// Whether the files of a right programme are there and long enough. It takes no memory.
///
/// `Refused` carries the first reason why not, asset by asset, and its place. `ReadFault` comes only
/// where the count of faults rose.
pub fn check_files<H: Shelf>(shelf: &mut H, programme: &Programme) -> Result<(), FilesEnd>
    requires { IsRight programme.now }
    ensures shelf { Stays (H.tells shelf.old) (H.tells shelf.new) (H.file shelf.old) (H.file shelf.new) (H.faults shelf.old) (H.faults shelf.new) }
    ensures fault { IsErrOf result FilesEnd.ReadFault → Rose (H.faults shelf.old) (H.faults shelf.new) }
    ensures files { IsTrue (H.tells shelf.old) → IsFilesAnswer (files_of (H.file shelf.old) programme.now) result }
{
    let files = programme.files.as_slice();
    let mut number = 0u32;
    for item in programme.assets.as_slice() {
        let spot = top_spot().inner(PlanPart::Asset, number);
        let name = files[item.file as usize].as_str();
        match asset(shelf, name, item, spot) {
            Ok(()) => {}
            Err(end) => return Err(end),
        }
        number += 1;
    }
    Ok(())
}
