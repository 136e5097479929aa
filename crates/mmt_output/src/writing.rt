//! The record of a media unit, written part by part.

ghost use Rattle.std.specs.Prelude.{◌≡◌, ◌≤◌, [], IsTrue, IsErr};
ghost use Rattle.mmt_io.specs.Port.{OnlySends, Rose};
ghost use Rattle.mmt_runs.specs.Lending.{the_presentation};
ghost use Rattle.mmt_io.specs.Output.{Writes};
ghost use Rattle.mmt_output.specs.Records.{record_of};

use crate::headers::header;
use mmt_io::{Fault, Port};
use mmt_runs::UnitParts;

// Writes the bytes by one call of the port, where there are any, otherwise by none.
fn write_part<P: Port>(port: &mut P, part: &[u8]) -> Result<(), Fault>
    ensures sends { OnlySends P.tells P.left P.read_faults P.write_faults port.old port.new }
    ensures cause { IsErr result → Rose (P.write_faults port.old) (P.write_faults port.new) }
    ensures put { Writes P.tells P.history port.old port.new part.now result }
    ensures empty { IsTrue (P.tells port.old) → part.now ≡ [] → P.history port.new ≡ P.history port.old }
{
    if part.is_empty() {
        return Ok(());
    }
    match port.write(part) {
        Ok(()) => Ok(()),
        Err(fault) => Err(fault),
    }
}

/// Writes the record of a unit of which no part was lent yet: its header, and then its bytes as they
/// are lent, each part by one call of the port.
///
/// # Errors
///
/// The port failed, and wrote a prefix of the record.
pub fn write_unit<P: Port>(port: &mut P, unit: UnitParts<'_>) -> Result<(), Fault>
    ensures sends { OnlySends P.tells P.left P.read_faults P.write_faults port.old port.new }
    ensures cause { IsErr result → Rose (P.write_faults port.old) (P.write_faults port.new) }
    ensures put { Writes P.tells P.history port.old port.new (record_of (the_presentation unit.entry)) result }
{
    let mut unit = unit;
    let order = unit.order();
    let front = header(&order, unit.priority(), unit.dependency(), unit.length());
    match port.write(&front) {
        Ok(()) => {}
        Err(fault) => return Err(fault),
    }
    'parts: while let Some(part) = unit.next() {
        match write_part(port, part) {
            Ok(()) => {}
            Err(fault) => return Err(fault),
        }
    }
    Ok(())
}
