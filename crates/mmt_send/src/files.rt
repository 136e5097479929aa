//! Reading the bytes of a unit from its file.

ghost use Rattle.std.specs.Prelude.{◌≡◌, ◌+◌, ◌<◌, ◌≤◌, ◌^◌, min, length, take, drop, IsTrue, IfOk, IfErr, OnOk};
ghost use Rattle.mmt_io.specs.Port.{Rose};
ghost use Rattle.mmt_plan.specs.Plan.{Stays};
ghost use Rattle.mmt_send.specs.Files.{bytes_in, bytes_of_unit, HasCause, IsSource};

use crate::ends::SendEnd;
use crate::sources::Source;
use mmt_io::{Shelf, ShelfFault};
use mmt_model::Programme;

/// Reads the bytes of a file from a place on, as many as fit and are there, and answers how many: none
/// where there is no such file.
fn read_file<H: Shelf>(shelf: &mut H, name: &str, at: u64, buf: &mut [u8]) -> Result<usize, SendEnd>
    ensures shelf { Stays (H.tells shelf.old) (H.tells shelf.new) (H.file shelf.old) (H.file shelf.new) (H.faults shelf.old)
        (H.faults shelf.new) }
    ensures fault { IfErr result (λ e. (e ≡ SendEnd.ReadFault) × Rose (H.faults shelf.old) (H.faults shelf.new)) }
    ensures within { IfOk result (λ n. n ≤ length buf.new) }
    ensures count { IsTrue (H.tells shelf.old) →
        IfOk result (λ n. n ≡ min (length buf.new) (length (drop at (bytes_in (H.file shelf.old name.now))))) }
    ensures bytes { IsTrue (H.tells shelf.old) →
        IfOk result (λ n. take n buf.new ≡ take n (drop at (bytes_in (H.file shelf.old name.now)))) }
{
    match shelf.read_at(name, at, buf) {
        Ok(count) => Ok(count),
        Err(ShelfFault::Absent) => Ok(0),
        Err(ShelfFault::Failed) => Err(SendEnd::ReadFault),
    }
}

/// How many bytes of a unit its file has, counted by reads of as many bytes as fit.
fn held<H: Shelf>(shelf: &mut H, source: &Source<'_>, buf: &mut [u8]) -> Result<u32, SendEnd>
    requires room { 1 ≤ length buf.old }
    requires from { source.now.unit.now.from ≤ 2 ^ 40 }
    ensures shelf { Stays (H.tells shelf.old) (H.tells shelf.new) (H.file shelf.old) (H.file shelf.new) (H.faults shelf.old)
        (H.faults shelf.new) }
    ensures fault { IfErr result (λ e. (e ≡ SendEnd.ReadFault) × Rose (H.faults shelf.old) (H.faults shelf.new)) }
    ensures count { IsTrue (H.tells shelf.old) →
        IfOk result (λ n. n ≡ length (bytes_of_unit (bytes_in (H.file shelf.old source.now.name.now)) source.now.unit.now)) }
{
    let length = source.unit.length;
    let mut got: u32 = 0;
    while got < length {
        let count = buf.len().min((length - got) as usize);
        let at = source.unit.from + got as u64;
        let there = read_file(shelf, source.name, at, &mut buf[..count])?;
        got += there as u32;
        if there < count {
            return Ok(got);
        }
    }
    Ok(got)
}

/// Reads the bytes of a unit from a place in it on, as many as the buffer has.
///
/// # Errors
///
/// `UnitShort` where the file is absent or ends before these bytes do, and `ReadFault`.
pub fn read_unit<H: Shelf>(
    programme: &Programme,
    source: &Source<'_>,
    shelf: &mut H,
    at: u32,
    buf: &mut [u8],
) -> Result<(), SendEnd>
    requires source { IsSource programme.now source.now }
    requires some { 1 ≤ length buf.old }
    requires from { source.now.unit.now.from ≤ 2 ^ 40 }
    requires within { at + length buf.old ≤ source.now.unit.now.length }
    ensures shelf { Stays (H.tells shelf.old) (H.tells shelf.new) (H.file shelf.old) (H.file shelf.new) (H.faults shelf.old)
        (H.faults shelf.new) }
    ensures cause { IfErr result (λ e. HasCause programme.now (H.tells shelf.old) (H.file shelf.old) (H.faults shelf.old)
        (H.faults shelf.new) e) }
    ensures bytes { IsTrue (H.tells shelf.old) →
        OnOk result (buf.new ≡ take (length buf.old)
        (drop at (bytes_of_unit (bytes_in (H.file shelf.old source.now.name.now)) source.now.unit.now))) }
    ensures there { IsTrue (H.tells shelf.old) →
        OnOk result (at + length buf.old ≤ length
        (bytes_of_unit (bytes_in (H.file shelf.old source.now.name.now)) source.now.unit.now)) }
{
    let there = read_file(shelf, source.name, source.unit.from + at as u64, buf)?;
    if there == buf.len() {
        return Ok(());
    }
    let got = held(shelf, source, buf)?;
    Err(SendEnd::UnitShort {
        unit: source.number,
        length: source.unit.length,
        got,
    })
}
