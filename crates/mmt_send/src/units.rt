//! The payloads of units: a part of one by itself, or several units of one MPU.

ghost use Rattle.std.specs.Prelude.{◌≡◌, ℕ, ◌+◌, ◌*◌, ◌<◌, ◌≤◌, ◌++◌, length, IsTrue, IfErr, OnOk};
ghost use Rattle.mmt_cast.specs.Casting.{cast_of};
ghost use Rattle.mmt_cast.specs.Placing.{all_units};
ghost use Rattle.mmt_cast.specs.Right.{unit_at};
ghost use Rattle.mmt_mpu.specs.Head.{view_unit};
ghost use Rattle.mmt_plan.specs.Plan.{Stays};
ghost use Rattle.mmt_send.specs.Carried.{HasCast, IsGroup, lone_written};
ghost use Rattle.mmt_send.specs.Files.{files_on, HasCause};
ghost use Rattle.mmt_send.specs.Held.{HasPart};
ghost use Rattle.mmt_sent.specs.Payloads.{bytes_of, written};
ghost use Rattle.mmt_sent.specs.Stream.{contents_sent};

use crate::ends::SendEnd;
use crate::files::read_unit;
use crate::sources::{Source, source_of};
use mmt_frag::{PartOf, write_part};
use mmt_io::Shelf;
use mmt_model::{Carries, Cast, Part, Programme};
use mmt_mpu::{DataUnit, MpuHead, MpuWriter, three_calls_write_the_payload};

/// A programme and its cast.
#[derive(Clone, Copy, Debug)]
pub struct Job<'a> {
    pub programme: &'a Programme,
    pub cast: &'a Cast,
}

/// A part of a unit in a payload by itself: the unit's number over the cast, the part's number from 0, which
/// part it is said to be, and how many follow (ISO/IEC 23008-1, the fragmentation indicator and the fragment
/// counter).
#[derive(Clone, Copy, Debug)]
pub struct Lone {
    pub unit: u32,
    pub number: u32,
    pub part: Part,
    pub left: u8,
}

/// Appends the payload of a part of a unit: 8 bytes of payload header, the unit's header, and the part's
/// bytes, which are read into `buf` (ISO/IEC 23008-1, the MPU payload).
///
/// # Errors
///
/// `UnitShort`, `ReadFault` and `OutOfMemory`.
pub fn put_lone<H: Shelf>(
    job: &Job<'_>,
    shelf: &mut H,
    lone: &Lone,
    buf: &mut [u8],
    out: &mut Vec<u8>,
) -> Result<(), SendEnd>
    requires job { HasCast job.now.programme.now job.now.cast.now }
    requires unit { lone.now.unit < length (all_units job.now.programme.now) }
    requires begins { lone.now.number * job.now.programme.now.limit < (unit_at job.now.programme.now lone.now.unit).value.length }
    requires room { length buf.old ≡ job.now.programme.now.limit }
    ensures shelf { Stays (H.tells shelf.old) (H.tells shelf.new) (H.file shelf.old) (H.file shelf.new) (H.faults shelf.old)
        (H.faults shelf.new) }
    ensures cause { IfErr result (λ e. HasCause job.now.programme.now (H.tells shelf.old) (H.file shelf.old) (H.faults shelf.old)
        (H.faults shelf.new) e) }
    ensures long { OnOk result (length out.new.items ≤ length out.old.items + 60022) }
    ensures payload { IsTrue (H.tells shelf.old) →
        OnOk result (out.new.items ≡ out.old.items ++ bytes_of
        (lone_written job.now.cast.now (contents_sent job.now.programme.now (files_on (H.file shelf.old) job.now.programme.now))
        lone.now.unit lone.now.number lone.now.part lone.now.left)) }
    ensures held { IsTrue (H.tells shelf.old) →
        OnOk result (HasPart job.now.programme.now (files_on (H.file shelf.old) job.now.programme.now) lone.now.unit
        lone.now.number) }
{
    let source = source_of(job.programme, job.cast, lone.unit);
    let limit = job.programme.limit;
    let from = lone.number * limit;
    let length = limit.min(source.unit.length - from);
    let count = length as usize;
    read_unit(job.programme, &source, shelf, from, &mut buf[..count])?;
    let cut = PartOf {
        from,
        length,
        part: lone.part,
        left: lone.left,
    };
    write_part(out, source.mpu, source.unit, &cut, &buf[..count])?;
    Ok(())
}

/// Units that go into one payload: the number of the first over the cast, and how many.
#[derive(Clone, Copy, Debug)]
pub struct Several {
    pub first: u32,
    pub count: u32,
}

// A data unit with these bytes. The place of its bytes is not written.
fn data_of<'a>(source: &Source<'_>, bytes: &'a [u8]) -> DataUnit<'a>
    ensures { view_unit result ≡ record {
      head = record
          { key = source.now.unit.now.key; priority = source.now.unit.now.priority; dependency = source.now.unit.now.dependency };
      from = 0;
      bytes = bytes.now;
    } }
{
    DataUnit {
        key: source.unit.key,
        priority: source.unit.priority,
        dependency: source.unit.dependency,
        from: 0,
        bytes,
    }
}

/// Appends the payload of several units of one MPU: 8 bytes of payload header, and each unit with two bytes
/// of length and its header; their bytes are read into `buf` one unit after the other (ISO/IEC 23008-1,
/// aggregated data units).
///
/// # Errors
///
/// `UnitShort`, `ReadFault` and `OutOfMemory`.
pub fn put_several<H: Shelf>(
    job: &Job<'_>,
    shelf: &mut H,
    several: &Several,
    buf: &mut [u8],
    out: &mut Vec<u8>,
) -> Result<(), SendEnd>
    requires job { HasCast job.now.programme.now job.now.cast.now }
    requires group { IsGroup job.now.programme.now several.now.first several.now.count }
    requires room { length buf.old ≡ job.now.programme.now.limit }
    ensures shelf { Stays (H.tells shelf.old) (H.tells shelf.new) (H.file shelf.old) (H.file shelf.new) (H.faults shelf.old)
        (H.faults shelf.new) }
    ensures cause { IfErr result (λ e. HasCause job.now.programme.now (H.tells shelf.old) (H.file shelf.old) (H.faults shelf.old)
        (H.faults shelf.new) e) }
    ensures long { OnOk result (length out.new.items ≤ length out.old.items + 60022) }
    ensures payload { IsTrue (H.tells shelf.old) →
        OnOk result (out.new.items ≡ out.old.items ++ bytes_of
        (written job.now.cast.now (contents_sent job.now.programme.now (files_on (H.file shelf.old) job.now.programme.now))
        (Carries.Group several.now.first several.now.count))) }
    ensures held { IsTrue (H.tells shelf.old) →
        OnOk result ((u : ℕ) → several.now.first ≤ u → u < several.now.first + several.now.count → HasPart job.now.programme.now
        (files_on (H.file shelf.old) job.now.programme.now) u 0) }
{
    let first = source_of(job.programme, job.cast, several.first);
    let head = MpuHead {
        timed: first.timed,
        part: Part::Whole,
        aggregated: true,
        counter: 0,
        mpu: first.mpu,
    };
    let mut writer = MpuWriter::begin(out, &head)?;
    for k in 0..several.count {
        let source = source_of(job.programme, job.cast, several.first + k);
        let count = source.unit.length as usize;
        read_unit(job.programme, &source, shelf, 0, &mut buf[..count])?;
        let data = data_of(&source, &buf[..count]);
        writer.unit(out, &data)?;
    }
    three_calls_write_the_payload();
    writer.end(out);
    Ok(())
}
