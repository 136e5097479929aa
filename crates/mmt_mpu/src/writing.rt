//! Writing a payload unit by unit, its length last.

ghost use Rattle.std.specs.Prelude.{◌≡◌, ◌+◌, ◌≤◌, ◌++◌, length, vec_len, vec_capacity};
ghost use Rattle.mmt_mpu.specs.Spelling.{head_bytes, head_length as length_of, HeadFits, flags as flags_of};
ghost use Rattle.mmt_mpu.specs.Head.{view_unit};
ghost use Rattle.mmt_mpu.specs.Writing.{unit_length as length_by, FitsKind, CallsWriteThePayload, WrittenIsRead};

use crate::head::head_length;
use crate::types::{DataUnit, MpuHead};
use mmt_base::OutOfMemory;
use mmt_fields::{patch_u16, put_bytes, put_u8, put_u16, put_u32};
use mmt_model::UnitKey;
use std::marker::Model;

/// A payload that is being written at the end of a vector: where it begins there, its header, how
/// many units it has so far, and how many bytes.
#[derive(Drop)]
pub struct MpuWriter {
    start: usize,
    head: MpuHead,
    units: u32,
    bytes: u32,
}

impl Model for MpuWriter {
    ghost use Rattle.std.specs.Prelude.{◌+◌, ◌≤◌};
    ghost use Rattle.mmt_mpu.specs.Writing.{Kept};

    ghost Value = { Kept };

    ghost view = { λ w. record { start = w.start; head = w.head; units = w.units; bytes = w.bytes } };

    ghost invariant = { λ w. (w.units + 8 ≤ w.bytes) × (w.bytes ≤ 65537) };
}

/// The byte of the fragment type and the flags.
fn flags(head: &MpuHead) -> u8
    ensures { result ≡ flags_of head.now }
{
    32 + 8 * u8::from(head.timed) + 2 * head.part.indicator() + u8::from(head.aggregated)
}

/// Appends the unit's header.
#[tactic(auto, using(std::proofs::Common::append_assoc), unfolding(crate::specs::Spelling::head_bytes))]
fn put_head(out: &mut Vec<u8>, timed: bool, unit: &DataUnit<'_>)
    requires kind { FitsKind timed (view_unit unit.now).head }
    requires room { vec_len out.old + length_of timed ≤ vec_capacity out.old }
    ensures items { out.new.items ≡ out.old.items ++ head_bytes timed (view_unit unit.now).head }
    ensures fits { HeadFits timed (view_unit unit.now).head }
    ensures len { vec_len out.new ≡ vec_len out.old + length_of timed }
    ensures capacity { vec_capacity out.old ≤ vec_capacity out.new }
{
    match unit.key {
        UnitKey::Timed {
            movie_fragment,
            sample,
            offset,
        } => {
            put_u32(out, movie_fragment);
            put_u32(out, sample);
            put_u32(out, offset);
            put_u8(out, unit.priority);
            put_u8(out, unit.dependency);
        }
        UnitKey::Item { item } => put_u32(out, item),
    }
}

/// How many bytes the unit takes in the payload.
fn unit_length(aggregated: bool, timed: bool, unit: &DataUnit<'_>) -> usize
    requires { length unit.now.bytes.now ≤ 65537 }
    ensures { result ≡ length_by aggregated timed (view_unit unit.now) }
{
    let length = head_length(timed) as usize + unit.bytes.len();
    if aggregated { 2 + length } else { length }
}

impl MpuWriter {
    ghost use Rattle.std.specs.Prelude.{◌≡◌, ◌+◌, ◌<◌, ◌≤◌, ◌^◌, ◌++◌, length, IfOk, OnOk, OnErr};
    ghost use Rattle.mmt_model.specs.Parts.{IsWholeIf};
    ghost use Rattle.mmt_mpu.specs.Spelling.{HeadFits};
    ghost use Rattle.mmt_mpu.specs.Head.{view_unit};
    ghost use Rattle.mmt_mpu.specs.Writing.{written_unit, unit_length, begun, ended, FitsKind, HasRoom, IsFull};

    /// Appends the eight bytes of the header, with a payload length of 0. The part is `Whole` where
    /// the payload is aggregated.
    ///
    /// # Errors
    ///
    /// `OutOfMemory`, which leaves `out` as it was.
    #[tactic(auto, using(std::proofs::Common::append_assoc), unfolding(crate::specs::Writing::begun))]
    pub fn begin(out: &mut Vec<u8>, head: &MpuHead) -> Result<MpuWriter, OutOfMemory>
        requires { IsWholeIf head.now.aggregated head.now.part }
        // What is appended, and what the writer keeps.
        ensures ok { OnOk result (out.new.items ≡ begun out.old.items head.now) }
        ensures keeps { IfOk result (λ w. w ≡ record { start = length out.old.items; head = head.now; units = 0; bytes = 8 }) }
        // `out` ends with what was written.
        ensures place { IfOk result (λ w. length out.new.items ≡ w.start + w.bytes) }
        // The numbers have room in their fields.
        ensures fits { OnOk result ((head.now.counter < 2 ^ 8) × (head.now.mpu < 2 ^ 32)) }
        // What a refusal leaves.
        ensures err { OnErr result (out.new.items ≡ out.old.items) }
    {
        let start = out.len();
        out.reserve(8)?;
        put_u16(out, 0);
        put_u8(out, flags(head));
        put_u8(out, head.counter);
        put_u32(out, head.mpu);
        Ok(MpuWriter {
            start,
            head: *head,
            units: 0,
            bytes: 8,
        })
    }

    /// Appends a unit, and before it its length where the payload is aggregated. `out` ends with what
    /// was written so far. The key is of the kind that the header says, and an item has priority and
    /// dependency 0. A payload that is not aggregated has no unit yet. With this unit the payload has
    /// at most 65,537 bytes.
    ///
    /// # Errors
    ///
    /// `OutOfMemory`, which leaves `out` and the writer as they were.
    #[tactic(auto, using(std::proofs::Common::append_assoc), unfolding(crate::specs::Spelling::unit_bytes, crate::specs::Spelling::lone_bytes))]
    pub fn unit(&mut self, out: &mut Vec<u8>, unit: &DataUnit<'_>) -> Result<(), OutOfMemory>
        requires place { length out.old.items ≡ self.old.start + self.old.bytes }
        requires kind { FitsKind self.old.head.timed (view_unit unit.now).head }
        requires room { HasRoom self.old.head.aggregated self.old.units }
        requires len { self.old.bytes + unit_length self.old.head.aggregated self.old.head.timed (view_unit unit.now) ≤ 65537 }
        // What is appended, and what the writer keeps.
        ensures ok { OnOk result (out.new.items ≡ out.old.items ++ written_unit self.old.head.aggregated self.old.head.timed (view_unit unit.now)) }
        ensures keeps { OnOk result (self.new ≡ record { start = self.old.start; head = self.old.head; units = self.old.units + 1; bytes = self.old.bytes + unit_length self.old.head.aggregated self.old.head.timed (view_unit unit.now) }) }
        // `out` ends with what was written.
        ensures place { OnOk result (length out.new.items ≡ self.new.start + self.new.bytes) }
        // The numbers have room in their fields.
        ensures fits { OnOk result (HeadFits self.old.head.timed (view_unit unit.now).head) }
        // What a refusal leaves.
        ensures err { OnErr result ((out.new.items ≡ out.old.items) × (self.new ≡ self.old)) }
    {
        let timed = self.head.timed;
        let length = unit_length(self.head.aggregated, timed, unit);
        out.reserve(length)?;
        if self.head.aggregated {
            put_u16(out, (length - 2) as u16);
        }
        put_head(out, timed, unit);
        put_bytes(out, unit.bytes);
        self.units += 1;
        self.bytes += length as u32;
        Ok(())
    }

    /// Writes the payload length over the first two bytes of the payload: the count of the bytes after
    /// them. `out` ends with what was written so far. A payload that is not aggregated has one unit.
    #[tactic(auto, unfolding(crate::specs::Writing::ended))]
    pub fn end(self, out: &mut Vec<u8>)
        requires place { length out.old.items ≡ self.start + self.bytes }
        requires full { IsFull self.head.aggregated self.units }
        ensures { out.new.items ≡ ended self.start self.bytes out.old.items }
    {
        patch_u16(out, self.start, (self.bytes - 2) as u16);
    }
}

/// What `begin`, then `unit` for each unit, then `end` append is the payload, by its one spelling, and
/// is read back as that payload.
pub fn three_calls_write_the_payload()
    ensures spelled { CallsWriteThePayload }
    ensures read { WrittenIsRead }
{}
