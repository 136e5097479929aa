//! Writing a part of a unit as an MPU payload.

ghost use Rattle.std.specs.Prelude.{◌≡◌, ◌≤◌, ◌++◌, length, OnOk, OnErr, Ok};
ghost use Rattle.mmt_frag.specs.Fragments.{part_payload, is_timed as timed_of, IsPlainItem};
ghost use Rattle.mmt_mpu.specs.Reading.{payload_of};
ghost use Rattle.mmt_mpu.specs.Spelling.{spelling};

use crate::cutting::PartOf;
use mmt_base::OutOfMemory;
use mmt_model::{Unit, UnitKey};
use mmt_mpu::{DataUnit, MpuHead, MpuWriter, three_calls_write_the_payload};

/// Appends a part of a unit of MPU number `mpu` as a whole MPU payload: 8 bytes of payload header, the unit's
/// header of 14 bytes for timed media and 4 for an item, and the part's bytes, at most 60,000 (ISO/IEC 23008-1,
/// the MPU payload). Each part has the unit's header.
///
/// # Errors
///
/// `OutOfMemory`, which leaves `out` as it was.
pub fn write_part(
    out: &mut Vec<u8>,
    mpu: u32,
    unit: &Unit,
    cut: &PartOf,
    bytes: &[u8],
) -> Result<(), OutOfMemory>
    requires length { length bytes.now ≡ cut.now.length }
    requires short { length bytes.now ≤ 60000 }
    requires item { IsPlainItem unit.now.key unit.now.priority unit.now.dependency }
    ensures ok { OnOk result (out.new.items ≡ out.old.items ++ spelling (part_payload mpu unit.now cut.now bytes.now)) }
    ensures read { OnOk result (payload_of (spelling (part_payload mpu unit.now cut.now bytes.now)) ≡ Ok (part_payload mpu unit.now cut.now bytes.now)) }
    ensures refused { OnErr result (out.new.items ≡ out.old.items) }
{
    let start = out.len();
    let timed = is_timed(unit.key);
    let head = MpuHead {
        timed,
        part: cut.part,
        aggregated: false,
        counter: cut.left,
        mpu,
    };
    let mut writer = MpuWriter::begin(out, &head)?;
    let data = DataUnit {
        key: unit.key,
        priority: unit.priority,
        dependency: unit.dependency,
        from: if timed { 22 } else { 12 },
        bytes,
    };
    three_calls_write_the_payload();
    match writer.unit(out, &data) {
        Ok(()) => {
            writer.end(out);
            Ok(())
        }
        Err(e) => {
            out.truncate(start);
            Err(e)
        }
    }
}

/// Whether a key is one of timed media.
fn is_timed(key: UnitKey) -> bool
    ensures { result ≡ timed_of key }
{
    match key {
        UnitKey::Timed { .. } => true,
        UnitKey::Item { .. } => false,
    }
}
