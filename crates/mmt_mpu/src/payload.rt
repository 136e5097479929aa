//! A payload that was read.

ghost use Rattle.std.specs.Prelude.{◌≡◌, ◌+◌, ◌<◌, ◌^◌, length, not};
ghost use Rattle.mmt_mpu.specs.Left.{left};

use crate::types::MpuHead;
use crate::units::Units;

/// An MPU payload, whose units are lent from the bytes that it was read from.
#[derive(Clone, Copy, Debug)]
pub struct MpuPayload<'a> {
    pub(crate) head: MpuHead,
    pub(crate) body: &'a [u8],
    pub(crate) count: u32,
    ghost short: { 8 + length body.now < 2 ^ 31 },
    ghost counted: { count ≡ length (left (not head.aggregated) head.timed 8 body.now) },
}

impl<'a> MpuPayload<'a> {
    ghost use Rattle.std.specs.Prelude.{◌≡◌, length};
    ghost use Rattle.mmt_mpu.specs.View.{view, units_left};

    /// What the payload says of all its units.
    pub fn head(&self) -> MpuHead
        ensures { result ≡ (view self.now).head }
    {
        self.head
    }

    /// How many units there are: one, or any number where the payload is aggregated.
    pub fn count(&self) -> u32
        ensures { result ≡ length (view self.now).units }
    {
        self.count
    }

    /// The units, from first to last. It takes no memory.
    pub fn units(&self) -> Units<'a>
        ensures { units_left result ≡ (view self.now).units }
    {
        Units {
            lone: !self.head.aggregated,
            timed: self.head.timed,
            at: 8,
            rest: self.body,
        }
    }
}
