//! A pair of an MPU timestamp descriptor.

use mmt_base::Ntp;

/// An MPU's sequence number and its presentation time (ARIB STD-B60, MPU timestamp descriptor).
#[derive(Clone, Copy, Debug)]
pub(crate) struct Pair {
    pub mpu: u32,
    pub time: Ntp,
}
