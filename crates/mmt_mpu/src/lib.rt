//! MPU payloads (ISO/IEC 23008-1, the payload header for MPU mode): reading the header and lending
//! the data units, and writing a payload unit by unit.
#![tactic(auto)]

mod head;
mod payload;
mod reading;
#[cfg(test)]
mod tests;
mod types;
mod units;
mod writing;

pub use payload::MpuPayload;
pub use reading::read_mpu;
pub use types::{DataUnit, MpuHead, MpuWhy};
pub use units::Units;
pub use writing::{MpuWriter, three_calls_write_the_payload};
