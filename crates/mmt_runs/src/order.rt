//! The order in which units are handed out.

use mmt_base::Ntp;
use mmt_model::UnitKey;

/// The place of a unit in the order in which units are handed out: by time, then packet id, then
/// the number of its MPU, then its key, where an item comes before a unit of timed media, then the
/// number of its first packet, and last its place in that packet.
#[derive(Clone, Copy, Debug, PartialEq, Eq)]
pub struct UnitOrder {
    /// The unit's time, in units of 2^-32 second.
    pub time: Ntp,
    /// The packet id of its packets.
    pub packet_id: u16,
    /// The sequence number of its MPU.
    pub mpu: u32,
    /// Which unit of its MPU it is.
    pub key: UnitKey,
    /// The packet sequence number of the packet that it begins in.
    pub first_number: u32,
    /// Its place among the data units of that packet, the first being at 0.
    pub place: u32,
}
