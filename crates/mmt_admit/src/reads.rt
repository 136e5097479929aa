//! What stands at a place of a cast.

ghost use Rattle.std.specs.Prelude.{◌≡◌, ◌<◌, ◌^◌, length, get_or};
ghost use Rattle.mmt_admit.specs.Faults.{PacketsFit};
ghost use Rattle.mmt_model.specs.Carrying.{sent_mpu, sent_unit, table_copy};
ghost use Rattle.mmt_model.specs.Survival.{length_of, no_packet, sent_at};

use mmt_model::{Cast, Sent, SentMpu, SentUnit};

/// The timestamp of the packet at this place.
#[tactic(auto, unfolding(mmt_model::specs::Survival::sent_at))]
pub(crate) fn tick_at(packets: &[Sent], n: usize) -> u64
    requires fit { PacketsFit packets.now }
    requires place { n < length packets.now }
    ensures value { result ≡ sent_at packets.now n }
    ensures short { result < 2 ^ 60 }
{
    packets[n].at.0
}

/// The payload length of the packet at this place.
#[tactic(auto, unfolding(mmt_model::specs::Survival::length_of))]
pub(crate) fn bytes_at(packets: &[Sent], n: usize) -> u32
    requires { n < length packets.now }
    ensures value { result ≡ length_of packets.now n }
    ensures short { result < 2 ^ 32 }
{
    packets[n].length
}

/// The packet id of the packet at this place.
pub(crate) fn id_at(packets: &[Sent], n: usize) -> u16
    requires { n < length packets.now }
    ensures { result ≡ (get_or packets.now n no_packet).packet_id }
{
    packets[n].packet_id
}

/// The number of the packet at this place.
pub(crate) fn number_at(packets: &[Sent], n: usize) -> u32
    requires { n < length packets.now }
    ensures { result ≡ (get_or packets.now n no_packet).number }
{
    packets[n].number
}

/// A number in 64 bits.
pub(crate) fn widened(n: u32) -> u64
    ensures value { result ≡ n }
    ensures short { result < 2 ^ 32 }
{
    n as u64
}

/// The unit at this place.
#[tactic(auto, unfolding(mmt_model::specs::Carrying::sent_unit))]
pub(crate) fn unit_at(cast: &Cast, u: usize) -> SentUnit
    requires { u < length cast.now.units }
    ensures { result ≡ sent_unit cast.now u }
{
    cast.units.as_slice()[u]
}

/// The MPU at this place.
#[tactic(auto, unfolding(mmt_model::specs::Carrying::sent_mpu))]
pub(crate) fn mpu_at(cast: &Cast, m: usize) -> SentMpu
    requires { m < length cast.now.mpus }
    ensures { result ≡ sent_mpu cast.now m }
{
    cast.mpus.as_slice()[m]
}

/// The first timestamp of the table copy at this place.
#[tactic(auto, unfolding(mmt_model::specs::Carrying::table_copy))]
pub(crate) fn copy_first(cast: &Cast, c: usize) -> u64
    requires { c < length cast.now.copies }
    ensures { result ≡ (table_copy cast.now c).first.0 }
{
    cast.copies.as_slice()[c].first.0
}

/// The last timestamp of the table copy at this place.
#[tactic(auto, unfolding(mmt_model::specs::Carrying::table_copy))]
pub(crate) fn copy_last(cast: &Cast, c: usize) -> u64
    requires { c < length cast.now.copies }
    ensures { result ≡ (table_copy cast.now c).last.0 }
{
    cast.copies.as_slice()[c].last.0
}

/// The places of the MPUs that the table copy at this place names.
#[tactic(auto, unfolding(mmt_model::specs::Carrying::table_copy))]
pub(crate) fn copy_names(cast: &Cast, c: usize) -> &[u32]
    requires { c < length cast.now.copies }
    ensures { result.now ≡ (table_copy cast.now c).names }
{
    cast.copies.as_slice()[c].names.as_slice()
}
