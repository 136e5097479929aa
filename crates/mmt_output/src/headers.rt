//! The header of a record.

ghost use Rattle.std.specs.Prelude.{◌≡◌, ◌∷◌, ◌++◌};
ghost use Rattle.std.specs.Int.{w16, w32, w64};
ghost use Rattle.mmt_fields.specs.Reading.{big_endian};
ghost use Rattle.mmt_output.specs.Records.{timed_mark as mark_of, key_bytes as bytes_of};

use mmt_model::UnitKey;
use mmt_runs::UnitOrder;

// 1 for a unit of timed media, and 0 for an item.
#[tactic(auto, unfolding(crate::specs::Records::timed_mark))]
fn timed_mark(key: UnitKey) -> u8
    ensures { result ≡ mark_of key }
{
    match key {
        UnitKey::Timed {
            movie_fragment: _,
            sample: _,
            offset: _,
        } => 1,
        UnitKey::Item { item: _ } => 0,
    }
}

// Three numbers of 32 bits.
#[tactic(auto, unfolding(mmt_fields::specs::Reading::big_endian))]
fn three(x: u32, y: u32, z: u32) -> [u8; 12]
    ensures { result ≡ big_endian w32 x ++ big_endian w32 y ++ big_endian w32 z }
{
    let [a, b, c, d] = x.to_be_bytes();
    let [e, f, g, h] = y.to_be_bytes();
    let [i, j, k, l] = z.to_be_bytes();
    [a, b, c, d, e, f, g, h, i, j, k, l]
}

// The numbers of a key.
#[tactic(auto, unfolding(crate::specs::Records::key_bytes))]
fn key_bytes(key: UnitKey) -> [u8; 12]
    ensures { result ≡ bytes_of key }
{
    match key {
        UnitKey::Timed {
            movie_fragment,
            sample,
            offset,
        } => three(movie_fragment, sample, offset),
        UnitKey::Item { item } => three(0, item, 0),
    }
}

// The packet id, the time and the MPU number of a unit.
#[tactic(auto, unfolding(mmt_fields::specs::Reading::big_endian))]
fn place_bytes(order: &UnitOrder) -> [u8; 14]
    ensures { result ≡ big_endian w16 order.now.packet_id ++ big_endian w64 order.now.time.0 ++ big_endian w32 order.now.mpu }
{
    let [a, b] = order.packet_id.to_be_bytes();
    let [c, d, e, f, g, h, i, j] = order.time.0.to_be_bytes();
    let [k, l, m, n] = order.mpu.to_be_bytes();
    [a, b, c, d, e, f, g, h, i, j, k, l, m, n]
}

/// The header of the record of a unit with its place in the order, its priority, its dependency
/// counter and the count of its bytes.
#[tactic(auto, unfolding(mmt_fields::specs::Reading::big_endian))]
pub(crate) fn header(order: &UnitOrder, priority: u8, dependency: u8, length: u32) -> [u8; 34]
    ensures { result ≡ 0x55 ∷ mark_of order.now.key ∷ (big_endian w16 order.now.packet_id ++ big_endian w64 order.now.time.0 ++ big_endian w32 order.now.mpu ++ bytes_of order.now.key ++ priority ∷ dependency ∷ big_endian w32 length) }
{
    let [a0, a1, a2, a3, a4, a5, a6, a7, a8, a9, a10, a11, a12, a13] = place_bytes(order);
    let [b0, b1, b2, b3, b4, b5, b6, b7, b8, b9, b10, b11] = key_bytes(order.key);
    let [c0, c1, c2, c3] = length.to_be_bytes();
    let timed = timed_mark(order.key);
    [
        0x55, timed, a0, a1, a2, a3, a4, a5, a6, a7, a8, a9, a10, a11, a12, a13, b0, b1, b2, b3,
        b4, b5, b6, b7, b8, b9, b10, b11, priority, dependency, c0, c1, c2, c3,
    ]
}
