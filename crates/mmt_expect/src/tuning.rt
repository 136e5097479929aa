//! Where a delivery tunes a receiver.

ghost use Rattle.std.specs.Prelude.{◌≡◌, ◌<◌, ◌≤◌, length, drop, get_or};
ghost use Rattle.mmt_model.specs.Admission.{has_parameters};
ghost use Rattle.mmt_model.specs.Delivery.{from_first, from_heard};
ghost use Rattle.mmt_model.specs.Received.{tuned_places, tunes_at};
ghost use Rattle.mmt_model.specs.Survival.{AreOf, no_packet};

use mmt_model::{Carries, Cast, Sent};

/// Whether a packet carries a buffer message.
fn is_parameters(carries: Carries) -> bool
    ensures { result ≡ has_parameters carries }
{
    match carries {
        Carries::Parameters { .. } => true,
        Carries::Whole { .. } => false,
        Carries::Fragment { .. } => false,
        Carries::Group { .. } => false,
        Carries::Table { .. } => false,
        Carries::TablePart { .. } => false,
    }
}

/// Whether a packet has its headers in full.
fn is_full(full_every: u32, place: u32) -> bool
    ensures { result ≡ is_heard full_every place }
{
    full_every == 0 || place % full_every == 0
}

ghost use Rattle.mmt_expect.specs.Heard.{is_heard};

/// What the packet at a place carries.
fn carries_at(packets: &[Sent], place: usize) -> Carries
    requires { place < length packets.now }
    ensures { result ≡ (get_or packets.now place no_packet).carries }
{
    packets[place].carries
}

/// The first of these deliveries that is heard, as headers are known from then on.
fn first_heard(full_every: u32, list: &[u32]) -> usize
    ensures rest { drop result list.now ≡ from_heard full_every list.now }
    ensures within { result ≤ length list.now }
{
    for i in 0..list.len() {
        if is_full(full_every, list[i]) {
            return i;
        }
    }
    list.len()
}

/// The first of these deliveries that carries a buffer message.
fn first_parameters(cast: &Cast, list: &[u32]) -> usize
    requires { AreOf cast.now.packets list.now }
    ensures rest { drop result list.now ≡ from_first (tunes_at cast.now) list.now }
    ensures within { result ≤ length list.now }
{
    let packets: &[Sent] = cast.packets.as_slice();
    for i in 0..list.len() {
        if is_parameters(carries_at(packets, list[i] as usize)) {
            return i;
        }
    }
    list.len()
}

/// The deliveries from the one that tunes a receiver on.
pub fn tuned<'a>(cast: &Cast, full_every: u32, list: &'a [u32]) -> &'a [u32]
    requires { AreOf cast.now.packets list.now }
    ensures { result.now ≡ tuned_places cast.now full_every list.now }
{
    let heard = &list[first_heard(full_every, list)..];
    &heard[first_parameters(cast, heard)..]
}
