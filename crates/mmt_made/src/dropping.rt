//! The delivery.

ghost use Rattle.std.specs.Prelude.{◌≡◌, ◌<◌, ◌++◌, IfOk, OnOk};
ghost use Rattle.mmt_made.specs.Generator.{copies, delivery as made_delivery, swapped};

use mmt_base::OutOfMemory;
use mmt_model::List;
use std::alloc::Global;

/// Which packet of a cast of `count` packets has turn `turn`.
fn place_at(count: u32, turn: u32) -> u32
    requires { turn < count }
    ensures { result ≡ swapped count turn }
{
    if turn % 2 == 1 {
        if turn + 1 < count { turn + 1 } else { turn }
    } else {
        turn.saturating_sub(1)
    }
}

/// Appends a packet as often as it comes.
fn deliver(list: &mut List<u32>, seed: u16, place: u32) -> Result<(), OutOfMemory>
    ensures { OnOk result (list.new ≡ list.old ++ copies seed place) }
{
    if place % 50 == 7 * seed as u32 % 50 {
        return Ok(());
    }
    if place % 20 == 10 {
        match list.push(place) {
            Ok(()) => {}
            Err(refused) => return Err(refused),
        }
    }
    list.push(place)
}

/// The delivery of a cast of `count` packets.
pub fn delivery(alloc: Global, seed: u16, count: u32) -> Result<List<u32>, OutOfMemory>
    ensures { IfOk result (λ list. list ≡ made_delivery seed count) }
{
    let mut list = List::new(alloc);
    for turn in 0..count {
        match deliver(&mut list, seed, place_at(count, turn)) {
            Ok(()) => {}
            Err(refused) => return Err(refused),
        }
    }
    Ok(list)
}
