//! More payload bytes in a window than the bound (rule A6).

ghost use Rattle.std.specs.Prelude.{◌≡◌, ◌≤◌, length};
ghost use Rattle.mmt_admit.specs.Faults.{as_fault, AreInOrder, PacketsFit};
ghost use Rattle.mmt_model.specs.Admission.{fault_of_load, first_below};

use crate::answers::{NotAdmitted, Rule, unless};
use crate::reads::{bytes_at, tick_at, widened};
use mmt_model::Cast;

/// The first packet at whose timestamp the payload bytes in the window are more than the bound. A window
/// of packets slides over the cast, and their bytes are a running sum.
pub(crate) fn first_load(cast: &Cast) -> Option<NotAdmitted>
    requires fit { PacketsFit cast.now.packets }
    requires in_order { AreInOrder cast.now.packets }
    requires window { 1 ≤ cast.now.params.window }
    ensures { as_fault result ≡ first_below (fault_of_load cast.now) (length cast.now.packets) }
{
    let packets = cast.packets.as_slice();
    let window = widened(cast.params.window);
    let bound = widened(cast.params.bound);
    let mut start = 0;
    let mut end = 0;
    let mut bytes = 0u64;
    for n in 0..packets.len() {
        let now = tick_at(packets, n);
        while end < packets.len() && tick_at(packets, end) <= now {
            bytes += bytes_at(packets, end) as u64;
            end += 1;
        }
        while start < end && tick_at(packets, start) + window <= now {
            bytes -= bytes_at(packets, start) as u64;
            start += 1;
        }
        let found = unless(bytes <= bound, Rule::A6, n as u32, bytes, bound);
        if found.is_some() {
            return found;
        }
    }
    None
}
