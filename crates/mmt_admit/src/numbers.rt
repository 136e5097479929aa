//! Packets by themselves: their timestamps (rule A2) and their numbers (rule A3).

ghost use Rattle.std.specs.Prelude.{◌≡◌, ◌<◌, ◌==◌, length, get_or};
ghost use Rattle.mmt_admit.specs.Faults.{as_fault, PacketsFit};
ghost use Rattle.mmt_model.specs.Admission.{fault_of_gap, fault_of_number, first_below, or_else, unless as fault_unless};
ghost use Rattle.mmt_model.specs.Survival.{no_packet};

use crate::answers::{NotAdmitted, Rule, unless};
use crate::gaps::gap_by;
use crate::reads::{id_at, number_at};
use mmt_model::Sent;

/// The first faults of packets by themselves.
#[derive(Clone, Copy, Debug)]
pub(crate) struct PacketFaults {
    /// Of a timestamp after the one before it (rule A2).
    pub gap: Option<NotAdmitted>,
    /// Of a number that is not the count of earlier packets of its packet id (rule A3).
    pub number: Option<NotAdmitted>,
}

// The first fault of a number so far, or else that of a packet's number, by the count of earlier packets of
// its packet id.
fn number_by(
    packets: &[Sent],
    n: usize,
    count: u32,
    so_far: Option<NotAdmitted>,
) -> Option<NotAdmitted>
    requires fit { PacketsFit packets.now }
    requires place { n < length packets.now }
    ensures { as_fault result ≡ or_else (as_fault so_far)
        (fault_unless ((get_or packets.now n no_packet).number == count) 3 n (get_or packets.now n no_packet).number count) }
{
    let number = number_at(packets, n);
    match so_far {
        Some(_) => so_far,
        None => unless(
            number == count,
            Rule::A3,
            n as u32,
            number as u64,
            count as u64,
        ),
    }
}

/// The first faults of packets by themselves, in one walk. It keeps a count for each packet id.
pub(crate) fn packet_faults(packets: &[Sent]) -> PacketFaults
    requires { PacketsFit packets.now }
    ensures gap { as_fault result.gap ≡ first_below (fault_of_gap packets.now) (length packets.now) }
    ensures number { as_fault result.number ≡ first_below (fault_of_number packets.now) (length packets.now) }
{
    let mut counts = [0u32; 65536];
    let mut gap = None;
    let mut number = None;
    for n in 0..packets.len() {
        gap = gap_by(packets, n, gap);
        let id = id_at(packets, n) as usize;
        let count = counts[id];
        number = number_by(packets, n, count, number);
        counts[id] = count + 1;
    }
    PacketFaults { gap, number }
}
