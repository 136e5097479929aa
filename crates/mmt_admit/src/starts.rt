//! A cast that does not begin with a buffer message (rule A9), and MPUs that no table copy names in time
//! (rule A10).

ghost use Rattle.std.specs.Prelude.{◌≡◌, ◌<◌, ◌≤◌, length};
ghost use Rattle.mmt_admit.specs.Faults.{as_fault, IsReadable, TickFits};
ghost use Rattle.mmt_model.specs.Admission.{fault_of_mpu, fault_of_naming, fault_of_start, first_below, first_parameters, has_parameters};

use crate::answers::{NotAdmitted, Rule, unless};
use crate::reads::mpu_at;
use mmt_base::LongTick;
use mmt_model::{Carries, Cast, Sent};

/// Whether a packet carries a buffer message.
fn is_parameters(carries: &Carries) -> bool
    ensures { result ≡ has_parameters carries.now }
{
    match *carries {
        Carries::Parameters { .. } => true,
        Carries::Whole { .. } => false,
        Carries::Fragment { .. } => false,
        Carries::Group { .. } => false,
        Carries::Table { .. } => false,
        Carries::TablePart { .. } => false,
    }
}

/// The place of the first packet with a buffer message, or the number of packets.
fn first_of(packets: &[Sent]) -> usize
    ensures { result ≡ first_parameters packets.now }
{
    for n in 0..packets.len() {
        if is_parameters(&packets[n].carries) {
            return n;
        }
    }
    packets.len()
}

/// The fault of a cast that does not begin with a buffer message.
#[tactic(auto, unfolding(mmt_model::specs::Admission::fault_of_start))]
pub(crate) fn start_fault(packets: &[Sent]) -> Option<NotAdmitted>
    ensures { as_fault result ≡ fault_of_start packets.now }
{
    let first = first_of(packets);
    unless(
        0 < packets.len() && first == 0,
        Rule::A9,
        0,
        first as u64,
        0,
    )
}

/// The fault of an MPU by the tick from which it is named.
fn naming_fault(delay: u32, m: u32, least: u64, from: Option<LongTick>) -> Option<NotAdmitted>
    requires { TickFits from }
    ensures { as_fault result ≡ fault_of_naming delay m least from }
{
    match from {
        Some(from) => {
            let named = from.0 + delay as u64;
            unless(named < least, Rule::A10, m, named, least.saturating_sub(1))
        }
        None => unless(false, Rule::A10, m, 0, 1),
    }
}

/// The first MPU that no copy names in time.
pub(crate) fn first_mpu(cast: &Cast) -> Option<NotAdmitted>
    requires { IsReadable cast.now }
    ensures { as_fault result ≡ first_below (fault_of_mpu cast.now) (length cast.now.mpus) }
{
    for m in 0..cast.mpus.len() {
        let mpu = mpu_at(cast, m);
        let found = naming_fault(cast.params.delay, m as u32, mpu.least.0, mpu.named_from);
        if found.is_some() {
            return found;
        }
    }
    None
}
