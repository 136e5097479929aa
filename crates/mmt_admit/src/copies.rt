//! Table copies that come too late or too early (rule A5).

ghost use Rattle.std.specs.Prelude.{◌≡◌, ◌<◌, length};
ghost use Rattle.mmt_admit.specs.Faults.{as_fault, IsReadable};
ghost use Rattle.mmt_model.specs.Admission.{fault_of_copy, fault_of_name, first_among, first_below};
ghost use Rattle.mmt_model.specs.Carrying.{table_copy};

use crate::answers::{NotAdmitted, Rule, earlier, unless};
use crate::reads::{copy_first, copy_last, copy_names, mpu_at, widened};
use mmt_model::Cast;

/// The fault of a table copy that names an MPU too late or too early.
#[tactic(auto, unfolding(mmt_model::specs::Admission::fault_of_name))]
fn name_fault(cast: &Cast, c: usize, m: usize) -> Option<NotAdmitted>
    requires readable { IsReadable cast.now }
    requires copy { c < length cast.now.copies }
    requires mpu { m < length cast.now.mpus }
    ensures { as_fault result ≡ fault_of_name cast.now c m }
{
    let delay = widened(cast.params.delay);
    let sent = copy_last(cast, c) + delay;
    let due = mpu_at(cast, m).last.0;
    let far = copy_first(cast, c) + 1_073_741_824;
    earlier(
        unless(sent < due, Rule::A5, c as u32, sent, due.saturating_sub(1)),
        unless(due <= far, Rule::A5, c as u32, due, far),
    )
}

/// The first of these faults of a table copy.
fn names_fault(cast: &Cast, c: usize) -> Option<NotAdmitted>
    requires readable { IsReadable cast.now }
    requires copy { c < length cast.now.copies }
    ensures { as_fault result ≡ first_among (fault_of_name cast.now c) (table_copy cast.now c).names }
{
    let names = copy_names(cast, c);
    for i in 0..names.len() {
        let found = name_fault(cast, c, names[i] as usize);
        if found.is_some() {
            return found;
        }
    }
    None
}

/// The first fault of a table copy.
#[tactic(auto, unfolding(mmt_model::specs::Admission::fault_of_copy))]
fn copy_fault(cast: &Cast, c: usize) -> Option<NotAdmitted>
    requires readable { IsReadable cast.now }
    requires copy { c < length cast.now.copies }
    ensures { as_fault result ≡ fault_of_copy cast.now c }
{
    let delay = widened(cast.params.delay);
    let window = widened(cast.params.window);
    let sent = copy_last(cast, c) + delay;
    let gone = copy_first(cast, c) + window;
    earlier(
        names_fault(cast, c),
        unless(
            sent < gone,
            Rule::A5,
            c as u32,
            sent,
            gone.saturating_sub(1),
        ),
    )
}

/// The first table copy that comes too late or too early.
pub(crate) fn first_copy(cast: &Cast) -> Option<NotAdmitted>
    requires { IsReadable cast.now }
    ensures { as_fault result ≡ first_below (fault_of_copy cast.now) (length cast.now.copies) }
{
    for c in 0..cast.copies.len() {
        let found = copy_fault(cast, c);
        if found.is_some() {
            return found;
        }
    }
    None
}
