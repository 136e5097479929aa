//! Values of the buffer message out of their ranges (rule A1).

ghost use Rattle.std.specs.Prelude.{◌≡◌};
ghost use Rattle.mmt_admit.specs.Faults.{as_fault};
ghost use Rattle.mmt_model.specs.Admission.{fault_of_params};

use crate::answers::{NotAdmitted, Rule, earlier, unless};
use mmt_model::Params;

/// The first fault of a buffer message's values.
#[tactic(auto, unfolding(mmt_model::specs::Admission::fault_of_params))]
pub(crate) fn params_fault(params: &Params) -> Option<NotAdmitted>
    ensures { as_fault result ≡ fault_of_params params.now }
{
    let delay = params.delay as u64;
    let window = params.window as u64;
    let bound = params.bound as u64;
    let little = unless(bound <= 1_073_741_824, Rule::A1, 4, bound, 1_073_741_824);
    let some = earlier(unless(1 <= bound, Rule::A1, 3, bound, 1), little);
    let short = earlier(
        unless(window <= 16_777_216, Rule::A1, 2, window, 16_777_216),
        some,
    );
    let wide = earlier(
        unless(delay < window, Rule::A1, 1, window, delay + 1),
        short,
    );
    earlier(unless(1 <= delay, Rule::A1, 0, delay, 1), wide)
}
