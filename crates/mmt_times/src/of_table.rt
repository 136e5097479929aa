//! Going over the names of an MPT.

ghost use Rattle.std.specs.Prelude.{◌≡◌, ◌≤◌};
ghost use Rattle.mmt_mpt.specs.TableView.{view};
ghost use Rattle.mmt_times.specs.NamesOf.{names_of};
ghost use Rattle.mmt_times.specs.NamedLeft.{named_left};

use crate::entries::Entries;
use mmt_mpt::Mpt;

/// The names of an MPT in order: for each asset with a location in the same flow (type 0) the
/// refusals of its timestamp descriptors, and then for each such location each pair of its MPU
/// timestamp descriptors (ARIB STD-B60). It takes no memory.
///
/// A pair gives an entry. Its access unit times are those of the first entry for its MPU in the
/// asset's extended timestamp descriptors that has all times in range; each one before it gives a
/// `Range` refusal directly before the entry. A refused descriptor counts as absent. `timescale`,
/// which is at least 1, holds for extended descriptors without one, in units a second.
#[tactic(auto, unfolding(crate::specs::NamesOf::names_of))]
pub fn entries_of<'a>(mpt: &Mpt<'a>, timescale: u32) -> Entries<'a>
    requires { 1 ≤ timescale }
    ensures { named_left result ≡ names_of timescale (view mpt.now) }
{
    Entries {
        configured: timescale,
        names: None,
        assets: mpt.assets(),
    }
}
