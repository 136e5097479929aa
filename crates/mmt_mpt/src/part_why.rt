//! Why bytes are no part of a table.

ghost use Rattle.std.specs.Prelude.{◌≡◌};
ghost use Rattle.mmt_mpt.specs.Refusals.{part_why as part_by};

use crate::location::LocationWhy;

/// Why bytes are no descriptor, location or asset.
#[derive(Clone, Copy)]
pub(crate) enum PartWhy {
    Short,
    ClockRelation,
    LocationKind(u8),
}

/// Why a part cannot be read, where a location of it cannot.
pub(crate) fn part_why(why: LocationWhy) -> PartWhy
    ensures { result ≡ part_by why }
{
    match why {
        LocationWhy::Short => PartWhy::Short,
        LocationWhy::Kind(kind) => PartWhy::LocationKind(kind),
    }
}
