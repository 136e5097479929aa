//! Why bytes are no PLT.

ghost use Rattle.std.specs.Prelude.{◌≡◌};
ghost use Rattle.mmt_services.specs.Refusals.{plt_why as plt_by};

use mmt_mpt::LocationWhy;

/// Why bytes are no PLT.
#[derive(Clone, Copy, Debug, PartialEq, Eq)]
pub enum PltWhy {
    /// A field ends after the table does.
    Short,
    /// The table's length is not that of what follows.
    Length,
    /// A location's type is above 5.
    LocationKind(u8),
}

/// Why a table cannot be read, where a location of it cannot.
pub(crate) fn plt_why(why: LocationWhy) -> PltWhy
    ensures { result ≡ plt_by why }
{
    match why {
        LocationWhy::Short => PltWhy::Short,
        LocationWhy::Kind(kind) => PltWhy::LocationKind(kind),
    }
}
