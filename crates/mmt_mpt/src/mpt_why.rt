//! Why bytes are no MPT.

ghost use Rattle.std.specs.Prelude.{◌≡◌};
ghost use Rattle.mmt_mpt.specs.Refusals.{mpt_why as mpt_by, table_refusal};

use crate::part_why::PartWhy;
use mmt_base::Refused;

/// Why bytes are no MPT.
#[derive(Clone, Copy, Debug, PartialEq, Eq)]
pub enum MptWhy {
    /// A field ends after the table does, or a descriptor after its descriptors.
    Short,
    /// The table's length is not that of what follows, or bytes follow the last asset.
    Length,
    /// The asset of this number, counted from 0, has a clock relation.
    ClockRelation(u8),
    /// A location's type is above 5.
    LocationKind(u8),
}

fn mpt_why(number: u8, why: PartWhy) -> MptWhy
    ensures { result ≡ mpt_by number why }
{
    match why {
        PartWhy::Short => MptWhy::Short,
        PartWhy::ClockRelation => MptWhy::ClockRelation(number),
        PartWhy::LocationKind(kind) => MptWhy::LocationKind(kind),
    }
}

/// The refusal of a table, where a part of it is refused: one of the asset of this number.
pub(crate) fn in_table(number: u8, refused: Refused<PartWhy>) -> Refused<MptWhy>
    ensures { result ≡ table_refusal number refused }
{
    Refused {
        at: refused.at,
        why: mpt_why(number, refused.why),
    }
}
