//! What becomes of an entry.

use mmt_base::Ntp;

/// What became of an entry that a table names.
#[derive(Clone, Copy, Debug, PartialEq, Eq)]
pub enum Learned {
    /// It is kept from now on.
    New,
    /// Its MPU has an entry with the same times.
    Known,
    /// Its MPU has an entry with another time, or with other times of its access units. `kept` is the
    /// time of the MPU by the entry that is kept.
    Differs { kept: Ntp },
    /// The due tick of its greatest time is not after the clock.
    Past,
    /// 1,024 entries are kept.
    EntriesFull,
}
