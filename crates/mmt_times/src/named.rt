//! What an MPT names.

use crate::entry::Entry;
use crate::times_why::TimesWhy;

/// A name of an MPT, in the order of the table.
#[derive(Clone, Copy, Debug)]
pub enum Named<'a> {
    /// An MPU with its times.
    Entry(Entry<'a>),
    /// A timestamp descriptor, or an MPU's entry in one, that counts as absent. `at` is the place of
    /// the descriptor's content in the table, in bytes from its start.
    Refused { at: u32, why: TimesWhy },
}
