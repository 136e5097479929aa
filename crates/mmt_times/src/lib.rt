//! The timestamp descriptors of an MPT: the exact times of access units, the entries that an MPT
//! has, the contents of descriptors, and the entries that are live in a receiver (ARIB STD-B60, MPU
//! timestamp descriptor; the extended descriptor is this project's own, after that of ARIB STD-B60).
#![tactic(auto)]

mod asset_names;
mod au_offsets;
mod candidate;
mod contents;
mod entries;
mod entry;
mod exact;
mod extended;
mod first_time;
mod learned;
mod name_iterators;
mod named;
mod names;
mod of_table;
mod pair;
mod parts_left;
mod quiet;
mod reading_aus;
mod reading_extended;
mod reading_stamps;
mod search;
mod slot;
mod times;
mod times_why;
mod trying;
mod writing;

pub use entries::Entries;
pub use entry::Entry;
pub use exact::{time_at, times_follow_the_formula};
pub use learned::Learned;
pub use named::Named;
pub use names::Names;
pub use of_table::entries_of;
pub use times::Times;
pub use times_why::TimesWhy;
pub use writing::{write_extended, write_stamps};

#[cfg(test)]
mod tests;
#[cfg(test)]
mod tests_of_names;
