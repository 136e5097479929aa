//! A package that a table lists.

use mmt_mpt::Location;

/// A package that a table lists: its id, of at most 255 bytes, and where its MPT is found (after
/// ARIB STD-B60, Package List Table).
#[derive(Clone, Copy, Debug)]
pub struct Package<'a> {
    pub id: &'a [u8],
    pub location: Location<'a>,
}
