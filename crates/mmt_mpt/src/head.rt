//! What stands before an asset's locations.

/// What stands before an asset's locations, with how many there are.
#[derive(Clone, Copy)]
pub(crate) struct Head<'a> {
    pub identifier_type: u8,
    pub scheme: u32,
    pub id: &'a [u8],
    pub kind: u32,
    pub reserved: u8,
    pub count: u8,
}
