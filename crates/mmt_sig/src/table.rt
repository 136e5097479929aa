//! A table of a PA message.

/// A table of a PA message, over the message that it was read from (ISO/IEC 23008-1, PA message).
#[derive(Clone, Copy, Debug)]
pub struct Table<'a> {
    /// The id in the table's own header.
    pub id: u8,
    /// The version in the table's own header.
    pub version: u8,
    /// The 32 bits of the directory entry, as they stand.
    pub listed: u32,
    /// The whole table, with its header of four bytes.
    pub bytes: &'a [u8],
}

/// A table by its own header.
#[derive(Clone, Copy)]
pub(crate) struct Whole<'a> {
    pub id: u8,
    pub version: u8,
    pub bytes: &'a [u8],
}
