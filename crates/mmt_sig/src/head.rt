//! What a signalling payload says of its messages, and why bytes are no payload.

use mmt_model::Part;

/// The header of a signalling payload (ISO/IEC 23008-1, the header of the signalling message mode):
/// which part of a message it carries, four reserved bits, whether the lengths of messages have 32
/// bits and not 16, whether several messages follow, and how many parts of the message come after.
#[derive(Clone, Copy, Debug, PartialEq, Eq)]
pub struct SigHead {
    pub part: Part,
    /// Below 16.
    pub reserved: u8,
    pub long: bool,
    pub aggregated: bool,
    pub counter: u8,
}

/// Why bytes are no signalling payload.
#[derive(Clone, Copy, Debug, PartialEq, Eq)]
pub enum SigWhy {
    /// A field ends after the bytes do.
    Short,
    /// A payload of several messages says that it is a part of one.
    AggregatedPart,
    /// A message is longer than the bytes that are left.
    Overrun,
}
