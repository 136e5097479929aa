//! A place in a message.

/// A place in a message: the message's number among those of its packet, and a count of bytes from
/// the message's start.
#[derive(Clone, Copy)]
pub(crate) struct Spot {
    pub message: u32,
    pub at: u32,
}
