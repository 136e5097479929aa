//! Why bytes are no message.

/// Why bytes are no signalling message.
#[derive(Clone, Copy, Debug, PartialEq, Eq)]
pub enum MessageWhy {
    /// A field or a table ends after the bytes do.
    Short,
    /// A length is not that of what follows, or bytes follow the last table.
    Length,
    /// A buffer message has values that no buffer can have: not
    /// `1 <= delay < window <= 16,777,216`, or a bound of 0.
    HrbmValues,
}
