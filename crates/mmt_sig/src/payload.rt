//! A payload, over the bytes that it was read from.

ghost use Rattle.std.specs.Prelude.{◌≡◌, ◌+◌, ◌<◌, ◌^◌, length, not};
ghost use Rattle.mmt_sig.specs.Left.{left};

use crate::head::SigHead;
use crate::messages::Messages;

/// A payload's header and its messages.
#[derive(Clone, Copy, Debug)]
pub struct SigPayload<'a> {
    pub(crate) head: SigHead,
    pub(crate) body: &'a [u8],
    pub(crate) count: u32,
    ghost short: { 2 + length body.now < 2 ^ 31 },
    ghost counted: { count ≡ length (left (not head.aggregated) head.long 2 body.now) },
}

impl<'a> SigPayload<'a> {
    ghost use Rattle.std.specs.Prelude.{◌≡◌, ◌<◌, ◌^◌, length};
    ghost use Rattle.std.specs.List.{All};
    ghost use Rattle.mmt_sig.specs.View.{view, messages_left};

    /// The header.
    pub fn head(&self) -> SigHead
        ensures { result ≡ (view self.now).head }
    {
        self.head
    }

    /// How many messages there are; 1 for a part of a message.
    pub fn count(&self) -> u32
        ensures { result ≡ length (view self.now).messages }
    {
        self.count
    }

    /// The messages from first to last, or the part of a message.
    pub fn messages(&self) -> Messages<'a>
        ensures messages { messages_left result ≡ (view self.now).messages }
        // Each is short enough to be read as a message.
        ensures within { All (λ m. length m < 2 ^ 31) (view self.now).messages }
    {
        Messages {
            lone: !self.head.aggregated,
            long: self.head.long,
            at: 2,
            rest: self.body,
        }
    }
}
