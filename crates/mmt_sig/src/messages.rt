//! Going over the messages of a payload.

ghost use Rattle.std.specs.Prelude.{◌+◌, ◌<◌, ◌^◌, length};

use crate::reading::first_message;

/// The messages of a payload from first to last, each as its bytes. It takes no memory.
#[derive(Clone, Copy, Debug)]
pub struct Messages<'a> {
    pub(crate) lone: bool,
    pub(crate) long: bool,
    pub(crate) at: u32,
    pub(crate) rest: &'a [u8],
    ghost fits: { at + length rest.now < 2 ^ 31 },
}

impl<'a> Iterator for Messages<'a> {
    ghost use Rattle.std.specs.Iterator.{YieldsFirstBy, item_count};
    ghost use Rattle.mmt_sig.specs.View.{messages_left};

    type Item = &'a [u8];

    ghost next_gives = { YieldsFirstBy (λ m. m.now) messages_left };

    ghost remaining = { item_count messages_left };

    fn next(&mut self) -> Option<&'a [u8]> {
        let (message, rest) = first_message(self.lone, self.long, self.at, self.rest)?;
        self.lone = false;
        self.at += (self.rest.len() - rest.len()) as u32;
        self.rest = rest;
        Some(message)
    }
}
