//! Lists of deliveries, read from a text.

ghost use Rattle.std.specs.Prelude.{◌≡◌, ◌≢◌, ℕ, ◌+◌, ◌<◌, ◌≤◌, ◌^◌, List as Items, ◌++◌, length, drop, slice_index, IfOk, IfErr, IfSome, IfNone, EachIndex};
ghost use Rattle.mmt_channel.specs.Lists.{IsLine, IsListText, IsRefused, line_of};

use mmt_base::OutOfMemory;
use mmt_command::number_in;
use mmt_model::List;
use std::alloc::Global;
use std::str;

/// Why a text is no list of deliveries.
#[derive(Clone, Copy, Debug, PartialEq, Eq)]
pub enum ListEnd {
    /// This line, counted from 0, is not the place of a sent packet in decimal digits with a line feed after it.
    Line { line: u32 },
    /// There is no memory.
    OutOfMemory,
}

impl From<OutOfMemory> for ListEnd {
    ghost use Rattle.std.specs.Prelude.{◌≡◌};
    ghost use Rattle.mmt_channel.specs.declared.deliveries.ListEnd.TheVariants as ends;

    ghost from_gives = { λ _ e. e ≡ ends.OutOfMemory };

    fn from(_memory: OutOfMemory) -> ListEnd {
        ListEnd::OutOfMemory
    }
}

/// A line of a list: the place of a packet, and how many bytes the line has with its line feed.
#[derive(Clone, Copy, Debug)]
struct Line {
    place: u32,
    length: usize,
}

/// How many bytes stand before the first line feed.
fn line_end(text: &[u8]) -> Option<usize>
    ensures there { IfSome result (λ end. (end < length text.now) × (slice_index text.now end ≡ 10)) }
    ensures first { IfSome result (λ end. (k : ℕ) → k < end → slice_index text.now k ≢ 10) }
    ensures none { IfNone result (EachIndex text.now (λ k. slice_index text.now k ≢ 10)) }
{
    for (i, byte) in text.iter().enumerate() {
        if *byte == b'\n' {
            return Some(i);
        }
    }
    None
}

/// The first line of a text, where it is the place of a sent packet.
fn first_line(text: &[u8], sent: u32) -> Option<Line>
    ensures some { IfSome result (λ line. IsLine sent line.place line.length text.now) }
    ensures none { IfNone result ((d : ℕ) (more : Items ℕ) → d < sent → text.now ≢ line_of d ++ more) }
{
    let end = match line_end(text) {
        Some(end) => end,
        None => return None,
    };
    let last = match sent.checked_sub(1) {
        Some(last) => last,
        None => return None,
    };
    let digits = match str::from_utf8(&text[..end]) {
        Ok(digits) => digits,
        Err(_) => return None,
    };
    match number_in(digits, 0, last) {
        Some(place) => Some(Line {
            place,
            length: end + 1,
        }),
        None => None,
    }
}

/// Reads a list of deliveries: on each line the place of a packet of a cast of `sent` packets in decimal digits, without a
/// sign and without a zero before another digit, and a line feed. The text has at most 16,777,216 bytes.
///
/// # Errors
///
/// `Line` with the first line that is none of these. A last line without a line feed is one.
pub fn read_deliveries(alloc: Global, text: &[u8], sent: u32) -> Result<List<u32>, ListEnd>
    requires { length text.now ≤ 2 ^ 24 }
    ensures read { IfOk result (λ list. IsListText sent text.now list) }
    ensures refused { IfErr result (λ end. IsRefused sent text.now end) }
{
    let mut list = List::new(alloc);
    let mut rest = text;
    while !rest.is_empty() {
        match first_line(rest, sent) {
            Some(line) => {
                list.push(line.place)?;
                rest = &rest[line.length..];
            }
            None => {
                return Err(ListEnd::Line {
                    line: list.len() as u32,
                });
            }
        }
    }
    Ok(list)
}
