//! Reading a signalling payload.

ghost use Rattle.std.specs.Prelude.{◌≡◌, ◌+◌, ◌-◌, ◌<◌, ◌≤◌, ◌^◌, false, List, [], ◌∷◌, length, not, IfOk, IfErr, Ok, Some, None, MatchResult, MatchOption, IfSome};
ghost use Rattle.std.specs.Int.{byte_len};
ghost use Rattle.mmt_fields.specs.Reading.{Gives, number_at};
ghost use Rattle.mmt_fields.specs.Items.{all_items};
ghost use Rattle.mmt_sig.specs.Payload.{Payload, Fits, spelling, length_width as width_of};
ghost use Rattle.mmt_sig.specs.PayloadReading.{payload_of, messages_of, message_at as message_by};
ghost use Rattle.mmt_sig.specs.Left.{left};
ghost use Rattle.mmt_sig.specs.View.{view};

use crate::head::{SigHead, SigWhy};
use crate::payload::SigPayload;
use mmt_base::Refused;
use mmt_fields::{bytes_at, u8_at, u16_at, u32_at};
use mmt_model::Part;

/// The length of a message, in 32 bits or in 16.
fn length_at(long: bool, at: u32, bytes: &[u8]) -> Result<(u32, &[u8]), Refused<SigWhy>>
    ensures gives { Gives (λ x. (x.0, x.1.now)) result (number_at (width_of long) bytes.now at SigWhy.Short) }
    ensures len { IfOk result (λ x. length x.1.now + byte_len (width_of long) ≡ length bytes.now) }
    ensures place { IfErr result (λ e. e.at ≡ at) }
{
    if long {
        u32_at(bytes, at, SigWhy::Short)
    } else {
        let (len, rest) = u16_at(bytes, at, SigWhy::Short)?;
        Ok((len as u32, rest))
    }
}

/// How many bytes the length of a message takes.
fn length_bytes(long: bool) -> u32
    ensures { result ≡ byte_len (width_of long) }
{
    match long {
        true => 4,
        false => 2,
    }
}

/// A message after its length, and what follows it.
#[tactic(auto, unfolding(crate::specs::PayloadReading::message_at))]
pub(crate) fn message_at(
    long: bool,
    at: u32,
    bytes: &[u8],
) -> Result<(&[u8], &[u8]), Refused<SigWhy>>
    requires { at + length bytes.now < 2 ^ 31 }
    ensures gives { Gives (λ x. (x.0.now, x.1.now)) result (message_by long at bytes.now) }
    ensures shorter { IfOk result (λ x. length x.1.now < length bytes.now) }
    ensures place { IfErr result (λ e. e.at ≤ at + length bytes.now) }
{
    let (len, rest) = length_at(long, at, bytes)?;
    if rest.len() < len as usize {
        return Err(Refused {
            at,
            why: SigWhy::Overrun,
        });
    }
    let from = at + length_bytes(long);
    let (message, rest) = bytes_at(rest, len as usize, from, SigWhy::Short)?;
    Ok((message, rest))
}

/// The first of the messages that are left, and the bytes after it.
#[tactic(auto, using(crate::proofs::MessageSteps::items_step, crate::proofs::MessageSteps::items_err, crate::proofs::MessageSteps::items_none))]
pub(crate) fn first_message(lone: bool, long: bool, at: u32, bytes: &[u8]) -> Option<(&[u8], &[u8])>
    requires { at + length bytes.now < 2 ^ 31 }
    ensures first { MatchOption result (left lone long at bytes.now ≡ [])
        (λ x. left lone long at bytes.now ≡ x.0.now ∷ left false long (at + (length bytes.now - length x.1.now)) x.1.now) }
    ensures end { IfSome result (λ x. length x.1.now ≤ length bytes.now) }
{
    if lone {
        return Some((bytes, &[]));
    }
    match message_at(long, at, bytes) {
        Ok(found) => Some(found),
        Err(_) => None,
    }
}

/// Goes over messages after their lengths, and counts them.
#[tactic(auto, using(crate::proofs::MessageSteps::stop_step, crate::proofs::MessageSteps::count_step, crate::proofs::MessageSteps::stop_err, crate::proofs::MessageSteps::stop_none, crate::proofs::MessageSteps::count_none))]
fn count_messages(long: bool, bytes: &[u8]) -> Result<u32, Refused<SigWhy>>
    requires { 2 + length bytes.now < 2 ^ 31 }
    ensures walk { MatchResult result
        (λ n. ((all_items (message_by long) 2 bytes.now).stop ≡ None) × (n ≡ length (all_items (message_by long) 2 bytes.now).items))
        (λ e. (all_items (message_by long) 2 bytes.now).stop ≡ Some e) }
    ensures place { IfErr result (λ e. e.at ≤ 2 + length bytes.now) }
{
    let mut place = 2;
    let mut rest = bytes;
    let mut count = 0;
    while !rest.is_empty() {
        let (_, after) = message_at(long, place, rest)?;
        place += (rest.len() - after.len()) as u32;
        rest = after;
        count += 1;
    }
    Ok(count)
}

#[tactic(auto, unfolding(crate::specs::PayloadReading::messages_of, mmt_fields::specs::Items::items_of))]
fn count_of(aggregated: bool, long: bool, bytes: &[u8]) -> Result<u32, Refused<SigWhy>>
    requires { 2 + length bytes.now < 2 ^ 31 }
    ensures gives { Gives (λ _. left (not aggregated) long 2 bytes.now) result (messages_of aggregated long bytes.now) }
    ensures count { IfOk result (λ n. n ≡ length (left (not aggregated) long 2 bytes.now)) }
    ensures place { IfErr result (λ e. e.at ≤ 2 + length bytes.now) }
{
    if aggregated {
        count_messages(long, bytes)
    } else {
        Ok(1)
    }
}

#[tactic(auto, unfolding(crate::specs::PayloadReading::payload_of))]
fn payload(bytes: &[u8]) -> Result<SigPayload<'_>, Refused<SigWhy>>
    requires { length bytes.now < 2 ^ 31 }
    ensures gives { Gives view result (payload_of bytes.now) }
    ensures place { IfErr result (λ e. e.at ≤ length bytes.now) }
{
    let (flags, rest) = u8_at(bytes, 0, SigWhy::Short)?;
    let aggregated = flags % 2 == 1;
    if flags % 2 != 0 && flags / 64 != 0 {
        return Err(Refused {
            at: 0,
            why: SigWhy::AggregatedPart,
        });
    }
    let (counter, body) = u8_at(rest, 1, SigWhy::Short)?;
    let long = flags / 2 % 2 == 1;
    let count = count_of(aggregated, long, body)?;
    let head = SigHead {
        part: Part::from_indicator(flags / 64),
        reserved: flags / 4 % 16,
        long,
        aggregated,
        counter,
    };
    Ok(SigPayload { head, body, count })
}

/// Reads the signalling payload that the bytes are as a whole, or says which check fails first, and
/// where (ISO/IEC 23008-1, the header of the signalling message mode).
pub fn read_sig(payload: &[u8]) -> Result<SigPayload<'_>, Refused<SigWhy>>
    requires { length payload.now < 2 ^ 31 }
    // What is read is spelled so.
    ensures found { IfOk result (λ p. Fits (view p) × (payload.now ≡ spelling (view p))) }
    // What is spelled so is read.
    ensures only { (v : Payload) → Fits v → payload.now ≡ spelling v → Gives view result (Ok v) }
    // Which refusal it is, and where.
    ensures exact { Gives view result (payload_of payload.now) }
    // The place lies within the bytes, or directly behind them.
    ensures place { IfErr result (λ e. e.at ≤ length payload.now) }
{
    self::payload(payload)
}
