//! A message, and reading it.

ghost use Rattle.std.specs.Prelude.{◌≡◌, ◌+◌, ◌<◌, ◌≤◌, ◌^◌, length, IfOk, IfErr, Ok};
ghost use Rattle.mmt_fields.specs.Reading.{Gives};
ghost use Rattle.mmt_sig.specs.Message.{MessageValue, MessageIsRight, message_spelling, HrbmMessage};
ghost use Rattle.mmt_sig.specs.MessageReading.{pa_of, hrbm_of, are_right as right_by, body_by, message_of};
ghost use Rattle.mmt_sig.specs.MessageView.{view_pa, view_message};

use crate::message::MessageWhy;
use crate::pa::Pa;
use crate::reading_tables::{after_directory, after_tables};
use mmt_base::Refused;
use mmt_fields::{u8_at, u16_at, u32_at};
use mmt_model::Params;

/// The id of the PA message.
pub(crate) const PA_ID: u16 = 0x0000;

/// The id of the buffer message.
pub(crate) const HRBM_ID: u16 = 0xF100;

/// A signalling message (ISO/IEC 23008-1, signalling messages).
#[derive(Clone, Copy, Debug)]
pub enum Message<'a> {
    /// The PA message, id 0x0000.
    Pa(Pa<'a>),
    /// The buffer message, id 0xF100: the bound in bytes, the window and the delay in ticks.
    Hrbm { version: u8, params: Params },
    /// Any other message, with all the bytes after its id.
    Other { id: u16, bytes: &'a [u8] },
}

#[tactic(auto, using(crate::proofs::TableSteps::length_tables), unfolding(crate::specs::MessageReading::pa_of, mmt_lists::specs::Counted::counted_of))]
fn pa(bytes: &[u8]) -> Result<Pa<'_>, Refused<MessageWhy>>
    requires { 2 + length bytes.now < 2 ^ 31 }
    ensures gives { Gives view_pa result (pa_of bytes.now) }
    ensures place { IfErr result (λ e. e.at ≤ 2 + length bytes.now) }
{
    let (version, rest) = u8_at(bytes, 2, MessageWhy::Short)?;
    let (len, rest) = u32_at(rest, 3, MessageWhy::Short)?;
    if rest.len() != len as usize {
        return Err(Refused {
            at: 3,
            why: MessageWhy::Length,
        });
    }
    let (count, directory) = u8_at(rest, 7, MessageWhy::Short)?;
    let tables = after_directory(count, directory)?;
    let at = 8 + 4 * count as u32;
    let rest = after_tables(count, at, tables)?;
    if !rest.is_empty() {
        return Err(Refused {
            at: 7 + len - rest.len() as u32,
            why: MessageWhy::Length,
        });
    }
    Ok(Pa {
        version,
        count,
        directory,
        at,
        tables,
    })
}

fn are_right(params: &Params) -> bool
    ensures { result ≡ right_by params.now.bound params.now.window params.now.delay }
{
    1 <= params.bound
        && (1 <= params.delay && (params.delay < params.window && params.window <= 1 << 24))
}

#[tactic(auto, unfolding(crate::specs::MessageReading::hrbm_of))]
fn hrbm(bytes: &[u8]) -> Result<(u8, Params), Refused<MessageWhy>>
    ensures gives { Gives (λ h. record { version = h.0; params = h.1 }) result (hrbm_of bytes.now) }
    ensures place { IfErr result (λ e. e.at ≤ 2 + length bytes.now) }
{
    let (version, rest) = u8_at(bytes, 2, MessageWhy::Short)?;
    let (len, rest) = u16_at(rest, 3, MessageWhy::Short)?;
    if len != 12 || rest.len() != len as usize {
        return Err(Refused {
            at: 3,
            why: MessageWhy::Length,
        });
    }
    let (bound, rest) = u32_at(rest, 5, MessageWhy::Short)?;
    let (window, rest) = u32_at(rest, 9, MessageWhy::Short)?;
    let (delay, _) = u32_at(rest, 13, MessageWhy::Short)?;
    let params = Params {
        bound,
        window,
        delay,
    };
    if !are_right(&params) {
        return Err(Refused {
            at: 5,
            why: MessageWhy::HrbmValues,
        });
    }
    Ok((version, params))
}

#[tactic(auto, unfolding(crate::specs::MessageReading::message_of, crate::specs::MessageReading::body_by))]
fn message_from(bytes: &[u8]) -> Result<Message<'_>, Refused<MessageWhy>>
    requires { length bytes.now < 2 ^ 31 }
    ensures gives { Gives view_message result (message_of bytes.now) }
    ensures place { IfErr result (λ e. e.at ≤ length bytes.now) }
{
    let (id, rest) = u16_at(bytes, 0, MessageWhy::Short)?;
    if id == PA_ID {
        let pa = pa(rest)?;
        return Ok(Message::Pa(pa));
    }
    if id == HRBM_ID {
        let (version, params) = hrbm(rest)?;
        return Ok(Message::Hrbm { version, params });
    }
    Ok(Message::Other { id, bytes: rest })
}

/// Reads the signalling message that the bytes are as a whole, or says which check fails first, and
/// where (ISO/IEC 23008-1, signalling messages).
pub fn read_message(bytes: &[u8]) -> Result<Message<'_>, Refused<MessageWhy>>
    requires { length bytes.now < 2 ^ 31 }
    // What is read is spelled so.
    ensures found { IfOk result (λ m. MessageIsRight (view_message m) × (bytes.now ≡ message_spelling (view_message m))) }
    // What is spelled so is read.
    ensures only { (v : MessageValue) → MessageIsRight v → bytes.now ≡ message_spelling v → Gives view_message result (Ok v) }
    // Which refusal it is, and where.
    ensures exact { Gives view_message result (message_of bytes.now) }
    // The place lies within the bytes, or directly behind them.
    ensures place { IfErr result (λ e. e.at ≤ length bytes.now) }
{
    message_from(bytes)
}
