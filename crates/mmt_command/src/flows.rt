//! A flow in the words of the command line: an address in 32 hexadecimal digits, a colon, and a port.
ghost use Rattle.std.specs.Prelude.{◌≡◌, ◌≢◌, ℕ, ◌+◌, ◌<◌, List, ◌∷◌, [], drop, length, false, codes, IfOk, IfErr, IfSome, IfNone};
ghost use Rattle.std.specs.Fmt.{digit_glyph};
ghost use Rattle.mmt_model.specs.declared.programmes.Flow.{Flow};
ghost use Rattle.mmt_command.specs.Words.{texts};
ghost use Rattle.mmt_command.specs.Flows.{hex_text, flow_text, HasFlowRange, NoFlow};
ghost use Rattle.mmt_command.specs.Commands.{flow_words, HasChoiceRange};

use crate::numbers::{is_at, number_in};
use mmt_model::{Flow, FlowChoice};

// The port of NTP (RFC 5905).
const NTP_PORT: u32 = 123;

// The number whose hexadecimal digit a byte is, 0-9 or a-f.
fn digit_of(byte: u8) -> Option<u8>
    ensures some { IfSome result (λ d. (d < 16) × (byte ≡ digit_glyph false d)) }
    ensures none { IfNone result ((d : ℕ) → d < 16 → byte ≢ digit_glyph false d) }
{
    if byte >= 48 && byte < 58 {
        return Some(byte - 48);
    }
    if byte >= 97 && byte < 103 {
        return Some(byte - 87);
    }
    None
}

// The address that 32 bytes are the digits of.
fn address_of(text: &[u8]) -> Option<u128>
    requires { length text.now ≡ 32 }
    ensures some { IfSome result (λ a. text.now ≡ hex_text 32 a) }
    ensures none { IfNone result ((a : ℕ) → text.now ≢ hex_text 32 a) }
{
    let mut address: u128 = 0;
    for byte in text {
        match digit_of(*byte) {
            Some(digit) => address = address * 16 + digit as u128,
            None => return None,
        }
    }
    Some(address)
}

/// The flow that a text is, which has a port from 1 to 65,535 that isn't 123.
pub fn flow_of(word: &str) -> Option<Flow>
    ensures some { IfSome result (λ f. word.now ≡ flow_text f) }
    ensures range { IfSome result (λ f. HasFlowRange f) }
    ensures none { IfNone result ((f : Flow) → HasFlowRange f → word.now ≢ flow_text f) }
{
    let bytes = word.as_bytes();
    if bytes.len() < 33 {
        return None;
    }
    if bytes[32] != 58 {
        return None;
    }
    let address = match address_of(&bytes[..32]) {
        Some(address) => address,
        None => return None,
    };
    let port = match number_in(&word[33..], 1, 65535) {
        Some(port) => port,
        None => return None,
    };
    if port == NTP_PORT {
        return None;
    }
    Some(Flow {
        address,
        port: port as u16,
    })
}

/// The flow that the word at a place is.
pub fn flow_at(words: &[String], at: usize) -> Option<Flow>
    requires { at < 100 }
    ensures word { IfSome result (λ f. drop at (texts words.now) ≡ flow_text f ∷ drop (at + 1) (texts words.now)) }
    ensures range { IfSome result (λ f. HasFlowRange f) }
    ensures none { IfNone result ((f : Flow) (more : List (List ℕ)) → HasFlowRange f → drop at (texts words.now) ≢ flow_text f ∷ more) }
{
    match words.get(at) {
        Some(word) => flow_of(word.as_str()),
        None => None,
    }
}

/// The choice of a flow that the words from place 7 on are, or the place of the first wrong one.
pub fn choice_of(words: &[String]) -> Result<FlowChoice, u32>
    ensures words { IfOk result (λ choice. drop 7 (texts words.now) ≡ flow_words choice) }
    ensures range { IfOk result (λ choice. HasChoiceRange choice) }
    ensures wrong { IfErr result (λ index. NoFlow (drop 7 (texts words.now)) index) }
{
    if words.len() <= 7 {
        return Ok(FlowChoice::Any);
    }
    if !is_at(words, 7, "--flow") {
        return Err(7);
    }
    let flow = match flow_at(words, 8) {
        Some(flow) => flow,
        None => return Err(8),
    };
    if words.len() > 9 {
        return Err(9);
    }
    Ok(FlowChoice::One(flow))
}
