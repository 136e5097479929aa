//! The words of refusals of signalling: of payloads, messages, MPTs and their timestamp descriptors.

ghost use Rattle.std.specs.Prelude.{◌≡◌, ◌+◌, ◌≤◌, ◌++◌, vec_len, vec_capacity};
ghost use Rattle.mmt_words.specs.Words.{sig_word, message_word, mpt_word, times_word};

use mmt_fields::put_bytes;
use mmt_mpt::MptWhy;
use mmt_sig::{MessageWhy, SigWhy};
use mmt_times::TimesWhy;

/// Appends the word of the refusal of a signalling payload, as `sig-short`. It takes at most 20 bytes.
#[tactic(auto, unfolding(crate::specs::Words::sig_word))]
pub fn put_sig_why(out: &mut Vec<u8>, why: SigWhy)
    requires { vec_len out.old + 20 ≤ vec_capacity out.old }
    ensures items { out.new.items ≡ out.old.items ++ sig_word why }
    ensures grows { vec_len out.old ≤ vec_len out.new }
    ensures len { vec_len out.new ≤ vec_len out.old + 20 }
    ensures capacity { vec_capacity out.old ≤ vec_capacity out.new }
{
    match why {
        SigWhy::Short => put_bytes(out, b"sig-short"),
        SigWhy::AggregatedPart => put_bytes(out, b"sig-aggregated-part"),
        SigWhy::Overrun => put_bytes(out, b"sig-overrun"),
    }
}

/// Appends the word of the refusal of a signalling message, as `hrbm-values`. It takes at most 20 bytes.
#[tactic(auto, unfolding(crate::specs::Words::message_word))]
pub fn put_message_why(out: &mut Vec<u8>, why: MessageWhy)
    requires { vec_len out.old + 20 ≤ vec_capacity out.old }
    ensures items { out.new.items ≡ out.old.items ++ message_word why }
    ensures grows { vec_len out.old ≤ vec_len out.new }
    ensures len { vec_len out.new ≤ vec_len out.old + 20 }
    ensures capacity { vec_capacity out.old ≤ vec_capacity out.new }
{
    match why {
        MessageWhy::Short => put_bytes(out, b"message-short"),
        MessageWhy::Length => put_bytes(out, b"message-length"),
        MessageWhy::HrbmValues => put_bytes(out, b"hrbm-values"),
    }
}

/// Appends the word of the refusal of an MPT, as `mpt-clock`, without a number behind it. It takes at most 20 bytes.
#[tactic(auto, unfolding(crate::specs::Words::mpt_word))]
pub fn put_mpt_why(out: &mut Vec<u8>, why: MptWhy)
    requires { vec_len out.old + 20 ≤ vec_capacity out.old }
    ensures items { out.new.items ≡ out.old.items ++ mpt_word why }
    ensures grows { vec_len out.old ≤ vec_len out.new }
    ensures len { vec_len out.new ≤ vec_len out.old + 20 }
    ensures capacity { vec_capacity out.old ≤ vec_capacity out.new }
{
    match why {
        MptWhy::Short => put_bytes(out, b"mpt-short"),
        MptWhy::Length => put_bytes(out, b"mpt-length"),
        MptWhy::ClockRelation(_) => put_bytes(out, b"mpt-clock"),
        MptWhy::LocationKind(_) => put_bytes(out, b"mpt-location"),
    }
}

/// Appends the word of the refusal of a timestamp descriptor, as `times-length`. It takes at most 20
/// bytes.
#[tactic(auto, unfolding(crate::specs::Words::times_word))]
pub fn put_times_why(out: &mut Vec<u8>, why: TimesWhy)
    requires { vec_len out.old + 20 ≤ vec_capacity out.old }
    ensures items { out.new.items ≡ out.old.items ++ times_word why }
    ensures grows { vec_len out.old ≤ vec_len out.new }
    ensures len { vec_len out.new ≤ vec_len out.old + 20 }
    ensures capacity { vec_capacity out.old ≤ vec_capacity out.new }
{
    match why {
        TimesWhy::Length => put_bytes(out, b"times-length"),
        TimesWhy::OffsetType => put_bytes(out, b"times-offset-type"),
        TimesWhy::TimescaleZero => put_bytes(out, b"times-timescale"),
        TimesWhy::Range => put_bytes(out, b"times-range"),
    }
}
