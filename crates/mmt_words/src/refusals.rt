//! The words of refusals of hearing and of MPU payloads, with the numbers behind them.

ghost use Rattle.std.specs.Prelude.{◌≡◌, ◌+◌, ◌≤◌, ◌++◌, vec_len, vec_capacity};
ghost use Rattle.mmt_words.specs.Words.{why_words, mpu_words};

use crate::numbers::put_number;
use itoa::Buffer;
use mmt_fields::put_bytes;
use mmt_hear::Why;
use mmt_mpu::MpuWhy;

/// Appends the words of a refusal of hearing, as `mmtp-version 1`. They take at most 36 bytes.
#[tactic(auto, unfolding(crate::specs::Words::why_words))]
pub fn put_why(digits: &mut Buffer, out: &mut Vec<u8>, why: Why)
    requires { vec_len out.old + 36 ≤ vec_capacity out.old }
    ensures items { out.new.items ≡ out.old.items ++ why_words why }
    ensures grows { vec_len out.old ≤ vec_len out.new }
    ensures len { vec_len out.new ≤ vec_len out.old + 36 }
    ensures capacity { vec_capacity out.old ≤ vec_capacity out.new }
{
    match why {
        Why::Ip4 => put_bytes(out, b"ip4"),
        Why::TlvKind(kind) => put_number(digits, out, b"tlv-kind ", kind as u64),
        Why::IpShort => put_bytes(out, b"ip-short"),
        Why::IpVersion(version) => put_number(digits, out, b"ip-version ", version as u64),
        Why::IpNext(next) => put_number(digits, out, b"ip-next ", next as u64),
        Why::IpLength => put_bytes(out, b"ip-length"),
        Why::IpChecksum => put_bytes(out, b"ip-checksum"),
        Why::CtxShort => put_bytes(out, b"ctx-short"),
        Why::CtxKind(kind) => put_number(digits, out, b"ctx-kind ", kind as u64),
        Why::CtxNone(context) => put_number(digits, out, b"ctx-none ", context as u64),
        Why::MmtpShort => put_bytes(out, b"mmtp-short"),
        Why::MmtpVersion(version) => put_number(digits, out, b"mmtp-version ", version as u64),
        Why::MmtpFec(fec) => put_number(digits, out, b"mmtp-fec ", fec as u64),
        Why::MmtpKind(kind) => put_number(digits, out, b"mmtp-kind ", kind as u64),
        Why::Scrambled => put_bytes(out, b"scrambled"),
    }
}

/// Appends the words of the refusal of an MPU payload, as `mpu-length`. They take at most 36 bytes.
#[tactic(auto, unfolding(crate::specs::Words::mpu_words))]
pub fn put_mpu_why(digits: &mut Buffer, out: &mut Vec<u8>, why: MpuWhy)
    requires { vec_len out.old + 36 ≤ vec_capacity out.old }
    ensures items { out.new.items ≡ out.old.items ++ mpu_words why }
    ensures grows { vec_len out.old ≤ vec_len out.new }
    ensures len { vec_len out.new ≤ vec_len out.old + 36 }
    ensures capacity { vec_capacity out.old ≤ vec_capacity out.new }
{
    match why {
        MpuWhy::Short => put_bytes(out, b"mpu-short"),
        MpuWhy::Length => put_bytes(out, b"mpu-length"),
        MpuWhy::Metadata(kind) => put_number(digits, out, b"mpu-metadata ", kind as u64),
        MpuWhy::FragmentType(kind) => put_number(digits, out, b"mpu-type ", kind as u64),
        MpuWhy::AggregatedPart => put_bytes(out, b"mpu-aggregated-part"),
        MpuWhy::Overrun => put_bytes(out, b"mpu-overrun"),
    }
}
