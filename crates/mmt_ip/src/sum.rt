//! The UDP checksum over IPv6 (RFC 768; RFC 8200, section 8.1), with the carries folded in at the
//! end and sixteen bytes added at a time, in the order of the machine (RFC 1071, section 2).

ghost use Rattle.std.specs.Prelude.{◌≡◌, ◌+◌, ◌*◌, ◌%◌, ◌<◌, ◌≤◌, ◌^◌, length};
ghost use Rattle.mmt_ip.specs.Spelling.{checksum};
ghost use Rattle.mmt_ip.specs.Sum.{word_sum};

use crate::packet::Ip6Header;

/// The sum of the 16-bit words of a few bytes, with a zero byte added to an odd length.
fn short_sum(bytes: &[u8]) -> u64
    requires { length bytes.now < 16 }
    ensures sum { result ≡ word_sum bytes.now }
    ensures bound { result ≤ 65535 * length bytes.now }
{
    let mut total = 0;
    let mut rest = bytes;
    while let [high, low, after @ ..] = rest {
        total += *high as u64 * 256 + *low as u64;
        rest = after;
    }
    match rest {
        [last, ..] => total + *last as u64 * 256,
        [] => total,
    }
}

/// A number that is the sum of the 16-bit words modulo 65535, once it is multiplied by 256: its words
/// are read with their lower byte first, and 256 times 256 is 1 modulo 65535. A carry out of a word
/// is worth 1 at its low end, so eight bytes are added as one number of 64 bits.
fn wide_sum(bytes: &[u8]) -> u128
    requires { length bytes.now < 2 ^ 31 }
    ensures sum { 256 * result % 65535 ≡ word_sum bytes.now % 65535 }
    ensures bound { result ≤ 2 ^ 64 * length bytes.now }
{
    let mut total: u128 = 0;
    let mut rest = bytes;
    while let Some((chunk, after)) = rest.split_first_chunk::<16>() {
        let words = u128::from_le_bytes(*chunk);
        total += (words >> 64) + words % (1 << 64);
        rest = after;
    }
    total + short_sum(rest) as u128 * 256
}

/// The number modulo 65535, by its two halves: 2^64 is 1 modulo 65535.
fn folded(total: u128) -> u64
    ensures { result ≡ total % 65535 }
{
    let high = (total >> 64) as u64 % 65535;
    let low = (total % (1 << 64)) as u64 % 65535;
    (high + low) % 65535
}

/// The checksum for any payload whose UDP length fits its field.
pub(crate) fn checksum_of(header: &Ip6Header, payload: &[u8]) -> u16
    requires { 8 + length payload.now < 2 ^ 16 }
    ensures { result ≡ checksum header.now payload.now }
{
    let swapped = wide_sum(&header.source.to_be_bytes())
        + wide_sum(&header.destination.to_be_bytes())
        + wide_sum(payload);
    let ports = header.source_port as u64 + header.destination_port as u64;
    let length = 8 + payload.len() as u64;
    let total = 256 * folded(swapped) + length + 17 + ports + length;
    (65535 - total % 65535) as u16
}

/// The checksum of a UDP datagram as it is written, over the pseudo header of the two addresses, the
/// UDP header and the payload (RFC 768; RFC 8200, section 8.1): never 0, for which 0xFFFF stands.
/// The flow label is below 2^20, and the payload has at most 65,487 bytes.
pub fn udp_sum(header: &Ip6Header, payload: &[u8]) -> u16
    requires label { header.now.flow_label < 2 ^ 20 }
    requires len { length payload.now ≤ 65487 }
    ensures { result ≡ checksum header.now payload.now }
{
    checksum_of(header, payload)
}
