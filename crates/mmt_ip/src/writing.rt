//! Writing a packet, field by field into room that was reserved first.

ghost use Rattle.std.specs.Prelude.{◌≡◌, ◌+◌, ◌<◌, ◌≤◌, ◌^◌, ◌++◌, length, OnOk, OnErr};
ghost use Rattle.mmt_ip.specs.Spelling.{Fits, view, spelling, first_word as word_one, sum_field as sum_of};

use crate::packet::{Ip6Header, Ip6Udp};
use crate::sum::udp_sum;
use mmt_base::OutOfMemory;
use mmt_fields::{put_bytes, put_u8, put_u16, put_u32, put_u128};

/// The number in the checksum's field.
fn sum_field(packet: &Ip6Udp<'_>) -> u16
    requires label { packet.now.header.flow_label < 2 ^ 20 }
    requires len { length packet.now.payload.now ≤ 65487 }
    ensures { result ≡ sum_of (view packet.now) }
{
    if packet.summed {
        udp_sum(&packet.header, packet.payload)
    } else {
        0
    }
}

/// The first four bytes: the version, the traffic class and the flow label.
fn first_word(header: &Ip6Header) -> u32
    requires { header.now.flow_label < 2 ^ 20 }
    ensures word { result ≡ word_one header.now }
    ensures fits { header.now.traffic_class < 2 ^ 8 }
{
    (6 << 28) + ((header.traffic_class as u32) << 20) + header.flow_label
}

/// Appends the packet, with its lengths and its checksum (RFC 8200, section 3; RFC 768). The flow
/// label is below 2^20, and the payload has at most 65,487 bytes.
///
/// # Errors
///
/// `OutOfMemory`, which leaves `out` as it was.
#[tactic(auto, using(std::proofs::Common::append_assoc), unfolding(crate::specs::Spelling::spelling))]
pub fn write_ip6udp(out: &mut Vec<u8>, packet: &Ip6Udp<'_>) -> Result<(), OutOfMemory>
    requires label { packet.now.header.flow_label < 2 ^ 20 }
    requires len { length packet.now.payload.now ≤ 65487 }
    // What is appended.
    ensures ok { OnOk result (out.new.items ≡ out.old.items ++ spelling (view packet.now)) }
    // What is appended is read back.
    ensures fits { OnOk result (Fits (view packet.now)) }
    // What a refusal leaves.
    ensures err { OnErr result (out.new.items ≡ out.old.items) }
{
    let header = &packet.header;
    let len = 8 + packet.payload.len() as u16;
    out.reserve(48 + packet.payload.len())?;
    put_u32(out, first_word(header));
    put_u16(out, len);
    put_u8(out, 17);
    put_u8(out, header.hop_limit);
    put_u128(out, header.source);
    put_u128(out, header.destination);
    put_u16(out, header.source_port);
    put_u16(out, header.destination_port);
    put_u16(out, len);
    put_u16(out, sum_field(packet));
    put_bytes(out, packet.payload);
    Ok(())
}
