//! Writing a header-compressed packet.

ghost use Rattle.std.specs.Prelude.{◌≡◌, ◌+◌, ◌<◌, ◌≤◌, ◌^◌, ◌++◌, length, OnOk, OnErr, IfSome, vec_len, vec_capacity};
ghost use Rattle.mmt_fields.specs.Reading.{optional, big_endian};
ghost use Rattle.std.specs.Int.{w8};
ghost use Rattle.mmt_ctx.specs.Spelling.{full_header, header_type, spelling};
ghost use Rattle.mmt_ctx.specs.Compressed.{view};

use crate::reading::Compressed;
use mmt_base::OutOfMemory;
use mmt_fields::{put_bytes, put_u8, put_u16, put_u32, put_u128};
use mmt_ip::Ip6Header;

// Appends the bytes of a full header.
#[tactic(auto, using(std::proofs::Common::append_assoc), unfolding(crate::specs::Spelling::full_header))]
fn put_header(out: &mut Vec<u8>, header: &Ip6Header)
    requires label { header.now.flow_label < 2 ^ 20 }
    requires room { vec_len out.old + 42 ≤ vec_capacity out.old }
    ensures items { out.new.items ≡ out.old.items ++ full_header header.now }
    ensures len { vec_len out.new ≡ vec_len out.old + 42 }
    ensures capacity { vec_capacity out.old ≤ vec_capacity out.new }
{
    let word = (6 << 28) + header.traffic_class as u32 * (1 << 20) + header.flow_label;
    put_u32(out, word);
    put_u8(out, 17);
    put_u8(out, header.hop_limit);
    put_u128(out, header.source);
    put_u128(out, header.destination);
    put_u16(out, header.source_port);
    put_u16(out, header.destination_port);
}

// Appends the header type, and the header where one is carried.
#[tactic(auto, using(std::proofs::Common::append_assoc))]
fn put_carried(out: &mut Vec<u8>, header: &Option<Ip6Header>)
    requires label { IfSome header.now (λ h. h.flow_label < 2 ^ 20) }
    requires room { vec_len out.old + 43 ≤ vec_capacity out.old }
    ensures items { out.new.items ≡ out.old.items ++ (big_endian w8 (header_type header.now) ++ optional full_header header.now) }
    ensures len { vec_len out.new ≤ vec_len out.old + 43 }
    ensures capacity { vec_capacity out.old ≤ vec_capacity out.new }
{
    match header {
        Some(header) => {
            put_u8(out, 0x60);
            put_header(out, header);
        }
        None => put_u8(out, 0x61),
    }
}

/// Appends the packet's one spelling. After a refusal `out` is as it was.
#[tactic(auto, using(std::proofs::Common::append_assoc), unfolding(crate::specs::Spelling::spelling))]
pub fn write_compressed(out: &mut Vec<u8>, packet: &Compressed<'_>) -> Result<(), OutOfMemory>
    requires context { packet.now.context < 4096 }
    requires number { packet.now.number < 16 }
    requires label { IfSome packet.now.header (λ h. h.flow_label < 2 ^ 20) }
    requires len { length packet.now.payload.now ≤ 65490 }
    ensures ok { OnOk result (out.new.items ≡ out.old.items ++ spelling (view packet.now)) }
    ensures err { OnErr result (out.new.items ≡ out.old.items) }
{
    out.reserve(45 + packet.payload.len())?;
    put_u16(out, packet.context * 16 + packet.number as u16);
    put_carried(out, &packet.header);
    put_bytes(out, packet.payload);
    Ok(())
}
