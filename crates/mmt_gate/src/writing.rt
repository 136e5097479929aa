//! The TLV packets that go out.

ghost use Rattle.std.specs.Prelude.{◌≡◌, ℕ, ◌+◌, ◌/◌, ◌%◌, ◌<◌, ◌≤◌, ◌^◌, ◌++◌, List, ◌∷◌, [], true, length, OnOk, OnErr};
ghost use Rattle.mmt_tlv.specs.Framing.{spelling};
ghost use Rattle.mmt_ip.specs.Spelling.{spelling as plain_spelling};
ghost use Rattle.mmt_ctx.specs.Spelling.{spelling as compressed_spelling};
ghost use Rattle.mmt_ctx.specs.Squeezing.{IsAtCall, packet_at};

use mmt_base::OutOfMemory;
use mmt_ctx::Squeezer;
use mmt_ip::{Ip6Header, Ip6Udp, write_ip6udp};

/// Appends a packet as it is. After a refusal `out` is as it was.
pub fn put_as_it_is(out: &mut Vec<u8>, tlv: &[u8]) -> Result<(), OutOfMemory>
    ensures ok { OnOk result (out.new.items ≡ out.old.items ++ tlv.now) }
    ensures err { OnErr result (out.new.items ≡ out.old.items) }
{
    out.extend_from_slice(tlv)?;
    Ok(())
}

// Appends the four bytes before the body of a TLV packet, whose length is in bytes (ARIB STD-B32 Part
// 3, the TLV packet).
fn put_header(out: &mut Vec<u8>, kind: u8, length: usize) -> Result<(), OutOfMemory>
    requires { length < 65536 }
    ensures ok { OnOk result (out.new.items ≡ out.old.items ++
        (127 ∷ kind ∷ (length / 256) ∷ (length % 256) ∷ [])) }
    ensures err { OnErr result (out.new.items ≡ out.old.items) }
{
    let header = [0x7F, kind, (length / 256) as u8, (length % 256) as u8];
    out.extend_from_slice(&header)?;
    Ok(())
}

/// Appends a TLV packet of type 2 with this header, this payload of at most 65,487 bytes, and the
/// checksum (RFC 8200, RFC 768). After a refusal `out` is as it was.
pub fn put_plain(out: &mut Vec<u8>, header: Ip6Header, payload: &[u8]) -> Result<(), OutOfMemory>
    requires label { header.flow_label < 2 ^ 20 }
    requires len { length payload.now ≤ 65487 }
    ensures ok { OnOk result (out.new.items ≡ out.old.items ++ spelling (record {
      kind = 2;
      body = plain_spelling (record {
        header = header;
        summed = true;
        payload = payload.now;
      });
    })) }
    ensures err { OnErr result (out.new.items ≡ out.old.items) }
{
    let len = out.len();
    put_header(out, 2, 48 + payload.len())?;
    let packet = Ip6Udp {
        header,
        summed: true,
        payload,
    };
    match write_ip6udp(out, &packet) {
        Ok(()) => Ok(()),
        Err(reason) => {
            out.truncate(len);
            Err(reason)
        }
    }
}

// Writes the length of the body of the TLV packet that begins at a place and is the last one.
fn put_length(out: &mut Vec<u8>, place: usize)
    requires { (old body : List ℕ) × (length old ≡ place) × (length body < 65536) ×
        (out.old.items ≡ old ++ (127 ∷ 3 ∷ 0 ∷ 0 ∷ body)) }
    ensures { (old body : List ℕ) → length old ≡ place →
        out.old.items ≡ old ++ (127 ∷ 3 ∷ 0 ∷ 0 ∷ body) →
        out.new.items ≡ old ++ spelling (record { kind = 3; body = body }) }
{
    let length = out.len() - place - 4;
    out[place + 2] = (length / 256) as u8;
    out[place + 3] = (length % 256) as u8;
}

/// Appends a TLV packet of type 3 with the body that the next call of a squeezer writes. After a
/// refusal `out` and the squeezer are as they were.
pub fn put_squeezed(
    out: &mut Vec<u8>,
    squeezer: &mut Squeezer,
    payload: &[u8],
) -> Result<(), OutOfMemory>
    requires at_call { (call : ℕ) × IsAtCall call squeezer.old }
    requires len { length payload.now ≤ 65487 }
    ensures packet { OnOk result ((call : ℕ) → IsAtCall call squeezer.old →
        out.new.items ≡ out.old.items ++ spelling (record {
          kind = 3;
          body = compressed_spelling (packet_at call squeezer.old payload.now);
        })) }
    ensures call { OnOk result ((call : ℕ) → IsAtCall call squeezer.old →
        IsAtCall (call + 1) squeezer.new) }
    ensures same { OnOk result ((squeezer.new.context ≡ squeezer.old.context) ×
        (squeezer.new.full_every ≡ squeezer.old.full_every) ×
        (squeezer.new.header ≡ squeezer.old.header)) }
    ensures refused { OnErr result ((squeezer.new ≡ squeezer.old) ×
        (out.new.items ≡ out.old.items)) }
{
    let place = out.len();
    put_header(out, 3, 0)?;
    match squeezer.next(out, payload) {
        Ok(()) => {
            put_length(out, place);
            Ok(())
        }
        Err(reason) => {
            out.truncate(place);
            Err(reason)
        }
    }
}
