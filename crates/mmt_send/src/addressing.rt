//! The TLV packets of one flow, call by call.

ghost use Rattle.std.specs.Prelude.{◌≡◌, ◌+◌, ◌^◌, ◌≤◌, ◌<◌, ◌++◌, ℕ, List, [], length, OnOk};
ghost use Rattle.mmt_model.specs.Right.{IsRight};
ghost use Rattle.mmt_sent.specs.Packets.{Addressing, addressed};
ghost use Rattle.mmt_sent.specs.Stream.{addressing_of};
ghost use Rattle.mmt_send.specs.Calls.{FitsLabel, HasCall, IsAt, IsBegun};
ghost use Rattle.mmt_tlv.specs.Framing.{Packet, spelling};

use crate::made::Made;
use mmt_base::OutOfMemory;
use mmt_ctx::Squeezer;
use mmt_ip::{Ip6Header, Ip6Udp, write_ip6udp};
use mmt_model::Programme;
use mmt_tlv::{Tlv, write_tlv};

/// How the packets of one flow are addressed: each by its own headers, or with headers compressed.
#[derive(Drop)]
pub enum Addresser {
    Plain(Ip6Header),
    Squeezed(Squeezer),
}

// The headers of a programme's packets (RFC 8200): from its source to its flow, with traffic class and flow
// label 0 and a hop limit of 64.
fn header_of(programme: &Programme) -> Ip6Header
    ensures { result ≡ (addressing_of programme.now).header }
{
    Ip6Header {
        traffic_class: 0,
        flow_label: 0,
        hop_limit: 64,
        source: programme.source.address,
        destination: programme.flow.address,
        source_port: programme.source.port,
        destination_port: programme.flow.port,
    }
}

impl Addresser {
    /// How the packets of a programme are addressed, before the first.
    pub fn new(programme: &Programme) -> Addresser
        requires { IsRight programme.now }
        ensures at { IsAt (addressing_of programme.now) 0 result }
        ensures label { FitsLabel result }
    {
        let header = header_of(programme);
        if programme.full_every == 0 {
            Addresser::Plain(header)
        } else {
            Addresser::Squeezed(Squeezer::new(programme.context, programme.full_every, header))
        }
    }
}

/// Ends a TLV packet of which all but the length of the body is written (ARIB STD-B32 Part 3).
pub fn put_length(out: &mut Vec<u8>)
    requires { length out.old.items < 65540 }
    ensures { (packet : Packet) → IsBegun out.old.items packet → out.new.items ≡ spelling packet }
{
    // Fewer bytes begin no packet.
    if out.len() >= 4 {
        let length = out.len() - 4;
        out[2] = (length / 256) as u8;
        out[3] = (length % 256) as u8;
    }
}

/// Makes a packet with these headers in `made.outer`: a TLV packet (ARIB STD-B32 Part 3) of plain IPv6, with the UDP
/// payload that stands in `made.inner`.
///
/// # Errors
///
/// `OutOfMemory`.
pub fn put_plain(header: &Ip6Header, made: &mut Made) -> Result<(), OutOfMemory>
    requires label { header.now.flow_label < 2 ^ 20 }
    requires short { length made.old.inner.items ≤ 65000 }
    ensures { OnOk result ((a : Addressing) (call : ℕ) → IsAt a call (Addresser.Plain header.now) →
        made.new.outer.items ≡ spelling (addressed a call made.old.inner.items)) }
{
    made.outer.clear();
    write_tlv(&mut made.outer, &Tlv { kind: 2, body: &[] })?;
    let packet = Ip6Udp {
        header: *header,
        summed: true,
        payload: made.inner.as_slice(),
    };
    write_ip6udp(&mut made.outer, &packet)?;
    put_length(&mut made.outer);
    Ok(())
}

/// Begins the next packet with compressed headers in `out`, in place of what stands there: all of a TLV packet
/// (ARIB STD-B32 Part 3) that comes before its UDP payload, without its length.
///
/// # Errors
///
/// `OutOfMemory`.
pub fn begin_squeezed(squeezer: &mut Squeezer, out: &mut Vec<u8>) -> Result<(), OutOfMemory>
    requires { HasCall (Addresser.Squeezed squeezer.old) }
    ensures few { OnOk result (length out.new.items ≤ 49) }
    ensures head { OnOk result ((a : Addressing) (call : ℕ) → IsAt a call (Addresser.Squeezed squeezer.old) →
        (payload : List ℕ) → IsBegun (out.new.items ++ payload) (addressed a call payload)) }
    ensures next { OnOk result ((a : Addressing) (call : ℕ) → IsAt a call (Addresser.Squeezed squeezer.old) →
        IsAt a (call + 1) (Addresser.Squeezed squeezer.new)) }
{
    out.clear();
    write_tlv(out, &Tlv { kind: 3, body: &[] })?;
    squeezer.next(out, &[])?;
    Ok(())
}
