//! Writing one flow as header-compressed packets.

ghost use Rattle.std.specs.Prelude.{◌≡◌, ℕ, ◌+◌, ◌<◌, ◌≤◌, ◌^◌, ◌++◌, ◌%◌, ◌==◌, if◌then◌else◌, Some, None, length, OnOk, OnErr};
ghost use Rattle.mmt_ctx.specs.Squeezing.{SqueezedIsRead};

use crate::reading::Compressed;
use crate::writing::write_compressed;
use mmt_base::OutOfMemory;
use mmt_ip::Ip6Header;
use std::marker::Model;

/// Writes the packets of one flow in one context, with a full header every so many packets.
#[derive(Drop)]
pub struct Squeezer {
    context: u16,
    full_every: u32,
    header: Ip6Header,
    number: u8,
    since: u32,
}

impl Model for Squeezer {
    ghost use Rattle.std.specs.Prelude.{◌<◌, ◌^◌};
    ghost use Rattle.mmt_ctx.specs.Squeezing.{Squeezing};

    ghost Value = { Squeezing };

    ghost view = { λ s. record { context = s.context; full_every = s.full_every; header = s.header; number = s.number; since = s.since } };

    ghost invariant = { λ s. (s.context < 4096) × (s.since < s.full_every) × (s.header.flow_label < 2 ^ 20) × (s.number < 16) };
}

// What counts up by one and begins again at a limit, after one more.
fn counted(count: u32, limit: u32) -> u32
    requires { count < limit }
    ensures below { result < limit }
    ensures next { (call : ℕ) → count ≡ call % limit → result ≡ (call + 1) % limit }
{
    if count + 1 == limit { 0 } else { count + 1 }
}

// The header that the next packet carries.
fn carried(since: u32, header: &Ip6Header) -> Option<Ip6Header>
    ensures { result ≡ (if since == 0 then Some header.now else None) }
{
    if since == 0 { Some(*header) } else { None }
}

impl Squeezer {
    ghost use Rattle.mmt_ctx.specs.Spelling.{spelling};
    ghost use Rattle.mmt_ctx.specs.Squeezing.{IsAtCall, packet_at};

    /// A squeezer at its call number 0, for a context below 4,096, with a full header in each packet
    /// whose call number is a multiple of `full_every`.
    pub fn new(context: u16, full_every: u32, header: Ip6Header) -> Squeezer
        requires context { context < 4096 }
        requires every { 1 ≤ full_every }
        requires label { header.flow_label < 2 ^ 20 }
        ensures made { result ≡ record { context = context; full_every = full_every; header = header; number = 0; since = 0 } }
        ensures first { IsAtCall 0 result }
    {
        Squeezer {
            context,
            full_every,
            header,
            number: 0,
            since: 0,
        }
    }

    /// Appends the body of the next packet, with its call number modulo 16 as sequence number. After
    /// a refusal the squeezer and `out` are as they were.
    pub fn next(&mut self, out: &mut Vec<u8>, payload: &[u8]) -> Result<(), OutOfMemory>
        requires { length payload.now ≤ 65490 }
        ensures body { OnOk result ((call : ℕ) → IsAtCall call self.old → out.new.items ≡ out.old.items ++ spelling (packet_at call self.old payload.now)) }
        ensures call { OnOk result ((call : ℕ) → IsAtCall call self.old → IsAtCall (call + 1) self.new) }
        ensures same { OnOk result ((self.new.context ≡ self.old.context) × (self.new.full_every ≡ self.old.full_every) × (self.new.header ≡ self.old.header)) }
        ensures refused { OnErr result ((self.new ≡ self.old) × (out.new.items ≡ out.old.items)) }
    {
        let packet = Compressed {
            context: self.context,
            number: self.number,
            header: carried(self.since, &self.header),
            payload,
        };
        write_compressed(out, &packet)?;
        self.number = counted(self.number as u32, 16) as u8;
        self.since = counted(self.since, self.full_every);
        Ok(())
    }
}

/// What a squeezer writes, read in order by contexts whose last header for its context was one of
/// its own, or with a header in it, gives its header, the call number modulo 16 and the payload.
pub fn squeezed_is_read()
    ensures { SqueezedIsRead }
{}
