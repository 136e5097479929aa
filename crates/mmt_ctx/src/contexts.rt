//! The headers that full headers left, context by context.

ghost use Rattle.std.specs.Prelude.{◌≡◌, ℕ, ◌+◌, ◌<◌, ◌≤◌, ◌^◌, List, [], ◌∷◌, None, length, replicate, IfOk, IfErr};
ghost use Rattle.mmt_fields.specs.Reading.{Gives};

use crate::packet::{CtxWhy, Opened};
use crate::reading::{Compressed, read_compressed};
use mmt_base::{OutOfMemory, Refused};
use mmt_ip::Ip6Header;
use std::alloc::Global;
use std::marker::Model;

/// The last accepted full header of each of the 4,096 contexts.
#[derive(Drop)]
pub struct Contexts {
    headers: Vec<Option<Ip6Header>>,
}

impl Model for Contexts {
    ghost use Rattle.std.specs.Prelude.{◌≡◌, List, Option, length};
    ghost use Rattle.mmt_ip.specs.declared.packet.Ip6Header.{Ip6Header};

    ghost Value = { List (Option Ip6Header) };

    ghost view = { λ c. c.headers.items };

    ghost invariant = { λ c. length c.headers.items ≡ 4096 };
}

// A packet with its header.
fn opened<'a>(packet: &Compressed<'a>, full: bool, header: Ip6Header) -> Opened<'a>
    ensures same_full { result.full ≡ full }
    ensures payload { result.payload.now ≡ packet.entry.now.payload.now }
    ensures opened { (view result ≡ record { context = packet.entry.now.context; number = packet.entry.now.number; full = full; header = header; payload = packet.entry.now.payload.now }) }
{
    Opened {
        context: packet.context,
        number: packet.number,
        full,
        header,
        payload: packet.payload,
    }
}

ghost use Rattle.mmt_ctx.specs.Headers.{view};

impl Contexts {
    ghost use Rattle.mmt_ctx.specs.Spelling.{head_length};
    ghost use Rattle.mmt_ctx.specs.Reading.{packet_of};
    ghost use Rattle.mmt_ctx.specs.Headers.{view, at_context, opened, opened_after, after_body, HasRead};

    /// No header for any context. It takes the room for all 4,096, and no later call takes memory.
    pub fn new(alloc: Global) -> Result<Contexts, OutOfMemory>
        ensures empty { IfOk result (λ c. c ≡ replicate 4096 None) }
        ensures none { IfOk result (λ c. HasRead [] c) }
    {
        let mut headers = Vec::with_capacity(alloc, 4096)?;
        for context in 0..4096usize {
            headers.push(None)?;
        }
        Ok(Contexts { headers })
    }

    /// Reads one header-compressed packet. A full header is kept for its context; a packet without
    /// one has the header last kept for its context, and is refused as `NoContext` at 0 where there
    /// is none. After a refusal nothing is changed.
    pub fn read<'a>(&mut self, body: &'a [u8]) -> Result<Opened<'a>, Refused<CtxWhy>>
        requires { length body.now < 2 ^ 31 }
        // What it answers, and what it keeps.
        ensures answer { Gives view result (opened (at_context self.old) (packet_of body.now)) }
        ensures kept { self.new ≡ after_body self.old (packet_of body.now) }
        ensures within { IfOk result (λ o. head_length o.full + length o.payload.now ≡ length body.now) }
        ensures place { IfErr result (λ e. e.at ≤ length body.now) }
        // For every list of earlier bodies: the header is the one that looking back in the list finds.
        ensures back { (earlier : List (List ℕ)) → HasRead earlier self.old → Gives view result (opened_after earlier body.now) }
        ensures next { (earlier : List (List ℕ)) → HasRead earlier self.old → HasRead (body.now ∷ earlier) self.new }
    {
        let packet = read_compressed(body)?;
        let place = packet.context as usize;
        match packet.header {
            Some(header) => {
                self.headers[place] = Some(header);
                Ok(opened(&packet, true, header))
            }
            None => match self.headers[place] {
                Some(header) => Ok(opened(&packet, false, header)),
                None => Err(Refused {
                    at: 0,
                    why: CtxWhy::NoContext(packet.context),
                }),
            },
        }
    }
}
