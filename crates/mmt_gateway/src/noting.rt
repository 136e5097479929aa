//! The notes of packets that are left out.

ghost use Rattle.std.specs.Prelude.{◌≡◌, ◌+◌, ◌<◌, ◌≤◌, ◌^◌, ◌++◌, codes, decimal, vec_len, vec_capacity, OnOk, OnErr};
ghost use Rattle.mmt_gateway.specs.Noting.{line, expand_note, squeeze_note};
ghost use Rattle.mmt_hear.specs.Hearing.{ctx_reason as reason_of};
ghost use Rattle.mmt_words.specs.Words.{why_words};

use itoa::Buffer;
use mmt_base::OutOfMemory;
use mmt_ctx::CtxWhy;
use mmt_fields::put_bytes;
use mmt_gate::{ExpandEnd, ShrinkEnd};
use mmt_hear::ctx_reason;
use mmt_words::{put_number, put_why};

// The room that a note needs at most, in bytes.
const NOTE: usize = 80;

// Appends the note of a header-compressed packet that is refused, at a place.
#[tactic(auto, using(std::proofs::Common::append_assoc), unfolding(crate::specs::Noting::line))]
fn put_refused(out: &mut Vec<u8>, at: u64, why: CtxWhy) -> Result<(), OutOfMemory>
    ensures ok { OnOk result (out.new.items ≡ out.old.items ++
        line at (why_words (reason_of why))) }
    ensures err { OnErr result (out.new.items ≡ out.old.items) }
{
    out.reserve(NOTE)?;
    let mut digits = Buffer::new();
    put_number(&mut digits, out, b"", at);
    put_bytes(out, b" ");
    put_why(&mut digits, out, ctx_reason(why));
    put_bytes(out, b"\n");
    Ok(())
}

// Appends the note of a payload that is too long, at a place.
#[tactic(auto, using(std::proofs::Common::append_assoc), unfolding(crate::specs::Noting::line))]
fn put_long(out: &mut Vec<u8>, at: u64, length: u32) -> Result<(), OutOfMemory>
    ensures ok { OnOk result (out.new.items ≡ out.old.items ++
        line at (codes "gate-long " ++ decimal length)) }
    ensures err { OnErr result (out.new.items ≡ out.old.items) }
{
    out.reserve(NOTE)?;
    let mut digits = Buffer::new();
    put_number(&mut digits, out, b"", at);
    put_bytes(out, b" ");
    put_number(&mut digits, out, b"gate-long ", length as u64);
    put_bytes(out, b"\n");
    Ok(())
}

// Appends the note of a packet that is header-compressed already, at a place.
#[tactic(auto, using(std::proofs::Common::append_assoc), unfolding(crate::specs::Noting::line))]
fn put_squeezed(out: &mut Vec<u8>, at: u64) -> Result<(), OutOfMemory>
    ensures ok { OnOk result (out.new.items ≡ out.old.items ++ line at (codes "gate-squeezed")) }
    ensures err { OnErr result (out.new.items ≡ out.old.items) }
{
    out.reserve(NOTE)?;
    let mut digits = Buffer::new();
    put_number(&mut digits, out, b"", at);
    put_bytes(out, b" ");
    put_bytes(out, b"gate-squeezed");
    put_bytes(out, b"\n");
    Ok(())
}

/// Appends the note of a packet at a place, in bytes from the start of the stream, that is not
/// expanded, and nothing where the packet ran out of memory.
///
/// # Errors
///
/// There is no memory for the note: `out` is unchanged.
#[tactic(auto, unfolding(crate::specs::Noting::expand_note))]
pub fn put_expand_note(out: &mut Vec<u8>, place: u64, reason: ExpandEnd) -> Result<(), OutOfMemory>
    requires { place < 2 ^ 63 }
    ensures ok { OnOk result (out.new.items ≡ out.old.items ++ expand_note place reason) }
    ensures err { OnErr result (out.new.items ≡ out.old.items) }
{
    match reason {
        ExpandEnd::Refused { at, why } => put_refused(out, place + 4 + at as u64, why),
        ExpandEnd::TooLong { length } => put_long(out, place + 1, length),
        ExpandEnd::OutOfMemory => Ok(()),
    }
}

/// Appends the note of a packet at a place, in bytes from the start of the stream, that is not
/// squeezed, and nothing where the packet ran out of memory.
///
/// # Errors
///
/// There is no memory for the note: `out` is unchanged.
#[tactic(auto, unfolding(crate::specs::Noting::squeeze_note))]
pub fn put_squeeze_note(out: &mut Vec<u8>, place: u64, reason: ShrinkEnd) -> Result<(), OutOfMemory>
    requires { place < 2 ^ 63 }
    ensures ok { OnOk result (out.new.items ≡ out.old.items ++ squeeze_note place reason) }
    ensures err { OnErr result (out.new.items ≡ out.old.items) }
{
    match reason {
        ShrinkEnd::Squeezed => put_squeezed(out, place + 1),
        ShrinkEnd::OutOfMemory => Ok(()),
    }
}
