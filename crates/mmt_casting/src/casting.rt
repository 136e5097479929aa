//! The cast of a programme.

ghost use Rattle.std.specs.Prelude.{◌≡◌, length, None, IfOk, OnOk, IfErr};
ghost use Rattle.mmt_cast.specs.Casting.{cast_of as cast_by};
ghost use Rattle.mmt_cast.specs.Placing.{all_mpus};
ghost use Rattle.mmt_cast.specs.Refusing.{refusal};
ghost use Rattle.mmt_casting.specs.Ends.{IsEndOf};
ghost use Rattle.mmt_model.specs.Right.{IsRight};

use crate::copies::copies_of;
use crate::ends::CastEnd;
use crate::media::put_media;
use crate::mpus::mpus_of;
use crate::naming::named_from;
use crate::refusing::first_end;
use crate::signalling::put_signalling;
use crate::sorting::sort;
use mmt_base::OutOfMemory;
use mmt_model::{Cast, List, Programme};
use std::alloc::Global;

/// How many MPUs a programme has.
fn mpus_count(programme: &Programme) -> usize
    requires { IsRight programme.now }
    ensures { result ≡ length (all_mpus programme.now) }
{
    let assets = programme.assets.as_slice();
    let mut count = 0usize;
    for a in 0..assets.len() {
        count += assets[a].mpus.len();
    }
    count
}

/// The cast of a programme that has one.
fn made(alloc: Global, programme: &Programme) -> Result<Cast, OutOfMemory>
    requires right { IsRight programme.now }
    requires none { refusal programme.now ≡ None }
    ensures { IfOk result (λ cast. cast ≡ cast_by programme.now) }
{
    let mut packets = Vec::new(alloc);
    let mut units = Vec::new(alloc);
    put_signalling(&mut packets, programme)?;
    put_media(&mut packets, &mut units, programme)?;
    sort(alloc, packets.as_mut_slice())?;
    let copies = copies_of(alloc, programme)?;
    let named = named_from(alloc, mpus_count(programme), copies.as_slice())?;
    let mpus = mpus_of(alloc, programme, units.as_slice(), named.as_slice())?;
    Ok(Cast {
        params: programme.params,
        packets: List::from_vec(packets),
        units: List::from_vec(units),
        mpus: List::from_vec(mpus),
        copies: List::from_vec(copies),
    })
}

/// The cast of a programme: its packets in the order of timestamp (ticks of 1/65536 second), packet id and
/// number, and its units, MPUs and table copies.
///
/// It asks for a right programme. An error other than `OutOfMemory` comes if and only if there is no cast, and
/// is the first of: an access unit's time is out of range, a table is too long, there are too many packets. The
/// packets are counted before memory is taken. Its memory is in proportion to the cast.
pub fn cast_of(alloc: Global, programme: &Programme) -> Result<Cast, CastEnd>
    requires { IsRight programme.now }
    ensures made { IfOk result (λ cast. cast ≡ cast_by programme.now) }
    ensures none { OnOk result (refusal programme.now ≡ None) }
    ensures refused { IfErr result (λ end. IsEndOf programme.now end) }
{
    if let Some(end) = first_end(programme) {
        return Err(end);
    }
    match made(alloc, programme) {
        Ok(cast) => Ok(cast),
        Err(_) => Err(CastEnd::OutOfMemory),
    }
}
