//! The first refusal of a programme.

ghost use Rattle.std.specs.Prelude.{◌≡◌, option_map};
ghost use Rattle.mmt_cast.specs.Refusing.{refusal, refusal_of_packets};
ghost use Rattle.mmt_casting.specs.Ends.{end_of};
ghost use Rattle.mmt_model.specs.Right.{IsRight};

use crate::counting::packets_of;
use crate::ends::CastEnd;
use crate::ranges::mpus_end;
use crate::tables::tables_end;
use mmt_model::Programme;

/// The refusal of N packets.
#[tactic(auto, unfolding(mmt_cast::specs::Refusing::refusal_of_packets, crate::specs::Ends::end_of))]
fn packets_end(packets: u64) -> Option<CastEnd>
    ensures { result ≡ option_map end_of (refusal_of_packets packets) }
{
    if packets <= 16_777_216 {
        None
    } else {
        Some(CastEnd::CastLong { packets })
    }
}

/// The first refusal of a programme: times, then tables, then packets. It takes no memory.
pub(crate) fn first_end(programme: &Programme) -> Option<CastEnd>
    requires { IsRight programme.now }
    ensures { result ≡ option_map end_of (refusal programme.now) }
{
    let times = mpus_end(programme);
    if times.is_some() {
        return times;
    }
    let tables = tables_end(programme);
    if tables.is_some() {
        return tables;
    }
    packets_end(packets_of(programme))
}
