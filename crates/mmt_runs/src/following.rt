//! Following a run of parts from packet to packet.

ghost use Rattle.std.specs.Prelude.{◌≡◌, ◌<◌, ◌^◌, map};
ghost use Rattle.mmt_model.specs.Units.{media_link, next_number};
ghost use Rattle.mmt_pool.specs.Holding.{held};
ghost use Rattle.mmt_runs.specs.Reading.{heard};
ghost use Rattle.mmt_runs.specs.Following.{Follows};

use crate::links::{Link, link_of};
use mmt_pool::{Pool, Span};

/// How much a unit takes, or the rest of one.
#[derive(Clone, Copy)]
pub(crate) struct Extent {
    /// How many packets.
    pub count: usize,
    /// How many bytes there are in their parts together.
    pub length: u32,
}

/// The next packet's span.
#[tactic(auto, unfolding(mmt_model::specs::Units::next_number))]
pub(crate) fn span_after(span: Span) -> Span
    ensures packet_id { result.packet_id ≡ span.packet_id }
    ensures number { result.number ≡ next_number span.number }
{
    Span {
        packet_id: span.packet_id,
        number: span.number.wrapping_add(1),
    }
}

/// The packets from this span on up to a last part, without a gap, of which there are at most `most`.
pub(crate) fn rest_of_run(
    pool: &Pool,
    first: Span,
    timed: bool,
    mpu: u32,
    most: usize,
) -> Option<Extent>
    requires { most < 2 ^ 63 }
    ensures follows { Follows (media_link timed mpu) (map heard pool.now.kept) first.packet_id most first.number result }
    ensures bounded { held pool.now.kept < 2 ^ 32 }
{
    let held = pool.held();
    let mut span = first;
    let mut count = 0;
    let mut length: u32 = 0;
    'packets: while count < most {
        match link_of(pool, span, timed, mpu) {
            Link::Break => return None,
            Link::End(bytes) => {
                // The parts of a whole run are distinct packets', so their sum did not wrap round.
                let length = length.wrapping_add(bytes.len() as u32);
                prove!(length <= held);
                return Some(Extent {
                    count: count + 1,
                    length,
                });
            }
            Link::Inner(bytes) => {
                length = length.wrapping_add(bytes.len() as u32);
                count += 1;
                span = span_after(span);
            }
        }
    }
    None
}
