//! The packets of a cast in their order.

ghost use Rattle.std.specs.Prelude.{◌≡◌, OnOk};
ghost use Rattle.std.specs.Ordering.{is_lt};
ghost use Rattle.mmt_cast.specs.Casting.{cast_of, is_sent_before, planned};
ghost use Rattle.mmt_model.specs.declared.programmes.Programme.{Programme};

use mmt_base::OutOfMemory;
use mmt_model::Sent;
use std::alloc::Global;
use std::cmp::Ordering;

/// A packet comes before another: by timestamp, packet id and number.
#[tactic(auto, unfolding(mmt_cast::specs::Casting::is_sent_before, mmt_model::specs::Handing::precedes))]
fn comes_before(p: &Sent, q: &Sent) -> bool
    ensures { result ≡ is_sent_before p.now q.now }
{
    p.at.0 < q.at.0
        || p.at.0 == q.at.0
            && (p.packet_id < q.packet_id || p.packet_id == q.packet_id && p.number < q.number)
}

/// How two packets stand to each other.
fn order(p: &Sent, q: &Sent) -> Ordering
    ensures { is_lt result ≡ is_sent_before p.now q.now }
{
    if comes_before(p, q) {
        Ordering::Less
    } else if comes_before(q, p) {
        Ordering::Greater
    } else {
        Ordering::Equal
    }
}

/// Puts the packets of a programme into the order of its cast. The packets of each asset are planned mostly in
/// order, so they are runs, which are merged. It takes memory for as many packets.
pub(crate) fn sort(alloc: Global, packets: &mut [Sent]) -> Result<(), OutOfMemory>
    ensures { OnOk result ((programme : Programme) → packets.old ≡ planned programme → packets.new ≡ (cast_of programme).packets) }
{
    packets.sort_by(alloc, |p, q| order(p, q))?;
    Ok(())
}
