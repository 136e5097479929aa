//! The number that a packet is found by in the map of kept packets.

ghost use Rattle.std.specs.Prelude.{ℕ, Some, nat_eq, refl};
ghost use Rattle.std.specs.Ordering.{nat_cmp};
ghost use Rattle.std.specs.Cmp.{partial_equiv_from_equiv, nat_eq_equiv, nat_cmp_total, unsigned_po, unsigned_ties};

use std::cmp::Ordering;
use std::marker::Model;

/// A packet id times 2^32 plus a packet sequence number. Its comparison asks first whether it is the
/// greater, which is how a search of the map goes on.
#[derive(Clone, Copy)]
pub(crate) struct Key {
    pub at: u64,
}

impl Model for Key {
    ghost Value = { ℕ };

    ghost view = { λ k. k.at };

    ghost inverse = { λ n. record { at = n } };
}

impl PartialEq for Key {
    ghost eq = { nat_eq };

    ghost laws = { partial_equiv_from_equiv nat_eq_equiv };

    fn eq(&self, other: &Key) -> bool {
        self.at == other.at
    }
}

impl Eq for Key {
    ghost laws = { nat_eq_equiv };
}

impl PartialOrd for Key {
    ghost partial_cmp = { λ x y. Some (nat_cmp x y) };

    ghost laws = { unsigned_po };

    fn partial_cmp(&self, other: &Key) -> Option<Ordering> {
        Some(self.cmp(other))
    }
}

impl Ord for Key {
    ghost cmp = { nat_cmp };

    ghost total = { nat_cmp_total };

    ghost matches_partial_cmp = { λ x y. refl };

    ghost matches_eq = { unsigned_ties };

    fn cmp(&self, other: &Key) -> Ordering {
        if self.at > other.at {
            Ordering::Greater
        } else if self.at == other.at {
            Ordering::Equal
        } else {
            Ordering::Less
        }
    }
}
