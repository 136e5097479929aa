//! How much was handed out.

ghost use Rattle.std.specs.Prelude.{◌≡◌, ℕ, ◌+◌, List, [], ◌++◌};
ghost use Rattle.mmt_model.specs.Counts.{counted};
ghost use Rattle.mmt_model.specs.Handing.{Presentation};
ghost use Rattle.mmt_output.specs.Records.{amount_of};

/// How many media units were handed out, and how many bytes they have together, without the headers
/// of their records. Each number stays at 2^64 - 1.
#[derive(Clone, Copy, Debug, PartialEq, Eq)]
pub struct Handed {
    /// The number of units.
    pub units: u64,
    /// The number of their bytes.
    pub bytes: u64,
}

impl Handed {
    /// Nothing.
    #[tactic(auto, unfolding(crate::specs::Records::amount_of))]
    pub fn nothing() -> Handed
        ensures { result ≡ amount_of [] }
    {
        Handed { units: 0, bytes: 0 }
    }

    // These and one unit more, of N bytes.
    pub(crate) fn and_one(self, length: u32) -> Handed
        ensures { result ≡ record { units = counted (self.units + 1); bytes = counted (self.bytes + length) } }
    {
        Handed {
            units: self.units.saturating_add(1),
            bytes: self.bytes.saturating_add(length as u64),
        }
    }

    /// These, and others that were handed out after them.
    pub fn and(self, later: Handed) -> Handed
        ensures sum { result ≡ record { units = counted (self.units + later.units); bytes = counted (self.bytes + later.bytes) } }
        ensures amounts { (first rest : List Presentation) → self ≡ amount_of first → later ≡ amount_of rest → result ≡ amount_of (first ++ rest) }
    {
        Handed {
            units: self.units.saturating_add(later.units),
            bytes: self.bytes.saturating_add(later.bytes),
        }
    }
}
