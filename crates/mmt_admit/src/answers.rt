//! Why a cast is not admitted.

ghost use Rattle.std.specs.Prelude.{◌≡◌};
ghost use Rattle.mmt_admit.specs.Faults.{as_fault, rule_number};
ghost use Rattle.mmt_model.specs.Admission.{or_else, unless as fault_unless};

use std::fmt;

/// A rule of admission.
#[derive(Clone, Copy, Debug, PartialEq, Eq)]
pub enum Rule {
    /// The values of the buffer message are in their ranges: the delay is at least 1 tick and less than
    /// the window, the window is at most 16,777,216 ticks, and the bound is 1 to 1,073,741,824 bytes. Its
    /// number says which part fails: 0 the least delay, 1 the least window, 2 the greatest window, 3 the
    /// least bound, 4 the greatest bound.
    A1,
    /// A packet's timestamp is not below the one before it, and less than 2^30 ticks above it.
    A2,
    /// A packet's number is the count of earlier packets of its packet id.
    A3,
    /// A unit is due more than the delay after its last packet, and at most the window after its first.
    A4,
    /// Each MPU that a table copy names has its last due tick more than the delay after the copy's last
    /// packet, and at most 2^30 ticks after its first; and the copy's last packet and the delay come
    /// before its first packet and the window.
    A5,
    /// The payload bytes in the window that ends with a packet, its end included, are at most the bound.
    A6,
    /// At the last packet of a table copy at most 1,024 MPUs are live: named by then, and with a later
    /// last due tick.
    A7,
    /// In each MPU the keys of the units rise strictly.
    A8,
    /// Packet 0 carries a buffer message.
    A9,
    /// Some table copy names an MPU, and its last packet comes more than the delay before the MPU's least
    /// due tick.
    A10,
}

/// The rule's name, as the program prints it.
impl fmt::Display for Rule {
    fn fmt<W: fmt::Write>(&self, f: &mut fmt::Formatter<W>) -> fmt::Result {
        let name = match self {
            Rule::A1 => "A1",
            Rule::A2 => "A2",
            Rule::A3 => "A3",
            Rule::A4 => "A4",
            Rule::A5 => "A5",
            Rule::A6 => "A6",
            Rule::A7 => "A7",
            Rule::A8 => "A8",
            Rule::A9 => "A9",
            Rule::A10 => "A10",
        };
        write!(f, "{name}")
    }
}

/// The first fault of a cast.
#[derive(Clone, Copy, Debug, PartialEq, Eq)]
pub struct NotAdmitted {
    /// The first rule that fails.
    pub rule: Rule,
    /// The lowest number at which it fails: of a packet, a unit, a table copy or an MPU, by the rule, each
    /// counted from 0 over the cast; or the part of the rule.
    pub number: u32,
    /// What stands there: ticks, bytes, or a number, by the rule.
    pub found: u64,
    /// What the rule allows there, in the same measure.
    pub allowed: u64,
}

/// The line that the program prints for a cast that is not admitted.
impl fmt::Display for NotAdmitted {
    fn fmt<W: fmt::Write>(&self, f: &mut fmt::Formatter<W>) -> fmt::Result {
        write!(
            f,
            "not admitted: {} {} {} {}",
            self.rule, self.number, self.found, self.allowed
        )
    }
}

/// A fault where a test fails.
pub(crate) fn unless(
    holds: bool,
    rule: Rule,
    number: u32,
    found: u64,
    allowed: u64,
) -> Option<NotAdmitted>
    ensures { as_fault result ≡ fault_unless holds (rule_number rule) number found allowed }
{
    if holds {
        None
    } else {
        Some(NotAdmitted {
            rule,
            number,
            found,
            allowed,
        })
    }
}

/// The first of two faults.
pub(crate) fn earlier(first: Option<NotAdmitted>, later: Option<NotAdmitted>) -> Option<NotAdmitted>
    ensures { as_fault result ≡ or_else (as_fault first) (as_fault later) }
{
    match first {
        Some(_) => first,
        None => later,
    }
}
