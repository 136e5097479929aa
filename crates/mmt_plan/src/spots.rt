//! Where an object of a plan stands.

ghost use Rattle.std.specs.Prelude.{◌≡◌};
ghost use Rattle.mmt_plan.specs.Places.{at_field, inner, refused, spot_of};

use crate::ends::{PlanPart, PlanPlace, Reason, Refusal};

/// What an object of a plan is read by: its place, the start of the programme in ticks, and whether
/// the units of its asset are timed media.
#[derive(Clone, Copy, Debug, PartialEq, Eq)]
pub struct Spot {
    pub place: PlanPlace,
    pub start: u64,
    pub timed: bool,
}

impl Spot {
    /// Why the member of this number is refused.
    pub fn refused(self, reason: Reason, field: u32) -> Refusal
        ensures { result ≡ refused reason field self }
    {
        Refusal {
            reason,
            place: self.at_field(field),
        }
    }

    /// The place of the member of this number.
    fn at_field(self, field: u32) -> PlanPlace
        ensures { result ≡ at_field field self.place }
    {
        PlanPlace {
            field,
            ..self.place
        }
    }

    /// The object of this kind and number in the object.
    pub fn inner(self, part: PlanPart, number: u32) -> Spot
        ensures { result ≡ spot_of part number self }
    {
        let place = inner(self.place, part, number);
        Spot { place, ..self }
    }
}

// The place of the object of this kind and number in the object at a place.
fn inner(place: PlanPlace, part: PlanPart, number: u32) -> PlanPlace
    ensures { result ≡ inner part number place }
{
    let (a, b, c) = match part {
        PlanPart::Top => (0, 0, 0),
        PlanPart::Signal | PlanPart::Asset | PlanPart::Line => (number, 0, 0),
        PlanPart::Mpu => (place.a, number, 0),
        PlanPart::Au | PlanPart::Unit => (place.a, place.b, number),
    };
    PlanPlace {
        part,
        a,
        b,
        c,
        field: 0,
    }
}
