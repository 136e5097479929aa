//! Parts and keys of data units.

ghost use Rattle.std.specs.Prelude.{◌≡◌};
ghost use Rattle.mmt_model.specs.Parts.{part_number, part_of};

/// Which part of a data unit or of a message a payload carries (ISO/IEC 23008-1, the fragmentation
/// indicator of an MPU payload and of a signalling payload).
#[derive(Clone, Copy, Debug, PartialEq, Eq)]
pub enum Part {
    /// One or more units or messages, each of them whole.
    Whole,
    /// The first part of one.
    First,
    /// A part that is neither the first nor the last.
    Middle,
    /// The last part.
    Last,
}

impl Part {
    /// The fragmentation indicator f_i of the part, of two bits.
    pub fn indicator(self) -> u8
        ensures { result ≡ part_number self }
    {
        match self {
            Part::Whole => 0,
            Part::First => 1,
            Part::Middle => 2,
            Part::Last => 3,
        }
    }

    /// The part that a fragmentation indicator below 4 stands for.
    pub fn from_indicator(number: u8) -> Part
        ensures { result ≡ part_of number }
    {
        match number {
            0 => Part::Whole,
            1 => Part::First,
            2 => Part::Middle,
            _ => Part::Last,
        }
    }
}

/// Which data unit of its MPU a unit is (ISO/IEC 23008-1, the data unit header).
#[derive(Clone, Copy, Debug, PartialEq, Eq)]
pub enum UnitKey {
    /// A unit of timed media: the number of its movie fragment, the number of its sample, and the
    /// place of its first byte in the sample, in bytes.
    Timed {
        movie_fragment: u32,
        sample: u32,
        offset: u32,
    },
    /// An item of media that is not timed, by its id.
    Item {
        item: u32,
    },
}
