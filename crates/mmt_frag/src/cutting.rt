//! Which parts there are, and how many units are gathered.

ghost use Rattle.std.specs.Prelude.{◌≡◌, ◌<◌, ◌≤◌};
ghost use Rattle.mmt_frag.specs.Cuts.{fitting as fitting_of, gathered as gathered_of, parts as parts_of};
ghost use Rattle.mmt_frag.specs.Fragments.{part_at, part_role};
ghost use Rattle.mmt_frag.specs.Laws.{CutsWithoutGap, GathersMost, PartsAreOneUnit};

use mmt_model::Part;

/// A part of a unit or of a message.
#[derive(Clone, Copy, Debug, PartialEq, Eq)]
pub struct PartOf {
    /// The place of its first byte in the unit or message.
    pub from: u32,
    /// Its bytes.
    pub length: u32,
    /// Which part it is (ISO/IEC 23008-1, the fragmentation indicator).
    pub part: Part,
    /// How many parts follow it, 255 where there are more (ISO/IEC 23008-1, the fragment counter).
    pub left: u8,
}

/// How many parts a unit or message of `length` bytes is cut into: as few as have room for it with at most
/// `limit` bytes each. It takes no memory.
pub fn parts(length: u32, limit: u32) -> u32
    requires { 1 ≤ limit }
    ensures { result ≡ parts_of length limit }
{
    length.div_ceil(limit)
}

/// Part number `number`, counted from 0, of a unit or message of `length` bytes that is cut into parts of
/// at most `limit` bytes: every part but the last has `limit` bytes. It takes no memory.
#[tactic(auto, unfolding(crate::specs::Cuts::part_length))]
pub fn part_of(length: u32, limit: u32, number: u32) -> PartOf
    requires limit { 1 ≤ limit }
    requires place { number < parts_of length limit }
    ensures { result ≡ part_at length limit number }
{
    let count = parts(length, limit);
    let from = number * limit;
    let follow = count - 1 - number;
    PartOf {
        from,
        length: limit.min(length - from),
        part: which_part(number, count),
        left: follow.min(255) as u8,
    }
}

/// Which part of so many it is.
#[tactic(auto, unfolding(crate::specs::Fragments::part_role, mmt_model::specs::Carrying::role))]
fn which_part(number: u32, count: u32) -> Part
    requires { number < count }
    ensures { result ≡ part_role number count }
{
    if count == 1 {
        Part::Whole
    } else if number == 0 {
        Part::First
    } else if number + 1 == count {
        Part::Last
    } else {
        Part::Middle
    }
}

/// How many of the first units go into one payload of at most `limit` bytes of units, by their lengths in
/// bytes: each takes two bytes of length and a header of `header` bytes as well (ISO/IEC 23008-1, aggregated
/// data units). It is at least one, also where one alone has no room, and 0 where there are none. It takes
/// no memory.
pub fn gathered(lengths: &[u32], header: u32, limit: u32) -> u32
    ensures { result ≡ gathered_of header limit lengths.now }
{
    if lengths.is_empty() {
        0
    } else {
        fitting(lengths, header, limit).max(1)
    }
}

/// How many of the first of these units go into so much room.
fn fitting(lengths: &[u32], header: u32, limit: u32) -> u32
    ensures { result ≡ fitting_of header limit lengths.now }
{
    let mut room = limit as u64;
    let mut count = 0u32;
    for length in lengths {
        let need = 2 + header as u64 + *length as u64;
        if need > room {
            return count;
        }
        room -= need;
        count += 1;
    }
    count
}

/// The parts of a unit or message follow one another without a gap from its first byte to its last.
pub fn cutting_is_gapless()
    ensures { CutsWithoutGap }
{}

/// No more units than are gathered would go into the limit, and those that are go into it.
pub fn gathering_is_greatest()
    ensures { GathersMost }
{}

/// The packets of a unit's parts, kept together, are one media unit with the unit's bytes.
pub fn parts_are_one_unit()
    ensures { PartsAreOneUnit }
{}
