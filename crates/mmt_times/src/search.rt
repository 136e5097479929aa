//! Looking for the extended entries of one MPU number after another.

ghost use Rattle.std.specs.Prelude.{◌≡◌, ◌<◌, ◌≤◌, ℕ, IfSome};
ghost use Rattle.mmt_times.specs.NamesOf.{for_mpu};
ghost use Rattle.mmt_times.specs.NamesLeft.{candidates_left, size_of};

use crate::contents::{content_of, first_candidate};
use crate::parts_left::Candidates;

/// The extended entries of an asset, and those of them from which on MPU numbers are looked for.
/// Where the numbers that are asked for rise, and the entries too, each entry is passed once.
#[derive(Clone, Copy, Debug)]
pub(crate) struct Search<'a> {
    /// All entries.
    pub whole: Candidates<'a>,
    /// The entries that are left behind those which were passed.
    pub rest: Candidates<'a>,
    /// No entry was passed that has this MPU number or a higher one.
    pub least: u32,
    ghost passed: { (mpu : ℕ) → least ≤ mpu → for_mpu mpu (candidates_left rest) ≡ for_mpu mpu (candidates_left whole) },
}

/// All of these entries, of which none was passed.
pub(crate) fn search_of<'a>(whole: Candidates<'a>) -> Search<'a>
    ensures { result.whole ≡ whole.entry }
{
    Search {
        whole,
        rest: whole,
        least: 0,
    }
}

/// The entries behind the first, where that is below an MPU number, or the same entries with the first
/// of another descriptor at hand; `None` where neither is so.
fn behind_first<'a>(mpu: u32, candidates: &Candidates<'a>) -> Option<Candidates<'a>>
    ensures same { IfSome result (λ rest. (number : ℕ) → mpu ≤ number
        → for_mpu number (candidates_left rest) ≡ for_mpu number (candidates_left candidates.now)) }
    ensures less { IfSome result (λ rest. size_of rest < size_of candidates.now) }
{
    if let Some((candidate, content)) = first_candidate(&candidates.content) {
        if candidate.mpu.mpu >= mpu {
            return None;
        }
        return Some(Candidates {
            configured: candidates.configured,
            content,
            descriptors: candidates.descriptors,
        });
    }
    let mut descriptors = candidates.descriptors;
    let descriptor = descriptors.next()?;
    Some(Candidates {
        configured: candidates.configured,
        content: content_of(candidates.configured, &descriptor),
        descriptors,
    })
}

/// Passes the entries below an MPU number, and gives those from the first other one on.
fn behind_lower<'a>(mpu: u32, candidates: &Candidates<'a>) -> Candidates<'a>
    ensures { (number : ℕ) → mpu ≤ number
        → for_mpu number (candidates_left result) ≡ for_mpu number (candidates_left candidates.now) }
{
    let mut rest = *candidates;
    while let Some(after) = behind_first(mpu, &rest) {
        rest = after;
    }
    rest
}

impl<'a> Search<'a> {
    /// The entries among which those for an MPU number are to be looked for.
    pub(crate) fn entries_for(&mut self, mpu: u32) -> Candidates<'a>
        ensures all { for_mpu mpu (candidates_left result) ≡ for_mpu mpu (candidates_left self.old.whole) }
        ensures whole { self.new.whole ≡ self.old.whole }
    {
        let from = if mpu < self.least {
            self.whole
        } else {
            self.rest
        };
        let rest = behind_lower(mpu, &from);
        *self = Search {
            whole: self.whole,
            rest,
            least: mpu,
        };
        rest
    }
}
