//! Going over an asset's packet ids, and over what its descriptors hold.

ghost use Rattle.std.specs.Prelude.{◌≤◌};

use crate::candidate::{Candidate, Content};
use crate::contents::{content_of, first_candidate, pairs_of, refusal_of};
use crate::pair::Pair;
use crate::reading_stamps::first_pair;
use crate::times_why::TimesWhy;
use mmt_base::Refused;
use mmt_mpt::{Descriptors, Location, Locations};

/// The packet ids of the locations in the same flow, from first to last. It takes no memory.
#[derive(Clone, Copy, Debug)]
pub(crate) struct Ids<'a> {
    pub locations: Locations<'a>,
}

/// The refusals of timestamp descriptors, from first to last. It takes no memory.
#[derive(Clone, Copy, Debug)]
pub(crate) struct Refusals<'a> {
    pub descriptors: Descriptors<'a>,
}

/// The pairs of timestamp descriptors, from first to last. It takes no memory.
#[derive(Clone, Copy, Debug)]
pub(crate) struct Pairs<'a> {
    /// The bytes of the pairs that are left of one descriptor.
    pub rest: &'a [u8],
    pub descriptors: Descriptors<'a>,
}

/// The entries of extended descriptors, from first to last. It takes no memory.
#[derive(Clone, Copy, Debug)]
pub(crate) struct Candidates<'a> {
    pub configured: u32,
    /// What is left of one descriptor.
    pub content: Content<'a>,
    pub descriptors: Descriptors<'a>,
    ghost some_timescale: { 1 ≤ configured },
}

impl<'a> Iterator for Ids<'a> {
    ghost use Rattle.std.specs.Iterator.{YieldsFirst, item_count};
    ghost use Rattle.mmt_times.specs.NamesLeft.{ids_left};

    type Item = u16;

    ghost next_gives = { YieldsFirst ids_left };

    ghost remaining = { item_count ids_left };

    #[tactic(auto, using(crate::proofs::Steps::skipped, crate::proofs::Steps::no_more))]
    fn next(&mut self) -> Option<u16> {
        loop {
            match self.locations.next()? {
                Location::Here { packet_id } => return Some(packet_id),
                _ => {}
            }
        }
    }
}

impl<'a> Iterator for Refusals<'a> {
    ghost use Rattle.std.specs.Iterator.{YieldsFirstBy, item_count};
    ghost use Rattle.mmt_times.specs.RefusedName.{refused_name};
    ghost use Rattle.mmt_times.specs.NamesLeft.{refusals_left};

    type Item = Refused<TimesWhy>;

    ghost next_gives = { YieldsFirstBy refused_name refusals_left };

    ghost remaining = { item_count refusals_left };

    #[tactic(auto, using(crate::proofs::Steps::skipped, crate::proofs::Steps::no_more))]
    fn next(&mut self) -> Option<Refused<TimesWhy>> {
        loop {
            let descriptor = self.descriptors.next()?;
            if let Some(refused) = refusal_of(&descriptor) {
                return Some(refused);
            }
        }
    }
}

impl<'a> Iterator for Pairs<'a> {
    ghost use Rattle.std.specs.Iterator.{YieldsFirstBy, item_count};
    ghost use Rattle.mmt_times.specs.ContentView.{view_pair};
    ghost use Rattle.mmt_times.specs.NamesLeft.{pairs_left};

    type Item = Pair;

    ghost next_gives = { YieldsFirstBy view_pair pairs_left };

    ghost remaining = { item_count pairs_left };

    fn next(&mut self) -> Option<Pair> {
        loop {
            if let Some((pair, rest)) = first_pair(self.rest) {
                self.rest = rest;
                return Some(pair);
            }
            let descriptor = self.descriptors.next()?;
            self.rest = pairs_of(&descriptor);
        }
    }
}

impl<'a> Iterator for Candidates<'a> {
    ghost use Rattle.std.specs.Iterator.{YieldsFirstBy, item_count};
    ghost use Rattle.mmt_times.specs.CandidateView.{view_candidate};
    ghost use Rattle.mmt_times.specs.NamesLeft.{candidates_left};

    type Item = Candidate<'a>;

    ghost next_gives = { YieldsFirstBy view_candidate candidates_left };

    ghost remaining = { item_count candidates_left };

    fn next(&mut self) -> Option<Candidate<'a>> {
        loop {
            if let Some((candidate, content)) = first_candidate(&self.content) {
                self.content = content;
                return Some(candidate);
            }
            let descriptor = self.descriptors.next()?;
            self.content = content_of(self.configured, &descriptor);
        }
    }
}
