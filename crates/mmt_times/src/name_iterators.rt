//! Going over the names of an asset.

ghost use Rattle.std.specs.Prelude.{◌≤◌};

use crate::asset_names::names_by;
use crate::named::Named;
use crate::parts_left::{Ids, Pairs, Refusals};
use crate::search::Search;
use crate::trying::{Trying, first_try};
use mmt_mpt::Descriptors;

/// The names at one packet id of an asset, from first to last. It takes no memory.
#[derive(Clone, Copy, Debug)]
pub(crate) struct LocationNames<'a> {
    pub packet_id: u16,
    /// The extended entries of the asset.
    pub search: Search<'a>,
    /// The trying of a pair that has been begun.
    pub trying: Option<Trying<'a>>,
    pub pairs: Pairs<'a>,
}

/// The names at all packet ids of an asset, from first to last. It takes no memory.
#[derive(Clone, Copy, Debug)]
pub(crate) struct HereNames<'a> {
    pub configured: u32,
    /// All descriptors of the asset.
    pub descriptors: Descriptors<'a>,
    /// The names that are left at one packet id.
    pub names: LocationNames<'a>,
    pub ids: Ids<'a>,
    ghost some_timescale: { 1 ≤ configured },
}

/// The names of an asset from first to last, after the refusals of its descriptors. It takes no
/// memory.
#[derive(Clone, Copy, Debug)]
pub(crate) struct AssetNames<'a> {
    pub refusals: Refusals<'a>,
    pub names: HereNames<'a>,
}

impl<'a> Iterator for LocationNames<'a> {
    ghost use Rattle.std.specs.Iterator.{YieldsFirstBy, item_count};
    ghost use Rattle.mmt_times.specs.NamedView.{view_named};
    ghost use Rattle.mmt_times.specs.AssetNamesLeft.{location_left};

    type Item = Named<'a>;

    ghost next_gives = { YieldsFirstBy view_named location_left };

    ghost remaining = { item_count location_left };

    fn next(&mut self) -> Option<Named<'a>> {
        if let Some(trying) = self.trying {
            let (named, after) = first_try(&trying);
            self.trying = after;
            return Some(named);
        }
        let pair = self.pairs.next()?;
        let trying = Trying {
            packet_id: self.packet_id,
            pair,
            candidates: self.search.entries_for(pair.mpu),
        };
        let (named, after) = first_try(&trying);
        self.trying = after;
        Some(named)
    }
}

impl<'a> Iterator for HereNames<'a> {
    ghost use Rattle.std.specs.Iterator.{YieldsFirstBy, item_count};
    ghost use Rattle.mmt_times.specs.NamedView.{view_named};
    ghost use Rattle.mmt_times.specs.AssetNamesLeft.{here_left};

    type Item = Named<'a>;

    ghost next_gives = { YieldsFirstBy view_named here_left };

    ghost remaining = { item_count here_left };

    fn next(&mut self) -> Option<Named<'a>> {
        loop {
            if let Some(named) = self.names.next() {
                return Some(named);
            }
            let packet_id = self.ids.next()?;
            self.names = names_by(self.configured, self.descriptors, packet_id);
        }
    }
}

impl<'a> Iterator for AssetNames<'a> {
    ghost use Rattle.std.specs.Iterator.{YieldsFirstBy, item_count};
    ghost use Rattle.mmt_times.specs.NamedView.{view_named};
    ghost use Rattle.mmt_times.specs.AssetNamesLeft.{asset_left};

    type Item = Named<'a>;

    ghost next_gives = { YieldsFirstBy view_named asset_left };

    ghost remaining = { item_count asset_left };

    fn next(&mut self) -> Option<Named<'a>> {
        match self.refusals.next() {
            Some(refused) => Some(Named::Refused {
                at: refused.at,
                why: refused.why,
            }),
            None => self.names.next(),
        }
    }
}
