//! The MMT Package Table with its assets, their locations and its descriptors: reading it as views
//! over its bytes, owning it, and writing it (ARIB STD-B60, MMT Package Table).
#![tactic(auto)]

mod asset_view;
mod assets;
mod descriptor;
mod descriptors;
mod head;
mod location;
mod locations;
mod mpt;
mod mpt_why;
mod owned;
mod owning;
mod part_why;
mod reading_assets;
mod reading_descriptors;
mod reading_locations;
mod reading_mpt;
mod unwritten;
mod writing_assets;
mod writing_descriptors;
mod writing_locations;
mod writing_mpt;
mod writing_owned_locations;

pub use asset_view::AssetView;
pub use assets::Assets;
pub use descriptor::Descriptor;
pub use descriptors::Descriptors;
pub use location::{Location, LocationWhy};
pub use locations::Locations;
pub use mpt::Mpt;
pub use mpt_why::MptWhy;
pub use owned::{OwnedAsset, OwnedDescriptor, OwnedLocation, OwnedMpt};
pub use owning::own_mpt;
pub use reading_locations::read_location;
pub use reading_mpt::read_mpt;
pub use unwritten::Unwritten;
pub use writing_locations::write_location;
pub use writing_mpt::write_mpt;

#[cfg(test)]
mod tests;
