//! The table that lists services by their packages: reading it as a view over its bytes, and writing
//! it (after ARIB STD-B60, Package List Table; the table id and the layout are this project's own).
#![tactic(auto)]

mod package;
mod packages;
mod plt;
mod plt_why;
mod reading_packages;
mod reading_plt;
mod writing_plt;

pub use package::Package;
pub use packages::Packages;
pub use plt::Plt;
pub use plt_why::PltWhy;
pub use reading_plt::read_plt;
pub use writing_plt::write_plt;

#[cfg(test)]
mod tests;
