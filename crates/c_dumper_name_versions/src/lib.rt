// Names as they are printed, with their versions; forward words; tags.
#![tactic(auto)]

pub mod forwards;
pub mod names;
pub mod tags;
