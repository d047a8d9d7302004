// Pads between members, in the old mode and in placing mode.
#![tactic(auto)]

pub mod extents;
pub mod padding;
pub mod pads;
pub mod placing;
pub mod units;
