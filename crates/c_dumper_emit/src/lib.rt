// Emission: which lines a listed id brings, with their entries; one request.
#![tactic(auto)]

pub mod dump_type;
pub mod emission;
pub mod emit_type;
pub mod entries;
pub mod lines;
pub mod order_list;
pub mod steps;
