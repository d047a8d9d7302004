// The order of definitions: order_type, its state in the work, and what led to each listed id.
#![tactic(auto)]

pub mod begin;
pub mod entries;
pub mod finish;
pub mod leaders;
pub mod order_state;
pub mod order_type;
pub mod ways;
