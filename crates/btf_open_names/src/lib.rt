// What a successful opening leaves in the work: places, tags, name classes, numbers that are taken.
#![tactic(auto)]

pub mod classify;
pub mod fill;
pub mod hash_table;
pub mod holders;
pub mod keys;
pub mod numbers;
pub mod suffixes;
pub mod taken_numbers;
