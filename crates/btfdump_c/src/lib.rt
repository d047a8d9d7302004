// The calls for C.
#![tactic(auto)]

pub mod exported;
