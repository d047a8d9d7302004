// A section cut down to what is used: its writer and the call.
#![tactic(auto)]

pub mod call;
pub mod writer;
