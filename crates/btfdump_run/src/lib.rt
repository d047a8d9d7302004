// The program: what it prints, as a function.
#![tactic(auto)]

pub mod printed;
pub mod program;
pub mod streams;
