// One declaration read from its text into its chain.
#![tactic(auto)]

pub mod bases;
pub mod grammar;
pub mod reader;
pub mod token_kind;
pub mod tokens;
