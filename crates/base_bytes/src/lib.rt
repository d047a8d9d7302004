// Words and text in lent bytes: reading and storing words and elements, putting bytes and decimals.
#![tactic(auto)]

pub mod element;
pub mod limit;
pub mod put;
pub mod refusal;
pub mod word;
