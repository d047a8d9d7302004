// Words in bytes, text, decimal and signed numbers, refusals: definitions and laws.
#![tactic(auto)]

pub mod refusal;
