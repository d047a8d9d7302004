// The fixed words of the text, stored once in one table; signed numbers in decimal.
#![tactic(auto)]

pub mod signed_decimal;
pub mod table;
