// The type table, read from section and work: kinds, records, entries, names, nodes, words of the work.
#![tactic(auto)]

pub mod cell;
pub mod entry;
pub mod escape;
pub mod kind;
pub mod name;
pub mod node;
pub mod section_word;
pub mod table;
