// What opening tests of a section: header, strings, records, references, prototypes, loops.
#![tactic(auto)]

pub mod header;
pub mod loops;
pub mod prototypes;
pub mod records;
pub mod references;
pub mod strings;
