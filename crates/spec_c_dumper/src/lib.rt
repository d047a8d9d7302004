#![tactic(auto)]

// The functions of the Rust as definitions, and what is said of them: needs, ceilings, line origins, alignments remembered.
