// Declarations, chains and composite definitions, which call each other; the lines of the text.
#![tactic(auto)]

pub mod declarations;
pub mod lines;
pub mod typedefs;
