// The parts of declarations and bodies that call no declaration: chains, qualifiers, enums, heads and ends.
#![tactic(auto)]

pub mod bodies;
pub mod chain;
pub mod enumerators;
pub mod enums;
pub mod modifiers;
