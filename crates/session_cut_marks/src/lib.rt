// What a section cut down holds: marks, tags, new numbers, and the names that are mentioned.
#![tactic(auto)]

pub mod interned;
pub mod kept;
pub mod marks;
pub mod mentioned;
pub mod roles;
pub mod tags;
