// The lists of taken numbers, for names that cannot collide: what opening adds to the work in that mode.
mod bases;
mod lists;

pub use crate::taken_numbers::lists::takers;
