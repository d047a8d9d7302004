// A hash table over the names of a section: each distinct name once, with its place in the strings of a section cut down.
mod fill;
mod slots;

pub use crate::interned::slots::{Slot, find};

// Slots of the table; SLOTS says of a place that it is none.
pub const SLOTS: u32 = 262144;

pub const SLOTS_LEN: usize = SLOTS as usize;
