// The names that a section cut down mentions, and where for the first time.
mod names;

pub use crate::mentioned::names::{Word, first_name, same_name};
