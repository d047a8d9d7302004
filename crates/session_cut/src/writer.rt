// A section cut down to what is used.
mod names;
mod source;
mod write;

pub use crate::writer::write::write_kept;
