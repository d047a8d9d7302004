// The ids that the types of a table follow while it is being opened or cut down, through the index of its records, and cause 6.
mod index;
mod references;

pub use crate::references::index::{Entry, Index};
pub use crate::references::references::has_bad_reference;
