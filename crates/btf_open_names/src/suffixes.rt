// Names that are another name with a suffix: three underscores and a number.
mod bases;
mod suffix;

pub use crate::suffixes::bases::{Base, base_at, base_of, key_suffix};
pub use crate::suffixes::suffix::{has_suffix, hash_before};
