// Names of holders by content: the key of a holder, whether two keys are the same, and a hash.
mod hash;
mod keys;

pub use crate::keys::hash::{hash_name, hash_step};
pub use crate::keys::keys::{Key, Space, load_key, same_key};
