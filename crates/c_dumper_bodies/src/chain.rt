// Declarator chains.
mod links;

pub use crate::chain::links::{Base, chain_base, is_qualifier, kind_at, path_at};
