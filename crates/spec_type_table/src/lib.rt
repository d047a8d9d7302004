// A type table read from the bytes of its section: header, records, names. Structs, definitions and laws; the code stands in
// `btf_type_table`.
#![tactic(auto)]

mod kind;
mod node;
mod types;

pub use kind::{KIND_UNIT, KINDS, Kind};
pub use node::Node;
pub use types::{BtfMember, BtfType, Entries, TypeTable};
