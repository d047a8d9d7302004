// What ordering and emission see of a type.
use crate::types::Entries;

// Through: a qualifier or a type tag.
#[derive(Clone, Copy)]
pub enum Node {
    Ignored,
    Plain,
    Enum,
    Fwd,
    Array(u32),
    Through(u32),
    Ptr(u32),
    Typedef(u32),
    Proto(u32, Entries),
    Composite(Entries),
}
