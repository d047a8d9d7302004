// Names as they are printed.
mod versions;

pub use crate::names::versions::{
    Name, emit_name, is_blank, put_name, put_sep_name, resolve_name, resolve_type_name,
};
