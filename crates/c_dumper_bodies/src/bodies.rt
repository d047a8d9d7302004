// The parts of declarations and of bodies that call no declaration: words and signs, the head and the end of a body, the end
// of a member, the words of enums, the parameters that are printed.
mod bodies;
mod params;
mod words;

pub use crate::bodies::bodies::{
    Body, MemberEnd, Spot, emit_composite_end, emit_composite_head, emit_enum_word,
    emit_member_end, put_typedef_name,
};
pub use crate::bodies::params::{is_any_more, shown_params};
pub use crate::bodies::words::{put_comma, put_count, put_gap, put_star, put_type_tag};
