// Sizes, ends of members, and alignments, each worked out once and remembered in the work.
#![tactic(auto)]

pub mod align_of;
pub mod asked;
pub mod member_end;
pub mod remembered;
pub mod size;
