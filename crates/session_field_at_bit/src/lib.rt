// Which field covers a bit of a composite. (Attributes stay on one line, however long: the formatter joins them.)
#![tactic(auto)]

pub mod field;
#[tactic(auto, unfolding(crate::specs::step::Code::step_is, crate::specs::step::Code::step_asked, crate::specs::step::Code::shape_is, crate::specs::step::Code::member_step, crate::specs::step::Code::entry_put, crate::specs::step::Path::covers, crate::specs::step::Path::placed, crate::specs::step::Path::step_in, btf_layout::specs::size::Answers::ask_of, spec_c_dumper::specs::rules::Writer::ask_then))]
pub mod step;
