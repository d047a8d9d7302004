// A request in emission: what stays the same while its listed ids are emitted.
use crate::dump_type::Request;
use btf_type_table::table::Table;
use c_dumper_dependency_order::leaders::Leader;

// The table, the request, and the leaders that ordering noted for it. What emission writes (work, text, list, and the pen in them) is no
// plainer in it: a struct that holds the `&mut` owes each function a clause more, that the field keeps its reference.
#[derive(Clone, Copy)]
pub struct Emission<'a> {
    pub table: Table<'a>,
    pub request: Request,
    pub leaders: &'a [Leader],
}
