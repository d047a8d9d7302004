// Placing mode: a body is measured before its first name or byte.
ghost use Rattle.std.specs.Prelude.{◌≡◌, eqb};
ghost use Rattle.spec_type_table.specs.Records.{kind_of};
ghost use Rattle.spec_type_table.specs.Table.{btf_of, members_of};
ghost use Rattle.btf_layout.specs.asked.Asked.{ask_in};
ghost use Rattle.c_dumper_padding.specs.placing.Steps.{by_in, measured_in, body_in};

use crate::extents::{Body, extent_of, judged};
use base_bytes::refusal::Refusal;
use btf_layout::asked::{is_packed, union_align};
use btf_type_table::kind::is_struct;
use btf_type_table::node::TypeRef;
use btf_type_table::table::Table;

// The packed test, then the members, then the whole.
fn measured_by(b: &Table, work: &mut [u8], x: TypeRef, a: u32) -> Result<bool, Refusal>
    ensures { ask_in result work.new
        ≡ by_in b.now.head.types (btf_of b.now.head b.now.section.now work.old) (eqb (kind_of x.t.info) 4) x.id x.t.type_id
        (members_of b.now.head b.now.section.now x.t) a work.old }
{
    let packed = is_packed(b, work, x)?;
    let body = Body {
        in_struct: is_struct(x.t),
        packed,
    };
    let e = extent_of(b, work, x.t, body)?;
    judged(body, x.t.type_id, a, e)
}

fn measured(b: &Table, work: &mut [u8], x: TypeRef) -> Result<bool, Refusal>
    ensures { ask_in result work.new
        ≡ measured_in b.now.head.types (btf_of b.now.head b.now.section.now work.old) (eqb (kind_of x.t.info) 4) x.id x.t.type_id
        (members_of b.now.head b.now.section.now x.t) work.old }
{
    let a = union_align(b, work, x)?;
    measured_by(b, work, x, a)
}

// What is known of a body before its first name or byte: whether it is packed, or the refusal. The mode chooses.
pub fn body_packed(b: &Table, work: &mut [u8], x: TypeRef) -> Result<bool, Refusal>
    ensures { ask_in result work.new
        ≡ body_in b.now.head.types (btf_of b.now.head b.now.section.now work.old) (eqb (kind_of x.t.info) 4) x.id x.t.type_id
        (members_of b.now.head b.now.section.now x.t) work.old }
{
    let is_measured = b.head.placing;
    if is_measured {
        return measured(b, work, x);
    }
    is_packed(b, work, x)
}
