// The words of composites and forwards.
ghost use Rattle.std.specs.Prelude.{◌≡◌, [], eqb, Ok};
ghost use Rattle.spec_bytes.specs.text.Text.{whole};
ghost use Rattle.spec_bytes.specs.text.Placed.{put_out, put_text};
ghost use Rattle.spec_c_dumper.specs.rules.Place.{out_of, put_said};
ghost use Rattle.spec_c_dumper.specs.rules.Decl.{keyword, emit_composite_fwd, emit_fwd_def};
ghost use Rattle.spec_type_table.specs.Names.{str_at};
ghost use Rattle.spec_type_table.specs.Records.{kind_of, flag_of};
ghost use Rattle.spec_type_table.specs.Table.{btf_of, work_naming};

use crate::names::{put_name, resolve_type_name};
use base_bytes::put::put_byte;
use base_bytes::refusal::Refusal;
use base_keywords::table::{Word, put_word};
use btf_type_table::kind::{is_struct, kind_flag_of};
use btf_type_table::node::TypeRef;
use btf_type_table::table::Table;
use spec_type_table::TypeTable;

// It is a matter of the settings alone, so any section and any work will do for the table.
pub fn put_keyword(
    b: TypeTable,
    text: &mut [u8],
    at: usize,
    is_struct: bool,
) -> Result<usize, Refusal>
    ensures { put_out result text.new ≡ put_text text.old (Ok at) (whole (keyword (btf_of b [] []) is_struct)) }
{
    if is_struct {
        return put_word(text, at, Word::Struct);
    }
    if b.union_as_struct {
        return put_word(text, at, Word::StructForUnion);
    }
    put_word(text, at, Word::Union)
}

// The keyword and the name; nothing for the compiler's own type.
fn emit_keyed_name(
    b: &Table,
    work: &mut [u8],
    text: &mut [u8],
    at: usize,
    x: TypeRef,
    is_struct: bool,
) -> Result<usize, Refusal>
    ensures { out_of result text.new work.new
        ≡ put_said text.old (Ok at) (emit_composite_fwd (work_naming b.now.head) (btf_of b.now.head b.now.section.now work.old) x.id
        is_struct (str_at b.now.head b.now.section.now x.t.name_off)) work.old }
{
    if b.is_builtin(x.t.name_off) {
        return Ok(at);
    }
    let name = resolve_type_name(b, work, x);
    let a = put_keyword(b.head, text, at, is_struct)?;
    let c = put_byte(text, a, b' ')?;
    put_name(b, text, c, name)
}

// A composite says by its kind whether it is a struct.
pub fn emit_composite_fwd(
    b: &Table,
    work: &mut [u8],
    text: &mut [u8],
    at: usize,
    x: TypeRef,
) -> Result<usize, Refusal>
    ensures { out_of result text.new work.new
        ≡ put_said text.old (Ok at) (emit_composite_fwd (work_naming b.now.head) (btf_of b.now.head b.now.section.now work.old) x.id
        (eqb (kind_of x.t.info) 4) (str_at b.now.head b.now.section.now x.t.name_off)) work.old }
{
    emit_keyed_name(b, work, text, at, x, is_struct(x.t))
}

// A forward says by its flag whether it is a union.
pub fn emit_fwd_def(
    b: &Table,
    work: &mut [u8],
    text: &mut [u8],
    at: usize,
    x: TypeRef,
) -> Result<usize, Refusal>
    ensures { out_of result text.new work.new
        ≡ put_said text.old (Ok at) (emit_fwd_def (work_naming b.now.head) (btf_of b.now.head b.now.section.now work.old) x.id
        (flag_of x.t.info) (str_at b.now.head b.now.section.now x.t.name_off)) work.old }
{
    emit_keyed_name(b, work, text, at, x, !kind_flag_of(x.t.info))
}
