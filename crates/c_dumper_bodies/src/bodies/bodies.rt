// The parts of a composite's body and the words of a base that call no declaration.
ghost use Rattle.std.specs.Prelude.{◌≡◌, eqb, Ok};
ghost use Rattle.spec_c_dumper.specs.rules.Writer.{put};
ghost use Rattle.spec_c_dumper.specs.rules.Names.{ident_space, resolve_type_name};
ghost use Rattle.spec_c_dumper.specs.rules.Layout.{end_of};
ghost use Rattle.spec_c_dumper.specs.rules.Decl.{composite_head, composite_end};
ghost use Rattle.spec_c_dumper.specs.rules.Place.{out_of, put_said};
ghost use Rattle.btf_layout.specs.size.Answers.{ask_of};
ghost use Rattle.spec_type_table.specs.Names.{str_at};
ghost use Rattle.spec_type_table.specs.Records.{kind_of, flag_of};
ghost use Rattle.spec_type_table.specs.Table.{rule_member, members_of, record_name, btf_of, work_naming};
ghost use Rattle.c_dumper_bodies.specs.bodies.Pieces.{member_tail, end_from, enum_text, no_decl};
ghost use Rattle.c_dumper_bodies.specs.enums.Widths.{is_wide, value_text, enum_values};

use crate::bodies::words::{put_bit_size, put_last_newline, put_packed};
use crate::enumerators::emit_enum_head;
use crate::enums::emit_enum_def;
use base_bytes::put::{put_byte, put_bytes, put_tabs};
use base_bytes::refusal::Refusal;
use btf_layout::member_end::member_end;
use btf_type_table::kind::{is_struct, vlen_of};
use btf_type_table::node::TypeRef;
use btf_type_table::table::Table;
use c_dumper_name_versions::forwards::put_keyword;
use c_dumper_name_versions::names::{put_name, put_sep_name, resolve_type_name};
use c_dumper_name_versions::tags::emit_decl_tags;
use spec_type_table::BtfMember;

// Where a member ended: the place in the text, and the bit where the next may begin.
#[derive(Clone, Copy)]
pub struct Spot {
    pub at: usize,
    pub offset: u32,
}

// Where a member ends, or why that is not known.
type End = Result<u32, Refusal>;

// What stands after a member: the place in the text, and the bit where the next may begin, 0 where the member has no end.
#[derive(Clone, Copy)]
pub struct MemberEnd {
    pub at: Result<usize, Refusal>,
    pub offset: u32,
}

// The body of a composite: its type, whether it is packed, and the level of its closing bracket; its members stand one level deeper.
#[derive(Clone, Copy)]
pub struct Body {
    pub x: TypeRef,
    pub packed: bool,
    pub lvl: u32,
}

// A nameless enum is printed inline.
pub fn emit_enum_word(
    b: &Table,
    work: &mut [u8],
    text: &mut [u8],
    at: usize,
    x: TypeRef,
    lvl: u32,
) -> Result<usize, Refusal>
    ensures { out_of result text.new work.new
        ≡ put_said text.old (Ok at) (enum_text (work_naming b.now.head) (btf_of b.now.head b.now.section.now work.old)
        (value_text (is_wide x.t) (flag_of x.t.info)) x.id (record_name b.now.head b.now.section.now x.t)
        (enum_values b.now.head b.now.section.now x.t) lvl) work.old }
{
    if b.is_empty(x.t.name_off) {
        return emit_enum_def(b, work, text, at, x, lvl);
    }
    emit_enum_head(b, work, text, at, x)
}

pub fn put_typedef_name(
    b: &Table,
    work: &mut [u8],
    text: &mut [u8],
    at: usize,
    x: TypeRef,
) -> Result<usize, Refusal>
    ensures { out_of result text.new work.new
        ≡ put_said text.old (Ok at) (resolve_type_name (work_naming b.now.head) ident_space x.id
        (str_at b.now.head b.now.section.now x.t.name_off) put) work.old }
{
    let name = resolve_type_name(b, work, x);
    put_name(b, text, at, name)
}

pub fn emit_composite_head(
    b: &Table,
    work: &mut [u8],
    text: &mut [u8],
    at: usize,
    x: TypeRef,
) -> Result<usize, Refusal>
    ensures { out_of result text.new work.new
        ≡ put_said text.old (Ok at) (composite_head (work_naming b.now.head) (btf_of b.now.head b.now.section.now work.old) no_decl x.id
        (eqb (kind_of x.t.info) 4) (record_name b.now.head b.now.section.now x.t)) work.old }
{
    let name = resolve_type_name(b, work, x);
    let a = put_keyword(b.head, text, at, is_struct(x.t))?;
    let c = put_sep_name(b, text, a, name)?;
    put_bytes(text, c, b" {")
}

// The size of a bit field, the member's tags and the semicolon; where the next may begin is told whatever the text came to.
pub fn emit_member_end(
    b: &Table,
    work: &[u8],
    text: &mut [u8],
    at: usize,
    id: u32,
    k: u32,
    m: BtfMember,
) -> MemberEnd
    ensures { (out_of result.at text.new work.now
        ≡ put_said text.old (Ok at) (member_tail (btf_of b.now.head b.now.section.now work.now) id k
        (rule_member b.now.head b.now.section.now m)) work.now)
        × (result.offset
        ≡ end_from (end_of (btf_of b.now.head b.now.section.now work.now) (rule_member b.now.head b.now.section.now m))) }
{
    let end = member_end(b, work, m);
    MemberEnd {
        at: put_member_tail(b, work, text, at, id, k, m, end),
        offset: end.unwrap_or(0),
    }
}

fn put_member_tail(
    b: &Table,
    work: &[u8],
    text: &mut [u8],
    at: usize,
    id: u32,
    k: u32,
    m: BtfMember,
    end: End,
) -> Result<usize, Refusal>
    requires { ask_of end ≡ end_of (btf_of b.now.head b.now.section.now work.now) (rule_member b.now.head b.now.section.now m) }
    ensures { out_of result text.new work.now
        ≡ put_said text.old (Ok at) (member_tail (btf_of b.now.head b.now.section.now work.now) id k
        (rule_member b.now.head b.now.section.now m)) work.now }
{
    let a = put_bit_size(text, at, m.bit_size)?;
    let _offset = end?;
    let c = emit_decl_tags(b, work, text, a, id, Some(k))?;
    put_byte(text, c, b';')
}

// The closing bracket, on a line of its own after members, and what is said of the whole.
pub fn emit_composite_end(
    b: &Table,
    work: &[u8],
    text: &mut [u8],
    at: usize,
    body: Body,
) -> Result<usize, Refusal>
    ensures { out_of result text.new work.now
        ≡ put_said text.old (Ok at) (composite_end (work_naming b.now.head) (btf_of b.now.head b.now.section.now work.now) no_decl
        body.x.id body.lvl (members_of b.now.head b.now.section.now body.x.t) body.packed) work.now }
{
    let a = put_last_newline(text, at, vlen_of(body.x.t.info))?;
    let c = put_tabs(text, a, body.lvl)?;
    let d = put_byte(text, c, b'}')?;
    let e = put_packed(text, d, body.packed)?;
    emit_decl_tags(b, work, text, e, body.x.id, None)
}
