// The bodies of composites: their members are declarations again.
ghost use Rattle.std.specs.Prelude.{◌≡◌, eqb, Ok, IfOk};
ghost use Rattle.spec_bytes.specs.text.Placed.{placed};
ghost use Rattle.spec_c_dumper.specs.rules.Decl.{deeper as level_within};
ghost use Rattle.spec_c_dumper.specs.rules.Layout.{end_of};
ghost use Rattle.spec_c_dumper.specs.rules.Placing.{tail_pads};
ghost use Rattle.spec_c_dumper.specs.alignment_once.Writers.{emit_composite_def_once};
ghost use Rattle.btf_layout.specs.asked.Asked.{work_asks};
ghost use Rattle.spec_c_dumper.specs.rules.Place.{out_of, put_said};
ghost use Rattle.spec_type_table.specs.Records.{kind_of, member_of};
ghost use Rattle.spec_type_table.specs.Table.{members_of, record_name, rule_member, btf_of, work_naming};
ghost use Rattle.c_dumper_bodies.specs.bodies.Pieces.{member_text, members_below, end_from};

use crate::declarations::{Declarator, emit_type_decl};
use base_bytes::put::{put_byte, put_tabs};
use base_bytes::refusal::Refusal;
use btf_type_table::kind::vlen_of;
use btf_type_table::node::TypeRef;
use btf_type_table::table::Table;
use c_dumper_bodies::bodies::{
    Body, Spot, emit_composite_end, emit_composite_head, emit_member_end,
};
use c_dumper_bodies::enumerators::deeper;
use c_dumper_name_versions::names::Name;
use c_dumper_padding::padding::{emit_bit_padding, emit_tail_padding};
use c_dumper_padding::placing::body_packed;

#[cycle(declarator)]
pub fn emit_composite_def(
    b: &Table,
    work: &mut [u8],
    text: &mut [u8],
    at: usize,
    x: TypeRef,
    lvl: u32,
    left: u32,
) -> Result<usize, Refusal>
    ensures { out_of result text.new work.new
        ≡ put_said text.old (Ok at) (emit_composite_def_once (work_asks b.now.head.types (btf_of b.now.head b.now.section.now work.old))
        (work_naming b.now.head) (btf_of b.now.head b.now.section.now work.old) left x.id (eqb (kind_of x.t.info) 4)
        (record_name b.now.head b.now.section.now x.t) x.t.type_id (members_of b.now.head b.now.section.now x.t) lvl) work.old }
{
    if left == 0 {
        return Err(Refusal::TooDeep);
    }
    if b.is_builtin(x.t.name_off) {
        return Ok(at);
    }
    let packed = body_packed(b, work, x)?;
    let body = Body { x, packed, lvl };
    let a = emit_composite_head(b, work, text, at, x)?;
    let c = emit_members(b, work, text, a, body, left - 1)?;
    emit_composite_end(b, work, text, c, body)
}

#[cycle(declarator)]
fn emit_members(
    b: &Table,
    work: &mut [u8],
    text: &mut [u8],
    at: usize,
    body: Body,
    below: u32,
) -> Result<usize, Refusal>
    ensures { out_of result text.new work.new
        ≡ put_said text.old (Ok at) (members_below (work_asks b.now.head.types (btf_of b.now.head b.now.section.now work.old))
        (work_naming b.now.head) (btf_of b.now.head b.now.section.now work.old) below body.x.id
        (tail_pads b.now.head.placing b.now.head.ptr_sz (eqb (kind_of body.x.t.info) 4) body.x.t.type_id) (level_within body.lvl)
        body.packed 0 0 (members_of b.now.head b.now.section.now body.x.t)) work.old }
{
    let vlen = vlen_of(body.x.t.info);
    let mut s = Spot { at, offset: 0 };
    for k in 0..vlen {
        s = emit_member(b, work, text, s, body, k, below)?;
    }
    emit_tail_padding(
        b.head,
        text,
        s.at,
        body.x.t,
        vlen,
        s.offset,
        deeper(body.lvl),
    )
}

#[cycle(declarator)]
fn emit_member(
    b: &Table,
    work: &mut [u8],
    text: &mut [u8],
    s: Spot,
    body: Body,
    k: u32,
    below: u32,
) -> Result<Spot, Refusal>
    ensures { (out_of (placed (λ s. s.at) result) text.new work.new
        ≡ put_said text.old (Ok s.at)
        (member_text (work_asks b.now.head.types (btf_of b.now.head b.now.section.now work.old)) (work_naming b.now.head)
        (btf_of b.now.head b.now.section.now work.old) below body.x.id (level_within body.lvl) body.packed k s.offset
        (rule_member b.now.head b.now.section.now (member_of b.now.head b.now.section.now body.x.t k))) work.old)
        × IfOk result (λ r. r.offset ≡ end_from (end_of (btf_of b.now.head b.now.section.now work.new)
        (rule_member b.now.head b.now.section.now (member_of b.now.head b.now.section.now body.x.t k)))) }
{
    let m = b.load_member(body.x.t, k);
    let lvl = deeper(body.lvl);
    let d = Declarator {
        id: m.type_id,
        name: Name::bare(m.name_off),
        lvl,
    };
    let a = emit_bit_padding(b, work, text, s.at, s.offset, m, body.packed, lvl)?;
    let c = put_byte(text, a, b'\n')?;
    let e = put_tabs(text, c, lvl)?;
    let f = emit_type_decl(b, work, text, e, d, below)?;
    let end = emit_member_end(b, work, text, f, body.x.id, k, m);
    let at = end.at?;
    Ok(Spot {
        at,
        offset: end.offset,
    })
}
