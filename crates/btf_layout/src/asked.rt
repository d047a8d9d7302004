// What a body asks of alignments, each of which is remembered in the work: the packed test, a gap's alignment, a union's.
ghost use Rattle.std.specs.Prelude.{◌≡◌, eqb};
ghost use Rattle.spec_type_table.specs.Records.{kind_of};
ghost use Rattle.spec_type_table.specs.Table.{btf_of, members_of, rule_member};
ghost use Rattle.btf_layout.specs.size.Answers.{ask_of};
ghost use Rattle.btf_layout.specs.asked.Asked.{ask_in, off_by, align_in, gap_in, union_in, off_in, members_in, packed_at};

use crate::align_of::get_align_of;
use base_bytes::limit;
use base_bytes::refusal::Refusal;
use btf_type_table::kind::{is_struct, vlen_of};
use btf_type_table::node::TypeRef;
use btf_type_table::table::Table;
use spec_type_table::{BtfMember, BtfType};

fn alignment(b: &Table, work: &mut [u8], id: u32) -> Result<u32, Refusal>
    ensures { ask_in result work.new
        ≡ align_in b.now.head.types (btf_of b.now.head b.now.section.now work.old) id work.old }
{
    let s = get_align_of(b, work, id, limit::MOST_CALLS)?;
    Ok(s.align)
}

// The alignment that decides whether a gap is natural.
pub fn gap_align(b: &Table, work: &mut [u8], id: u32, packed: bool) -> Result<u32, Refusal>
    ensures { ask_in result work.new
        ≡ gap_in b.now.head.types (btf_of b.now.head b.now.section.now work.old) packed id work.old }
{
    if packed {
        return Ok(1);
    }
    alignment(b, work, id)
}

// A union's alignment; a struct's is asked by the packed test.
pub fn union_align(b: &Table, work: &mut [u8], x: TypeRef) -> Result<u32, Refusal>
    ensures { ask_in result work.new
        ≡ union_in b.now.head.types (btf_of b.now.head b.now.section.now work.old) (eqb (kind_of x.t.info) 4) x.id work.old }
{
    if is_struct(x.t) {
        return Ok(1);
    }
    alignment(b, work, x.id)
}

// Whether a plain member is off its alignment; one that has none has no answer.
fn off_by(a: u32, bit_offset: u32) -> Result<bool, Refusal>
    ensures { ask_of result ≡ off_by a bit_offset }
{
    if a == 0 {
        return Err(Refusal::AlignmentZero);
    }
    let unit = u64::from(a) * 8;
    Ok(u64::from(bit_offset) % unit != 0)
}

// A bit field has no alignment of its own.
fn member_off(b: &Table, work: &mut [u8], m: BtfMember) -> Result<bool, Refusal>
    ensures { ask_in result work.new
        ≡ off_in b.now.head.types (btf_of b.now.head b.now.section.now work.old) (rule_member b.now.head b.now.section.now m)
        work.old }
{
    if m.bit_size != 0 {
        return Ok(false);
    }
    off_by(alignment(b, work, m.type_id)?, m.bit_offset)
}

// The members in order, up to the first that is off. (A `for`, for the reason that stands at `members_once`.)
fn members_packed(b: &Table, work: &mut [u8], t: BtfType) -> Result<bool, Refusal>
    ensures { ask_in result work.new
        ≡ members_in b.now.head.types (btf_of b.now.head b.now.section.now work.old) (members_of b.now.head b.now.section.now t)
        work.old }
{
    for k in 0..vlen_of(t.info) {
        let m = b.load_member(t, k);
        let is_off = member_off(b, work, m)?;
        if is_off {
            return Ok(true);
        }
    }
    Ok(false)
}

// The packed test: the struct's own alignment comes first, and its members' are remembered by then.
pub fn is_packed(b: &Table, work: &mut [u8], x: TypeRef) -> Result<bool, Refusal>
    ensures { ask_in result work.new
        ≡ packed_at b.now.head.types (btf_of b.now.head b.now.section.now work.old) (eqb (kind_of x.t.info) 4) x.id x.t.type_id
        (members_of b.now.head b.now.section.now x.t) work.old }
{
    if !is_struct(x.t) {
        return Ok(false);
    }
    let a = alignment(b, work, x.id)?;
    if x.t.type_id.is_multiple_of(a) {
        return members_packed(b, work, x.t);
    }
    Ok(true)
}
