// get_align_of with the alignments that are remembered in the work.
ghost use Rattle.std.specs.Prelude.{◌≡◌, ◌<◌, ◌-◌, Ok};
ghost use Rattle.spec_type_table.specs.Table.{btf_of};
ghost use Rattle.spec_type_table.specs.Nodes.{member_ids};
ghost use Rattle.spec_c_dumper.specs.alignment_once.Once.{alone};
ghost use Rattle.btf_layout.specs.remembered.Words.{taken_by, step_at, once_of, once_with, anew_with, ids_with, kept_with};

use crate::remembered::{Seen, recall, remember};
use base_bytes::refusal::Refusal;
use btf_type_table::kind::{entries_of, member_place};
use btf_type_table::table::Table;
use spec_type_table::{BtfType, Entries, Kind, TypeTable};

// What get_align_of asks of a type: nothing, one other type, or its members.
#[derive(Clone, Copy)]
pub enum Step {
    Own(u32),
    Through(u32),
    Members(Entries),
}

// A remembered alignment; refused where the plain way would have more calls open than are left.
#[inline]
fn taken(s: Seen, left: u32) -> Result<Seen, Refusal>
    ensures { result ≡ taken_by s left }
{
    if left < s.height {
        return Err(Refusal::TooDeep);
    }
    Ok(s)
}

fn step_of(b: &Table, t: BtfType) -> Step
    ensures { result ≡ step_at b.now.head b.now.section.now t }
{
    match Kind::of(t.info) {
        Kind::Int => Step::Own(b.head.ptr_sz.min(b.int_bits(t).div_ceil(8))),
        Kind::Ptr => Step::Own(b.head.ptr_sz),
        Kind::Array => Step::Through(b.extra_word(t)),
        Kind::Struct | Kind::Union => Step::Members(entries_of(t)),
        Kind::Enum | Kind::Float | Kind::Enum64 => Step::Own(b.head.ptr_sz.min(t.type_id)),
        Kind::Typedef | Kind::Volatile | Kind::Const | Kind::Restrict | Kind::TypeTag =>
            Step::Through(t.type_id),
        Kind::Void | Kind::Fwd | Kind::Func | Kind::FuncProto | Kind::Var | Kind::Datasec =>
            Step::Own(0),
        Kind::DeclTag | Kind::Unknown => Step::Own(0),
    }
}

// What was found of a type is remembered, one call higher than what it asked.
fn keep_once(b: TypeTable, work: &mut [u8], id: u32, s: Seen, members: u32) -> Seen
    requires { s.height < 4294967295 }
    ensures { once_of (Ok result) work.new ≡ kept_with b.types id members (Ok s) work.old }
{
    let up = Seen {
        align: s.align,
        height: s.height + 1,
    };
    remember(b, work, id, up, members);
    up
}

// A type of which nothing is remembered: of the calls that may be open this is one. Of a refused type nothing is remembered. (`left` counts
// this call too: so every height below it fits a u32 with one more.)
#[cycle(align_of)]
fn align_anew(b: &Table, work: &mut [u8], id: u32, left: u32) -> Result<Seen, Refusal>
    ensures { once_of result work.new
        ≡ anew_with b.now.head.types (btf_of b.now.head b.now.section.now work.old) (left - 1) id work.old }
{
    let below = left.saturating_sub(1);
    let t = b.type_by_id(work, id);
    match step_of(b, t) {
        Step::Own(align) => {
            let own = Seen { align, height: 0 };
            Ok(keep_once(b.head, work, id, own, 0))
        }
        Step::Through(x) => {
            let s = get_align_of(b, work, x, below)?;
            Ok(keep_once(b.head, work, id, s, 0))
        }
        Step::Members(e) => {
            let s = members_once(b, work, e, below)?;
            Ok(keep_once(b.head, work, id, s, e.vlen))
        }
    }
}

// get_align_of with a memory: most answers are remembered already.
#[cycle(align_of)]
#[inline]
pub fn get_align_of(b: &Table, work: &mut [u8], id: u32, left: u32) -> Result<Seen, Refusal>
    ensures { once_of result work.new
        ≡ once_with b.now.head.types (btf_of b.now.head b.now.section.now work.old) left id work.old }
{
    if left == 0 {
        return Err(Refusal::TooDeep);
    }
    match recall(b.head, work, id) {
        Some(s) => taken(s, left),
        None => align_anew(b, work, id, left),
    }
}

// The largest of the members' alignments, at least 1, and the largest of their heights. (A `for`: try_fold was tried, and the proof
// did not close, as its contract tells no value of what a closure has written.)
#[cycle(align_of)]
fn members_once(b: &Table, work: &mut [u8], members: Entries, left: u32) -> Result<Seen, Refusal>
    ensures { once_of result work.new
        ≡ ids_with b.now.head.types (btf_of b.now.head b.now.section.now work.old) left (alone 1)
        (member_ids b.now.head b.now.section.now members) work.old }
{
    let mut seen = Seen {
        align: 1,
        height: 0,
    };
    for k in 0..members.vlen {
        let id = b.word(member_place(members.at, k) + 4);
        seen = seen.widest(get_align_of(b, work, id, left)?);
    }
    Ok(seen)
}
