// One step of the walk to the field that covers a bit: into a member, to a bit field or to a place of an array; and an entry of the path.
ghost use Rattle.std.specs.Prelude.{◌≡◌};
ghost use Rattle.spec_c_dumper.specs.rules.Writer.{got, ask_then};
ghost use Rattle.spec_c_dumper.specs.rules.Layout.{get_size_of, end_of};
ghost use Rattle.spec_type_table.specs.Table.{btf_of, members_of, rule_member};
ghost use Rattle.session_field_at_bit.specs.step.Path.{tried, placed, step_in};
ghost use Rattle.session_field_at_bit.specs.step.Code.{shape_is, step_is, step_asked, member_step, entry_put};

use base_bytes::limit;
use base_bytes::refusal::Refusal;
use base_bytes::word::put_word;
use btf_layout::member_end::member_end;
use btf_layout::size::get_size_of;
use btf_type_table::kind::vlen_of;
use btf_type_table::table::Table;
use spec_type_table::{BtfMember, BtfType};

// What the walk sees of a type: a typedef, a qualifier or a type tag is passed, to its target; an array has an element.
#[derive(Clone, Copy)]
pub enum Shape {
    Plain,
    Through(u32),
    Array(u32),
    Composite(BtfType),
}

// One step of the walk: into an entry, to a type and a bit of it; to an entry that is a bit field. None: no further.
#[derive(Clone, Copy)]
pub enum Step {
    Enter { entry: u32, type_id: u32, bit: u32 },
    Field(u32),
}

// What member k says, where its bits end before `end`.
fn member_step(m: BtfMember, k: u32, end: u32, bit: u32) -> Option<Step>
    ensures { step_is result ≡ member_step m k end bit }
{
    let offset = m.bit_offset;
    if !(offset..end).contains(&bit) {
        return None;
    }
    let is_bit_field = m.bit_size != 0;
    if is_bit_field {
        return Some(Step::Field(k));
    }
    Some(Step::Enter {
        entry: k,
        type_id: m.type_id,
        bit: bit - offset,
    })
}

// The same; its size is asked first.
fn try_member(
    b: &Table,
    work: &[u8],
    m: BtfMember,
    k: u32,
    bit: u32,
) -> Result<Option<Step>, Refusal>
    ensures { step_asked result
        ≡ ask_then (end_of (btf_of b.now.head b.now.section.now work.now) (rule_member b.now.head b.now.section.now m))
        (λ end. got (member_step m k end bit)) }
{
    let end = member_end(b, work, m)?;
    Ok(member_step(m, k, end, bit))
}

// The first member that covers the bit. (A `for`: by find_map a refusal would be turned into an Option and back, by `transpose` twice.)
fn find_member(b: &Table, work: &[u8], t: BtfType, bit: u32) -> Result<Option<Step>, Refusal>
    ensures { step_asked result ≡ tried (btf_of b.now.head b.now.section.now work.now) bit 0 (members_of b.now.head b.now.section.now t) }
{
    for k in 0..vlen_of(t.info) {
        let m = b.load_member(t, k);
        if let Some(step) = try_member(b, work, m, k, bit)? {
            return Ok(Some(step));
        }
    }
    Ok(None)
}

// The place in an array whose elements t have so many bytes.
fn place_of(t: u32, size: u32, bit: u32) -> Option<Step>
    ensures { step_is result ≡ placed t size bit }
{
    if size == 0 {
        return None;
    }
    let unit = u64::from(size) * 8;
    let at = u64::from(bit);
    Some(Step::Enter {
        entry: (at / unit) as u32,
        type_id: t,
        bit: (at % unit) as u32,
    })
}

fn find_place(b: &Table, work: &[u8], t: u32, bit: u32) -> Result<Option<Step>, Refusal>
    ensures { step_asked result
        ≡ ask_then (get_size_of 512 (btf_of b.now.head b.now.section.now work.now) t) (λ size. got (placed t size bit)) }
{
    let size = get_size_of(b, work, t, limit::MOST_CALLS)?;
    Ok(place_of(t, size, bit))
}

pub fn next_step(b: &Table, work: &[u8], shape: Shape, bit: u32) -> Result<Option<Step>, Refusal>
    ensures { step_asked result ≡ step_in (btf_of b.now.head b.now.section.now work.now) bit (shape_is b.now.head b.now.section.now shape) }
{
    match shape {
        Shape::Plain | Shape::Through(_) => Ok(None),
        Shape::Array(t) => find_place(b, work, t, bit),
        Shape::Composite(t) => find_member(b, work, t, bit),
    }
}

// Writes entry n of a path of this length, if the lent path has room for the whole. (The room is tested by hand, since get_mut is no
// plainer: of place n it would say nothing of the whole path, and this test would stand beside it.)
pub fn put_entry(path: &mut [u8], n: u32, k: u32, len: u32)
    ensures { path.new ≡ entry_put path.old n k len }
{
    if path.len() / 4 < (len as usize) {
        return;
    }
    put_word(path, n as usize, k);
}
