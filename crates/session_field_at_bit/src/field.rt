// Which field covers a bit of a composite: the path of members and array places to it, written into a lent slice, a word of
// four bytes each, least significant first.
ghost use Rattle.std.specs.Prelude.{◌≡◌, ◌-◌, ◌≤◌};
ghost use Rattle.spec_type_table.specs.Table.{btf_of, type_of};
ghost use Rattle.spec_session.specs.session.Answers.{alone};
ghost use Rattle.session_field_at_bit.specs.step.Path.{shape_of, is_composite, behind, path_from, field_path};
ghost use Rattle.session_field_at_bit.specs.field.Calls.{found_of, lent_path, field_call};
ghost use Rattle.session_field_at_bit.specs.step.Code.{shape_is, asked, path_told};
ghost use Rattle.session_field_at_bit.specs.field.Code.{written, answer_to};

use crate::step::{Shape, Step, next_step, put_entry};
use base_bytes::limit;
use base_bytes::refusal::Refusal;
use btf_open_causes::header::btf_of;
use btf_type_table::table::Table;
use session_record::settle::is_current;
use spec_session::session::Session;
use spec_type_table::{BtfType, Kind};

// (The attribute stays on one line: the formatter joins it.)
#[tactic(auto, using(spec_type_table::proofs::KindTypes::kind_types), unfolding(crate::specs::step::Code::shape_is, crate::specs::step::Path::shape_of))]
fn shape_of(b: &Table, t: BtfType) -> Shape
    ensures { shape_is b.now.head b.now.section.now result ≡ shape_of (type_of b.now.head b.now.section.now t) }
{
    match Kind::of(t.info) {
        Kind::Array => Shape::Array(b.extra_word(t)),
        Kind::Struct | Kind::Union => Shape::Composite(t),
        Kind::Typedef | Kind::Volatile | Kind::Const | Kind::Restrict | Kind::TypeTag =>
            Shape::Through(t.type_id),
        _ => Shape::Plain,
    }
}

#[tactic(auto, unfolding(crate::specs::step::Code::shape_is, crate::specs::step::Path::is_composite))]
fn is_composite(b: &Table, t: BtfType) -> bool
    ensures { result ≡ is_composite (shape_of (type_of b.now.head b.now.section.now t)) }
{
    matches!(shape_of(b, t), Shape::Composite(_))
}

// What stands behind typedefs, qualifiers and type tags.
fn behind(b: &Table, work: &[u8], id: u32, left: u32) -> Shape
    ensures { shape_is b.now.head b.now.section.now result ≡ behind left (btf_of b.now.head b.now.section.now work.now) id }
{
    if left == 0 {
        return Shape::Plain;
    }
    match shape_of(b, b.type_by_id(work, id)) {
        Shape::Through(t) => behind(b, work, t, left - 1),
        shape => shape,
    }
}

// The path inside a type after n entries: its whole length. Entries are written on the way back, when the length is known, so
// that a refusal leaves the lent path as it was.
fn walk(b: &Table, work: &[u8], path: &mut [u8], id: u32, bit: u32, n: u32) -> Result<u32, Refusal>
    requires { n ≤ 512 }
    ensures { path_told (asked result) path.new
        ≡ written path.old n (path_from (512 - n) (btf_of b.now.head b.now.section.now work.now) id bit) }
{
    let shape = behind(b, work, id, limit::MOST_CALLS);
    let Some(step) = next_step(b, work, shape, bit)? else {
        return Ok(n);
    };
    if n == limit::MOST_CALLS {
        return Err(Refusal::TooDeep);
    }
    match step {
        Step::Field(k) => {
            put_entry(path, n, k, n + 1);
            Ok(n + 1)
        }
        Step::Enter {
            entry,
            type_id,
            bit,
        } => {
            let len = walk(b, work, path, type_id, bit, n + 1)?;
            put_entry(path, n, entry, len);
            Ok(len)
        }
    }
}

// The answer to a path of this length in room for so many entries.
#[tactic(auto, unfolding(crate::specs::field::Code::answer_to, spec_session::specs::session::Answers::alone))]
fn answer_to(room: usize, len: u32) -> Result<u32, Refusal>
    ensures { alone result ≡ answer_to room len }
{
    if len == 0 {
        return Err(Refusal::NoField);
    }
    if room < (len as usize) {
        return Err(Refusal::TextFull);
    }
    Ok(len)
}

// The path of a bit of a type, which is to be a composite.
fn find_field(b: &Table, work: &[u8], path: &mut [u8], id: u32, bit: u32) -> Result<u32, Refusal>
    ensures { found_of (alone result) path.new
        ≡ lent_path path.old (field_path (btf_of b.now.head b.now.section.now work.now) id bit) }
{
    if !is_composite(b, b.type_by_id(work, id)) {
        return Err(Refusal::NoField);
    }
    let len = walk(b, work, path, id, bit, 0)?;
    answer_to(path.len() / 4, len)
}

// The path to the innermost plain member or bit field that covers a bit of a composite. The session is only read: no refusal
// closes it.
#[tactic(auto, unfolding(crate::specs::field::Calls::field_call, crate::specs::field::Calls::found_of, spec_session::specs::session::Answers::alone))]
pub fn which_field(
    s: Session,
    section: &[u8],
    work: &[u8],
    path: &mut [u8],
    id: u32,
    bit: u32,
) -> Result<u32, Refusal>
    ensures { found_of (alone result) path.new ≡ field_call s section.now work.now path.old id bit }
{
    if !is_current(s, section.len(), work.len(), s.text_len as usize) {
        return Err(Refusal::SessionClosed);
    }
    if s.types <= id {
        return Err(Refusal::NoSuchId);
    }
    let head = btf_of(section, s.pointer_size, s.modes, s.types);
    find_field(&Table { head, section }, work, path, id, bit)
}
