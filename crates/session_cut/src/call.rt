// A section cut down to what is used: the call. It reads the session and the section, and writes the output slice alone.
ghost use Rattle.std.specs.Prelude.{◌≡◌, ◌&&◌, eqb};
ghost use Rattle.spec_bytes.specs.words.Words.{words};
ghost use Rattle.session_cut_marks.specs.marks.Marks.{all_zero, ids_of};
ghost use Rattle.session_cut_marks.specs.kept.AtKept.{at_index};
ghost use Rattle.spec_session.specs.session.Answers.{alone};
ghost use Rattle.session_cut.specs.writer.Bytes.{wrote_of, kept_written};
ghost use Rattle.spec_cut.specs.section.Section.{any_past};
ghost use Rattle.session_cut.specs.call.Calls.{cut_of, cut_call};

use crate::writer::write_kept;
use base_bytes::limit;
use btf_open::causes::index_records;
use btf_open_causes::header::btf_of;
use btf_open_causes::references::Index;
use btf_type_table::table::Table;
use session_cut_marks::kept::Kept;
use session_cut_marks::marks::number_kept;
use spec_bytes::refusal::Refusal;
use spec_session::session::Session;

// Whether the session is open on a section of this length.
fn is_open(s: Session, len: usize) -> bool
    ensures { result ≡ (s.«open» && eqb s.section_len len) }
{
    if !s.open {
        return false;
    }
    s.section_len == len as u64
}

// Whether a given id, of four bytes, is not below the count.
fn is_past(given: &[u8], count: u32) -> bool
    ensures { result ≡ any_past count (words given.now) }
{
    let ids = given.as_chunks::<4>().0;
    ids.iter().any(|id| count <= u32::from_le_bytes(*id))
}

// The new section, of a table and its index: its length.
fn write_cut(index: &Index, given: &[u8], out: &mut [u8]) -> Option<u32>
    ensures { wrote_of result out.new
        ≡ at_index kept_written index.now (at_index ids_of index.now given.now all_zero) out.old }
{
    let mut ids = [0u32; limit::TYPES_LEN];
    number_kept(index, given, &mut ids);
    let kept = Kept {
        index: *index,
        ids: &ids,
    };
    write_kept(&kept, out)
}

// Writes the section that holds what is reachable from the given ids, four bytes each, least significant first: its length.
pub fn cut(s: Session, section: &[u8], given: &[u8], out: &mut [u8]) -> Result<u32, Refusal>
    ensures { cut_of (alone result) out.new ≡ cut_call s section.now given.now out.old }
{
    if !is_open(s, section.len()) {
        return Err(Refusal::SessionClosed);
    }
    let mut start = [0u32; limit::TYPES_LEN];
    let counts = index_records(section, s.pointer_size, &mut start).map_err(
        |_| Refusal::SessionClosed,
    )?;
    if is_past(given, counts.types) {
        return Err(Refusal::NoSuchId);
    }
    let head = btf_of(section, s.pointer_size, 0, counts.types);
    let index = Index {
        table: Table { head, section },
        start: &start,
    };
    write_cut(&index, given, out).ok_or(Refusal::OutputShort)
}
