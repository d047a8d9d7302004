// The nine causes of a refused opening, in the order of document 01's table.
ghost use Rattle.std.specs.Prelude.{◌≡◌, not, ◌+◌, ◌*◌, [], ◌∷◌};
ghost use Rattle.spec_opening.specs.Causes.{cause1, cause2, cause3, cause4, next, first_of, cause_number};
ghost use Rattle.spec_opening.specs.Table.{empty_index};
ghost use Rattle.spec_opening.specs.Opened.{examine_out, examined, indexed};

use base_bytes::limit;
use base_bytes::refusal::Refusal;
use btf_open_causes::header::btf_of;
use btf_open_causes::loops::has_loop;
use btf_open_causes::prototypes::leads_to_proto;
use btf_open_causes::records::{Counts, scan};
use btf_open_causes::references::{Index, has_bad_reference};
use btf_open_causes::strings::{has_bad_header, has_bad_strings};
use btf_type_table::table::Table;

// Refused by the first cause that holds: 1, 2 to 6 (`index_records`), 7, 8, 9. Where none does, `start` is the index of the records.
pub fn examine(
    section: &[u8],
    pointer_size: u32,
    work_len: usize,
    start: &mut [u32; limit::TYPES_LEN],
) -> Result<Counts, Refusal>
    ensures { examine_out result start.new ≡ examined pointer_size section.now work_len }
{
    if !is_pointer_size(pointer_size) {
        return Err(Refusal::PointerSize);
    }
    let counts = index_records(section, pointer_size, start)?;
    let head = btf_of(section, pointer_size, 0, counts.types);
    let table = Table { head, section };
    let index = Index { table, start };
    if leads_to_proto(&index) {
        return Err(Refusal::PrototypeHeld);
    }
    if has_loop(&index) {
        return Err(Refusal::Loop);
    }
    if (work_len as u64) < work_size(counts) {
        return Err(Refusal::WorkShort);
    }
    Ok(counts)
}

// Causes 2 to 6, which are tested of a section that is cut down too. Where none holds, `start` is the index of the records.
pub fn index_records(
    section: &[u8],
    pointer_size: u32,
    start: &mut [u32; limit::TYPES_LEN],
) -> Result<Counts, Refusal>
    ensures { examine_out result start.new ≡ indexed pointer_size section.now }
{
    section_cause(section)?;
    clear_index(start);
    let head = btf_of(section, pointer_size, 0, 0);
    let counts = scan(&Table { head, section }, start).ok_or(Refusal::BadRecord)?;
    let head = btf_of(section, pointer_size, 0, counts.types);
    let table = Table { head, section };
    if has_bad_reference(&Index { table, start }) {
        return Err(Refusal::BadReference);
    }
    Ok(counts)
}

// Whatever stood there: no record is known.
fn clear_index(start: &mut [u32; limit::TYPES_LEN])
    ensures { start.new ≡ empty_index }
{
    start.fill(0);
}

// Causes 2 to 4.
pub fn section_cause(section: &[u8]) -> Result<(), Refusal>
    ensures { cause_number result ≡ next (first_of (cause2 section.now ∷ cause3 section.now ∷ cause4 section.now ∷ [])) }
{
    let is_long = section.len() > limit::MOST_BYTES;
    if is_long {
        return Err(Refusal::SectionTooLong);
    }
    if has_bad_header(section) {
        return Err(Refusal::BadHeader);
    }
    if has_bad_strings(section) {
        return Err(Refusal::BadStrings);
    }
    Ok(())
}

// Whether cause 1 does not hold.
#[tactic(auto, using(std::proofs::lemmas::Bool::Decides::nat_tests), unfolding(spec_opening::specs::Causes::cause1))]
fn is_pointer_size(pointer_size: u32) -> bool
    ensures { result ≡ not (cause1 pointer_size) }
{
    matches!(pointer_size, 4 | 8)
}

// The bytes of work that a table needs.
fn work_size(counts: Counts) -> u64
    ensures { result ≡ 4 * (16 * counts.types + 8 * counts.enumerators + 4096) }
{
    4 * (16 * (counts.types as u64) + 8 * (counts.enumerators as u64) + 4096)
}
