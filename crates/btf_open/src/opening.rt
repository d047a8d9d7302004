// Opening a section: what success leaves. The causes of a refusal: `causes`.
ghost use Rattle.std.specs.Prelude.{◌≡◌};
ghost use Rattle.spec_opening.specs.Opened.{open_out, opening_of};

use crate::causes::examine;
use base_bytes::limit;
use base_bytes::refusal::Refusal;
use base_bytes::word::clear;
use btf_open_causes::header::btf_of;
use btf_open_causes::records::Counts;
use btf_open_causes::references::Index;
use btf_type_table::table::Table;

// Opens a section. A refusal leaves work and text as they were.
pub fn open(
    section: &[u8],
    pointer_size: u32,
    modes: u32,
    work: &mut [u8],
    text: &mut [u8],
) -> Result<Counts, Refusal>
    ensures { open_out result work.new text.new
        ≡ opening_of pointer_size modes section.now work.old text.old }
{
    let mut start = [0u32; limit::TYPES_LEN];
    let counts = examine(section, pointer_size, work.len(), &mut start)?;
    clear(text);
    clear(work);
    let head = btf_of(section, pointer_size, modes, counts.types);
    let table = Table { head, section };
    let index = Index {
        table,
        start: &start,
    };
    btf_open_names::fill::fill(&index, counts.enumerators, work);
    btf_open_names::taken_numbers::takers(&table, modes, counts.enumerators, work);
    Ok(counts)
}
