// The header, and what the types of a table need of header and settings.
ghost use Rattle.std.specs.Prelude.{◌≡◌, ◌+◌, ◌/◌, ◌%◌, ltb, eqb};
ghost use Rattle.spec_bytes.specs.words.Words.{pick};
ghost use Rattle.spec_linux_btf.specs.Section.{is_big_endian};
ghost use Rattle.btf_open_causes.specs.header.Header.{header_of, mode_bit, btf_of};

use base_bytes::limit;
use base_bytes::word::word_in;
use spec_type_table::TypeTable;

// The magic as a section has it whose words have their most significant byte first, and as any other has it.
pub const BIG_MAGIC: [u8; 2] = [0xeb, 0x9f];

pub const LITTLE_MAGIC: [u8; 2] = [0x9f, 0xeb];

// The modes of a session.
#[derive(Clone, Copy)]
pub enum Mode {
    UnionAsStruct,
    StrongArrays,
    Placing,
    // Names that cannot collide.
    NamesApart,
}

// Its bit in the number that a session is opened with.
impl From<Mode> for u32 {
    fn from(value: Mode) -> u32
        ensures { result ≡ mode_bit value }
    {
        match value {
            Mode::UnionAsStruct => 1,
            Mode::StrongArrays => 2,
            Mode::Placing => 4,
            Mode::NamesApart => 8,
        }
    }
}

// struct btf_header from hdr_len on; offsets count from the header's end.
#[derive(Clone, Copy)]
pub struct Header {
    pub hdr_len: u32,
    pub type_off: u32,
    pub type_len: u32,
    pub str_off: u32,
    pub str_len: u32,
}

// Whether the magic is EB 9F: every word of the section has its most significant byte first.
pub fn is_big_endian(section: &[u8]) -> bool
    ensures { result ≡ is_big_endian section.now }
{
    section.starts_with(&BIG_MAGIC)
}

pub fn btf_header(section: &[u8]) -> Header
    ensures { result ≡ header_of section.now }
{
    let big = is_big_endian(section);
    Header {
        hdr_len: word_in(big, section, 4),
        type_off: word_in(big, section, 8),
        type_len: word_in(big, section, 12),
        str_off: word_in(big, section, 16),
        str_len: word_in(big, section, 20),
    }
}

// 4, or else 8.
fn size_of_pointer(pointer_size: u32) -> u32
    ensures { result ≡ pick (eqb pointer_size 4) 4 8 }
{
    if pointer_size == 4 { 4 } else { 8 }
}

// No table has more types.
fn count_of_types(types: u32) -> u32
    ensures { result ≡ pick (ltb types 262145) types 262145 }
{
    types.min(limit::MOST_TYPES)
}

// Where the string area starts; past 32 bits there is none.
fn strings_at(h: Header) -> u32
    ensures { result ≡ pick (ltb (h.hdr_len + h.str_off) 4294967296) (h.hdr_len + h.str_off) 4294967295 }
{
    h.hdr_len.saturating_add(h.str_off)
}

// Whether a mode is set.
#[tactic(auto, using(crate::proofs::header::Settings::some_bit))]
pub fn has_mode(modes: u32, mode: Mode) -> bool
    ensures { result ≡ eqb (modes / mode_bit mode % 2) 1 }
{
    modes / u32::from(mode) % 2 == 1
}

// What the types of a table need of its header and settings.
pub fn btf_of(section: &[u8], pointer_size: u32, modes: u32, types: u32) -> TypeTable
    ensures { result ≡ btf_of section.now pointer_size modes types }
{
    let h = btf_header(section);
    TypeTable {
        ptr_sz: size_of_pointer(pointer_size),
        union_as_struct: has_mode(modes, Mode::UnionAsStruct),
        big_endian: is_big_endian(section),
        strong_arrays: has_mode(modes, Mode::StrongArrays),
        placing: has_mode(modes, Mode::Placing),
        types: count_of_types(types),
        strs: strings_at(h),
    }
}
