// The words that stand between names: stars, brackets, commas, sizes, attributes.
ghost use Rattle.std.specs.Prelude.{◌≡◌, eqb, Ok};
ghost use Rattle.spec_bytes.specs.text.Text.{ascii, whole};
ghost use Rattle.spec_bytes.specs.text.Placed.{put_out, put_text};
ghost use Rattle.spec_c_dumper.specs.rules.Decl.{attribute, brackets};
ghost use Rattle.spec_type_table.specs.Records.{flag_of};
ghost use Rattle.spec_type_table.specs.Table.{record_name};
ghost use Rattle.c_dumper_name_versions.specs.names.Spelling.{name_text};
ghost use Rattle.c_dumper_bodies.specs.bodies.Pieces.{gap, star_text, comma, size_text, line_end, packed_text};

use base_bytes::put::{put_byte, put_bytes, put_decimal};
use base_bytes::refusal::Refusal;
use base_keywords::table::{Word, put_word};
use btf_type_table::table::Table;
use c_dumper_name_versions::names::{Name, is_blank};
use c_dumper_name_versions::tags::put_attribute;
use spec_type_table::BtfType;

pub fn put_type_tag(b: &Table, text: &mut [u8], at: usize, t: BtfType) -> Result<usize, Refusal>
    ensures { put_out result text.new
        ≡ put_text text.old (Ok at) (whole
        (attribute (flag_of t.info) (ascii "btf_type_tag") (record_name b.now.head b.now.section.now t))) }
{
    put_attribute(b, text, at, t, false)
}

pub fn put_star(text: &mut [u8], at: usize, last_was_ptr: bool) -> Result<usize, Refusal>
    ensures { put_out result text.new ≡ put_text text.old (Ok at) (whole (star_text last_was_ptr)) }
{
    if last_was_ptr {
        return put_byte(text, at, b'*');
    }
    put_bytes(text, at, b" *")
}

pub fn put_count(text: &mut [u8], at: usize, nelems: u32) -> Result<usize, Refusal>
    ensures { put_out result text.new ≡ put_text text.old (Ok at) (whole (brackets nelems)) }
{
    let a = put_byte(text, at, b'[')?;
    let c = put_decimal(text, a, nelems as u64)?;
    put_byte(text, c, b']')
}

// A space before a name that follows no star.
pub fn put_gap(
    b: &Table,
    text: &mut [u8],
    at: usize,
    name: Name,
    last_was_ptr: bool,
) -> Result<usize, Refusal>
    ensures { put_out result text.new
        ≡ put_text text.old (Ok at) (whole (gap (name_text b.now.head b.now.section.now name) last_was_ptr)) }
{
    if last_was_ptr || is_blank(b, name) {
        return Ok(at);
    }
    put_byte(text, at, b' ')
}

pub fn put_comma(text: &mut [u8], at: usize, k: u32) -> Result<usize, Refusal>
    ensures { put_out result text.new ≡ put_text text.old (Ok at) (whole (comma (eqb k 0))) }
{
    if k == 0 {
        return Ok(at);
    }
    put_bytes(text, at, b", ")
}

pub fn put_bit_size(text: &mut [u8], at: usize, bit_size: u32) -> Result<usize, Refusal>
    ensures { put_out result text.new ≡ put_text text.old (Ok at) (whole (size_text bit_size)) }
{
    if bit_size == 0 {
        return Ok(at);
    }
    let a = put_bytes(text, at, b": ")?;
    put_decimal(text, a, bit_size as u64)
}

// A newline before the closing bracket, where there are members. (Not one with put_own_line of c_dumper_padding, which writes it where
// there are none: the condition is all that either has, so a common one would take it and be an `if` beside put_byte.)
pub fn put_last_newline(text: &mut [u8], at: usize, vlen: u32) -> Result<usize, Refusal>
    ensures { put_out result text.new ≡ put_text text.old (Ok at) (whole (line_end vlen)) }
{
    if vlen == 0 {
        return Ok(at);
    }
    put_byte(text, at, b'\n')
}

pub fn put_packed(text: &mut [u8], at: usize, packed: bool) -> Result<usize, Refusal>
    ensures { put_out result text.new ≡ put_text text.old (Ok at) (whole (packed_text packed)) }
{
    if packed {
        let a = put_word(text, at, Word::AttributeStart)?;
        let c = put_word(text, a, Word::Packed)?;
        return put_bytes(text, c, b"))");
    }
    Ok(at)
}
