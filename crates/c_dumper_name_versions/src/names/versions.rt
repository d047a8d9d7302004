// Names as they are printed. The first holder of a name prints it bare; the n-th, from 2 on, adds three underscores and n, or a
// later number where opening listed numbers that are passed over.
ghost use Rattle.std.specs.Prelude.{◌≡◌, None, Some, Ok, unwrap_or};
ghost use Rattle.spec_bytes.specs.text.Text.{whole};
ghost use Rattle.spec_bytes.specs.text.Placed.{put_out, put_text};
ghost use Rattle.spec_c_dumper.specs.rules.Writer.{put};
ghost use Rattle.spec_c_dumper.specs.rules.Types.{is_empty};
ghost use Rattle.spec_c_dumper.specs.rules.Names.{tag_space, resolve_type_name};
ghost use Rattle.spec_c_dumper.specs.rules.Decl.{sep_name};
ghost use Rattle.spec_type_table.specs.Names.{str_at};
ghost use Rattle.spec_type_table.specs.Table.{work_naming, value_version_in};
ghost use Rattle.c_dumper_name_versions.specs.names.Spelling.{name_text, name_after};

use base_bytes::put::{put_byte, put_decimal};
use base_bytes::refusal::Refusal;
use base_keywords::table::{Word, put_word};
use btf_open_names::numbers::get_number;
use btf_type_table::cell;
use btf_type_table::cell::{get_field, put_field};
use btf_type_table::node::TypeRef;
use btf_type_table::table::Table;
use spec_type_table::TypeTable;

// From this holder of a name on, its number is printed.
const SECOND: u32 = 2;

// A name by its offset in the string area, and which of its holders prints it; None for a name by itself.
#[derive(Clone, Copy)]
pub struct Name {
    pub off: u32,
    pub number: Option<u32>,
}

impl Name {
    // A name by itself, as a member's or a parameter's.
    pub fn bare(off: u32) -> Name
        ensures { result ≡ record { off = off; number = None } }
    {
        Name { off, number: None }
    }

    // The name of its n-th holder.
    fn held(off: u32, n: u32) -> Name
        ensures { result ≡ record { off = off; number = Some n } }
    {
        Name {
            off,
            number: Some(n),
        }
    }
}

// The name of a type, which it keeps; it counts as a holder when it is first asked for.
pub fn resolve_type_name(b: &Table, work: &mut [u8], x: TypeRef) -> Name
    ensures { (result.off ≡ x.t.name_off)
        × (put (name_text b.now.head b.now.section.now result) work.new
        ≡ resolve_type_name (work_naming b.now.head) tag_space x.id (str_at b.now.head b.now.section.now x.t.name_off) put work.old) }
{
    let off = x.t.name_off;
    if b.is_empty(off) {
        return Name::bare(off);
    }
    let version = get_field(work, x.id, cell::NAME_VERSION);
    if version != 0 {
        return Name::held(off, version);
    }
    let n = get_number(work, b.head.types, x.id);
    put_field(work, x.id, cell::NAME_VERSION, n);
    Name::held(off, n)
}

// The name of enumerator e, counted over all enums: each time it is printed it is one more holder.
pub fn resolve_name(b: TypeTable, work: &mut [u8], e: u32, off: u32) -> Name
    ensures { (result.off ≡ off) × (unwrap_or result.number 0 ≡ (value_version_in b.types e work.old).version)
        × (work.new ≡ (value_version_in b.types e work.old).names) }
{
    let Some(h) = b.types.checked_add(e) else {
        return Name::bare(off);
    };
    let n = get_number(work, b.types, h);
    Name::held(off, n)
}

pub fn put_name(b: &Table, text: &mut [u8], at: usize, name: Name) -> Result<usize, Refusal>
    ensures { put_out result text.new ≡ put_text text.old (Ok at) (whole (name_text b.now.head b.now.section.now name)) }
{
    let a = b.put_str(text, at, name.off)?;
    let n = name.number.unwrap_or(0);
    if n < SECOND {
        return Ok(a);
    }
    let c = put_word(text, a, Word::Underscores)?;
    put_decimal(text, c, n as u64)
}

// Whether nothing is printed for a name.
pub fn is_blank(b: &Table, name: Name) -> bool
    ensures { result ≡ is_empty (name_text b.now.head b.now.section.now name) }
{
    if name.number.unwrap_or(0) < SECOND {
        return b.is_empty(name.off);
    }
    false
}

// sep and the name: a space before it, unless it is empty.
pub fn put_sep_name(b: &Table, text: &mut [u8], at: usize, name: Name) -> Result<usize, Refusal>
    ensures { put_out result text.new
        ≡ put_text text.old (Ok at) (whole (sep_name (name_text b.now.head b.now.section.now name))) }
{
    if is_blank(b, name) {
        return Ok(at);
    }
    let a = put_byte(text, at, b' ')?;
    put_name(b, text, a, name)
}

pub fn emit_name(
    b: &Table,
    text: &mut [u8],
    at: usize,
    name: Name,
    last_was_ptr: bool,
) -> Result<usize, Refusal>
    ensures { put_out result text.new
        ≡ put_text text.old (Ok at) (whole (name_after (name_text b.now.head b.now.section.now name) last_was_ptr)) }
{
    if last_was_ptr {
        return put_name(b, text, at, name);
    }
    put_sep_name(b, text, at, name)
}
