// What enums of both widths share: heads, ends, the lines of enumerators up to their value; the mention of an enum.
ghost use Rattle.std.specs.Prelude.{◌≡◌, Ok};
ghost use Rattle.spec_bytes.specs.text.Text.{whole};
ghost use Rattle.spec_bytes.specs.text.Placed.{put_out, put_text};
ghost use Rattle.spec_c_dumper.specs.rules.Place.{out_of, put_said};
ghost use Rattle.spec_c_dumper.specs.rules.Names.{spelled};
ghost use Rattle.spec_c_dumper.specs.rules.Decl as rules;
ghost use Rattle.spec_type_table.specs.Names.{str_at};
ghost use Rattle.spec_type_table.specs.Table.{work_naming, value_version_in};
ghost use Rattle.c_dumper_bodies.specs.enumerators.Heads.{enum_head, value_head, enum_end};

use base_bytes::put::{put_byte, put_bytes, put_tabs};
use base_bytes::refusal::Refusal;
use base_keywords::table::{Word, put_word};
use btf_type_table::node::TypeRef;
use btf_type_table::table::Table;
use c_dumper_name_versions::names::{put_name, put_sep_name, resolve_name, resolve_type_name};

// A new line, the enumerator's name and an equals sign.
pub fn emit_enumerator(
    b: &Table,
    work: &mut [u8],
    text: &mut [u8],
    at: usize,
    e: u32,
    name_off: u32,
    lvl: u32,
) -> Result<usize, Refusal>
    ensures { (put_out result text.new
        ≡ put_text text.old (Ok at) (whole
        (value_head lvl (spelled (str_at b.now.head b.now.section.now name_off) (value_version_in b.now.head.types e work.old).version))))
        × (work.new ≡ (value_version_in b.now.head.types e work.old).names) }
{
    let name = resolve_name(b.head, work, e, name_off);
    let a = put_byte(text, at, b'\n')?;
    let c = put_tabs(text, a, lvl)?;
    let d = put_name(b, text, c, name)?;
    put_bytes(text, d, b" = ")
}

// `enum` and the name: the head of a definition, and a mention.
pub fn emit_enum_head(
    b: &Table,
    work: &mut [u8],
    text: &mut [u8],
    at: usize,
    x: TypeRef,
) -> Result<usize, Refusal>
    ensures { out_of result text.new work.new
        ≡ put_said text.old (Ok at) (enum_head (work_naming b.now.head) x.id (str_at b.now.head b.now.section.now x.t.name_off)) work.old }
{
    let name = resolve_type_name(b, work, x);
    let a = put_word(text, at, Word::Enum)?;
    put_sep_name(b, text, a, name)
}

// The line end and the bracket that close the values.
pub fn emit_enum_end(text: &mut [u8], at: usize, lvl: u32) -> Result<usize, Refusal>
    ensures { put_out result text.new ≡ put_text text.old (Ok at) (whole (enum_end lvl)) }
{
    let a = put_byte(text, at, b'\n')?;
    let c = put_tabs(text, a, lvl)?;
    put_byte(text, c, b'}')
}

// One level deeper.
pub fn deeper(lvl: u32) -> u32
    ensures { result ≡ rules.deeper lvl }
{
    lvl.saturating_add(1)
}
