// Enums: the values of an ENUM64 are of 64 bits, those of an ENUM of 32.
ghost use Rattle.std.specs.Prelude.{◌≡◌, Ok};
ghost use Rattle.spec_bytes.specs.text.Text.{whole};
ghost use Rattle.spec_bytes.specs.text.Placed.{put_out, put_text};
ghost use Rattle.spec_c_dumper.specs.rules.Place.{out_of, put_said};
ghost use Rattle.spec_c_dumper.specs.rules.Decl.{enum_value, enum64_value, emit_values, emit_enum_def};
ghost use Rattle.spec_type_table.specs.Names.{str_at};
ghost use Rattle.spec_type_table.specs.Records.{flag_of};
ghost use Rattle.spec_type_table.specs.Table.{btf_of, work_naming};
ghost use Rattle.c_dumper_bodies.specs.enums.Widths.{is_wide, value_text, enumerator_at, enum_values};

use crate::enumerators::{deeper, emit_enum_end, emit_enum_head, emit_enumerator};
use base_bytes::put::{put_byte, put_bytes, put_decimal};
use base_bytes::refusal::Refusal;
use base_keywords::signed_decimal::{put_i32, put_i64};
use base_keywords::table::{Word, put_word};
use btf_type_table::cell;
use btf_type_table::cell::get_field;
use btf_type_table::kind::{entries_of, kind_flag_of, value_place};
use btf_type_table::node::TypeRef;
use btf_type_table::table::Table;
use spec_type_table::{BtfType, Entries, Kind};

// Whether values are of 64 bits.
#[tactic(auto, using(spec_type_table::proofs::KindNames::kind_numbers, std::proofs::lemmas::Bool::Decides::nat_tests))]
fn is_wide(t: BtfType) -> bool
    ensures { result ≡ is_wide t }
{
    Kind::of(t.info) == Kind::Enum64
}

// value_str of an ENUM.
fn put_value(text: &mut [u8], at: usize, is_signed: bool, v: u32) -> Result<usize, Refusal>
    ensures { put_out result text.new ≡ put_text text.old (Ok at) (whole (enum_value is_signed v)) }
{
    if is_signed {
        return put_i32(text, at, v.cast_signed());
    }
    put_decimal(text, at, v as u64)
}

// value_str of an ENUM64, with the suffix of its type. (A function of its own: another width, other conversions, a suffix.)
fn put_value64(text: &mut [u8], at: usize, is_signed: bool, v: u64) -> Result<usize, Refusal>
    ensures { put_out result text.new ≡ put_text text.old (Ok at) (whole (enum64_value is_signed v)) }
{
    if is_signed {
        return put_i64(text, at, v.cast_signed());
    }
    let a = put_decimal(text, at, v)?;
    put_word(text, a, Word::Ull)
}

// The text of value k, by its width.
fn emit_value(
    b: &Table,
    text: &mut [u8],
    at: usize,
    wide: bool,
    is_signed: bool,
    values: Entries,
    k: u32,
) -> Result<usize, Refusal>
    ensures { put_out result text.new
        ≡ put_text text.old (Ok at) (whole (value_text wide is_signed
        (enumerator_at wide b.now.head b.now.section.now values.at k).value)) }
{
    if wide {
        let v = b.load_enum64_value(values, k);
        return put_value64(text, at, is_signed, v);
    }
    let v = b.load_enum_value(values, k);
    put_value(text, at, is_signed, v)
}

fn emit_values(
    b: &Table,
    work: &mut [u8],
    text: &mut [u8],
    at: usize,
    x: TypeRef,
    lvl: u32,
) -> Result<usize, Refusal>
    ensures { out_of result text.new work.new
        ≡ put_said text.old (Ok at) (emit_values (work_naming b.now.head) (btf_of b.now.head b.now.section.now work.old)
        (value_text (is_wide x.t) (flag_of x.t.info)) x.id lvl 0 (enum_values b.now.head b.now.section.now x.t)) work.old }
{
    let values = entries_of(x.t);
    let is_signed = kind_flag_of(x.t.info);
    let wide = is_wide(x.t);
    let first = get_field(work, x.id, cell::FIRST_ENUMERATOR);
    let mut p = at;
    for k in 0..values.vlen {
        let name_off = b.word(value_place(wide, values.at, k));
        let e = first.saturating_add(k);
        let a = emit_enumerator(b, work, text, p, e, name_off, lvl)?;
        let c = emit_value(b, text, a, wide, is_signed, values, k)?;
        p = put_byte(text, c, b',')?;
    }
    Ok(p)
}

pub fn emit_enum_def(
    b: &Table,
    work: &mut [u8],
    text: &mut [u8],
    at: usize,
    x: TypeRef,
    lvl: u32,
) -> Result<usize, Refusal>
    ensures { out_of result text.new work.new
        ≡ put_said text.old (Ok at) (emit_enum_def (work_naming b.now.head) (btf_of b.now.head b.now.section.now work.old)
        (value_text (is_wide x.t) (flag_of x.t.info)) x.id (str_at b.now.head b.now.section.now x.t.name_off)
        (enum_values b.now.head b.now.section.now x.t) lvl) work.old }
{
    if b.is_builtin(x.t.name_off) {
        return Ok(at);
    }
    let a = emit_enum_head(b, work, text, at, x)?;
    let values = entries_of(x.t);
    if values.vlen == 0 {
        return Ok(a);
    }
    let c = put_bytes(text, a, b" {")?;
    let d = emit_values(b, work, text, c, x, deeper(lvl))?;
    emit_enum_end(text, d, lvl)
}
