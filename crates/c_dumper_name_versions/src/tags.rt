// Declaration tags and type tags.
ghost use Rattle.std.specs.Prelude.{◌≡◌, Ok, unwrap_or};
ghost use Rattle.spec_bytes.specs.text.Text.{whole};
ghost use Rattle.spec_bytes.specs.text.Placed.{put_out, put_text};
ghost use Rattle.base_keywords.specs.table.Fixed.{tag_name};
ghost use Rattle.spec_c_dumper.specs.rules.Decl.{attribute, decl_tag, decl_tags};
ghost use Rattle.spec_type_table.specs.Names.{str_at};
ghost use Rattle.spec_type_table.specs.Records.{flag_of};
ghost use Rattle.spec_type_table.specs.Table.{btf_of};

use base_bytes::put::put_bytes;
use base_bytes::refusal::Refusal;
use base_keywords::table::{Word, put_word};
use btf_type_table::cell;
use btf_type_table::cell::get_field;
use btf_type_table::escape::put_escaped;
use btf_type_table::kind::kind_flag_of;
use btf_type_table::table::Table;
use spec_type_table::{BtfType, Kind};

// The component index, in a section, of a tag that is on the whole type: -1.
const WHOLE_TYPE: u32 = u32::MAX;

fn put_tag_name(text: &mut [u8], at: usize, is_decl: bool) -> Result<usize, Refusal>
    ensures { put_out result text.new ≡ put_text text.old (Ok at) (whole (tag_name is_decl)) }
{
    if is_decl {
        return put_word(text, at, Word::DeclTag);
    }
    put_word(text, at, Word::TypeTag)
}

// What a tag prints: its name as an attribute of its own, or in the attribute of its kind. (`is_decl` is told, not read from t: by
// the project's rule no promise says less, and put_type_tag's is of each record, of whatever kind.)
pub fn put_attribute(
    b: &Table,
    text: &mut [u8],
    at: usize,
    t: BtfType,
    is_decl: bool,
) -> Result<usize, Refusal>
    ensures { put_out result text.new
        ≡ put_text text.old (Ok at) (whole
        (attribute (flag_of t.info) (tag_name is_decl) (str_at b.now.head b.now.section.now t.name_off))) }
{
    let a = put_word(text, at, Word::AttributeStart)?;
    let name = b.get_btf_str(t.name_off);
    if kind_flag_of(t.info) {
        let c = put_bytes(text, a, name)?;
        return put_bytes(text, c, b"))");
    }
    let d = put_tag_name(text, a, is_decl)?;
    let e = put_bytes(text, d, b"(\"")?;
    let f = put_escaped(text, e, name)?;
    put_bytes(text, f, b"\")))")
}

// The DECL_TAG id, if its component is the one asked for.
fn emit_decl_tag(
    b: &Table,
    work: &[u8],
    text: &mut [u8],
    at: usize,
    id: u32,
    comp_idx: u32,
) -> Result<usize, Refusal>
    ensures { put_out result text.new
        ≡ put_text text.old (Ok at) (whole
        (decl_tag comp_idx ((btf_of b.now.head b.now.section.now work.now).type_by_id id))) }
{
    let t = b.type_by_id(work, id);
    if Kind::of(t.info) != Kind::DeclTag {
        return Ok(at);
    }
    if b.extra_word(t) != comp_idx {
        return Ok(at);
    }
    put_attribute(b, text, at, t, true)
}

// The tags of a type with a component index, in the order of their ids. The list
// of a type's tags rises; what does not rise, or is no id of a type, was not left by opening, and ends it.
fn emit_tag_list(
    b: &Table,
    work: &[u8],
    text: &mut [u8],
    at: usize,
    id: u32,
    comp_idx: u32,
) -> Result<usize, Refusal>
    ensures { put_out result text.new
        ≡ put_text text.old (Ok at) (whole
        (decl_tags (btf_of b.now.head b.now.section.now work.now) comp_idx
        ((btf_of b.now.head b.now.section.now work.now).decl_tags id))) }
{
    let mut p = at;
    let mut last: u32 = 0;
    let mut tag = get_field(work, id, cell::FIRST_TAG);
    // A `while`: a list in the lent work goes by its links. By `successors` it is no plainer: that is endless for std, so a `take` would
    // count besides, only to end.
    while last < tag {
        if b.head.types <= tag {
            return Ok(p);
        }
        p = emit_decl_tag(b, work, text, p, tag, comp_idx)?;
        last = tag;
        tag = get_field(work, tag, cell::NEXT_TAG);
    }
    Ok(p)
}

// The tags of a type as a whole, or of one of its members; most types have no tag.
pub fn emit_decl_tags(
    b: &Table,
    work: &[u8],
    text: &mut [u8],
    at: usize,
    id: u32,
    component: Option<u32>,
) -> Result<usize, Refusal>
    ensures { put_out result text.new
        ≡ put_text text.old (Ok at) (whole
        (decl_tags (btf_of b.now.head b.now.section.now work.now) (unwrap_or component 4294967295)
        ((btf_of b.now.head b.now.section.now work.now).decl_tags id))) }
{
    if get_field(work, id, cell::FIRST_TAG) == 0 {
        return Ok(at);
    }
    emit_tag_list(b, work, text, at, id, component.unwrap_or(WHOLE_TYPE))
}
