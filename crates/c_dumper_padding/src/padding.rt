// Pads before a member, and in placing mode after the last.
ghost use Rattle.std.specs.Prelude.{◌≡◌, ◌*◌, ◌-◌, eqb, Ok};
ghost use Rattle.spec_bytes.specs.text.Text.{whole};
ghost use Rattle.spec_bytes.specs.text.Placed.{put_out, put_text};
ghost use Rattle.spec_c_dumper.specs.rules.Layout.{pads_before};
ghost use Rattle.spec_c_dumper.specs.rules.Placing.{tail_pads};
ghost use Rattle.spec_c_dumper.specs.rules.Decl.{pads, tail_text};
ghost use Rattle.spec_type_table.specs.Records.{kind_of};
ghost use Rattle.spec_type_table.specs.Table.{btf_of, rule_member};
ghost use Rattle.spec_c_dumper.specs.rules.Place.{out_of, put_said};
ghost use Rattle.c_dumper_padding.specs.pads.Texts.{lone_line};
ghost use Rattle.c_dumper_padding.specs.padding.Asking.{pad_said};

use crate::pads::put_pads;
use base_bytes::put::put_byte;
use base_bytes::refusal::Refusal;
use btf_layout::asked::gap_align;
use btf_type_table::kind::is_struct;
use btf_type_table::table::Table;
use spec_type_table::{BtfMember, BtfType, TypeTable};

// The pads of a gap before a member with an alignment; before a plain member a natural gap has none.
fn put_gap(
    b: TypeTable,
    text: &mut [u8],
    at: usize,
    start: u32,
    bit_size: u32,
    gap: u32,
    a: u32,
    lvl: u32,
) -> Result<usize, Refusal>
    ensures { put_out result text.new
        ≡ put_text text.old (Ok at) (whole (pads lvl (pads_before b.placing b.ptr_sz start bit_size gap a))) }
{
    let from = start as u64;
    let width = gap as u64;
    if bit_size == 0 && width < (a as u64) * 8 {
        return Ok(at);
    }
    put_pads(text, at, b.placing, b.ptr_sz, from, from + width, lvl)
}

pub fn emit_bit_padding(
    b: &Table,
    work: &mut [u8],
    text: &mut [u8],
    at: usize,
    offset: u32,
    m: BtfMember,
    packed: bool,
    lvl: u32,
) -> Result<usize, Refusal>
    ensures { out_of result text.new work.new
        ≡ put_said text.old (Ok at) (pad_said b.now.head.types (btf_of b.now.head b.now.section.now work.old) offset
        (rule_member b.now.head b.now.section.now m) packed lvl) work.old }
{
    let end = m.bit_offset;
    if end <= offset {
        return Ok(at);
    }
    let a = gap_align(b, work, m.type_id, packed)?;
    put_gap(b.head, text, at, offset, m.bit_size, end - offset, a, lvl)
}

// A newline, where no member gave the closing bracket a line of its own.
fn put_own_line(text: &mut [u8], at: usize, members: u32) -> Result<usize, Refusal>
    ensures { put_out result text.new ≡ put_text text.old (Ok at) (whole (lone_line members)) }
{
    if members != 0 {
        return Ok(at);
    }
    put_byte(text, at, b'\n')
}

// What stands after the last of a body's members, which ends at an offset: in placing mode the pads that fill a struct to its size.
pub fn emit_tail_padding(
    b: TypeTable,
    text: &mut [u8],
    at: usize,
    t: BtfType,
    members: u32,
    offset: u32,
    lvl: u32,
) -> Result<usize, Refusal>
    ensures { put_out result text.new
        ≡ put_text text.old (Ok at) (whole
        (tail_text lvl members (tail_pads b.placing b.ptr_sz (eqb (kind_of t.info) 4) t.type_id offset))) }
{
    if !b.placing {
        return Ok(at);
    }
    if !is_struct(t) {
        return Ok(at);
    }
    let end = (t.type_id as u64) * 8;
    let is_full = end <= (offset as u64);
    if is_full {
        return Ok(at);
    }
    let a = put_pads(text, at, b.placing, b.ptr_sz, offset as u64, end, lvl)?;
    put_own_line(text, a, members)
}
