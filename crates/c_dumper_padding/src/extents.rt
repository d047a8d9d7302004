// Placing mode: what the members of a body reach, and whether all of them fit.
ghost use Rattle.std.specs.Prelude.{◌≡◌, ◌*◌};
ghost use Rattle.spec_c_dumper.specs.rules.Placing.{round_up, same_unit, field_size, field_fits, start_fits, member_fits, reached};
ghost use Rattle.spec_c_dumper.specs.rules.Placing.{size_fits};
ghost use Rattle.spec_c_dumper.specs.rules.Placing.{extent_of, no_extent};
ghost use Rattle.spec_type_table.specs.Table.{btf_of, members_of, rule_member};
ghost use Rattle.btf_layout.specs.size.Answers.{ask_of};
ghost use Rattle.c_dumper_padding.specs.extents.Steps.{extent_is, extents_of, one_member, with_extent, judged};

use base_bytes::limit;
use base_bytes::refusal::Refusal;
use btf_layout::member_end::member_end;
use btf_layout::size::get_size_of;
use btf_type_table::kind::vlen_of;
use btf_type_table::table::Table;
use spec_type_table::{BtfMember, BtfType};

// What the members reach, a struct's last end or a union's largest member, and whether all of them fit. (Both, by the project's
// rule that no promise says less: with an Option, none after a misfit, extent_of would not say what the members behind it reach.)
#[derive(Clone, Copy)]
pub struct Extent {
    pub last: u32,
    pub fits: bool,
}

// How a body is laid out: one member after the other or all from bit 0, and whether its bit fields may cross a unit.
#[derive(Clone, Copy)]
pub struct Body {
    pub in_struct: bool,
    pub packed: bool,
}

// The least multiple of 8 * a that is not below n.
fn round_up(n: u32, a: u32) -> u64
    ensures { result ≡ round_up n (8 * a) }
{
    if a == 0 {
        return 0;
    }
    let k = (a as u64) * 8;
    (n as u64).div_ceil(k) * k
}

// Whether bits from a start on lie in one unit of a type of so many bytes.
fn same_unit(size: u32, start: u32, width: u32) -> bool
    ensures { result ≡ same_unit (8 * size) start width }
{
    let unit = (size as u64) * 8;
    let end = (start as u64) + (width as u64);
    (start as u64).checked_div(unit) == end.saturating_sub(1).checked_div(unit)
}

fn field_fits(packed: bool, size: u32, bit_offset: u32, bit_size: u32) -> bool
    ensures { result ≡ field_fits packed size bit_offset bit_size }
{
    if (size as u64) * 8 < (bit_size as u64) {
        return false;
    }
    if packed {
        return true;
    }
    same_unit(size, bit_offset, bit_size)
}

fn start_fits(body: Body, last: u32, start: u32) -> bool
    ensures { result ≡ start_fits body.in_struct last start }
{
    if body.in_struct {
        return last <= start;
    }
    start == 0
}

fn member_fits(body: Body, last: u32, size: u32, m: BtfMember) -> bool
    ensures { result ≡ member_fits body.in_struct body.packed last size m.bit_offset m.bit_size }
{
    if !start_fits(body, last, m.bit_offset) {
        return false;
    }
    if m.bit_size == 0 {
        return m.bit_offset % 8 == 0;
    }
    field_fits(body.packed, size, m.bit_offset, m.bit_size)
}

// The size of a bit field's type; a plain member's is asked with its end.
fn field_size(b: &Table, work: &[u8], m: BtfMember) -> Result<u32, Refusal>
    ensures { ask_of result ≡ field_size (btf_of b.now.head b.now.section.now work.now) (rule_member b.now.head b.now.section.now m) }
{
    if m.bit_size == 0 {
        return Ok(0);
    }
    get_size_of(b, work, m.type_id, limit::MOST_CALLS)
}

fn reached(body: Body, last: u32, end: u32) -> u32
    ensures { result ≡ reached body.in_struct last end }
{
    if body.in_struct {
        return end;
    }
    last.max(end)
}

fn with_member(body: Body, x: Extent, size: u32, end: u32, m: BtfMember) -> Extent
    ensures { extent_is result ≡ with_extent body.in_struct body.packed x size end m.bit_offset m.bit_size }
{
    Extent {
        last: reached(body, x.last, end),
        fits: x.fits && member_fits(body, x.last, size, m),
    }
}

// One member more: the size of a bit field's type is asked before its end.
fn next_member(
    b: &Table,
    work: &[u8],
    body: Body,
    x: Extent,
    m: BtfMember,
) -> Result<Extent, Refusal>
    ensures { extents_of result
        ≡ one_member (btf_of b.now.head b.now.section.now work.now) body.in_struct body.packed x
        (rule_member b.now.head b.now.section.now m) }
{
    let size = field_size(b, work, m)?;
    let end = member_end(b, work, m)?;
    Ok(with_member(body, x, size, end, m))
}

// What the members of a body reach.
pub fn extent_of(b: &Table, work: &[u8], t: BtfType, body: Body) -> Result<Extent, Refusal>
    ensures { extents_of result
        ≡ extent_of (btf_of b.now.head b.now.section.now work.now) body.in_struct body.packed no_extent
        (members_of b.now.head b.now.section.now t) }
{
    let start = Extent {
        last: 0,
        fits: true,
    };
    (0..vlen_of(t.info))
        .map(|k| b.load_member(t, k))
        .try_fold(start, |x, m| next_member(b, work, body, x, m))
}

fn size_fits(body: Body, a: u32, last: u32, bits: u32) -> bool
    ensures { result ≡ size_fits body.in_struct a last bits }
{
    if body.in_struct {
        return last <= bits;
    }
    (bits as u64) == round_up(last, a)
}

// Whether a body of a size and an alignment holds what its members reach.
// A size over 4294967295 bits comes before a member or a size that does not fit.
pub fn judged(body: Body, size: u32, a: u32, x: Extent) -> Result<bool, Refusal>
    ensures { ask_of result ≡ judged body.in_struct size a body.packed (extent_is x) }
{
    let bits = size.checked_mul(8).ok_or(Refusal::Overflow)?;
    if !x.fits {
        return Err(Refusal::Misplaced);
    }
    if size_fits(body, a, x.last, bits) {
        return Ok(body.packed);
    }
    Err(Refusal::Misplaced)
}
