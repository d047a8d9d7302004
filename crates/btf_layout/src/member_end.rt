// Where members end.
ghost use Rattle.std.specs.Prelude.{◌≡◌};
ghost use Rattle.spec_c_dumper.specs.rules.Layout.{end_of};
ghost use Rattle.spec_type_table.specs.Table.{btf_of, rule_member};
ghost use Rattle.btf_layout.specs.size.Answers.{ask_of};

use crate::size::get_size_of;
use base_bytes::limit;
use base_bytes::refusal::Refusal;
use btf_type_table::table::Table;
use spec_type_table::BtfMember;

// Where the next member may begin.
pub fn member_end(b: &Table, work: &[u8], m: BtfMember) -> Result<u32, Refusal>
    ensures { ask_of result ≡ end_of (btf_of b.now.head b.now.section.now work.now) (rule_member b.now.head b.now.section.now m) }
{
    if m.bit_size != 0 {
        return m
            .bit_offset
            .checked_add(m.bit_size)
            .ok_or(Refusal::Overflow);
    }
    let size = get_size_of(b, work, m.type_id, limit::MOST_CALLS)?;
    let bits = size.checked_mul(8).ok_or(Refusal::Overflow)?;
    m.bit_offset.checked_add(bits).ok_or(Refusal::Overflow)
}
