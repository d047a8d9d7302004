// Sizes; alignments are asked with a memory (`remembered`, `asked`). `left` is how many more calls may be open.
ghost use Rattle.std.specs.Prelude.{◌≡◌};
ghost use Rattle.spec_c_dumper.specs.rules.Layout.{get_size_of};
ghost use Rattle.spec_type_table.specs.Table.{btf_of};
ghost use Rattle.btf_layout.specs.size.Answers.{ask_of};

use base_bytes::refusal::Refusal;
use btf_type_table::table::Table;
use spec_type_table::Kind;

pub fn get_size_of(b: &Table, work: &[u8], id: u32, left: u32) -> Result<u32, Refusal>
    ensures { ask_of result ≡ get_size_of left (btf_of b.now.head b.now.section.now work.now) id }
{
    let mut at = id;
    for passed in 0..left {
        let t = b.type_by_id(work, at);
        match Kind::of(t.info) {
            Kind::Int => return Ok(b.int_bits(t).div_ceil(8)),
            Kind::Ptr => return Ok(b.head.ptr_sz),
            Kind::Array => {
                let element = get_size_of(b, work, b.extra_word(t), left - passed - 1)?;
                return b
                    .array_nelems(t)
                    .checked_mul(element)
                    .ok_or(Refusal::Overflow);
            }
            Kind::Struct | Kind::Union | Kind::Enum | Kind::Float | Kind::Enum64 => return Ok(
                t.type_id,
            ),
            Kind::Typedef
            | Kind::Volatile
            | Kind::Const
            | Kind::Restrict
            | Kind::DeclTag
            | Kind::TypeTag => at = t.type_id,
            Kind::Void
            | Kind::Fwd
            | Kind::Func
            | Kind::FuncProto
            | Kind::Var
            | Kind::Datasec
            | Kind::Unknown => return Ok(0),
        }
    }
    Err(Refusal::TooDeep)
}
