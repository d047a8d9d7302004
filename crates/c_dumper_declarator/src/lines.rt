// The lines of the text: definitions, forward lines and typedefs, each with its end.
ghost use Rattle.std.specs.Prelude.{◌≡◌, Ok};
ghost use Rattle.spec_bytes.specs.text.Text.{ascii, whole};
ghost use Rattle.spec_bytes.specs.text.Placed.{put_out, put_text};
ghost use Rattle.spec_c_dumper.specs.rules.Place.{out_of, put_said};
ghost use Rattle.spec_c_dumper.specs.alignment_once.Writers.{definition_once, forward_once};
ghost use Rattle.btf_layout.specs.asked.Asked.{work_asks};
ghost use Rattle.spec_type_table.specs.Table.{type_of, btf_of, work_naming};

use crate::declarations::emit_composite_def;
use crate::typedefs::emit_typedef_def;
use base_bytes::limit;
use base_bytes::put::put_bytes;
use base_bytes::refusal::Refusal;
use btf_type_table::node::TypeRef;
use btf_type_table::table::Table;
use c_dumper_bodies::enums::emit_enum_def;
use c_dumper_name_versions::forwards::{emit_composite_fwd, emit_fwd_def};
use spec_type_table::Kind;

fn put_line_end(text: &mut [u8], at: usize) -> Result<usize, Refusal>
    ensures { put_out result text.new ≡ put_text text.old (Ok at) (whole (ascii ";\n\n")) }
{
    put_bytes(text, at, b";\n\n")
}

// The definition of a composite, an enum or a forward, as a line.
pub fn emit_definition(
    b: &Table,
    work: &mut [u8],
    text: &mut [u8],
    at: usize,
    x: TypeRef,
) -> Result<usize, Refusal>
    ensures { out_of result text.new work.new
        ≡ put_said text.old (Ok at) (definition_once (work_asks b.now.head.types (btf_of b.now.head b.now.section.now work.old))
        (work_naming b.now.head) (btf_of b.now.head b.now.section.now work.old) x.id (type_of b.now.head b.now.section.now x.t)) work.old }
{
    match Kind::of(x.t.info) {
        Kind::Struct | Kind::Union => {
            let a = emit_composite_def(b, work, text, at, x, 0, limit::MOST_CALLS)?;
            put_line_end(text, a)
        }
        Kind::Enum | Kind::Enum64 => {
            let a = emit_enum_def(b, work, text, at, x, 0)?;
            put_line_end(text, a)
        }
        Kind::Fwd => {
            let a = emit_fwd_def(b, work, text, at, x)?;
            put_line_end(text, a)
        }
        _ => Ok(at),
    }
}

// The lines that come once for each id: a composite's forward line, a typedef. The compiler's own type has none.
pub fn emit_forward(
    b: &Table,
    work: &mut [u8],
    text: &mut [u8],
    at: usize,
    x: TypeRef,
) -> Result<usize, Refusal>
    ensures { out_of result text.new work.new
        ≡ put_said text.old (Ok at) (forward_once (work_asks b.now.head.types (btf_of b.now.head b.now.section.now work.old))
        (work_naming b.now.head) (btf_of b.now.head b.now.section.now work.old) x.id (type_of b.now.head b.now.section.now x.t)) work.old }
{
    if b.is_builtin(x.t.name_off) {
        return Ok(at);
    }
    match Kind::of(x.t.info) {
        Kind::Struct | Kind::Union => {
            let a = emit_composite_fwd(b, work, text, at, x)?;
            put_line_end(text, a)
        }
        Kind::Typedef => {
            let a = emit_typedef_def(b, work, text, at, x)?;
            put_line_end(text, a)
        }
        _ => Ok(at),
    }
}
