// A typedef's line.
ghost use Rattle.std.specs.Prelude.{◌≡◌, Ok};
ghost use Rattle.spec_c_dumper.specs.alignment_once.Writers.{emit_typedef_def_once};
ghost use Rattle.btf_layout.specs.asked.Asked.{work_asks};
ghost use Rattle.spec_c_dumper.specs.rules.Place.{out_of, put_said};
ghost use Rattle.spec_type_table.specs.Names.{str_at};
ghost use Rattle.spec_type_table.specs.Table.{btf_of, work_naming};

use crate::declarations::{Declarator, emit_type_decl};
use base_bytes::limit;
use base_bytes::put::put_byte;
use base_bytes::refusal::Refusal;
use base_keywords::table::{Word, put_word};
use btf_type_table::node::TypeRef;
use btf_type_table::table::Table;
use c_dumper_name_versions::names::resolve_type_name;
use c_dumper_name_versions::tags::emit_decl_tags;

// A typedef's line, without its end. The compiler's own type has none: see the caller.
pub fn emit_typedef_def(
    b: &Table,
    work: &mut [u8],
    text: &mut [u8],
    at: usize,
    x: TypeRef,
) -> Result<usize, Refusal>
    ensures { out_of result text.new work.new
        ≡ put_said text.old (Ok at) (emit_typedef_def_once (work_asks b.now.head.types (btf_of b.now.head b.now.section.now work.old))
        (work_naming b.now.head) (btf_of b.now.head b.now.section.now work.old) x.id
        (str_at b.now.head b.now.section.now x.t.name_off) x.t.type_id) work.old }
{
    let name = resolve_type_name(b, work, x);
    let d = Declarator {
        id: x.t.type_id,
        name,
        lvl: 0,
    };
    let a = put_word(text, at, Word::Typedef)?;
    let c = put_byte(text, a, b' ')?;
    let e = emit_type_decl(b, work, text, c, d, limit::MOST_CALLS)?;
    emit_decl_tags(b, work, text, e, x.id, None)
}
