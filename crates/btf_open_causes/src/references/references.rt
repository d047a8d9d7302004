// Cause 6: a followed id that is not below the count, or is of kind 12, 14, 15 or 17.
ghost use Rattle.std.specs.Prelude.{◌≡◌};
ghost use Rattle.btf_open_causes.specs.references.References.{is_bad, is_some_bad, has_bad_reference};

use crate::references::index::Index;
use spec_type_table::Kind;

fn is_bad(i: &Index, y: u32) -> bool
    ensures { result ≡ is_bad i.now.table.head i.now.start.now y }
{
    let n = i.count();
    if n <= y {
        return true;
    }
    matches!(
        i.kind_at(y),
        Kind::Func | Kind::Var | Kind::Datasec | Kind::DeclTag
    )
}

fn is_some_bad(i: &Index, x: u32) -> bool
    ensures { result ≡ is_some_bad i.now.table.head i.now.table.section.now i.now.start.now x }
{
    let e = i.entry(x);
    let (kind, at) = (e.kind(), e.place());
    (0..i.count_at(kind, at)).any(|k| is_bad(i, i.id_at(kind, at, k)))
}

pub fn has_bad_reference(i: &Index) -> bool
    ensures { result ≡ has_bad_reference i.now.table.head i.now.table.section.now i.now.start.now }
{
    (0..i.count()).any(|x| is_some_bad(i, x))
}
