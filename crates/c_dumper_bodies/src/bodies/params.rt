// Which parameters of a prototype are printed, and how.
ghost use Rattle.std.specs.Prelude.{◌≡◌, ◌&&◌, ◌+◌, eqb, leb};
ghost use Rattle.spec_c_dumper.specs.rules.Decl.{shown_params};
ghost use Rattle.spec_type_table.specs.Table.{from, param_of};

use btf_type_table::kind::param_place;
use btf_type_table::table::Table;
use spec_type_table::Entries;

// The parameters that are printed: a single one of type void is none.
pub fn shown_params(b: &Table, params: Entries) -> Entries
    ensures { from (param_of b.now.head b.now.section.now result.at) 0 result.vlen
        ≡ shown_params (from (param_of b.now.head b.now.section.now params.at) 0 params.vlen) }
{
    if params.vlen == 1 && b.word(param_place(params.at, 0) + 4) == 0 {
        return Entries { vlen: 0, ..params };
    }
    params
}

// Whether parameter k of vlen is the last, and void.
pub fn is_any_more(vlen: u32, k: u32, type_id: u32) -> bool
    ensures { result ≡ (leb vlen (k + 1) && eqb type_id 0) }
{
    type_id == 0 && vlen.saturating_sub(1) <= k
}
