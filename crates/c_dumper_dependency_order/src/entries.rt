// The entries that ordering and emission go through: the members of a composite and the parameters of a prototype.
ghost use Rattle.std.specs.Prelude.{◌≡◌};
ghost use Rattle.c_dumper_dependency_order.specs.entries.Entries.{count_of, entry_type};

use btf_type_table::kind::{member_place, param_place};
use btf_type_table::table::Table;
use spec_type_table::Entries;

// Entries, with what each of them is.
#[derive(Clone, Copy)]
pub enum Held {
    Members(Entries),
    Params(Entries),
}

impl Held {
    pub fn count(self) -> u32
        ensures { result ≡ count_of self }
    {
        match self {
            Held::Members(es) => es.vlen,
            Held::Params(es) => es.vlen,
        }
    }

    // The type that entry k names.
    #[inline]
    pub fn entry_type(self, b: &Table, k: u32) -> u32
        ensures { result ≡ entry_type b.now.head b.now.section.now self k }
    {
        let place = match self {
            Held::Members(es) => member_place(es.at, k),
            Held::Params(es) => param_place(es.at, k),
        };
        b.word(place + 4)
    }
}
