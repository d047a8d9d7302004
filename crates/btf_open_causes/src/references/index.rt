// Types by id, through the index, and the ids that they follow.
ghost use Rattle.std.specs.Prelude.{◌≡◌, ℕ, ◌+◌, ◌*◌, ◌/◌, ◌%◌};
ghost use Rattle.spec_type_table.specs.Kinds.{kind_named};
ghost use Rattle.spec_type_table.specs.Records.{section_word, vlen_of};
ghost use Rattle.btf_open_causes.specs.references.Followed.{type_count, entry_at, kind_at, count_at, id_place, id_at, followed_id};

use base_bytes::element::peek;
use base_bytes::limit;
use btf_type_table::kind::{member_place, param_place, vlen_of};
use btf_type_table::table::Table;
use spec_type_table::{KINDS, Kind};

// An entry of the index of records, which has one word for each type (fixed memory): the place of its record and its kind.
#[derive(Clone, Copy)]
pub struct Entry {
    pub word: u32,
}

// The kind is the last five bits of the word, and the place the other 27.
const PLACES: u32 = 1 << 27;

impl Entry {
    // The entry of a record of a kind at a place. (The kind's bits and no Kind: an entry is written before its record is tested.)
    pub fn new(at: u32, kind: u32) -> Entry
        ensures { result.word ≡ at % 134217728 * 32 + kind % 32 }
    {
        Entry {
            word: at % PLACES * KINDS + kind % KINDS,
        }
    }

    pub fn place(self) -> u32
        ensures { result ≡ self.word / 32 }
    {
        self.word / KINDS
    }

    pub fn kind(self) -> Kind
        ensures { result ≡ kind_named (self.word % 32) }
    {
        Kind::from(self.word % KINDS)
    }
}

// Where the k-th id stands that the record of a kind at a place follows; a prototype's result comes first.
fn id_place(kind: Kind, at: u32, k: u32) -> usize
    ensures { (n : ℕ) → kind ≡ kind_named n → result ≡ id_place n at k }
{
    match kind {
        Kind::Array => (at as usize) + 12,
        Kind::Struct | Kind::Union => member_place(at, k) + 4,
        Kind::FuncProto => {
            if k == 0 {
                return (at as usize) + 8;
            }
            param_place(at, k - 1) + 4
        }
        _ => (at as usize) + 8,
    }
}

// A table that is being opened or cut down, with the index of its records.
#[derive(Clone, Copy)]
pub struct Index<'a> {
    pub table: Table<'a>,
    pub start: &'a [u32],
}

impl Index<'_> {
    // How many types there are, void counted. No table that passed cause 5 has more than 262145.
    pub fn count(&self) -> u32
        ensures { result ≡ type_count self.now.table.head }
    {
        self.table.head.types.min(limit::MOST_TYPES)
    }

    // The entry of type x. Void, and what lies past the table, has 0.
    pub fn entry(&self, x: u32) -> Entry
        ensures { result.word ≡ entry_at self.now.table.head self.now.start.now x }
    {
        if x == 0 || self.count() <= x {
            return Entry { word: 0 };
        }
        Entry {
            word: peek(self.start, x as usize, 0),
        }
    }

    pub fn kind_at(&self, x: u32) -> Kind
        ensures { result ≡ kind_named (kind_at self.now.table.head self.now.start.now x) }
    {
        self.entry(x).kind()
    }

    fn vlen_at(&self, at: u32) -> u32
        ensures { result ≡ vlen_of (section_word self.now.table.head self.now.table.section.now (at + 4)) }
    {
        vlen_of(self.table.word((at as usize) + 4))
    }

    // How many ids the record of a kind at a place follows: targets, elements, members, parameters and results.
    pub fn count_at(&self, kind: Kind, at: u32) -> u32
        ensures { (n : ℕ) → kind ≡ kind_named n → result ≡ count_at self.now.table.head self.now.table.section.now n at }
    {
        match kind {
            Kind::Ptr
            | Kind::Array
            | Kind::Typedef
            | Kind::Volatile
            | Kind::Const
            | Kind::Restrict
            | Kind::TypeTag => 1,
            Kind::Struct | Kind::Union => self.vlen_at(at),
            Kind::FuncProto => self.vlen_at(at) + 1,
            _ => 0,
        }
    }

    // The k-th of them.
    pub fn id_at(&self, kind: Kind, at: u32, k: u32) -> u32
        ensures { (n : ℕ) → kind ≡ kind_named n → result ≡ id_at self.now.table.head self.now.table.section.now n at k }
    {
        self.table.word(id_place(kind, at, k))
    }

    pub fn followed(&self, x: u32, k: u32) -> u32
        ensures { result ≡ followed_id self.now.table.head self.now.table.section.now self.now.start.now x k }
    {
        let e = self.entry(x);
        self.id_at(e.kind(), e.place(), k)
    }
}
