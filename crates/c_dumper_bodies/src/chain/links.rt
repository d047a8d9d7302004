// The declarator chain: from a type through pointers, arrays, qualifiers, prototypes and type tags to its base. A chain is
// only popped, so it is kept as the id that it starts from and how many entries it has: entry k is k steps from there. (Two numbers and no
// struct: the id is the declarator's, which callers hold, and the count falls, so that a struct would be made anew for each call.)
ghost use Rattle.std.specs.Prelude.{◌≡◌, []};
ghost use Rattle.spec_c_dumper.specs.rules.Decl.{chain_of};
ghost use Rattle.spec_type_table.specs.Table.{btf_of};
ghost use Rattle.c_dumper_bodies.specs.chain.Chains as chains;
ghost use Rattle.c_dumper_bodies.specs.chain.Chains.{next_of, path_at, chain_is, RecordIs, kind_at};

use base_bytes::limit;
use btf_type_table::node::TypeRef;
use btf_type_table::table::Table;
use spec_type_table::{BtfType, Kind};

// Whether a kind leads on in a chain; any other is a base.
fn is_link(kind: Kind) -> bool
    ensures { result ≡ chains.is_link kind }
{
    matches!(
        kind,
        Kind::Ptr
            | Kind::Array
            | Kind::Volatile
            | Kind::Const
            | Kind::Restrict
            | Kind::FuncProto
            | Kind::TypeTag
    )
}

// The id that an entry leads to.
#[tactic(auto, using(spec_type_table::proofs::KindTypes::kind_types), unfolding(crate::specs::chain::Chains::next_of))]
fn next_of(b: &Table, t: BtfType) -> u32
    ensures { result ≡ next_of b.now.head b.now.section.now t }
{
    match Kind::of(t.info) {
        Kind::Array => b.extra_word(t),
        _ => t.type_id,
    }
}

// The base that a chain ends with, and how many entries lead there.
#[derive(Clone, Copy)]
pub struct Base {
    pub x: TypeRef,
    pub n: u32,
}

// The base of the chain from an id. A chain has 512 entries at most, its base with them; a longer one has none.
pub fn chain_base(b: &Table, work: &[u8], start: u32) -> Option<Base>
    ensures { (chain_is b.now.head b.now.section.now work.now start result
        ≡ chain_of 512 (btf_of b.now.head b.now.section.now work.now) start [])
        × RecordIs b.now.head b.now.section.now work.now result }
{
    let mut id = start;
    for n in 0..limit::MOST_CALLS {
        let t = b.type_by_id(work, id);
        if !is_link(Kind::of(t.info)) {
            let x = TypeRef { id, t };
            return Some(Base { x, n });
        }
        id = next_of(b, t);
    }
    None
}

// The id of entry k.
pub fn path_at(b: &Table, work: &[u8], start: u32, k: u32) -> u32
    ensures { result ≡ path_at b.now.head b.now.section.now work.now start k }
{
    (0..k).fold(start, |id, _| next_of(b, b.type_by_id(work, id)))
}

// The kind of entry k.
pub fn kind_at(b: &Table, work: &[u8], start: u32, k: u32) -> Kind
    ensures { result ≡ kind_at b.now.head b.now.section.now work.now start k }
{
    let t = b.type_by_id(work, path_at(b, work, start, k));
    Kind::of(t.info)
}

pub fn is_qualifier(kind: Kind) -> bool
    ensures { result ≡ chains.is_qualifier kind }
{
    matches!(kind, Kind::Volatile | Kind::Const | Kind::Restrict)
}
