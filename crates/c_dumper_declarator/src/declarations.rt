// Declarations, their chains and the bodies of composites, which call each other. `left` is how many more calls of
// emit_type_decl, emit_based, emit_type_chain and emit_composite_def may be open; `below` is that for the calls within one of them.
// (LeadOn is asked by each, since memory is fixed: a chain stands in the lent work, which is written here, so no type can say it.)
mod members;

ghost use Rattle.spec_bytes.specs.text.Placed.{placed};
ghost use Rattle.std.specs.Prelude.{[], ◌≡◌, true, false, ◌≤◌, ◌<◌, ◌-◌, ◌+◌, eqb, leb, ◌∷◌, Ok, IfOk};
ghost use Rattle.spec_c_dumper.specs.rules.Writer.{put, ◌⨾◌};
ghost use Rattle.spec_c_dumper.specs.rules.Types.{Composite};
ghost use Rattle.spec_c_dumper.specs.rules.Decl as entry;
ghost use Rattle.spec_c_dumper.specs.rules.Decl.{mods, no_mods, shown_params};
ghost use Rattle.spec_c_dumper.specs.alignment_once.Writers.{emit_type_decl_once, emit_type_chain_once};
ghost use Rattle.btf_layout.specs.asked.Asked.{work_asks};
ghost use Rattle.spec_c_dumper.specs.rules.Place.{out_of, put_said};
ghost use Rattle.spec_type_table.specs.Records.{kind_of, record_by_id};
ghost use Rattle.spec_type_table.specs.Table.{from, param_of, params_of, members_of, record_name, type_of, btf_of, work_naming};
ghost use Rattle.c_dumper_name_versions.specs.names.Spelling.{name_text};
ghost use Rattle.c_dumper_bodies.specs.chain.Chains.{chain_at, LeadOn};
ghost use Rattle.c_dumper_bodies.specs.bodies.Pieces.{word_below, params_below, array_below};
ghost use Rattle.c_dumper_bodies.specs.bodies.Pieces.{proto_below};
ghost use Rattle.c_dumper_declarator.specs.declarations.Rests.{RestIs};
ghost use Rattle.c_dumper_bodies.specs.bodies.Pieces.{param_list_below, entry_text, chain_rest, param_text};

pub use crate::declarations::members::emit_composite_def;
use base_bytes::put::{put_byte, put_bytes};
use base_bytes::refusal::Refusal;
use base_keywords::table::{Word, put_word};
use btf_type_table::kind::{entries_of, param_place};
use btf_type_table::node::TypeRef;
use btf_type_table::table::Table;
use c_dumper_bodies::bodies::{
    emit_enum_word, is_any_more, put_comma, put_count, put_gap, put_star, put_type_tag,
    put_typedef_name, shown_params,
};
use c_dumper_bodies::chain::{Base, chain_base, kind_at, path_at};
use c_dumper_bodies::modifiers::{emit_mods, put_qualifier, skip_mods};
use c_dumper_name_versions::forwards::{emit_composite_fwd, emit_fwd_def};
use c_dumper_name_versions::names::{Name, emit_name};
use spec_type_table::{BtfType, Entries, Kind};

// What is declared: the type that the chain starts from, the declared name, and the level of indentation. (The calls left stand beside it,
// and beside a level, as in the definitions: a chain, a body and a parameter each begin with one call less, where the rest stays or is
// another, so that a struct of both would be taken apart at each.)
#[derive(Clone, Copy)]
pub struct Declarator {
    pub id: u32,
    pub name: Name,
    pub lvl: u32,
}

// What is left of a chain that is being printed: its entries, and whether the last that was printed is a pointer.
#[derive(Clone, Copy)]
struct Rest {
    n: u32,
    last_was_ptr: bool,
}

// Where an entry ended in the text, and the rest of its chain: none once the declared name stands.
#[derive(Clone, Copy)]
struct Stand {
    at: usize,
    rest: Option<Rest>,
}

#[cycle(declarator)]
pub fn emit_type_decl(
    b: &Table,
    work: &mut [u8],
    text: &mut [u8],
    at: usize,
    d: Declarator,
    left: u32,
) -> Result<usize, Refusal>
    ensures { out_of result text.new work.new
        ≡ put_said text.old (Ok at) (emit_type_decl_once (work_asks b.now.head.types (btf_of b.now.head b.now.section.now work.old))
        (work_naming b.now.head) (btf_of b.now.head b.now.section.now work.old) left d.id (name_text b.now.head b.now.section.now d.name)
        d.lvl) work.old }
{
    if left == 0 {
        return Err(Refusal::TooDeep);
    }
    let base = chain_base(b, work, d.id).ok_or(Refusal::TooDeep)?;
    emit_based(b, work, text, at, d, base, left - 1)
}

// A chain with its base on top. Most have nothing else, and then the name follows.
#[cycle(declarator)]
fn emit_based(
    b: &Table,
    work: &mut [u8],
    text: &mut [u8],
    at: usize,
    d: Declarator,
    base: Base,
    left: u32,
) -> Result<usize, Refusal>
    requires { (base.x.t ≡ record_by_id b.now.head b.now.section.now work.old base.x.id)
        × LeadOn b.now.head b.now.section.now work.old d.id base.n }
    ensures { out_of result text.new work.new
        ≡ put_said text.old (Ok at) (emit_type_chain_once (work_asks b.now.head.types (btf_of b.now.head b.now.section.now work.old))
        (work_naming b.now.head) (btf_of b.now.head b.now.section.now work.old) left
        (entry.base base.x.id ∷ chain_at b.now.head b.now.section.now work.old d.id base.n) (name_text b.now.head b.now.section.now d.name)
        d.lvl) work.old }
{
    if left == 0 {
        return Err(Refusal::TooDeep);
    }
    let below = left - 1;
    let m = skip_mods(b, work, d.id, base.n);
    let a = emit_mods(b, work, text, at, d.id, base.n, m)?;
    let e = emit_base(b, work, text, a, base.x, d.lvl, below)?;
    if m == 0 {
        return emit_name(b, text, e, d.name, false);
    }
    let c = Rest {
        n: m,
        last_was_ptr: false,
    };
    emit_links(b, work, text, e, d, c, below)
}

// A chain of entries that all lead on.
#[cycle(declarator)]
fn emit_type_chain(
    b: &Table,
    work: &mut [u8],
    text: &mut [u8],
    at: usize,
    d: Declarator,
    n: u32,
    left: u32,
) -> Result<usize, Refusal>
    requires { LeadOn b.now.head b.now.section.now work.old d.id n }
    ensures { out_of result text.new work.new
        ≡ put_said text.old (Ok at) (emit_type_chain_once (work_asks b.now.head.types (btf_of b.now.head b.now.section.now work.old))
        (work_naming b.now.head) (btf_of b.now.head b.now.section.now work.old) left
        (chain_at b.now.head b.now.section.now work.old d.id n) (name_text b.now.head b.now.section.now d.name) d.lvl) work.old }
{
    if left == 0 {
        return Err(Refusal::TooDeep);
    }
    let c = Rest {
        n,
        last_was_ptr: true,
    };
    emit_links(b, work, text, at, d, c, left - 1)
}

// What is left of it: entry by entry, and then the name.
#[cycle(declarator)]
fn emit_links(
    b: &Table,
    work: &mut [u8],
    text: &mut [u8],
    at: usize,
    d: Declarator,
    c: Rest,
    below: u32,
) -> Result<usize, Refusal>
    requires { LeadOn b.now.head b.now.section.now work.old d.id c.n }
    ensures { out_of result text.new work.new
        ≡ put_said text.old (Ok at) (chain_rest (work_asks b.now.head.types (btf_of b.now.head b.now.section.now work.old))
        (work_naming b.now.head) (btf_of b.now.head b.now.section.now work.old) below (name_text b.now.head b.now.section.now d.name) d.lvl
        false c.last_was_ptr (chain_at b.now.head b.now.section.now work.old d.id c.n)) work.old }
{
    let mut p = at;
    let mut rest = c;
    // A `while`: each entry says how many are left, since an array or a function takes the rest and a type tag the qualifiers under it. A
    // chain is no plainer: it would count by the same number, in a closure that writes the text and may be refused.
    while 0 < rest.n {
        let e = emit_entry(b, work, text, p, d, rest, below)?;
        p = e.at;
        let Some(left) = e.rest else {
            return Ok(p);
        };
        rest = left;
    }
    emit_name(b, text, p, d.name, rest.last_was_ptr)
}

impl Stand {
    // The chain goes on from a place with n entries.
    fn goes_on(at: usize, n: u32, last_was_ptr: bool) -> Stand
        ensures { result ≡ record { at = at; rest = Some (record { n = n; last_was_ptr = last_was_ptr }) } }
    {
        Stand {
            at,
            rest: Some(Rest { n, last_was_ptr }),
        }
    }

    // The declared name stands, and nothing is left.
    fn named(at: usize) -> Stand
        ensures { result ≡ record { at = at; rest = None } }
    {
        Stand { at, rest: None }
    }
}

// Pops and prints the entry on top; one of no other kind that leads on is a type tag.
#[cycle(declarator)]
fn emit_entry(
    b: &Table,
    work: &mut [u8],
    text: &mut [u8],
    at: usize,
    d: Declarator,
    c: Rest,
    below: u32,
) -> Result<Stand, Refusal>
    requires { (0 < c.n) × LeadOn b.now.head b.now.section.now work.old d.id c.n }
    ensures { (out_of (placed (λ s. s.at) result) text.new work.new
        ≡ put_said text.old (Ok at)
        (entry_text (work_asks b.now.head.types (btf_of b.now.head b.now.section.now work.old)) (work_naming b.now.head)
        (btf_of b.now.head b.now.section.now work.old) below (name_text b.now.head b.now.section.now d.name) d.lvl
        c.last_was_ptr (chain_at b.now.head b.now.section.now work.old d.id c.n)) work.old)
        × IfOk result (λ s. RestIs (chain_at b.now.head b.now.section.now work.old d.id) c.n s.rest) }
{
    let n = c.n - 1;
    let t = b.type_by_id(work, path_at(b, work, d.id, n));
    let kind = Kind::of(t.info);
    match kind {
        Kind::Ptr => {
            let a = put_star(text, at, c.last_was_ptr)?;
            Ok(Stand::goes_on(a, n, true))
        }
        Kind::Array => {
            let nelems = b.array_nelems(t);
            let m = skip_mods(b, work, d.id, n);
            let a = emit_array(b, work, text, at, d, Rest { n: m, ..c }, below)?;
            let e = put_count(text, a, nelems)?;
            Ok(Stand::named(e))
        }
        Kind::Volatile | Kind::Const | Kind::Restrict => {
            let a = put_byte(text, at, b' ')?;
            let e = put_qualifier(text, a, kind)?;
            Ok(Stand::goes_on(e, n, false))
        }
        Kind::FuncProto => {
            let a = emit_function(b, work, text, at, d, c, t, below)?;
            Ok(Stand::named(a))
        }
        _ => {
            let m = skip_mods(b, work, d.id, n);
            let a = emit_mods(b, work, text, at, d.id, n, m)?;
            let e = put_type_tag(b, text, a, t)?;
            Ok(Stand::goes_on(e, m, false))
        }
    }
}

// A prototype: its qualifiers, the rest of the chain, and its parameters.
#[cycle(declarator)]
fn emit_function(
    b: &Table,
    work: &mut [u8],
    text: &mut [u8],
    at: usize,
    d: Declarator,
    c: Rest,
    t: BtfType,
    below: u32,
) -> Result<usize, Refusal>
    requires { (0 < c.n) × LeadOn b.now.head b.now.section.now work.old d.id c.n }
    ensures { out_of result text.new work.new
        ≡ put_said text.old (Ok at)
        (put (mods (chain_at b.now.head b.now.section.now work.old d.id (c.n - 1)))
        ⨾ proto_below (work_asks b.now.head.types (btf_of b.now.head b.now.section.now work.old)) (work_naming b.now.head)
        (btf_of b.now.head b.now.section.now work.old) below (name_text b.now.head b.now.section.now d.name) d.lvl
        c.last_was_ptr (no_mods (chain_at b.now.head b.now.section.now work.old d.id (c.n - 1)))
        ⨾ param_list_below (work_asks b.now.head.types (btf_of b.now.head b.now.section.now work.old)) (work_naming b.now.head)
        (btf_of b.now.head b.now.section.now work.old) below (name_text b.now.head b.now.section.now d.name) d.lvl
        (params_of b.now.head b.now.section.now t)) work.old }
{
    let n = c.n - 1;
    let m = skip_mods(b, work, d.id, n);
    let a = emit_mods(b, work, text, at, d.id, n, m)?;
    let f = emit_proto(b, work, text, a, d, Rest { n: m, ..c }, below)?;
    emit_params(b, work, text, f, entries_of(t), d.lvl, below)
}

// The base's own words. What cannot be declared prints nothing, and a kind that there is not is void: opening refuses both.
#[cycle(declarator)]
fn emit_base(
    b: &Table,
    work: &mut [u8],
    text: &mut [u8],
    at: usize,
    x: TypeRef,
    lvl: u32,
    below: u32,
) -> Result<usize, Refusal>
    ensures { out_of result text.new work.new
        ≡ put_said text.old (Ok at) (word_below (work_asks b.now.head.types (btf_of b.now.head b.now.section.now work.old))
        (work_naming b.now.head) (btf_of b.now.head b.now.section.now work.old) below lvl x.id
        (type_of b.now.head b.now.section.now x.t)) work.old }
{
    match Kind::of(x.t.info) {
        Kind::Int | Kind::Float => b.put_str(text, at, x.t.name_off),
        Kind::Struct | Kind::Union => emit_composite_word(b, work, text, at, x, lvl, below),
        Kind::Enum | Kind::Enum64 => emit_enum_word(b, work, text, at, x, lvl),
        Kind::Fwd => emit_fwd_def(b, work, text, at, x),
        Kind::Typedef => put_typedef_name(b, work, text, at, x),
        Kind::Void | Kind::Unknown => put_word(text, at, Word::Void),
        _ => Ok(at),
    }
}

// A nameless composite is printed inline.
#[cycle(declarator)]
fn emit_composite_word(
    b: &Table,
    work: &mut [u8],
    text: &mut [u8],
    at: usize,
    x: TypeRef,
    lvl: u32,
    below: u32,
) -> Result<usize, Refusal>
    ensures { out_of result text.new work.new
        ≡ put_said text.old (Ok at) (word_below (work_asks b.now.head.types (btf_of b.now.head b.now.section.now work.old))
        (work_naming b.now.head) (btf_of b.now.head b.now.section.now work.old) below lvl x.id
        (Composite (eqb (kind_of x.t.info) 4) (record_name b.now.head b.now.section.now x.t) x.t.type_id
        (members_of b.now.head b.now.section.now x.t))) work.old }
{
    if b.is_empty(x.t.name_off) {
        return emit_composite_def(b, work, text, at, x, lvl, below);
    }
    emit_composite_fwd(b, work, text, at, x)
}

// What stands before the brackets of an array: the name, or the chain that is left. (It ends as emit_proto does, by two calls; shared, they
// would be no plainer: one more function that takes all that these take.)
#[cycle(declarator)]
fn emit_array(
    b: &Table,
    work: &mut [u8],
    text: &mut [u8],
    at: usize,
    d: Declarator,
    c: Rest,
    below: u32,
) -> Result<usize, Refusal>
    requires { LeadOn b.now.head b.now.section.now work.old d.id c.n }
    ensures { out_of result text.new work.new
        ≡ put_said text.old (Ok at) (array_below (work_asks b.now.head.types (btf_of b.now.head b.now.section.now work.old))
        (work_naming b.now.head) (btf_of b.now.head b.now.section.now work.old) below (name_text b.now.head b.now.section.now d.name) d.lvl
        c.last_was_ptr (chain_at b.now.head b.now.section.now work.old d.id c.n)) work.old }
{
    if c.n == 0 {
        return emit_name(b, text, at, d.name, c.last_was_ptr);
    }
    let a = put_gap(b, text, at, d.name, c.last_was_ptr)?;
    match kind_at(b, work, d.id, c.n - 1) {
        Kind::Array => emit_type_chain(b, work, text, a, d, c.n, below),
        _ => {
            let e = put_byte(text, a, b'(')?;
            let f = emit_type_chain(b, work, text, e, d, c.n, below)?;
            put_byte(text, f, b')')
        }
    }
}

// What stands before the parameters of a prototype.
#[cycle(declarator)]
fn emit_proto(
    b: &Table,
    work: &mut [u8],
    text: &mut [u8],
    at: usize,
    d: Declarator,
    c: Rest,
    below: u32,
) -> Result<usize, Refusal>
    requires { LeadOn b.now.head b.now.section.now work.old d.id c.n }
    ensures { out_of result text.new work.new
        ≡ put_said text.old (Ok at) (proto_below (work_asks b.now.head.types (btf_of b.now.head b.now.section.now work.old))
        (work_naming b.now.head) (btf_of b.now.head b.now.section.now work.old) below (name_text b.now.head b.now.section.now d.name) d.lvl
        c.last_was_ptr (chain_at b.now.head b.now.section.now work.old d.id c.n)) work.old }
{
    if c.n == 0 {
        return emit_name(b, text, at, d.name, c.last_was_ptr);
    }
    let a = put_bytes(text, at, b" (")?;
    let e = emit_type_chain(b, work, text, a, d, c.n, below)?;
    put_byte(text, e, b')')
}

// The parameters in parentheses.
#[cycle(declarator)]
fn emit_params(
    b: &Table,
    work: &mut [u8],
    text: &mut [u8],
    at: usize,
    params: Entries,
    lvl: u32,
    below: u32,
) -> Result<usize, Refusal>
    ensures { out_of result text.new work.new
        ≡ put_said text.old (Ok at) (params_below (work_asks b.now.head.types (btf_of b.now.head b.now.section.now work.old))
        (work_naming b.now.head) (btf_of b.now.head b.now.section.now work.old) below lvl
        (shown_params (from (param_of b.now.head b.now.section.now params.at) 0 params.vlen))) work.old }
{
    let shown = shown_params(b, params);
    let mut p = put_byte(text, at, b'(')?;
    for k in 0..shown.vlen {
        p = emit_param(b, work, text, p, shown, k, lvl, below)?;
    }
    put_byte(text, p, b')')
}

// One parameter; the last, if void, stands for any more.
#[cycle(declarator)]
fn emit_param(
    b: &Table,
    work: &mut [u8],
    text: &mut [u8],
    at: usize,
    params: Entries,
    k: u32,
    lvl: u32,
    below: u32,
) -> Result<usize, Refusal>
    ensures { out_of result text.new work.new
        ≡ put_said text.old (Ok at) (param_text
        (λ id name. emit_type_decl_once (work_asks b.now.head.types (btf_of b.now.head b.now.section.now work.old)) (work_naming b.now.head)
        (btf_of b.now.head b.now.section.now work.old) below id name lvl) (eqb k 0) (param_of b.now.head b.now.section.now params.at k)
        (leb params.vlen (k + 1))) work.old }
{
    let p = param_place(params.at, k);
    let type_id = b.word(p + 4);
    let d = Declarator {
        id: type_id,
        name: Name::bare(b.word(p)),
        lvl,
    };
    let a = put_comma(text, at, k)?;
    if is_any_more(params.vlen, k, type_id) {
        return put_word(text, a, Word::Dots);
    }
    emit_type_decl(b, work, text, a, d, below)
}
