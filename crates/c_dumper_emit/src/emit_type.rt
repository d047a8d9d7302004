// Emission: which lines a listed id brings, and their order; each with its entry where the call is lent a list. The steps that go on to
// no other id are in steps. (IsLoaded is asked by three, since memory is fixed: the lent work, which is written here, tells where an id's
// record stands, so no type can say it.)
ghost use Rattle.std.specs.Prelude.{◌≡◌, not, ◌&&◌, eqb, ℕ, Ok};
ghost use Rattle.spec_c_dumper.specs.rules.Machine.{obind, eeach};
ghost use Rattle.spec_c_dumper.specs.rules.Order.{is_done};
ghost use Rattle.spec_type_table.specs.Cells.{get_field};
ghost use Rattle.spec_type_table.specs.Records.{entries_of};
ghost use Rattle.spec_type_table.specs.Nodes.{member_ids};
ghost use Rattle.spec_session.specs.emission.Slices.{slices_store};
ghost use Rattle.c_dumper_dependency_order.specs.entries.Entries.{entry_ids};
ghost use Rattle.c_dumper_dependency_order.specs.order_state.Work.{mark_of};
ghost use Rattle.c_dumper_emit.specs.emission.At.{at_emission, IsLoaded};
ghost use Rattle.c_dumper_emit.specs.entries.Traced.{traced_out, emit_n, new_n, composite_n, leaf_n};

use crate::emission::Emission;
use crate::entries::{Cause, Pen};
use crate::steps::inner;
use base_bytes::limit;
use base_bytes::refusal::Refusal;
use btf_type_table::cell;
use btf_type_table::kind::entries_of;
use btf_type_table::node::TypeRef;
use c_dumper_dependency_order::entries::Held;
use c_dumper_dependency_order::order_state::{Mark, get_listed, get_mark, is_done, set_mark};
use spec_type_table::Node;

// Whether a call would find its id emitted, and print nothing.
fn is_emitted(work: &[u8], id: u32, left: u32) -> bool
    ensures { result ≡ not (eqb left 0) && is_done (mark_of (get_field work.now id 13)) }
{
    left != 0 && is_done(work, id, cell::EMIT_STATE)
}

impl Emission<'_> {
    // cont is the composite or typedef that is being emitted around id, or 0 at the top: a number, as in the Rust (`cont_id`). An Option
    // is no plainer: the definition of emission has the number too, so each clause would take it apart. (cont and left are no struct: at
    // each step one of them stays as it is, and what prints a line takes cont alone.)
    #[cycle(emit_type)]
    pub fn emit_type(
        &self,
        work: &mut [u8],
        text: &mut [u8],
        list: &mut [u8],
        p: Pen,
        id: u32,
        cont: u32,
        left: u32,
    ) -> Result<Pen, Refusal>
        ensures { (n : ℕ) → traced_out n result text.new work.new list.new
            ≡ obind (traced_out n (Ok p) text.old work.old list.old)
            (λ m. at_emission emit_n self.now work.old list.old left cont m id) }
    {
        if left == 0 {
            return Err(Refusal::TooDeep);
        }
        match get_mark(work, id, cell::EMIT_STATE) {
            Mark::Done => return Ok(p),
            Mark::Open => return self.emit_again(work, text, list, p, id, cont),
            Mark::New => {}
        }
        let t = self.table.type_by_id(work, id);
        let named = self.table.is_named(t);
        if cont == 0 && !named {
            return Err(Refusal::NamelessTypedef);
        }
        let x = TypeRef { id, t };
        self.emit_new(work, text, list, p, x, cont, left - 1)
    }

    // An id that is not emitted yet.
    #[cycle(emit_type)]
    fn emit_new(
        &self,
        work: &mut [u8],
        text: &mut [u8],
        list: &mut [u8],
        p: Pen,
        x: TypeRef,
        cont: u32,
        left: u32,
    ) -> Result<Pen, Refusal>
        requires { IsLoaded self.now work.old x }
        ensures { (n : ℕ) → traced_out n result text.new work.new list.new
            ≡ obind (traced_out n (Ok p) text.old work.old list.old)
            (λ m. at_emission new_n self.now work.old list.old left cont m x.id) }
    {
        match self.table.node_of(x.t) {
            Node::Ignored | Node::Plain => Ok(p),
            Node::Enum => self.emit_leaf(work, text, list, p, x, cont, false),
            Node::Fwd => self.emit_leaf(work, text, list, p, x, cont, true),
            Node::Array(y) | Node::Through(y) | Node::Ptr(y) => {
                self.emit_type(work, text, list, p, y, cont, left)
            }
            Node::Typedef(y) => {
                set_mark(work, x.id, cell::EMIT_STATE, Mark::Open);
                let a = self.emit_type(work, text, list, p, y, x.id, left)?;
                self.end_typedef(work, text, list, a, x, cont)
            }
            Node::Proto(y, params) => {
                let a = self.emit_type(work, text, list, p, y, cont, left)?;
                self.emit_entries(work, text, list, a, Held::Params(params), cont, left)
            }
            Node::Composite(_) => self.emit_composite(work, text, list, p, x, cont, left),
        }
    }

    // A composite: at the top, or nameless, all that its members need first; else a forward line. At the top its definition.
    #[cycle(emit_type)]
    fn emit_composite(
        &self,
        work: &mut [u8],
        text: &mut [u8],
        list: &mut [u8],
        p: Pen,
        x: TypeRef,
        cont: u32,
        left: u32,
    ) -> Result<Pen, Refusal>
        requires { IsLoaded self.now work.old x }
        ensures { (n : ℕ) → traced_out n result text.new work.new list.new
            ≡ obind (traced_out n (Ok p) text.old work.old list.old)
            (λ m. at_emission composite_n self.now work.old list.old left cont
            (member_ids self.now.table.head self.now.table.section.now (entries_of x.t)) m x.id) }
    {
        let named = self.table.is_named(x.t);
        if named && cont != 0 {
            return self.mention_composite(work, text, list, p, x, cont);
        }
        set_mark(work, x.id, cell::EMIT_STATE, Mark::Open);
        let within = inner(named, x.id, cont);
        let members = entries_of(x.t);
        let a = self.emit_entries(work, text, list, p, Held::Members(members), within, left)?;
        self.end_composite(work, text, list, a, x, cont)
    }

    // The types of all entries of a record.
    #[cycle(emit_type)]
    fn emit_entries(
        &self,
        work: &mut [u8],
        text: &mut [u8],
        list: &mut [u8],
        p: Pen,
        entries: Held,
        cont: u32,
        left: u32,
    ) -> Result<Pen, Refusal>
        ensures { (n : ℕ) → traced_out n result text.new work.new list.new
            ≡ obind (traced_out n (Ok p) text.old work.old list.old)
            (λ m. eeach (at_emission emit_n self.now work.old list.old left cont)
            (entry_ids self.now.table.head self.now.table.section.now entries) m) }
    {
        let mut a = p;
        for k in 0..entries.count() {
            let t = entries.entry_type(&self.table, k);
            if is_emitted(work, t, left) {
                continue;
            }
            a = self.emit_type(work, text, list, a, t, cont, left)?;
        }
        Ok(a)
    }

    // An enum is defined at the top only; a forward is printed wherever it is met (`fwd` is the flag of the node in the rule). The three
    // lines that define and mark are those of end_composite too: one function of both is no plainer, as long as its contract would be.
    fn emit_leaf(
        &self,
        work: &mut [u8],
        text: &mut [u8],
        list: &mut [u8],
        p: Pen,
        x: TypeRef,
        cont: u32,
        fwd: bool,
    ) -> Result<Pen, Refusal>
        requires { IsLoaded self.now work.old x }
        ensures { (n : ℕ) → traced_out n result text.new work.new list.new
            ≡ obind (traced_out n (Ok p) text.old work.old list.old)
            (λ m. at_emission leaf_n self.now work.old list.old fwd cont m x.id) }
    {
        if fwd || cont == 0 {
            let e = self.origin_at(u32::from(Cause::ForwardLine), x.id, cont);
            let a = self.define(work, text, list, p, x, e)?;
            set_mark(work, x.id, cell::EMIT_STATE, Mark::Done);
            return Ok(a);
        }
        set_mark(work, x.id, cell::EMIT_STATE, Mark::Done);
        Ok(p)
    }

    // Emits the first n ids of the order list, each at the top.
    pub fn emit_ordered(
        &self,
        work: &mut [u8],
        text: &mut [u8],
        list: &mut [u8],
        p: Pen,
        n: u32,
    ) -> Result<Pen, Refusal>
        ensures { traced_out n result text.new work.new list.new
            ≡ obind (traced_out n (Ok p) text.old work.old list.old)
            (λ m. eeach (at_emission emit_n self.now work.old list.old 512 0) (slices_store.list m.mach) m) }
    {
        let mut a = p;
        for k in 0..n {
            let id = get_listed(work, k);
            a = self.emit_type(work, text, list, a, id, 0, limit::MOST_CALLS)?;
        }
        Ok(a)
    }
}
