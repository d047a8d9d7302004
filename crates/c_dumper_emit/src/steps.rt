// Emission, the steps that go on to no other id: a line that comes once, an id that is met again, a composite within another, and
// the ends of a typedef and a composite. Emit states and forward flags stand in the work words.
ghost use Rattle.std.specs.Prelude.{◌≡◌, not, eqb, ℕ, Ok};
ghost use Rattle.spec_c_dumper.specs.rules.Machine.{pick, obind};
ghost use Rattle.spec_type_table.specs.Cells.{get_field, put_field};
ghost use Rattle.spec_type_table.specs.Table.{type_of};
ghost use Rattle.spec_c_dumper.specs.origins.Causes.{cause_at};
ghost use Rattle.c_dumper_dependency_order.specs.leaders.Leaders.{leader_words, entry_in};
ghost use Rattle.c_dumper_emit.specs.emission.At.{lent_at, at_emission};
ghost use Rattle.c_dumper_emit.specs.entries.Traced.{entry_of, traced_out, has_n, once_n, mention_n};
ghost use Rattle.c_dumper_emit.specs.entries.Traced.{again_n, typedef_n, mentioned_n, ended_n};

use crate::emission::Emission;
use crate::entries::{Cause, Origin, Pen, forward_origin};
use base_bytes::refusal::Refusal;
use btf_type_table::cell;
use btf_type_table::cell::{get_field, put_field};
use btf_type_table::node::TypeRef;
use c_dumper_dependency_order::order_state::{Mark, set_mark};
use spec_type_table::Kind;

// Whether the forward line of a type is printed. (Fixed memory: 0 or 1 in a word of the lent work.)
fn get_fwd_emitted(work: &[u8], id: u32) -> bool
    ensures { result ≡ not (eqb (get_field work.now id 3) 0) }
{
    get_field(work, id, cell::FORWARD_EMITTED) != 0
}

fn set_fwd_emitted(work: &mut [u8], id: u32)
    ensures { work.new ≡ put_field work.old id 3 1 }
{
    put_field(work, id, cell::FORWARD_EMITTED, 1)
}

// What the members of a composite are emitted within.
pub fn inner(named: bool, id: u32, cont: u32) -> u32
    ensures { result ≡ pick named id cont }
{
    if named { id } else { cont }
}

impl Emission<'_> {
    fn emit_once(
        &self,
        work: &mut [u8],
        text: &mut [u8],
        list: &mut [u8],
        p: Pen,
        x: TypeRef,
        e: Origin,
    ) -> Result<Pen, Refusal>
        ensures { (n : ℕ) → traced_out n result text.new work.new list.new
            ≡ obind (traced_out n (Ok p) text.old work.old list.old)
            (λ m. lent_at once_n self.now work.old list.old
            (type_of self.now.table.head self.now.table.section.now x.t) (entry_of e)
            (lent_at has_n self.now work.old list.old m x.id) m x.id) }
    {
        if get_fwd_emitted(work, x.id) {
            return Ok(p);
        }
        let a = self.forward(work, text, list, p, x, e)?;
        set_fwd_emitted(work, x.id);
        Ok(a)
    }

    // An id that is met while it is being emitted. A nameless composite never is, since ordering refuses its cycle.
    pub fn emit_again(
        &self,
        work: &mut [u8],
        text: &mut [u8],
        list: &mut [u8],
        p: Pen,
        id: u32,
        cont: u32,
    ) -> Result<Pen, Refusal>
        ensures { (n : ℕ) → traced_out n result text.new work.new list.new
            ≡ obind (traced_out n (Ok p) text.old work.old list.old)
            (λ m. at_emission again_n self.now work.old list.old cont m id) }
    {
        if get_fwd_emitted(work, id) {
            return Ok(p);
        }
        let t = self.table.type_by_id(work, id);
        let x = TypeRef { id, t };
        match Kind::of(t.info) {
            Kind::Struct | Kind::Union => {
                let named = self.table.is_named(t);
                if id != cont && !named {
                    return Err(Refusal::Cycle);
                }
                self.emit_mention(work, text, list, p, x, cont)
            }
            Kind::Typedef => {
                let e = self.origin_at(u32::from(Cause::EarlyTypedef), id, cont);
                self.emit_once(work, text, list, p, x, e)
            }
            _ => Ok(p),
        }
    }

    // A named composite within another: a forward line, unless it is that other.
    fn emit_mention(
        &self,
        work: &mut [u8],
        text: &mut [u8],
        list: &mut [u8],
        p: Pen,
        x: TypeRef,
        cont: u32,
    ) -> Result<Pen, Refusal>
        ensures { (n : ℕ) → traced_out n result text.new work.new list.new
            ≡ obind (traced_out n (Ok p) text.old work.old list.old)
            (λ m. lent_at mention_n self.now work.old list.old
            (type_of self.now.table.head self.now.table.section.now x.t) cont m x.id) }
    {
        if x.id == cont {
            return Ok(p);
        }
        let e = forward_origin(x.id, cont);
        self.emit_once(work, text, list, p, x, e)
    }

    // The same with the emit state around it: the composite is begun, and new again after that.
    pub fn mention_composite(
        &self,
        work: &mut [u8],
        text: &mut [u8],
        list: &mut [u8],
        p: Pen,
        x: TypeRef,
        cont: u32,
    ) -> Result<Pen, Refusal>
        ensures { (n : ℕ) → traced_out n result text.new work.new list.new
            ≡ obind (traced_out n (Ok p) text.old work.old list.old)
            (λ m. lent_at mentioned_n self.now work.old list.old
            (type_of self.now.table.head self.now.table.section.now x.t) cont m x.id) }
    {
        set_mark(work, x.id, cell::EMIT_STATE, Mark::Open);
        let a = self.emit_mention(work, text, list, p, x, cont)?;
        set_mark(work, x.id, cell::EMIT_STATE, Mark::New);
        Ok(a)
    }

    // What ends a typedef: its line, unless it had one.
    pub fn end_typedef(
        &self,
        work: &mut [u8],
        text: &mut [u8],
        list: &mut [u8],
        p: Pen,
        x: TypeRef,
        cont: u32,
    ) -> Result<Pen, Refusal>
        ensures { (n : ℕ) → traced_out n result text.new work.new list.new
            ≡ obind (traced_out n (Ok p) text.old work.old list.old)
            (λ m. lent_at typedef_n self.now work.old list.old
            (type_of self.now.table.head self.now.table.section.now x.t)
            (cause_at 3 (entry_in self.now.request.req self.now.request.turn (leader_words self.now.leaders.now) x.id) x.id cont) m x.id) }
    {
        let e = self.origin_at(u32::from(Cause::EarlyTypedef), x.id, cont);
        let a = self.emit_once(work, text, list, p, x, e)?;
        set_mark(work, x.id, cell::EMIT_STATE, Mark::Done);
        Ok(a)
    }

    // What ends a composite, after its members: its definition at the top; within another it is new again.
    pub fn end_composite(
        &self,
        work: &mut [u8],
        text: &mut [u8],
        list: &mut [u8],
        p: Pen,
        x: TypeRef,
        cont: u32,
    ) -> Result<Pen, Refusal>
        ensures { (n : ℕ) → traced_out n result text.new work.new list.new
            ≡ obind (traced_out n (Ok p) text.old work.old list.old)
            (λ m. lent_at ended_n self.now work.old list.old (eqb cont 0)
            (type_of self.now.table.head self.now.table.section.now x.t)
            (entry_in self.now.request.req self.now.request.turn (leader_words self.now.leaders.now) x.id) m x.id) }
    {
        if cont != 0 {
            set_mark(work, x.id, cell::EMIT_STATE, Mark::New);
            return Ok(p);
        }
        let e = self.listed_origin(x.id);
        let a = self.define(work, text, list, p, x, e)?;
        set_mark(work, x.id, cell::EMIT_STATE, Mark::Done);
        Ok(a)
    }
}
