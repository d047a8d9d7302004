// The lines of the text, each with its entry where the call is lent a list.
ghost use Rattle.std.specs.Prelude.{◌≡◌, true, ◌&&◌, ℕ, Ok};
ghost use Rattle.spec_c_dumper.specs.rules.Machine.{obind};
ghost use Rattle.spec_c_dumper.specs.alignment_once.Writers.{definition_once, forward_once};
ghost use Rattle.btf_layout.specs.asked.Asked.{work_asks};
ghost use Rattle.spec_type_table.specs.Table.{type_of, btf_of, work_naming};
ghost use Rattle.c_dumper_emit.specs.entries.Traced.{entry_of, traced_out, lent_list, line_n, shown_of};

use crate::emission::Emission;
use crate::entries::{Origin, Pen, is_shown, note_if};
use base_bytes::refusal::Refusal;
use btf_type_table::node::TypeRef;
use c_dumper_declarator::lines::{emit_definition, emit_forward};
use spec_type_table::BtfType;

impl Emission<'_> {
    // The definition of a composite, an enum or a forward, with its entry.
    pub fn define(
        &self,
        work: &mut [u8],
        text: &mut [u8],
        list: &mut [u8],
        p: Pen,
        x: TypeRef,
        e: Origin,
    ) -> Result<Pen, Refusal>
        ensures { (n : ℕ) → traced_out n result text.new work.new list.new
            ≡ obind (traced_out n (Ok p) text.old work.old list.old)
            (λ m. line_n (lent_list self.now.request.lists list.old) true (entry_of e)
            (definition_once
            (work_asks self.now.table.head.types (btf_of self.now.table.head self.now.table.section.now work.old))
            (work_naming self.now.table.head) (btf_of self.now.table.head self.now.table.section.now work.old) x.id
            (type_of self.now.table.head self.now.table.section.now x.t)) m) }
    {
        let q = note_if(list, p, e, self.request.lists)?;
        let a = emit_definition(&self.table, work, text, q.at, x)?;
        Ok(Pen { at: a, ..q })
    }

    // Whether it has an entry.
    fn is_listed(&self, t: BtfType) -> bool
        ensures { result ≡ self.now.request.lists
            && shown_of (type_of self.now.table.head self.now.table.section.now t) }
    {
        if self.request.lists {
            return is_shown(&self.table, t);
        }
        false
    }

    // A composite's forward line or a typedef, with its entry if it prints anything. It differs from `define` in its writer, and in
    // when there is an entry: one function of both is no plainer, since it would branch twice.
    pub fn forward(
        &self,
        work: &mut [u8],
        text: &mut [u8],
        list: &mut [u8],
        p: Pen,
        x: TypeRef,
        e: Origin,
    ) -> Result<Pen, Refusal>
        ensures { (n : ℕ) → traced_out n result text.new work.new list.new
            ≡ obind (traced_out n (Ok p) text.old work.old list.old)
            (λ m. line_n (lent_list self.now.request.lists list.old)
            (shown_of (type_of self.now.table.head self.now.table.section.now x.t)) (entry_of e)
            (forward_once
            (work_asks self.now.table.head.types (btf_of self.now.table.head self.now.table.section.now work.old))
            (work_naming self.now.table.head) (btf_of self.now.table.head self.now.table.section.now work.old) x.id
            (type_of self.now.table.head self.now.table.section.now x.t)) m) }
    {
        let shown = self.is_listed(x.t);
        let q = note_if(list, p, e, shown)?;
        let a = emit_forward(&self.table, work, text, q.at, x)?;
        Ok(Pen { at: a, ..q })
    }
}
