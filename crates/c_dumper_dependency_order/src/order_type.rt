// The order of definitions: the rules of order_type, for plain requests, under a ceiling and with a leader for each listed id.
ghost use Rattle.std.specs.Prelude.{◌≡◌};
ghost use Rattle.spec_c_dumper.specs.ceiling.Ceiling.{each_within};
ghost use Rattle.spec_c_dumper.specs.rules.Types.{is_named};
ghost use Rattle.spec_type_table.specs.Records.{entries_of};
ghost use Rattle.spec_type_table.specs.Table.{type_of};
ghost use Rattle.spec_type_table.specs.Nodes.{member_ids};
ghost use Rattle.c_dumper_dependency_order.specs.entries.Entries.{entry_ids};
ghost use Rattle.c_dumper_dependency_order.specs.order_state.Work.{table_in};
ghost use Rattle.c_dumper_dependency_order.specs.begin.Start.{limit_of};
ghost use Rattle.c_dumper_dependency_order.specs.leaders.Leaders.{order_kept, kept_of, kept_out, way_kept, fresh_kept, enter_kept};
ghost use Rattle.c_dumper_dependency_order.specs.leaders.Leaders.{leader_words};

use crate::entries::Held;
use crate::finish::{finish, finish_typedef, mark_ordered};
use crate::leaders::Leader;
use crate::order_state::{Halted, Mark, Order, get_mark, set_mark};
use crate::ways::{Step, is_passed, is_weak_past};
use base_bytes::refusal::Refusal;
use btf_type_table::cell;
use btf_type_table::kind::entries_of;
use btf_type_table::node::TypeRef;
use btf_type_table::table::Table;
use spec_type_table::Node;

// What stays the same while a request is ordered: the table, and the ceiling on the calls.
#[derive(Clone, Copy)]
pub struct Orderer<'a> {
    pub table: Table<'a>,
    pub ceiling: Option<u64>,
}

impl Orderer<'_> {
    // A request without a list of line origins lends no leaders.
    #[cycle(order_type)]
    pub fn order_type(
        &self,
        work: &mut [u8],
        leaders: &mut [Leader],
        o: Order,
        id: u32,
        step: Step,
    ) -> Result<Order, Halted>
        ensures { kept_out result work.new (leader_words leaders.new) ≡ order_kept (limit_of self.now.ceiling) step.way step.left
            (table_in self.now.table.head self.now.table.section.now work.old)
            (kept_of o work.old (leader_words leaders.old)) id step.has_ptr o.made }
    {
        if step.left == 0 {
            return Err(o.refused(Refusal::TooDeep));
        }
        let p = self.count_call(o)?;
        match get_mark(work, id, cell::ORDER_STATE) {
            Mark::Done => Ok(p.strong(true)),
            Mark::Open => self.meet(work, p, id, step.has_ptr),
            Mark::New => {
                let left = step.left - 1;
                self.order_new(work, leaders, p, id, Step { left, ..step })
            }
        }
    }

    // As order_type. Most of what a type leads to is known: that is counted without the call.
    #[cycle(order_type)]
    #[inline]
    fn order_next(
        &self,
        work: &mut [u8],
        leaders: &mut [Leader],
        o: Order,
        id: u32,
        step: Step,
    ) -> Result<Order, Halted>
        ensures { kept_out result work.new (leader_words leaders.new) ≡ order_kept (limit_of self.now.ceiling) step.way step.left
            (table_in self.now.table.head self.now.table.section.now work.old)
            (kept_of o work.old (leader_words leaders.old)) id step.has_ptr o.made }
    {
        if self.is_known(work, o, id, step.left) {
            return Ok(self.count_call(o)?.strong(true));
        }
        self.order_type(work, leaders, o, id, step)
    }

    // An id that is not ordered yet.
    #[cycle(order_type)]
    fn order_new(
        &self,
        work: &mut [u8],
        leaders: &mut [Leader],
        o: Order,
        id: u32,
        step: Step,
    ) -> Result<Order, Halted>
        ensures { kept_out result work.new (leader_words leaders.new) ≡ fresh_kept (limit_of self.now.ceiling) step.way
            (table_in self.now.table.head self.now.table.section.now work.old) step.left
            (kept_of o work.old (leader_words leaders.old)) id step.has_ptr o.made }
    {
        let t = self.table.type_by_id(work, id);
        match self.table.node_of(t) {
            Node::Ignored => Ok(o.strong(false)),
            Node::Plain => Ok(mark_ordered(work, o, id, false)),
            Node::Enum | Node::Fwd => {
                let named = self.table.is_named(t);
                Ok(finish(work, leaders, o, id, named, step.way))
            }
            Node::Array(t) => {
                let has_ptr = is_weak_past(self.table.head, step.has_ptr);
                self.order_next(work, leaders, o, t, Step { has_ptr, ..step })
            }
            Node::Through(t) => self.order_next(work, leaders, o, t, step),
            Node::Ptr(t) => {
                let r = self.order_next(work, leaders, o, t, step.weak())?;
                Ok(mark_ordered(work, r, id, r.is_strong))
            }
            Node::Typedef(t) => {
                let r = self.order_type(work, leaders, o, t, step.inside(id))?;
                Ok(finish_typedef(work, leaders, r, id, step))
            }
            Node::Proto(res, params) => {
                let r = self.order_type(work, leaders, o, res, step)?;
                self.order_entries(work, leaders, r, Held::Params(params), step)
            }
            Node::Composite(_) => {
                let x = TypeRef { id, t };
                self.order_composite(work, leaders, o, x, step)
            }
        }
    }

    // A composite: passed over if it is named and behind a pointer, else its members, each a strong way, and then itself.
    #[cycle(order_type)]
    fn order_composite(
        &self,
        work: &mut [u8],
        leaders: &mut [Leader],
        o: Order,
        x: TypeRef,
        step: Step,
    ) -> Result<Order, Halted>
        ensures { kept_out result work.new (leader_words leaders.new) ≡ enter_kept (limit_of self.now.ceiling) step.way
            (table_in self.now.table.head self.now.table.section.now work.old) step.left
            (kept_of o work.old (leader_words leaders.old)) x.id step.has_ptr
            (is_named (type_of self.now.table.head self.now.table.section.now x.t))
            (member_ids self.now.table.head self.now.table.section.now (entries_of x.t)) o.made }
    {
        let named = self.table.is_named(x.t);
        if is_passed(named, step.has_ptr) {
            return Ok(o.strong(false));
        }
        set_mark(work, x.id, cell::ORDER_STATE, Mark::Open);
        let members = Held::Members(entries_of(x.t));
        let r = self.order_entries(work, leaders, o, members, step.to_members(x.id))?;
        Ok(finish(work, leaders, r, x.id, named, step.way))
    }

    // The types of entries in order; the way is strong if one of them was, or what came before. (A `for`: try_fold was tried, and the
    // proof did not close: no clause of try_fold speaks of the work and the leaders as its closure leaves them.)
    #[cycle(order_type)]
    fn order_entries(
        &self,
        work: &mut [u8],
        leaders: &mut [Leader],
        o: Order,
        entries: Held,
        step: Step,
    ) -> Result<Order, Halted>
        ensures { kept_out result work.new (leader_words leaders.new) ≡ each_within
            (way_kept (limit_of self.now.ceiling) step.way
            (table_in self.now.table.head self.now.table.section.now work.old) step.left step.has_ptr)
            (entry_ids self.now.table.head self.now.table.section.now entries)
            (kept_of o work.old (leader_words leaders.old)) o.is_strong o.made }
    {
        let mut r = o;
        for k in 0..entries.count() {
            let t = entries.entry_type(&self.table, k);
            let p = self.order_next(work, leaders, r, t, step)?;
            // `||` is no plainer here: the proof would go two ways to one equation.
            r = p.strong(r.is_strong | p.is_strong);
        }
        Ok(r)
    }
}
