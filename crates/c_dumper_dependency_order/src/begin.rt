// How a call of ordering starts: what the ceiling says to it, and what comes of an id in progress.
ghost use Rattle.std.specs.Prelude.{◌≡◌};
ghost use Rattle.c_dumper_dependency_order.specs.order_state.Work.{table_in};
ghost use Rattle.c_dumper_dependency_order.specs.begin.Start.{limit_of, opened_by, is_known, is_passable, met_by};

use crate::order_state::{Halted, Order, is_done};
use crate::order_type::Orderer;
use crate::ways::count;
use base_bytes::refusal::Refusal;
use btf_type_table::cell;
use spec_type_table::Kind;

impl Orderer<'_> {
    // One more call: counted under a ceiling, and refused where it would pass it. (A match: by map and map_err two closures would each
    // take the order.)
    pub fn count_call(&self, o: Order) -> Result<Order, Halted>
        ensures { result ≡ opened_by (limit_of self.now.ceiling) o }
    {
        match count(self.ceiling, o.made) {
            Ok(made) => Ok(Order { made, ..o }),
            Err(c) => Err(o.refused(c)),
        }
    }

    // Whether a call would find its id ordered: then it is only counted.
    pub fn is_known(&self, work: &[u8], o: Order, id: u32, left: u32) -> bool
        ensures { result ≡ is_known self.now.ceiling left o work.now id }
    {
        if left == 0 {
            return false;
        }
        let is_allowed = count(self.ceiling, o.made).is_ok();
        is_allowed && is_done(work, id, cell::ORDER_STATE)
    }

    // An id in progress: a named composite behind a pointer is passed over, anything else is a cycle.
    pub fn meet(&self, work: &[u8], o: Order, id: u32, has_ptr: bool) -> Result<Order, Halted>
        ensures { result ≡ met_by
            (is_passable (table_in self.now.table.head self.now.table.section.now work.now) id has_ptr) o }
    {
        if !has_ptr {
            return Err(o.refused(Refusal::Cycle));
        }
        let t = self.table.type_by_id(work, id);
        if !self.table.is_named(t) {
            return Err(o.refused(Refusal::Cycle));
        }
        match Kind::of(t.info) {
            Kind::Struct | Kind::Union => Ok(o.strong(false)),
            _ => Err(o.refused(Refusal::Cycle)),
        }
    }
}
