// One request: ordering, then the lines of the listed ids, from the list's first to its last.
ghost use Rattle.std.specs.Prelude.{◌≡◌, Ok};
ghost use Rattle.spec_c_dumper.specs.ceiling.Ceiling.{calls_made};
ghost use Rattle.spec_c_dumper.specs.rules.Machine.{obind};
ghost use Rattle.spec_type_table.specs.Cells.{get_field};
ghost use Rattle.spec_type_table.specs.Table.{btf_of};
ghost use Rattle.c_dumper_dependency_order.specs.order_state.Work.{mark_of, table_in};
ghost use Rattle.c_dumper_dependency_order.specs.begin.Start.{limit_of};
ghost use Rattle.c_dumper_dependency_order.specs.leaders.Leaders.{leader_words};
ghost use Rattle.spec_session.specs.metered.Metered.{ordered_in};
ghost use Rattle.spec_session.specs.emission.Slices.{is_idle};
ghost use Rattle.c_dumper_emit.specs.entries.Traced.{lent_list, traced_out};
ghost use Rattle.c_dumper_emit.specs.dump_type.Kept.{with_leaders, dumped_kept};

use crate::emission::Emission;
use crate::entries::Pen;
use crate::order_list::clear_list;
use base_bytes::limit;
use base_bytes::refusal::Refusal;
use btf_type_table::cell;
use btf_type_table::table::Table;
use c_dumper_dependency_order::leaders::{Leader, Way};
use c_dumper_dependency_order::order_state::{Mark, Order, get_mark};
use c_dumper_dependency_order::order_type::Orderer;
use c_dumper_dependency_order::ways::Step;
use spec_type_table::Kind;

// A request for an id that is ordered, or is a function, a variable, a section or a tag, does nothing.
pub fn is_idle(b: &Table, work: &[u8], id: u32) -> bool
    ensures { result ≡ is_idle (mark_of (get_field work.now id 1))
        ((table_in b.now.head b.now.section.now work.now).node id) }
{
    match get_mark(work, id, cell::ORDER_STATE) {
        Mark::Done => true,
        Mark::Open => false,
        Mark::New => {
            let t = b.type_by_id(work, id);
            matches!(
                Kind::of(t.info),
                Kind::Func | Kind::Var | Kind::Datasec | Kind::DeclTag
            )
        }
    }
}

// The requested id, which request of the call it is, and whether the call is lent a list of entries. Without one the list and the
// leaders are empty slices: an Option of them is no plainer: lent `&mut`, it would be lent anew in each function of the walk.
#[derive(Clone, Copy)]
pub struct Request {
    pub req: u32,
    pub turn: u32,
    pub lists: bool,
}

// Where a request came to: the place after its text and the count of entries after it, or the refusal that stopped it; and the calls of
// ordering made by then. (No Result around both: the calls made count after a refusal too.)
#[derive(Clone, Copy)]
pub struct Dumped {
    pub pen: Result<Pen, Refusal>,
    pub made: u64,
}

// One request, after so many calls of ordering. `leaders` serves the requests of a call with a list one after another: what other
// turns noted there is not read. Without a list it may be empty.
pub fn dump_type(
    o: &Orderer,
    work: &mut [u8],
    text: &mut [u8],
    list: &mut [u8],
    leaders: &mut [Leader],
    p: Pen,
    q: Request,
    made: u64,
) -> Dumped
    ensures { (with_leaders (leader_words leaders.new) (traced_out 0 result.pen text.new work.new list.new)
        ≡ obind (with_leaders (leader_words leaders.old) (traced_out 0 (Ok p) text.old work.old list.old))
        (λ m. dumped_kept o.now.table.head (btf_of o.now.table.head o.now.table.section.now work.old)
        (lent_list q.lists list.old) (limit_of o.now.ceiling) m q.req q.turn made))
        × (result.made ≡ calls_made (ordered_in (btf_of o.now.table.head o.now.table.section.now work.old)
        (limit_of o.now.ceiling) (record { work = work.old; len = 0 }) q.req made)) }
{
    let start = Order {
        made: made,
        len: 0,
        is_strong: false,
    };
    let way = Way {
        inner: q.req,
        lead: q.req,
        turn: q.turn,
    };
    let step = Step {
        has_ptr: false,
        left: limit::MOST_CALLS,
        way,
    };
    let r = match o.order_type(work, leaders, start, q.req, step) {
        Ok(r) => r,
        Err(h) => {
            return Dumped {
                pen: Err(h.refusal),
                made: h.made,
            };
        }
    };
    let emission = Emission {
        table: o.table,
        request: q,
        leaders: leaders,
    };
    let pen = emission.emit_ordered(work, text, list, p, r.len);
    clear_list(work, r.len);
    Dumped { pen, made: r.made }
}
