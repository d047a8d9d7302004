// A type is ordered: its state, its place in the order list and its leader.
ghost use Rattle.std.specs.Prelude.{◌≡◌, ℕ, List, true, false, Ok};
ghost use Rattle.spec_c_dumper.specs.rules.Order.{finish as finish_of};
ghost use Rattle.spec_c_dumper.specs.ceiling.Ceiling.{told};
ghost use Rattle.c_dumper_dependency_order.specs.leaders.Leaders.{leader_words, kept_of, kept_store, kept_out, alias_kept};

use crate::leaders::{Leader, Way, note};
use crate::order_state::{Mark, Order, is_done, set_listed, set_mark};
use crate::ways::Step;
use btf_type_table::cell;

// Puts an id at the end of the order list, and notes its leader.
fn push(work: &mut [u8], leaders: &mut [Leader], o: Order, id: u32, v: Way) -> Order
    ensures { kept_out (Ok result) work.new (leader_words leaders.new)
        ≡ told ((kept_store v).push id (kept_of o work.old (leader_words leaders.old))) o.is_strong o.made }
{
    note(leaders, v, id);
    set_listed(work, o.len, id);
    Order {
        len: o.len.saturating_add(1),
        ..o
    }
}

// The id is ordered; the list stays as it is.
pub fn mark_ordered(work: &mut [u8], o: Order, id: u32, is_strong: bool) -> Order
    ensures { (v : Way) (l : List ℕ) → kept_out (Ok result) work.new l
        ≡ told (finish_of (kept_store v) false id (kept_of o work.old l)) is_strong o.made }
{
    set_mark(work, id, cell::ORDER_STATE, Mark::Done);
    o.strong(is_strong)
}

// The id is ordered, by a strong way, and listed with its leader if `lists` says so. (The flag is the rule's: whether a type is named, or
// a typedef not listed yet.)
pub fn finish(
    work: &mut [u8],
    leaders: &mut [Leader],
    o: Order,
    id: u32,
    lists: bool,
    v: Way,
) -> Order
    ensures { kept_out (Ok result) work.new (leader_words leaders.new)
        ≡ told (finish_of (kept_store v) lists id (kept_of o work.old (leader_words leaders.old))) true o.made }
{
    if lists {
        let p = push(work, leaders, o, id, v);
        return mark_ordered(work, p, id, true);
    }
    mark_ordered(work, o, id, true)
}

// The typedef id, after its target. It may have been listed on the way to its target: then it is not listed again, since
// a second listing prints nothing.
pub fn finish_typedef(
    work: &mut [u8],
    leaders: &mut [Leader],
    o: Order,
    id: u32,
    step: Step,
) -> Order
    ensures { kept_out (Ok result) work.new (leader_words leaders.new)
        ≡ alias_kept step.way (kept_of o work.old (leader_words leaders.old)) id step.has_ptr o.is_strong o.made }
{
    if step.has_ptr && !o.is_strong {
        return o.strong(false);
    }
    let was_ordered = is_done(work, id, cell::ORDER_STATE);
    finish(work, leaders, o, id, !was_ordered, step.way)
}
