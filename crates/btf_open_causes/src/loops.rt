// Cause 8: a loop of pointers, arrays, qualifiers, type tags, typedefs and prototypes only. A walk down the graph: st[x] is
// NEW, or k + 1 for one on the walk whose first k successors are passed, or DONE; the stack is the walk. Each turn raises one
// word of st. A type with no successors is passed and never stands on the walk.
ghost use Rattle.std.specs.Prelude.{◌≡◌, ◌<◌, ◌≤◌, ◌/◌, ◌%◌};
ghost use Rattle.btf_open_causes.specs.references.Followed.{id_at};
ghost use Rattle.btf_open_causes.specs.loops.Graph.{has_loop};
ghost use Rattle.btf_open_causes.specs.loops.Loops.{deg_at, graph_of};
ghost use Rattle.btf_open_causes.specs.loops.Walk.{Known, Opened, Passes, Inv, Turned, Walked};

use crate::references::{Entry, Index};
use base_bytes::limit;
use spec_type_table::Kind;

// (Words and no enum: a cell of an enum that holds a number takes eight bytes a type, not four.)
const NEW: u32 = 0;

// No type has so many successors.
const DONE: u32 = 131072;

// How many successors the record with an entry has.
fn degree(i: &Index, e: Entry) -> u32
    ensures { result ≡ deg_at i.now.table.head i.now.table.section.now (e.word % 32) (e.word / 32) }
{
    match e.kind() {
        Kind::Struct | Kind::Union => 0,
        kind => i.count_at(kind, e.place()),
    }
}

// Whether it is not known that no loop follows y: y is in the table, is not done, and has successors if it is new.
fn is_open(i: &Index, st: &[u32], y: u32) -> bool
    requires { Known (graph_of i.now.table.head i.now.table.section.now i.now.start.now) st.now }
    ensures { Opened (graph_of i.now.table.head i.now.table.section.now i.now.start.now) st.now y result }
{
    let Some(&w) = st.get(y as usize) else {
        return false;
    };
    match w {
        NEW => degree(i, i.entry(y)) != 0,
        DONE.. => false,
        _ => true,
    }
}

// The first k, from the given one on and below n, whose successor k is open.
fn pass(i: &Index, st: &[u32], e: Entry, n: u32, from: u32) -> Option<u32>
    requires { Known (graph_of i.now.table.head i.now.table.section.now i.now.start.now) st.now }
    ensures { Passes (graph_of i.now.table.head i.now.table.section.now i.now.start.now) st.now
        (id_at i.now.table.head i.now.table.section.now (e.word % 32) (e.word / 32)) n from result }
{
    (from..n).find(|k| is_open(i, st, i.id_at(e.kind(), e.place(), *k)))
}

// One step of the walk: one type more on it, or one less. None: there is a loop. (The stack is a slice and its height d: there is no
// heap for a Vec. No type with the invariant `Inv`: where a loop is found it does not hold, so contracts would say it all the same.)
fn turn(i: &Index, st: &mut [u32], stack: &mut [u32], d: usize) -> Option<usize>
    requires { Inv (graph_of i.now.table.head i.now.table.section.now i.now.start.now) st.old stack.old d × (0 < d) }
    ensures { Turned (graph_of i.now.table.head i.now.table.section.now i.now.start.now) st.old d st.new
        stack.new result }
{
    let x = stack[d - 1];
    let at = x as usize;
    let e = i.entry(x);
    let n = degree(i, e);
    let passed = st[at] - 1;
    let Some(k) = pass(i, st, e, n, passed) else {
        st[at] = DONE;
        return Some(d - 1);
    };
    st[at] = k + 1;
    let y = i.id_at(e.kind(), e.place(), k);
    let next = y as usize;
    if st[next] != NEW {
        return None;
    }
    st[next] = 1;
    stack[d] = y;
    Some(d + 1)
}

// Whether a walk from x meets a loop.
fn walk(i: &Index, st: &mut [u32], stack: &mut [u32], x: u32) -> bool
    requires { Inv (graph_of i.now.table.head i.now.table.section.now i.now.start.now) st.old stack.old 0 × (x < 262145) }
    ensures { Walked (graph_of i.now.table.head i.now.table.section.now i.now.start.now) x st.new stack.new result }
{
    let at = x as usize;
    if st[at] != NEW {
        return false;
    }
    if degree(i, i.entry(x)) == 0 {
        st[at] = DONE;
        return false;
    }
    st[at] = 1;
    stack[0] = x;
    let mut d: usize = 1;
    // A `while`: the chain of open types grows and falls, so no range says the turns. (`successors` over `turn` is no plainer: it is
    // endless, and with `take` it would count besides, only to end.)
    while d > 0 {
        let Some(next) = turn(i, st, stack, d) else {
            return true;
        };
        d = next;
    }
    false
}

// (A `for`: at `any`, tried, the check asks that `walk` may be called in whatever its calls before have left, and the library's
// lemmas are of closures that change no capture.)
fn scan(i: &Index, st: &mut [u32], stack: &mut [u32]) -> bool
    requires { Inv (graph_of i.now.table.head i.now.table.section.now i.now.start.now) st.old stack.old 0 }
    ensures { result ≡ has_loop (graph_of i.now.table.head i.now.table.section.now i.now.start.now) }
{
    for x in 0..i.count() {
        if walk(i, st, stack, x) {
            return true;
        }
    }
    false
}

pub fn has_loop(i: &Index) -> bool
    ensures { result ≡ has_loop (graph_of i.now.table.head i.now.table.section.now i.now.start.now) }
{
    let mut st = [0u32; limit::TYPES_LEN];
    let mut stack = [0u32; limit::TYPES_LEN];
    scan(i, &mut st, &mut stack)
}
