// Cause 7: a member or an array element that is a prototype, through typedefs, qualifiers, type tags and arrays. Each type
// is walked once; a cell for each type remembers the answer.
ghost use Rattle.std.specs.Prelude.{◌≡◌, ◌/◌, ◌%◌};
ghost use Rattle.btf_open_causes.specs.prototypes.Prototypes.{what_of, next_of, track_of, asks_at, any_leads};
ghost use Rattle.btf_open_causes.specs.prototypes.Cells.{Says, Fairs, Rest, Looked, Settle, Answer, Part};

use crate::references::{Entry, Index};
use base_bytes::limit;
use spec_type_table::Kind;

// Whether a type leads to a prototype.
#[derive(Clone, Copy)]
enum Cell {
    Unknown,
    No,
    Yes,
    // The walk was here.
    Passed,
}

// What the kind of a type says: a prototype is one, and what passes on to its target is not known by itself.
fn cell_of(i: &Index, x: u32) -> Cell
    ensures { Says (what_of i.now.table.head i.now.start.now x) result }
{
    match i.kind_at(x) {
        Kind::Array
        | Kind::Typedef
        | Kind::Volatile
        | Kind::Const
        | Kind::Restrict
        | Kind::TypeTag => Cell::Unknown,
        Kind::FuncProto => Cell::Yes,
        _ => Cell::No,
    }
}

fn next(i: &Index, x: u32) -> u32
    ensures { result ≡ next_of i.now.table.head i.now.table.section.now i.now.start.now x }
{
    i.followed(x, 0)
}

// How many of the ids that the record with an entry follows are members or elements.
fn asks(i: &Index, e: Entry) -> u32
    ensures { result ≡ asks_at i.now.table.head i.now.table.section.now (e.word % 32) (e.word / 32) }
{
    match e.kind() {
        kind @ (Kind::Array | Kind::Struct | Kind::Union) => i.count_at(kind, e.place()),
        _ => 0,
    }
}

// What is known of z; where it is Unknown, the walk goes on.
fn look(i: &Index, cell: &[Cell], z: u32) -> Cell
    requires { Fairs (track_of i.now.table.head i.now.table.section.now i.now.start.now) cell.now }
    ensures { Looked (track_of i.now.table.head i.now.table.section.now i.now.start.now) cell.now z result }
{
    match cell.get(z as usize) {
        Some(Cell::Unknown) => cell_of(i, z),
        Some(known) => *known,
        None => Cell::No,
    }
}

// Gives the m types of the walk from y the answer. (No type with the invariant `Rest`: within a walk, as at the start here, it does not
// hold.)
fn settle(i: &Index, cell: &mut [Cell], y: u32, m: u32, answer: Cell)
    requires { Settle (track_of i.now.table.head i.now.table.section.now i.now.start.now) y m answer cell.old y 0 }
    ensures { Rest (track_of i.now.table.head i.now.table.section.now i.now.start.now) cell.new }
{
    let mut z = y;
    for _ in 0..m {
        cell[z as usize] = answer;
        z = next(i, z);
    }
}

// Does y, of which that is not known, lead to a prototype?
fn walk(i: &Index, cell: &mut [Cell], y: u32) -> bool
    requires { Rest (track_of i.now.table.head i.now.table.section.now i.now.start.now) cell.old }
    ensures { Answer (track_of i.now.table.head i.now.table.section.now i.now.start.now) y cell.new result }
{
    let mut z = y;
    let mut m: u32 = 0;
    let mut seen = look(i, cell, z);
    // A `while`: each turn goes where the last one read that the type leads, and marks it. (`successors` is no plainer: it would hold the
    // cells lent to `look`, which each turn writes, and it is endless: with `take` it would count besides, only to end.)
    while let Cell::Unknown = seen {
        cell[z as usize] = Cell::Passed;
        z = next(i, z);
        m += 1;
        seen = look(i, cell, z);
    }
    if let Cell::Yes = seen {
        settle(i, cell, y, m, Cell::Yes);
        return true;
    }
    settle(i, cell, y, m, Cell::No);
    false
}

// Does y lead to a prototype? For most types that is known at once.
fn ask(i: &Index, cell: &mut [Cell], y: u32) -> bool
    requires { Rest (track_of i.now.table.head i.now.table.section.now i.now.start.now) cell.old }
    ensures { Answer (track_of i.now.table.head i.now.table.section.now i.now.start.now) y cell.new result }
{
    match look(i, cell, y) {
        Cell::Unknown => walk(i, cell, y),
        Cell::Yes => true,
        Cell::No | Cell::Passed => false,
    }
}

// (A `for` here and in `all`: at `any`, tried, the check asks that the calls may be made in whatever those before have left, and
// the library's lemmas are of closures that change no capture.)
fn asks_of(i: &Index, cell: &mut [Cell], x: u32) -> bool
    requires { Rest (track_of i.now.table.head i.now.table.section.now i.now.start.now) cell.old }
    ensures { Part i.now.table.head i.now.table.section.now i.now.start.now x cell.new result }
{
    let e = i.entry(x);
    for k in 0..asks(i, e) {
        if ask(i, cell, i.id_at(e.kind(), e.place(), k)) {
            return true;
        }
    }
    false
}

fn all(i: &Index, cell: &mut [Cell]) -> bool
    requires { Rest (track_of i.now.table.head i.now.table.section.now i.now.start.now) cell.old }
    ensures { result ≡ any_leads i.now.table.head i.now.table.section.now i.now.start.now }
{
    for x in 0..i.count() {
        if asks_of(i, cell, x) {
            return true;
        }
    }
    false
}

pub fn leads_to_proto(i: &Index) -> bool
    ensures { result ≡ any_leads i.now.table.head i.now.table.section.now i.now.start.now }
{
    let mut cell = [Cell::Unknown; limit::TYPES_LEN];
    all(i, &mut cell)
}
