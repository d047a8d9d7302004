// What success leaves in the work: the places of records and enumerators, the tags of each type, the name classes.
ghost use Rattle.std.specs.Prelude.{◌≡◌, ◌+◌, ◌-◌, ◌/◌, ◌%◌, ◌<◌, get_or};
ghost use Rattle.btf_open_names.specs.filled_work.Left.{places_put, enumerator_word, values_put, enum_with, values_at};
ghost use Rattle.btf_open_names.specs.filled_work.Left.{tag_put};
ghost use Rattle.btf_open_names.specs.filled_work.Left.{enums_put, tags_put, filled};

use crate::classify::classes;
use base_bytes::element::peek;
use base_bytes::limit;
use base_bytes::word::put_word;
use btf_open_causes::references::{Entry, Index};
use btf_type_table::cell;
use btf_type_table::cell::{get_field, put_field};
use btf_type_table::kind::{value_place, vlen_of};
use btf_type_table::table::Table;
use spec_type_table::Kind;

// Entry x of the index, as it stands there. (Not `Index::entry`: that one has 0 past the most types that pass cause 5, and what is left
// is told of any index.)
fn entry_of(start: &[u32], x: u32) -> Entry
    ensures { result.word ≡ get_or start.now x 0 }
{
    Entry {
        word: peek(start, x as usize, 0),
    }
}

// The place of record x, for each type but void.
fn fill_places(i: &Index, work: &mut [u8])
    ensures { work.new ≡ places_put i.now.start.now work.old (i.now.table.head.types - 1) }
{
    for x in 1..i.table.head.types {
        put_field(work, x, cell::PLACE, entry_of(i.start, x).place());
    }
}

// The first word of an enumerator. (Not `HolderWord::place`: that one takes holders of 32 bits, and here no test has shown yet that all
// can be numbered.)
fn enumerator_word(types: u32, e: u64) -> usize
    requires { e < 562949953421312 }
    ensures { result ≡ enumerator_word types e }
{
    (types as usize) * cell::WORDS_OF_TYPE + (e as usize) * cell::WORDS_OF_VALUE
}

// The places of an enum's n values, which are the enumerators from `first` on.
fn fill_values(types: u32, e: Entry, n: u16, first: u64, work: &mut [u8])
    requires { first < 281474976710656 }
    ensures { work.new ≡ values_put types (e.word % 32) (e.word / 32) first work.old n }
{
    let (wide, at) = (e.kind() == Kind::Enum64, e.place());
    for k in 0..n {
        put_word(
            work,
            enumerator_word(types, first + (k as u64)),
            value_place(wide, at, k as u32) as u32,
        );
    }
}

// How many values the type with an entry of the index has. (By the kind of the entry: `enumerators_of` of `records` goes by the record's.)
fn values_at(b: &Table, e: Entry) -> u16
    ensures { result ≡ values_at b.now.head b.now.section.now e.word }
{
    match e.kind() {
        Kind::Enum | Kind::Enum64 => vlen_of(b.word((e.place() as usize) + 4)) as u16,
        _ => 0,
    }
}

// The type x, if it is an enum: its first enumerator, and its n values.
fn fill_enum(types: u32, e: Entry, n: u16, x: u32, first: u64, work: &mut [u8])
    requires { first < 281474976710656 }
    ensures { work.new ≡ enum_with types e.word n x first work.old }
{
    match e.kind() {
        Kind::Enum | Kind::Enum64 => {
            put_field(
                work,
                x,
                cell::FIRST_ENUMERATOR,
                (first % limit::TWO_TO_32) as u32,
            );
            fill_values(types, e, n, first, work);
        }
        _ => {}
    }
}

// All enums.
fn fill_enums(i: &Index, work: &mut [u8])
    ensures { work.new
        ≡ enums_put i.now.table.head i.now.table.section.now i.now.start.now work.old (i.now.table.head.types - 1) }
{
    let types = i.table.head.types;
    let mut first: u64 = 0;
    for x in 1..types {
        let e = entry_of(i.start, x);
        let n = values_at(&i.table, e);
        fill_enum(types, e, n, x, first, work);
        first += n as u64;
    }
}

// The tag x, if it is one and on a type of the table, goes in front of the tags of that type. (No `Links`: tags are types, which have
// other words than holders.)
fn fill_tag(b: &Table, e: Entry, x: u32, work: &mut [u8])
    ensures { work.new ≡ tag_put b.now.head b.now.section.now e.word x work.old }
{
    if e.kind() != Kind::DeclTag {
        return;
    }
    let on = b.word((e.place() as usize) + 8);
    if b.head.types <= on {
        return;
    }
    let next = get_field(work, on, cell::FIRST_TAG);
    put_field(work, x, cell::NEXT_TAG, next);
    put_field(work, on, cell::FIRST_TAG, x);
}

// From the last to the first, so that the tags of a type stand in rising order.
fn fill_tags(i: &Index, work: &mut [u8])
    ensures { work.new
        ≡ tags_put i.now.table.head i.now.table.section.now i.now.start.now (i.now.table.head.types - 1) work.old }
{
    for x in (1..i.table.head.types).rev() {
        fill_tag(&i.table, entry_of(i.start, x), x, work);
    }
}

// The work is zero before.
pub fn fill(i: &Index, enumerators: u32, work: &mut [u8])
    ensures { work.new ≡ filled i.now.table.head i.now.table.section.now i.now.start.now enumerators work.old }
{
    fill_places(i, work);
    fill_enums(i, work);
    fill_tags(i, work);
    classes(&i.table, enumerators, work);
}
