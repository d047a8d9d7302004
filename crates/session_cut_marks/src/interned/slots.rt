// Where a name stands in the table, and what the table has for it.
ghost use Rattle.std.specs.Prelude.{◌≡◌, eqb, option_map};
ghost use Rattle.spec_type_table.specs.Names.{str_at};
ghost use Rattle.btf_open_names.specs.name_classes.Table.{hash_from};
ghost use Rattle.session_cut_marks.specs.interned.Slots.{slot_word, slot_words, stops, slot_of, found};
ghost use Rattle.session_cut_marks.specs.tags.Tags.{some_number};

use crate::interned::SLOTS;
use crate::mentioned::same_name;
use base_bytes::element::peek;
use btf_open_names::keys::hash_name;
use btf_type_table::table::Table;

// A name: the offset where it is first mentioned, and its place in the strings. (Eight bytes, and no Option of them: with its tag the
// slots would take 3 MB of the stack, not 2.)
#[derive(Clone, Copy)]
pub struct Slot {
    pub off: u32,
    pub place: u32,
}

impl Slot {
    // No name has the place 0: the strings begin with a 0.
    pub const FREE: Slot = Slot { off: 0, place: 0 };

    pub(crate) fn is_free(self) -> bool
        ensures { result ≡ eqb (slot_word self) 0 }
    {
        self.place == 0 && self.off == 0
    }
}

// Whether slot i is free or has the name.
fn stops(b: &Table, table: &[Slot], off: u32, i: u32) -> bool
    ensures { result ≡ stops b.now.head b.now.section.now (slot_words table.now) (str_at b.now.head b.now.section.now off) i }
{
    let slot = peek(table, i as usize, Slot::FREE);
    if slot.is_free() {
        return true;
    }
    same_name(b, slot.off, off)
}

// The hash of a name.
fn hash_at(b: &Table, off: u32) -> u32
    ensures { result ≡ hash_from 0 (str_at b.now.head b.now.section.now off) }
{
    hash_name(b.from_name(off), 0)
}

// The slot of a name. SLOTS where it has none: a place past the end, where the table says by itself that it has nothing. (No Option: the
// definition of `found` reads the table there too, which a longer slice would answer.)
pub(crate) fn slot_of(b: &Table, table: &[Slot], off: u32) -> u32
    ensures { result ≡ slot_of b.now.head b.now.section.now (slot_words table.now) off }
{
    let start = hash_at(b, off) % SLOTS;
    (start..start + SLOTS)
        .map(|i| i % SLOTS)
        .find(|i| stops(b, table, off, *i))
        .unwrap_or(SLOTS)
}

// What the table has for a name, where it has the name.
pub fn find(b: &Table, table: &[Slot], off: u32) -> Option<Slot>
    ensures { option_map slot_word result ≡ some_number (found b.now.head b.now.section.now (slot_words table.now) off) }
{
    let slot = peek(table, slot_of(b, table, off) as usize, Slot::FREE);
    if slot.is_free() {
        return None;
    }
    Some(slot)
}
