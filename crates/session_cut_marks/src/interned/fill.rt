// The table filled, type by type and word by word.
ghost use Rattle.std.specs.Prelude.{◌≡◌, ◌≤◌, ◌+◌, length, set};
ghost use Rattle.spec_type_table.specs.Names.{str_at};
ghost use Rattle.session_cut_marks.specs.mentioned.Names.{new_size};
ghost use Rattle.session_cut_marks.specs.roles.Words.{words_in};
ghost use Rattle.session_cut_marks.specs.interned.Slots.{slot_of, slot_words};
ghost use Rattle.session_cut_marks.specs.interned.Filled.{filled_of, settled, entered, entered_to, entered_type, filling_of, filling};
ghost use Rattle.session_cut_marks.specs.kept.AtKept.{at_kept};
ghost use Rattle.session_cut_marks.specs.interned.Filler.{filled_by};

use crate::interned::slots::{Slot, slot_of};
use crate::kept::Kept;
use crate::mentioned::Word;
use crate::roles::{Role, word_of, word_role, words_in};
use base_bytes::element::store;
use base_bytes::limit;
use btf_open_causes::references::Entry;

// What is kept of a section that has 16,777,216 bytes at most.
#[derive(Clone, Copy)]
struct Short<'a> {
    kept: Kept<'a>,
    ghost short: { length kept.index.table.section.now ≤ 16777216 },
}

impl Short<'_> {
    // The bytes that a name takes in the strings.
    fn size(&self, off: u32) -> u32
        ensures { result ≡ length (str_at self.now.kept.index.table.head self.now.kept.index.table.section.now off) + 1 }
    {
        (self.kept.index.table.get_btf_str(off).len() as u32) + 1
    }

    // The bytes of a new name, by the plain way.
    fn new_size(&self, w: Word) -> u32
        ensures { result ≡ at_kept new_size self.now.kept w.x w.e.word w.j }
    {
        if !self.kept.is_new(w) {
            return 0;
        }
        self.size(word_of(&self.kept.index.table, w.e, w.j))
    }
}

// The table that is being filled, and the length of the strings so far. (Each function that takes it ensures `same`: a struct that holds a
// `&mut` owes that it is still the same slice.)
#[derive(Drop)]
struct Filler<'a> {
    table: &'a mut [Slot],
    len: u32,
}

impl Filler<'_> {
    // The slot of a name.
    fn slot(&self, from: &Short, off: u32) -> u32
        ensures { result
            ≡ slot_of from.now.kept.index.table.head from.now.kept.index.table.section.now (slot_words self.now.table.now) off }
    {
        slot_of(&from.kept.index.table, self.table, off)
    }

    // The name that a word mentions: entered where its slot is free. (By index: tried with get_mut, and with peek and store. After a call
    // that takes a field which is a reference no fact says what the field holds, and the proof did not close.)
    fn settle(&mut self, from: &Short, w: Word, off: u32)
        requires { self.old.len ≤ 16777216 }
        ensures filled { filled_by self.new
            ≡ at_kept settled from.now.kept w.x w.e.word w.j off
            (slot_of from.now.kept.index.table.head from.now.kept.index.table.section.now (slot_words self.old.table.now) off) self.old.len
            (slot_words self.old.table.now) }
        ensures same { self.new.table.ghost_name ≡ self.old.table.ghost_name }
    {
        let at = self.slot(from, off) as usize;
        if self.table.len() <= at {
            self.len += from.new_size(w);
            return;
        }
        if !self.table[at].is_free() {
            return;
        }
        self.table[at] = Slot {
            off,
            place: self.len,
        };
        self.len += from.size(off);
    }

    fn enter(&mut self, from: &Short, w: Word)
        ensures filled { filled_by self.new
            ≡ at_kept entered from.now.kept w.x w.e.word w.j self.old.len (slot_words self.old.table.now) }
        ensures same { self.new.table.ghost_name ≡ self.old.table.ghost_name }
    {
        if limit::MOST_BYTES_32 < self.len {
            return;
        }
        let Role::Name = word_role(w.e, w.j) else {
            return;
        };
        let off = word_of(&from.kept.index.table, w.e, w.j);
        if from.kept.index.table.is_empty(off) {
            return;
        }
        self.settle(from, w, off);
    }

    // The words of the record of type x, whose entry is e.
    fn enter_words(&mut self, from: &Short, x: u32, e: Entry)
        ensures filled { filled_by self.new
            ≡ at_kept entered_to from.now.kept x e.word self.old.len (slot_words self.old.table.now)
            (words_in from.now.kept.index.table.head from.now.kept.index.table.section.now e.word) }
        ensures same { self.new.table.ghost_name ≡ self.old.table.ghost_name }
    {
        for j in 0..words_in(&from.kept.index.table, e) {
            self.enter(from, Word { x, e, j });
        }
    }

    // Type x, if it is kept.
    fn enter_type(&mut self, from: &Short, x: u32)
        ensures filled { filled_by self.new
            ≡ at_kept entered_type from.now.kept x self.old.len (slot_words self.old.table.now) }
        ensures same { self.new.table.ghost_name ≡ self.old.table.ghost_name }
    {
        if from.kept.new_id(x).is_none() {
            return;
        }
        self.enter_words(from, x, from.kept.entry(x));
    }
}

impl Kept<'_> {
    // The table of all types, and in `lengths` the length of the strings before each. Returns the length of the strings; above 16,777,216
    // it says no more than that. (0 for a section that is too long: of any other the strings have the leading 0.)
    pub fn fill_table(&self, table: &mut [Slot], lengths: &mut [u32]) -> u32
        ensures { filling_of (filled_of result (slot_words table.new)) lengths.new
            ≡ at_kept filling self.now (slot_words table.old) lengths.old }
    {
        if limit::MOST_BYTES < self.index.table.section.len() {
            return 0;
        }
        let from = Short { kept: *self };
        let mut filler = Filler { table, len: 1 };
        for x in 0..self.index.count() {
            store(lengths, x as usize, filler.len);
            filler.enter_type(&from, x);
        }
        filler.len
    }
}
