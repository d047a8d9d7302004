// What the new section is written from.
ghost use Rattle.std.specs.Prelude.{◌≡◌, ◌+◌, ◌<◌, ℕ, Some};
ghost use Rattle.session_cut_marks.specs.roles.Words.{words_in, word_of};
ghost use Rattle.session_cut_marks.specs.mentioned.Names.{is_new, new_sizes, base_of, place_of};
ghost use Rattle.session_cut_marks.specs.interned.Right.{all_bases, IsRight, IsKept};
ghost use Rattle.session_cut_marks.proofs.interned.Props.{IsRight-prop, IsKept-prop};
ghost use Rattle.session_cut_marks.specs.interned.Slots.{slot_words};
ghost use Rattle.session_cut_marks.specs.kept.AtKept.{at_kept};
ghost use Rattle.session_cut.specs.writer.Bytes.{is_told_new, told_place};

use btf_open_causes::references::Entry;
use session_cut_marks::interned::Slot;
use session_cut_marks::kept::Kept;

// The kept types, the length of the strings before each type, and the table of names: nearly all of them are in it. (The lengths by type as
// the ids are, and no array of both: they are of the writer alone, and made when all ids are known.)
#[derive(Clone, Copy)]
pub struct Source<'a> {
    pub kept: Kept<'a>,
    pub bases: &'a [u32],
    pub table: &'a [Slot],
    ghost right: { IsRight kept (slot_words table.now) } by { IsRight-prop kept (slot_words table.now) },
    ghost based: { bases.now ≡ at_kept all_bases kept },
}

// The parts of the new section that tell something of each kept type: the records, and the new names. (No closure: the definitions of what
// is written are by Part too.)
#[derive(Clone, Copy)]
pub enum Part {
    Records,
    Names,
}

// Type x, which is kept: its entry, and the length of the strings before it.
#[derive(Clone, Copy)]
pub struct KeptType<'a> {
    pub source: &'a Source<'a>,
    pub x: u32,
    pub e: Entry,
    pub base: u32,
    ghost kept: { IsKept source.now.kept x e.word } by { IsKept-prop source.now.kept x e.word },
    ghost based: { base ≡ at_kept base_of source.now.kept x },
}

// What is told of the name of a word: that it is new, mentioned for the first time; or the place that the table has; or neither.
#[derive(Clone, Copy)]
pub enum Told {
    New,
    At(u32),
    Elsewhere,
}

// Word j of a kept type, and the length of the strings before it.
#[derive(Clone, Copy)]
pub struct Mention<'a> {
    pub of: KeptType<'a>,
    pub j: u32,
    pub told: Told,
    pub len: u32,
    ghost inside: { j < words_in of.source.now.kept.index.table.head of.source.now.kept.index.table.section.now of.e.word },
    ghost so_far: { len ≡ at_kept base_of of.source.now.kept of.x + at_kept new_sizes of.source.now.kept of.x of.e.word j },
    ghost first: { is_told_new told ≡ at_kept is_new of.source.now.kept of.x of.e.word j },
    ghost in_table: { (p : ℕ) → told_place told ≡ Some p
        → p ≡ at_kept place_of of.source.now.kept of.source.now.bases.now
        (word_of of.source.now.kept.index.table.head of.source.now.kept.index.table.section.now of.e.word j) },
}
