// Where the new names stand, and which words are the first to mention theirs: there the place is the length so far. The table has nearly
// all of them; the plain way is for those that it does not take.
ghost use Rattle.std.specs.Prelude.{◌≡◌, ◌+◌, ◌<◌, ◌≤◌, ℕ, eqb, get_or, MatchOption};
ghost use Rattle.btf_open_causes.specs.references.Followed.{type_count};
ghost use Rattle.session_cut_marks.specs.mentioned.Names.{is_new, place_at, place_from, place_of};
ghost use Rattle.session_cut_marks.specs.interned.Slots.{slot_words};
ghost use Rattle.session_cut.specs.writer.Bytes.{sought, told_of};
ghost use Rattle.session_cut.specs.writer.OfType.{words_of, length_before, word_in};
ghost use Rattle.session_cut_marks.specs.kept.AtKept.{at_kept};
ghost use Rattle.session_cut_marks.specs.tags.Tags.{some_number};

use crate::writer::source::{KeptType, Mention, Source, Told};
use base_bytes::element::peek;
use btf_open_causes::references::Entry;
use btf_type_table::table::Table;
use session_cut_marks::interned::{Slot, find};
use session_cut_marks::kept::Kept;
use session_cut_marks::mentioned::{Word, first_name};
use session_cut_marks::roles::{Role, word_of, word_role, words_in};

// Where the table has the name of word j; none for another word and for the empty name.
pub(crate) fn seek(b: &Table, table: &[Slot], e: Entry, j: u32) -> Option<u32>
    ensures { result ≡ sought b.now.head b.now.section.now (slot_words table.now) e.word j }
{
    let Role::Name = word_role(e, j) else {
        return None;
    };
    let off = word_of(b, e, j);
    if b.is_empty(off) {
        return None;
    }
    Some(find(b, table, off)?.place)
}

// Whether a word mentions a name for the first time. `place`: where the table has it; `len`: the length of the strings before it.
pub(crate) fn is_first(kept: &Kept, w: Word, place: Option<u32>, len: u32) -> bool
    requires { (p : ℕ) → place ≡ Some p
        → eqb p len ≡ at_kept is_new kept.now w.x w.e.word w.j }
    ensures { result ≡ at_kept is_new kept.now w.x w.e.word w.j }
{
    match place {
        Some(p) => p == len,
        None => kept.is_new(w),
    }
}

// What is told of a name that is new or not, where the table has a place for it or not.
fn told(new: bool, place: Option<u32>) -> Told
    ensures { result ≡ told_of new place }
{
    if new {
        return Told::New;
    }
    match place {
        Some(p) => Told::At(p),
        None => Told::Elsewhere,
    }
}

impl Mention<'_> {
    // The word as it stands in the section.
    pub(crate) fn word(&self) -> u32
        ensures { result ≡ word_in self.now }
    {
        word_of(&self.of.source.kept.index.table, self.of.e, self.j)
    }

    // The length of the strings with its name, if that is new.
    pub(crate) fn longer(&self) -> u32
        ensures { result ≡ length_before self.now.of (self.now.j + 1) }
    {
        let Told::New = self.told else {
            return self.len;
        };
        let b = &self.of.source.kept.index.table;
        self.len + (b.get_btf_str(self.word()).len() as u32) + 1
    }

    // Where its name stands in the new strings: where that is new, at their length so far.
    pub(crate) fn place(&self) -> u32
        ensures { result ≡ at_kept place_of self.now.of.source.now.kept self.now.of.source.now.bases.now (word_in self.now) }
    {
        match self.told {
            Told::New => self.len,
            Told::At(place) => place,
            Told::Elsewhere => self.of.source.place_of(self.word()),
        }
    }
}

impl KeptType<'_> {
    // Word j, where the strings before it have the length `len`.
    pub(crate) fn mention(&self, j: u32, len: u32) -> Mention<'_>
        requires { (j < words_of self.now) × (len ≡ length_before self.now j) }
        ensures { (result.of ≡ self.now) × (result.j ≡ j) }
    {
        let kept = &self.source.kept;
        let place = seek(&kept.index.table, self.source.table, self.e, j);
        let word = Word {
            x: self.x,
            e: self.e,
            j,
        };
        let new = is_first(kept, word, place, len);
        Mention {
            of: *self,
            j,
            told: told(new, place),
            len,
        }
    }

    // The length of the strings before word n. (A `for`: `mention` asks the exact length so far; `fold`, tried on a loop of this shape,
    // leaves open that its closure may be called at whatever the calls before have given.)
    fn length_to(&self, n: u32) -> u32
        requires { n ≤ words_of self.now }
        ensures { result ≡ length_before self.now n }
    {
        let mut len = self.base;
        for j in 0..n {
            len = self.mention(j, len).longer();
        }
        len
    }
}

impl Source<'_> {
    // Type x, if there is one and it is kept.
    pub(crate) fn kept_type(&self, x: u32) -> Option<KeptType<'_>>
        ensures { MatchOption result (x < type_count self.now.kept.index.table.head → get_or self.now.kept.ids.now x 0 ≡ 0)
            (λ t. (t.source.now ≡ self.now) × (t.x ≡ x)) }
    {
        if self.kept.index.count() <= x {
            return None;
        }
        if self.kept.new_id(x).is_none() {
            return None;
        }
        Some(KeptType {
            source: self,
            x,
            e: self.kept.entry(x),
            base: peek(self.bases, x as usize, 0),
        })
    }

    // Where the name stands, if type x is kept and mentions it. For the first such type it is its place in the strings.
    fn place_at(&self, off: u32, x: u32) -> Option<u32>
        ensures { result ≡ some_number (at_kept place_at self.now.kept self.now.bases.now off x) }
    {
        let t = self.kept_type(x)?;
        let b = &self.kept.index.table;
        let j = first_name(b, t.e, off, words_in(b, t.e))?;
        Some(t.length_to(j))
    }

    fn place_from(&self, off: u32) -> Option<u32>
        ensures { result ≡ some_number (at_kept place_from self.now.kept self.now.bases.now off 0
            (type_count self.now.kept.index.table.head)) }
    {
        (0..self.kept.index.count()).find_map(|x| self.place_at(off, x))
    }

    // Where a name stands in the new strings.
    pub(crate) fn place_of(&self, off: u32) -> u32
        ensures { result ≡ at_kept place_of self.now.kept self.now.bases.now off }
    {
        if self.kept.index.table.is_empty(off) {
            return 0;
        }
        self.place_from(off).unwrap_or(0)
    }
}
