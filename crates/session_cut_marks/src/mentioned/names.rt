// Which words mention a name, and which for the first time.
ghost use Rattle.std.specs.Prelude.{◌≡◌};
ghost use Rattle.spec_c_dumper.specs.rules.Names.{same_bytes};
ghost use Rattle.spec_type_table.specs.Names.{str_at};
ghost use Rattle.session_cut_marks.specs.mentioned.Names.{is_name, named_to, first_name, mentions, mentioned_to, is_new};
ghost use Rattle.session_cut_marks.specs.kept.AtKept.{at_kept};

use crate::kept::Kept;
use crate::roles::{Role, word_of, word_role, words_in};
use btf_open_causes::references::Entry;
use btf_type_table::table::Table;

// Word j of the record of type x, whose entry is e.
#[derive(Clone, Copy)]
pub struct Word {
    pub x: u32,
    pub e: Entry,
    pub j: u32,
}

// Whether the names at two offsets are the same. (`==` of both: take_while up to the 0 of each and `eq` say this in more words.)
pub fn same_name(b: &Table, p: u32, q: u32) -> bool
    ensures { result ≡ same_bytes (str_at b.now.head b.now.section.now p) (str_at b.now.head b.now.section.now q) }
{
    if p == q {
        return true;
    }
    b.get_btf_str(p) == b.get_btf_str(q)
}

// Whether word j of the record with entry e is the offset of this name.
fn is_name(b: &Table, e: Entry, off: u32, j: u32) -> bool
    ensures { result ≡ is_name b.now.head b.now.section.now e.word off j }
{
    let Role::Name = word_role(e, j) else {
        return false;
    };
    same_name(b, word_of(b, e, j), off)
}

// Whether one of its first n words is.
fn named_to(b: &Table, e: Entry, off: u32, n: u32) -> bool
    ensures { result ≡ named_to b.now.head b.now.section.now e.word off n }
{
    (0..n).any(|j| is_name(b, e, off, j))
}

// The first of its first n words that is.
pub fn first_name(b: &Table, e: Entry, off: u32, n: u32) -> Option<u32>
    ensures { result ≡ first_name b.now.head b.now.section.now e.word off n }
{
    (0..n).find(|j| is_name(b, e, off, *j))
}

impl Kept<'_> {
    // Whether type y is kept and mentions the name.
    pub fn mentions(&self, off: u32, y: u32) -> bool
        ensures { result ≡ at_kept mentions self.now off y }
    {
        if self.new_id(y).is_none() {
            return false;
        }
        let e = self.entry(y);
        named_to(&self.index.table, e, off, words_in(&self.index.table, e))
    }

    // Whether one of the types before x does.
    fn mentioned_to(&self, off: u32, x: u32) -> bool
        ensures { result ≡ at_kept mentioned_to self.now off x }
    {
        (0..x).any(|y| self.mentions(off, y))
    }

    // Whether a word of a type mentions a name for the first time.
    pub fn is_new(&self, w: Word) -> bool
        ensures { result ≡ at_kept is_new self.now w.x w.e.word w.j }
    {
        let Role::Name = word_role(w.e, w.j) else {
            return false;
        };
        let off = word_of(&self.index.table, w.e, w.j);
        if self.index.table.is_empty(off) {
            return false;
        }
        if self.mentioned_to(off, w.x) {
            return false;
        }
        !named_to(&self.index.table, w.e, off, w.j)
    }
}
