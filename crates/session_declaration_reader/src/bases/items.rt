// Entries in lent words, three words each.
ghost use Rattle.std.specs.Prelude.{◌≡◌, [], ◌∷◌, ◌-◌};
ghost use Rattle.session_declaration_reader.specs.bases.Items.{item, qual_items, placing};
ghost use Rattle.session_declaration_reader.specs.bases.Entries.{item_of, item_in, item_words, base_code, stored};
ghost use Rattle.session_declaration_reader.specs.bases.Looking.{qual_of, quals_of, base_items};

use crate::bases::{Base, Quals};
use crate::token_kind::Qualifier;
use base_bytes::limit;

// The count of a chain that is too long. It is no refusal: such a chain is read on to its end, as by the definition, and who asked for it
// looks at the count once. A refusal here would be one more exit behind each entry that the grammar stores.
const TOO_MANY: u32 = limit::MOST_CALLS + 1;

// A chain that is being stored: the words that the C caller lent for it, so no Vec, and how many entries it has so far. (Each function
// that takes it ensures `same`: a struct that holds a `&mut` owes that it is still the same slice.)
#[derive(Drop)]
pub struct Chain<'a> {
    pub words: &'a mut [u64],
    pub n: u32,
}

// An entry of a chain. A base: where its words start in the text, and how many bytes they take. An array: its count. A prototype:
// whether it has parameters (a bool, and no two variants: 1 or 0 is what is stored of it).
#[derive(Clone, Copy)]
pub enum Entry {
    Base(u64, u64),
    Pointer,
    Array(u32),
    Prototype(bool),
    Qualifier(Qualifier),
    // A base behind whose chain another parameter follows.
    FollowedBase(u64, u64),
}

// Its three words: the kind, and two numbers.
impl From<Entry> for [u64; 3] {
    fn from(entry: Entry) -> [u64; 3]
        ensures { result ≡ item_words (item_of entry) }
    {
        match entry {
            Entry::Base(start, length) => [1, start, length],
            Entry::Pointer => [2, 0, 0],
            Entry::Array(count) => [3, count as u64, 0],
            Entry::Prototype(takes) => [4, takes as u64, 0],
            Entry::Qualifier(qualifier) => [5, u64::from(qualifier), 0],
            Entry::FollowedBase(start, length) => [6, start, length],
        }
    }
}

// (A bool is what `is_mark` tells of the token behind a base; an enum of the two would be made from it, to be matched here alone.)
fn base_entry(start: u64, length: u64, is_followed: bool) -> Entry
    ensures { item_of result ≡ item (base_code is_followed) start length }
{
    if is_followed {
        Entry::FollowedBase(start, length)
    } else {
        Entry::Base(start, length)
    }
}

impl Chain<'_> {
    // Stores the next entry by its three words, of any kind, if it is one of the most and there is room. (Tried with `get_mut`: the proof
    // did not close, since std says nothing of what the slice ends as then, and of as_chunks_mut as little.)
    pub fn put_words(&mut self, words: [u64; 3])
        ensures stored { stored self.new ≡ placing self.old.words.now self.old.n (item_in words ∷ []) }
        ensures same { self.new.words.ghost_name ≡ self.old.words.ghost_name }
    {
        if limit::MOST_CALLS <= self.n {
            self.n = TOO_MANY;
            return;
        }
        let i = (self.n as usize) * 3;
        self.n += 1;
        if self.words.len() < i + 3 {
            return;
        }
        self.words[i..i + 3].copy_from_slice(&words);
    }

    // Stores the next entry.
    pub fn put_entry(&mut self, entry: Entry)
        ensures stored { stored self.new ≡ placing self.old.words.now self.old.n (item_of entry ∷ []) }
        ensures same { self.new.words.ghost_name ≡ self.old.words.ghost_name }
    {
        self.put_words(<[u64; 3]>::from(entry));
    }

    fn put_qual(&mut self, qualifier: Option<Qualifier>)
        ensures stored { stored self.new ≡ placing self.old.words.now self.old.n (qual_items (qual_of qualifier [])) }
        ensures same { self.new.words.ghost_name ≡ self.old.words.ghost_name }
    {
        if let Some(q) = qualifier {
            self.put_entry(Entry::Qualifier(q));
        }
    }

    pub fn put_quals(&mut self, q: Quals)
        ensures stored { stored self.new ≡ placing self.old.words.now self.old.n (qual_items (quals_of q)) }
        ensures same { self.new.words.ghost_name ≡ self.old.words.ghost_name }
    {
        for qualifier in q.list {
            self.put_qual(qualifier);
        }
    }

    // A base behind its qualifiers.
    pub fn put_base(&mut self, b: Base, is_followed: bool)
        ensures stored { stored self.new ≡ placing self.old.words.now self.old.n (base_items b (base_code is_followed)) }
        ensures same { self.new.words.ghost_name ≡ self.old.words.ghost_name }
    {
        self.put_quals(b.quals);
        let length = b.end.saturating_sub(b.start) as u64;
        self.put_entry(base_entry(b.start as u64, length, is_followed));
    }
}
