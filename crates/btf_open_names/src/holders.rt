// All holders of names: how many there are, a word of each, and lists of them.
ghost use Rattle.std.specs.Prelude.{◌≡◌, ◌≤◌, ◌-◌, ◌+◌, ◌<◌, is_some};
ghost use Rattle.std.specs.Option.{IfSome, IfNone};
ghost use Rattle.spec_type_table.specs.Cells.{place_of};
ghost use Rattle.btf_open_names.specs.name_classes.Classes.{fill, noughts};
ghost use Rattle.btf_open_names.specs.holders.Holders.{holders_in, linked};
ghost use Rattle.btf_open_names.specs.hash_table.Hashed.{all_zero};

use btf_type_table::cell;
use btf_type_table::cell::HolderWord;
use btf_type_table::table::Table;

// Sets a word of each of the first n holders to 0.
pub fn clear(work: &mut [u8], types: u32, n: u32, word: HolderWord)
    ensures { work.new ≡ fill (place_of types word.of_type word.of_value) noughts work.old n }
{
    for k in 0..n {
        word.put(work, types, k, 0);
    }
}

// The holders of names of a table: its types, and after those its enumerators, n in all. (That a holder is below n is asked by four
// functions: each takes it from a range up to n, and no type of a number has a bound that a value gives.)
#[derive(Clone, Copy)]
pub struct Holders<'a> {
    pub table: Table<'a>,
    pub n: u32,
    ghost types_first: { table.head.types ≤ n },
}

impl<'a> Holders<'a> {
    // All of a table, if they can be numbered.
    pub fn of(table: &Table<'a>, enumerators: u32) -> Option<Holders<'a>>
        ensures some { IfSome result (λ h. (h.table ≡ table.now) × (h.n ≡ table.now.head.types + enumerators)) }
        ensures none { IfNone result (4294967295 - table.now.head.types < enumerators) }
    {
        let n = table.head.types.checked_add(enumerators)?;
        Some(Holders { table: *table, n })
    }

    // Whether the work has the words of each.
    pub fn fit(&self, work: &[u8]) -> bool
        ensures { result ≡ is_some (holders_in self.now.table.head.types (self.now.n - self.now.table.head.types) work.now) }
    {
        let types = self.table.head.types;
        let enumerators = self.n - types;
        (types as usize) * cell::WORDS_OF_TYPE + (enumerators as usize) * cell::WORDS_OF_VALUE
            <= work.len() / 4
    }

    // Sets a word of each to 0.
    pub fn clear(&self, work: &mut [u8], word: HolderWord)
        ensures { work.new ≡ fill (place_of self.now.table.head.types word.of_type word.of_value) noughts work.old self.now.n }
    {
        clear(work, self.table.head.types, self.n, word);
    }

    // Whether a word of each is 0.
    pub fn all_zero(&self, work: &[u8], word: HolderWord) -> bool
        ensures { result ≡ all_zero (place_of self.now.table.head.types word.of_type word.of_value) work.now self.now.n }
    {
        (0..self.n).all(|k| word.get(work, self.table.head.types, k) == 0)
    }
}

// A list of holders: the word that has its first one, and the word of each that has the next. (Fixed memory: the links stand in the
// lent work, and 0 ends a list.)
#[derive(Clone, Copy)]
pub struct Links {
    pub first: HolderWord,
    pub next: HolderWord,
}

// (Here and at `HolderWord` the work and the count of types go together. A struct that holds the `&mut` is no plainer: each function owes
// a clause more, that the field keeps its reference.)
impl Links {
    // Puts holder h in front of list i, where v is written for it.
    pub fn put_in_front(self, work: &mut [u8], types: u32, i: u32, h: u32, v: u32)
        ensures { work.new ≡ linked (place_of types self.first.of_type self.first.of_value i)
            (place_of types self.next.of_type self.next.of_value h) v work.old }
    {
        let front = self.first.get(work, types, i);
        self.next.put(work, types, h, front);
        self.first.put(work, types, i, v);
    }
}
