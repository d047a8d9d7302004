// The work words: 16 for each type, at 16 times its id, then 8 for each enumerator. Lists in them go by links, and 0 ends a list (the lent
// work is all the memory there is). Words are constants and no enum: a word is found by adding its number, as its definition does.
ghost use Rattle.std.specs.Prelude.{◌≡◌};
ghost use Rattle.spec_bytes.specs.words.Words.{get_word, put_word, one_more};
ghost use Rattle.spec_type_table.specs.Cells.{get_field, put_field, place_of, class_p, count_p, count_after, count_raised, with_more};

use base_bytes::word::{get_word, put_word};

pub const WORDS_OF_TYPE: usize = 16;

pub const WORDS_OF_VALUE: usize = 8;

// Words of a type: the place of its record.
pub const PLACE: u32 = 0;

// 0, 1 in progress, 2 ordered.
pub const ORDER_STATE: u32 = 1;

// Of void alone: visits for alignments.
pub const VISITS: u32 = 2;

pub const FORWARD_EMITTED: u32 = 3;

// 0 while its name has none.
pub const NAME_VERSION: u32 = 4;

// The first declaration tag on it; of a tag, the next on the same type. (Fixed memory: the links of a list stand in the lent work,
// and 0 ends it.)
pub const FIRST_TAG: u32 = 9;

pub const NEXT_TAG: u32 = 10;

// Slot k of the order list is this word of type k.
pub const ORDER_SLOT: u32 = 11;

pub const FIRST_ENUMERATOR: u32 = 12;

// 0, 1 in progress, 2 emitted.
pub const EMIT_STATE: u32 = 13;

// 0, or what is remembered of its alignment.
pub const ALIGNMENT: u32 = 15;

// A word of each holder of a name: its number among the words of a type, and among those of an enumerator. Holder h is type h below the
// count of types, and after those an enumerator.
#[derive(Clone, Copy)]
pub struct HolderWord {
    pub of_type: u32,
    pub of_value: u32,
}

// The place of its record or entry.
pub const HOLDER_PLACE: HolderWord = HolderWord {
    of_type: 0,
    of_value: 0,
};

// The first holder of its name; and there, how many holders there are so far.
pub const NAME_CLASS: HolderWord = HolderWord {
    of_type: 5,
    of_value: 1,
};

pub const NAME_HOLDERS: HolderWord = HolderWord {
    of_type: 6,
    of_value: 2,
};

// The list of those whose names take a number of this name: at the class the first, at each the next and its number. All are 0
// without the mode of names that cannot collide. (Fixed memory: links in the lent work, and 0 ends a list.)
pub const FIRST_TAKER: HolderWord = HolderWord {
    of_type: 7,
    of_value: 3,
};

pub const NEXT_TAKER: HolderWord = HolderWord {
    of_type: 8,
    of_value: 4,
};

pub const TAKEN_NUMBER: HolderWord = HolderWord {
    of_type: 14,
    of_value: 6,
};

// While opening, some words are a hash table's, first that of the classes and then that of the names: the first of a bucket, the next.
pub const CLASS_BUCKET: HolderWord = HolderWord {
    of_type: 7,
    of_value: 3,
};

pub const CLASS_LINK: HolderWord = HolderWord {
    of_type: 8,
    of_value: 4,
};

pub const TABLE_BUCKET: HolderWord = HolderWord {
    of_type: 11,
    of_value: 5,
};

pub const TABLE_LINK: HolderWord = HolderWord {
    of_type: 13,
    of_value: 7,
};

impl HolderWord {
    // Where this word of holder h stands in the work.
    pub fn place(self, types: u32, h: u32) -> usize
        ensures { result ≡ place_of types self.of_type self.of_value h }
    {
        if h < types {
            return (h as usize) * WORDS_OF_TYPE + (self.of_type as usize);
        }
        (types as usize) * WORDS_OF_TYPE
            + ((h - types) as usize) * WORDS_OF_VALUE
            + (self.of_value as usize)
    }

    pub fn get(self, work: &[u8], types: u32, h: u32) -> u32
        ensures { result ≡ get_word work.now (place_of types self.of_type self.of_value h) }
    {
        get_word(work, self.place(types, h))
    }

    pub fn put(self, work: &mut [u8], types: u32, h: u32, v: u32)
        ensures { work.new ≡ put_word work.old (place_of types self.of_type self.of_value h) v }
    {
        put_word(work, self.place(types, h), v)
    }
}

// Word f of type id.
pub fn get_field(work: &[u8], id: u32, f: u32) -> u32
    ensures { result ≡ get_field work.now id f }
{
    get_word(work, (id as usize) * WORDS_OF_TYPE + (f as usize))
}

pub fn put_field(work: &mut [u8], id: u32, f: u32, v: u32)
    ensures { work.new ≡ put_field work.old id f v }
{
    put_word(work, (id as usize) * WORDS_OF_TYPE + (f as usize), v)
}

// One more at a word: what it has then. (It saturates, so that altered work cannot make it wrap.)
fn count_at(work: &mut [u8], at: usize) -> u32
    ensures { (result ≡ one_more (get_word work.old at)) × (work.new ≡ with_more work.old at) }
{
    let n = get_word(work, at);
    let Some(more) = n.checked_add(1) else {
        return n;
    };
    put_word(work, at, more);
    more
}

// One more holder of h's name: how many there are now, at the class of the name.
pub fn get_count(work: &mut [u8], types: u32, h: u32) -> u32
    ensures { (result ≡ count_after (class_p types) (count_p types) work.old h)
        × (work.new ≡ count_raised (class_p types) (count_p types) work.old h) }
{
    let class = NAME_CLASS.get(work, types, h);
    count_at(work, NAME_HOLDERS.place(types, class))
}
