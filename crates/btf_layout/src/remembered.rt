// Alignments that are remembered in the work. Word 15 of a type has the alignment in its low four bits and the height of the calls of
// get_align_of above them; word 2 of void counts the visits.
ghost use Rattle.std.specs.Prelude.{◌≡◌};
ghost use Rattle.btf_layout.specs.remembered.Words.{seen_is, known_of, widest_code, decoded, coded, some_word};
ghost use Rattle.btf_layout.specs.remembered.Words.{seen_word, with_visits, remembered};

use btf_type_table::cell;
use btf_type_table::cell::{get_field, put_field};
use spec_type_table::TypeTable;

// How many alignments a word tells apart.
const ALIGNMENTS: u32 = 16;

// The largest height that a word has room for.
const MOST_HEIGHT: u32 = 268435454;

// What is remembered of a type.
#[derive(Clone, Copy, PartialEq, Eq)]
pub struct Seen {
    pub align: u32,
    pub height: u32,
}

impl Seen {
    // The largest alignment and the largest height of both.
    #[inline]
    pub fn widest(self, other: Seen) -> Seen
        ensures { seen_is result ≡ widest_code self other }
    {
        Seen {
            align: self.align.max(other.align),
            height: self.height.max(other.height),
        }
    }

    // What the word of a type says; 0 is the word of a type of which nothing is remembered (fixed memory: one word for both numbers). No
    // From or TryFrom: 0 is no error here, and what does not fit is not remembered.
    #[inline]
    fn from_word(v: u32) -> Option<Seen>
        ensures { known_of result ≡ decoded v }
    {
        if v == 0 {
            return None;
        }
        Some(Seen {
            align: v % ALIGNMENTS,
            height: v / ALIGNMENTS,
        })
    }

    // The word that says it; none where it does not fit, or where it would be 0.
    fn word(self) -> Option<u32>
        ensures { result ≡ some_word (coded (seen_is self)) }
    {
        if self.align >= ALIGNMENTS || self.height > MOST_HEIGHT {
            return None;
        }
        let v = self.height * ALIGNMENTS + self.align;
        if v == 0 {
            return None;
        }
        Some(v)
    }
}

// What is remembered of a type, if anything.
#[inline]
pub fn recall(b: TypeTable, work: &[u8], id: u32) -> Option<Seen>
    ensures { known_of result ≡ decoded (seen_word b.types work.now id) }
{
    if b.types <= id {
        return None;
    }
    Seen::from_word(get_field(work, id, cell::ALIGNMENT))
}

// The visits of a type and of its members; the count stays at the largest number.
fn count_visits(work: &mut [u8], members: u32)
    ensures { work.new ≡ with_visits members work.old }
{
    let visits = get_field(work, 0, cell::VISITS)
        .saturating_add(members)
        .saturating_add(1);
    put_field(work, 0, cell::VISITS, visits);
}

// A word is remembered of a type, with the visits of it and of its members; 0 is not.
pub fn remember_word(b: TypeTable, work: &mut [u8], id: u32, v: u32, members: u32)
    ensures { work.new ≡ remembered b.types id v members work.old }
{
    if v == 0 || b.types <= id {
        return;
    }
    count_visits(work, members);
    put_field(work, id, cell::ALIGNMENT, v);
}

// A type is remembered; one that no word says is not.
pub fn remember(b: TypeTable, work: &mut [u8], id: u32, s: Seen, members: u32)
    ensures { work.new ≡ remembered b.types id (coded (seen_is s)) members work.old }
{
    if let Some(v) = s.word() {
        remember_word(b, work, id, v, members);
    }
}
