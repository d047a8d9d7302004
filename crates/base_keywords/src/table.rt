// The fixed words of the text. Each stands once, in the table of put_fixed: lines are assembled from it, and what is read is
// compared with it. Signs are no words: they stand where they are put.
ghost use Rattle.std.specs.Prelude.{◌≡◌, ◌+◌, ◌≤◌, length, Ok};
ghost use Rattle.spec_bytes.specs.text.Text.{ascii, whole};
ghost use Rattle.spec_bytes.specs.text.Placed.{put_out, put_text};
ghost use Rattle.spec_c_dumper.specs.rules.Names.{same_bytes};
ghost use Rattle.base_keywords.specs.table.Fixed.{table, part, copied};
ghost use Rattle.base_keywords.specs.table.Spelled.{spelled};

use base_bytes::refusal::Refusal;

#[derive(Clone, Copy)]
pub enum Word {
    Struct,
    Union,
    StructForUnion,
    Enum,
    Typedef,
    Void,
    Volatile,
    Const,
    Restrict,
    Long,
    Int,
    Short,
    Char,
    AttributeStart,
    Packed,
    DeclTag,
    TypeTag,
    Ull,
    Ll,
    MinusOne,
    Underscores,
    Dots,
}

// Where a word starts in the table, and its length.
#[derive(Clone, Copy)]
struct Place {
    start: usize,
    len: usize,
    ghost sized: { (2 ≤ len) × (len ≤ 16) },
    ghost inside: { start + len ≤ 128 },
}

fn part(start: usize, len: usize) -> Place
    requires { (2 ≤ len) × (len ≤ 16) × (start + len ≤ 128) }
    ensures { (result.start ≡ start) × (result.len ≡ len) }
{
    Place { start, len }
}

impl Word {
    fn place(self) -> Place
        ensures { part table result.start result.len ≡ spelled self }
    {
        match self {
            Word::Struct => part(0, 6),
            Word::Union => part(9, 5),
            Word::StructForUnion => part(0, 16),
            Word::Enum => part(16, 4),
            Word::Typedef => part(20, 7),
            Word::Void => part(27, 4),
            Word::Volatile => part(31, 8),
            Word::Const => part(39, 5),
            Word::Restrict => part(44, 8),
            Word::Long => part(52, 4),
            Word::Int => part(56, 3),
            Word::Short => part(59, 5),
            Word::Char => part(64, 4),
            Word::AttributeStart => part(68, 16),
            Word::Packed => part(84, 6),
            Word::DeclTag => part(90, 12),
            Word::TypeTag => part(102, 12),
            Word::Ull => part(114, 3),
            Word::Ll => part(115, 2),
            Word::MinusOne => part(117, 5),
            Word::Underscores => part(122, 3),
            Word::Dots => part(125, 3),
        }
    }
}

// Copies N bytes, in one move where N is 2, 4 or 8. By copy_from_slice a word takes ten instructions more.
fn copy<const N: usize>(text: &mut [u8], at: usize, src: &[u8], start: usize)
    requires { (at + N ≤ length text.old) × (start + N ≤ length src.now) }
    ensures { text.new ≡ copied text.old at src.now start N }
{
    for k in 0..N {
        text[at + k] = src[start + k];
    }
}

// Copies n bytes, from 2 to 16: the first of them and the last, which may overlap.
fn copy_word(text: &mut [u8], at: usize, src: &[u8], start: usize, n: usize)
    requires { (2 ≤ n) × (n ≤ 16) × (at + n ≤ length text.old) × (start + n ≤ length src.now) }
    ensures { text.new ≡ copied text.old at src.now start n }
{
    if n < 4 {
        copy::<2>(text, at, src, start);
        copy::<2>(text, at + (n - 2), src, start + (n - 2));
        return;
    }
    if n <= 8 {
        copy::<4>(text, at, src, start);
        copy::<4>(text, at + (n - 4), src, start + (n - 4));
        return;
    }
    copy::<8>(text, at, src, start);
    copy::<8>(text, at + (n - 8), src, start + (n - 8))
}

// Writes a part of src. (The room is tested once, here: `copy` moves bytes by place.)
fn put_part(text: &mut [u8], at: usize, src: &[u8], p: Place) -> Result<usize, Refusal>
    requires { p.start + p.len ≤ length src.now }
    ensures { put_out result text.new ≡ put_text text.old (Ok at) (whole (part src.now p.start p.len)) }
{
    if text.len().saturating_sub(at) < p.len {
        return Err(Refusal::TextFull);
    }
    copy_word(text, at, src, p.start, p.len);
    Ok(at + p.len)
}

// The table. The compiler does not write this function out at each call, so that the table stands once in the machine's code too.
#[inline(never)]
fn put_fixed(text: &mut [u8], at: usize, p: Place) -> Result<usize, Refusal>
    ensures { put_out result text.new ≡ put_text text.old (Ok at) (whole (part table p.start p.len)) }
{
    put_part(
        text,
        at,
        b"struct /*union*/enumtypedefvoidvolatileconstrestrictlongintshortchar __attribute__((packedbtf_decl_tagbtf_type_tagULL - 1)___...",
        p,
    )
}

pub fn put_word(text: &mut [u8], at: usize, word: Word) -> Result<usize, Refusal>
    ensures { put_out result text.new ≡ put_text text.old (Ok at) (whole (spelled word)) }
{
    put_fixed(text, at, word.place())
}

// Whether a run is a part of the table: that is put beside it and compared. A run of another length needs no copy.
fn is_fixed(run: &[u8], p: Place) -> bool
    ensures { result ≡ same_bytes run.now (part table p.start p.len) }
{
    if run.len() != p.len {
        return false;
    }
    let mut word: [u8; 16] = [0; 16];
    let _ = put_fixed(&mut word, 0, p);
    run == &word[..p.len]
}

pub fn is_word(run: &[u8], word: Word) -> bool
    ensures { result ≡ same_bytes run.now (spelled word) }
{
    is_fixed(run, word.place())
}
