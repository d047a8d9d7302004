// A byte slice used as 32-bit little-endian words: word i is the bytes 4i to 4i + 3.
#![tactic(auto, using(spec_bytes::proofs::words::Laws::steps))]

ghost use Rattle.std.specs.Prelude.{◌≡◌, ◌+◌, ◌*◌, ◌-◌, ◌<◌, length, replicate};
ghost use Rattle.spec_bytes.specs.words.Words.{get_word, put_word, word_at, join_at, turn, word_in};
ghost use Rattle.spec_bytes.specs.words.Three.{three_at, three_in};

// The number whose bytes start at `at`.
fn join_at(b: &[u8], at: usize) -> u32
    requires { at + 3 < length b.now }
    ensures { result ≡ join_at b.now at }
{
    u32::from_le_bytes([b[at], b[at + 1], b[at + 2], b[at + 3]])
}

// Word i, or 0 past the last whole word.
pub fn get_word(work: &[u8], i: usize) -> u32
    ensures { result ≡ get_word work.now i }
{
    if i < work.len() / 4 {
        join_at(work, i * 4)
    } else {
        0
    }
}

// Sets word i to v; past the last whole word it does nothing.
pub fn put_word(work: &mut [u8], i: usize, v: u32)
    ensures { work.new ≡ put_word work.old i v }
{
    if i < work.len() / 4 {
        let at = i * 4;
        work[at..at + 4].copy_from_slice(&v.to_le_bytes());
    }
}

// The word whose bytes start at `at`, or 0 where they do not all lie inside. (One comparison tells: by `get` and `split_first_chunk` a word
// takes ten instructions and two jumps in the place of eight and one, as measured, and no step is taken more often.)
pub fn word_at(b: &[u8], at: usize) -> u32
    ensures { result ≡ word_at b.now at }
{
    if at < b.len().saturating_sub(3) {
        return join_at(b, at);
    }
    0
}

// The bytes of a word in the other order.
fn turned(w: u32) -> u32
    ensures { result ≡ turn w }
{
    w.swap_bytes()
}

// The word at `at`, most significant byte first if `big`.
pub fn word_in(big: bool, b: &[u8], at: usize) -> u32
    ensures { result ≡ word_in big b.now at }
{
    let w = word_at(b, at);
    if big {
        return turned(w);
    }
    w
}

// The three words whose bytes start at `at`, `at + 4` and `at + 8`: all at once where they lie inside, else each by itself.
pub fn three_at(b: &[u8], at: usize) -> [u32; 3]
    ensures { result ≡ three_at b.now at }
{
    if at < b.len().saturating_sub(11) {
        return [join_at(b, at), join_at(b, at + 4), join_at(b, at + 8)];
    }
    three_apart(b, at)
}

// The same, each by itself. (A slice has fewer bytes than 2^63, so the places past an `at` inside it do not wrap.)
fn three_apart(b: &[u8], at: usize) -> [u32; 3]
    ensures { result ≡ three_at b.now at }
{
    if b.len() <= at {
        return [0; 3];
    }
    [word_at(b, at), word_at(b, at + 4), word_at(b, at + 8)]
}

// The three words at once, most significant byte first if `big`. (No `const N` over one and three: an array of N words is made by a loop or
// by from_fn, which is no plainer than its three words.)
pub fn three_in(big: bool, b: &[u8], at: usize) -> [u32; 3]
    ensures { result ≡ three_in big b.now at }
{
    let [x, y, z] = three_at(b, at);
    if big {
        return [turned(x), turned(y), turned(z)];
    }
    [x, y, z]
}

// Sets every byte to 0.
pub fn clear(b: &mut [u8])
    ensures { b.new ≡ replicate (length b.old) 0 }
{
    b.fill(0);
}
