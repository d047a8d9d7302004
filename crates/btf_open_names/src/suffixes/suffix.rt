// Names that end in three underscores and a number. A name is given by the bytes from it on: it ends before the first 0.
ghost use Rattle.std.specs.Prelude.{◌≡◌, leb, unwrap_or};
ghost use Rattle.spec_type_table.specs.Names.{up_to_zero};
ghost use Rattle.btf_open_names.specs.filled_work.Takers.{digit_after, numeral, suffix_in, suffix_on, any_suffix};
ghost use Rattle.btf_open_names.specs.suffixes.Before.{base_len, hash_before};
ghost use Rattle.btf_open_names.specs.suffixes.Found.{unless_zero};

use crate::keys::hash_name;
use base_bytes::element::peek;

// A name's holders are numbered from 1 on, and the first prints it bare.
pub(crate) const FIRST_SUFFIX: u32 = 2;

const UNDERSCORES: &[u8] = &[b'_'; 3];

// The number so far with one more digit. It begins with no zero, and has 32 bits.
fn digit_after(acc: u32, x: u8) -> Option<u32>
    ensures { result ≡ unless_zero (digit_after acc x) }
{
    if !x.is_ascii_digit() {
        return None;
    }
    let v = acc.checked_mul(10)?.checked_add((x - b'0') as u32)?;
    if v == 0 {
        return None;
    }
    Some(v)
}

// The number that a name is in decimal; 0 without a digit. (No `parse`: it takes a name to its end. No byte is read behind the first
// that is no digit or no longer fits: `base_len` asks at each byte of a name, of any length.)
fn numeral(name: &[u8]) -> Option<u32>
    ensures { unwrap_or result 0 ≡ numeral (up_to_zero name.now) }
{
    name.iter()
        .take_while(|x| **x != 0)
        .try_fold(0, |acc: u32, x| digit_after(acc, *x))
}

// The number of a name that is three underscores and a number.
fn suffix_in(name: &[u8]) -> Option<u32>
    ensures { unwrap_or result 0 ≡ suffix_in (up_to_zero name.now) }
{
    numeral(name.strip_prefix(UNDERSCORES)?)
}

// Whether a name is a suffix.
fn is_suffix(name: &[u8]) -> bool
    ensures { result ≡ leb 2 (suffix_in (up_to_zero name.now)) }
{
    suffix_in(name).is_some_and(|n| n >= FIRST_SUFFIX)
}

// How many bytes of a name stand before its suffix; all of them where it has none. (A `find` over 0..len with the same test: tried, and
// the proof of what it returns did not close.)
fn base_len(name: &[u8]) -> usize
    ensures { result ≡ base_len (up_to_zero name.now) }
{
    for (k, x) in name.iter().enumerate() {
        if *x == 0 || is_suffix(&name[k..]) {
            return k;
        }
    }
    name.len()
}

// Whether a name has a suffix.
pub fn has_suffix(name: &[u8]) -> bool
    ensures { result ≡ any_suffix (up_to_zero name.now) }
{
    is_suffix(&name[base_len(name)..])
}

// The hash of what stands before the suffix of a name, after `start`.
pub fn hash_before(name: &[u8], start: u32) -> u32
    ensures { result ≡ hash_before start (up_to_zero name.now) }
{
    hash_name(&name[..base_len(name)], start)
}

// The number with which the name y is the name x, three underscores and a number. (No `strip_prefix`: it takes x to its end. No byte is
// read behind the first that differs, mostly the first of all: each name of a bucket is tried as x.)
pub fn suffix_on(x: &[u8], y: &[u8]) -> Option<u32>
    ensures { unwrap_or result 0 ≡ suffix_on (up_to_zero x.now) (up_to_zero y.now) }
{
    for (k, b) in y.iter().enumerate() {
        let a = peek(x, k, 0);
        if a == 0 {
            return suffix_in(&y[k..]);
        }
        if a != *b {
            return None;
        }
    }
    None
}
