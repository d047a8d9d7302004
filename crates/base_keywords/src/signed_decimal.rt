// Numbers that have a sign, in decimal.
ghost use Rattle.std.specs.Prelude.{◌≡◌, Ok};
ghost use Rattle.spec_bytes.specs.text.Text.{ascii, whole};
ghost use Rattle.spec_bytes.specs.text.Placed.{put_out, put_text};
ghost use Rattle.spec_bytes.specs.signed.Signed.{signed, signed_ll};

use crate::table::{Word, put_word};
use base_bytes::put::{put_bytes, put_decimal, put_integer};
use base_bytes::refusal::Refusal;

// Writes v.
pub fn put_i32(text: &mut [u8], at: usize, v: i32) -> Result<usize, Refusal>
    ensures { put_out result text.new ≡ put_text text.old (Ok at) (whole (signed v)) }
{
    put_integer(text, at, v)
}

// The least number as <stdint.h> spells INT64_MIN: less 1 than the one above it.
fn put_least(text: &mut [u8], at: usize) -> Result<usize, Refusal>
    ensures { put_out result text.new ≡ put_text text.old (Ok at) (whole (ascii "(-9223372036854775807LL - 1)")) }
{
    let a = put_bytes(text, at, b"(-")?;
    let c = put_decimal(text, a, 9223372036854775807)?;
    let d = put_word(text, c, Word::Ll)?;
    put_word(text, d, Word::MinusOne)
}

// Writes v as a C constant of type long long. The least value has no such constant.
pub fn put_i64(text: &mut [u8], at: usize, v: i64) -> Result<usize, Refusal>
    ensures { put_out result text.new ≡ put_text text.old (Ok at) (whole (signed_ll v)) }
{
    if v == -9223372036854775808 {
        return put_least(text, at);
    }
    let a = put_integer(text, at, v)?;
    put_word(text, a, Word::Ll)
}
