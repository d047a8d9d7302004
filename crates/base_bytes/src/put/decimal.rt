// Numbers in decimal.
ghost use Rattle.std.specs.Prelude.{◌≡◌, Ok};
ghost use Rattle.spec_bytes.specs.text.Text.{whole};
ghost use Rattle.spec_bytes.specs.text.Placed.{put_out, put_text};
ghost use Rattle.spec_bytes.specs.text.Decimal.{decimal};

use crate::put::bytes::put_bytes;
use crate::refusal::Refusal;
use itoa::{Buffer, Integer};

// Writes a number of any width, with its sign where it has one.
pub fn put_integer<I: Integer>(text: &mut [u8], at: usize, n: I) -> Result<usize, Refusal>
    ensures { put_out result text.new ≡ put_text text.old (Ok at) (whole (I.text n)) }
{
    let mut digits = Buffer::new();
    put_digits(text, at, digits.format(n).as_bytes())
}

// Writes the digits of a number. (Not written out at each call: where the compiler sees that the buffer lies apart from the text, it makes
// a memcpy of the loop.)
#[inline(never)]
fn put_digits(text: &mut [u8], at: usize, digits: &[u8]) -> Result<usize, Refusal>
    ensures { put_out result text.new ≡ put_text text.old (Ok at) (whole digits.now) }
{
    put_bytes(text, at, digits)
}

// Writes n.
pub fn put_decimal(text: &mut [u8], at: usize, n: u64) -> Result<usize, Refusal>
    ensures { put_out result text.new ≡ put_text text.old (Ok at) (whole (decimal n)) }
{
    put_integer(text, at, n)
}
