// What the program prints: definitions in specs/, laws in proofs/; and the line of a refusal.
ghost use Rattle.std.specs.Prelude.{◌≡◌, Ok};
ghost use Rattle.spec_bytes.specs.Refusals.{refusal_number};
ghost use Rattle.spec_bytes.specs.text.Text.{whole};
ghost use Rattle.spec_bytes.specs.text.Placed.{put_out, put_text};
ghost use Rattle.btfdump_run.specs.printed.Printed.{refused_line, shown_to, line_shown};

use base_bytes::put::{put_bytes, put_decimal};
use base_bytes::refusal::Refusal;

// The line that a refusal prints: how long it is, at the start of the text. Where it does not fit, the text is cleared.
pub fn put_refused(text: &mut [u8], refusal: Refusal) -> Option<usize>
    ensures { shown_to result text.new ≡ line_shown text.old (refusal_number refusal) }
{
    put_refused_number(text, u32::from(refusal))
}

// The same line by its number, of a refusal or any other.
pub fn put_refused_number(text: &mut [u8], number: u32) -> Option<usize>
    ensures { shown_to result text.new ≡ line_shown text.old number }
{
    if let Ok(len) = put_line(text, number) {
        return Some(len);
    }
    text.fill(0);
    None
}

fn put_line(text: &mut [u8], number: u32) -> Result<usize, Refusal>
    ensures { put_out result text.new ≡ put_text text.old (Ok 0) (whole (refused_line number)) }
{
    let at = put_bytes(text, 0, b"refused ")?;
    let at = put_decimal(text, at, number as u64)?;
    put_bytes(text, at, b"\n")
}
