// Text in a slice that the caller lends, from a place on. A function that writes answers the next place, or the refusal that stopped it.
// Text and place stay two parameters: a struct that holds the `&mut` owes each function a clause more (docs/DESIGN-PASS.md).
#![tactic(auto, using(spec_bytes::proofs::text::TextLaws::steps))]

ghost use Rattle.std.specs.Prelude.{◌≡◌, ◌≤◌, ◌+◌, ◌∷◌, [], length, Ok};
ghost use Rattle.spec_bytes.specs.text.Text.{whole, pfx};
ghost use Rattle.spec_bytes.specs.text.Placed.{put_out, place, put_text};

use crate::refusal::Refusal;

const TABS: [u8; 12] = [b'\t'; 12];

// Writes the bytes of src from `at` on; refusal 17 where there is no room for all of them.
#[inline]
pub fn put_bytes(text: &mut [u8], at: usize, src: &[u8]) -> Result<usize, Refusal>
    ensures { put_out result text.new ≡ put_text text.old (Ok at) (whole src.now) }
{
    if src.is_empty() {
        return Ok(at);
    }
    if text.len().saturating_sub(at) < src.len() {
        return Err(Refusal::TextFull);
    }
    copy(text, at, src);
    Ok(at + src.len())
}

// Copies src into the text from `at` on. (A loop: copy_from_slice calls memmove or memcpy of the C library, which the archive does
// without.)
fn copy(text: &mut [u8], at: usize, src: &[u8])
    requires { at + length src.now ≤ length text.old }
    ensures { text.new ≡ place text.old at src.now }
{
    for k in 0..src.len() {
        text[at + k] = src[k];
    }
}

// Writes one byte.
pub fn put_byte(text: &mut [u8], at: usize, b: u8) -> Result<usize, Refusal>
    ensures { put_out result text.new ≡ put_text text.old (Ok at) (whole (b ∷ [])) }
{
    put_bytes(text, at, &[b])
}

// pfx: a tab for each level, at most 12. (Most lines stand at level 1.)
pub fn put_tabs(text: &mut [u8], at: usize, lvl: u32) -> Result<usize, Refusal>
    ensures { put_out result text.new ≡ put_text text.old (Ok at) (whole (pfx lvl)) }
{
    if lvl == 1 {
        return put_byte(text, at, b'\t');
    }
    put_bytes(text, at, &TABS[..(lvl as usize).min(TABS.len())])
}
