// A name as it stands in a C string literal.
ghost use Rattle.std.specs.Prelude.{◌≡◌, Ok};
ghost use Rattle.spec_bytes.specs.text.Text.{whole};
ghost use Rattle.spec_bytes.specs.text.Placed.{put_out, put_text};
ghost use Rattle.spec_c_dumper.specs.rules.Names.{escaped_byte, escaped};

use base_bytes::put::{put_byte, put_bytes};
use base_bytes::refusal::Refusal;

// One byte of c_str_escape.
#[tactic(auto, using(spec_type_table::proofs::NameLaws::escapes))]
fn put_escaped_byte(text: &mut [u8], at: usize, c: u8) -> Result<usize, Refusal>
    ensures { put_out result text.new ≡ put_text text.old (Ok at) (whole (escaped_byte c)) }
{
    match c {
        b'\\' => put_bytes(text, at, b"\\\\"),
        b'"' => put_bytes(text, at, b"\\\""),
        b'\n' => put_bytes(text, at, b"\\n"),
        b'\r' => put_bytes(text, at, b"\\r"),
        b'\t' => put_bytes(text, at, b"\\t"),
        _ => put_byte(text, at, c),
    }
}

// c_str_escape: a name as it stands in a C string literal.
pub fn put_escaped(text: &mut [u8], at: usize, name: &[u8]) -> Result<usize, Refusal>
    ensures { put_out result text.new ≡ put_text text.old (Ok at) (whole (escaped name.now)) }
{
    let mut p = at;
    for &c in name {
        p = put_escaped_byte(text, p, c)?;
    }
    Ok(p)
}
