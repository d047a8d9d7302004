// Qualifiers on top of a chain.
ghost use Rattle.std.specs.Prelude.{◌≡◌, ◌≤◌, Ok};
ghost use Rattle.spec_bytes.specs.text.Text.{whole};
ghost use Rattle.spec_bytes.specs.text.Placed.{put_out, put_text};
ghost use Rattle.spec_c_dumper.specs.rules.Decl.{qualifier};
ghost use Rattle.c_dumper_bodies.specs.chain.Chains.{qualifier_of, skipped, mods_down};

use crate::chain::{is_qualifier, kind_at};
use base_bytes::put::put_byte;
use base_bytes::refusal::Refusal;
use base_keywords::table::{Word, put_word};
use btf_type_table::table::Table;
use spec_type_table::Kind;

pub fn put_qualifier(text: &mut [u8], at: usize, kind: Kind) -> Result<usize, Refusal>
    ensures { put_out result text.new ≡ put_text text.old (Ok at) (whole (qualifier (qualifier_of kind))) }
{
    // (No TryFrom<Kind>: the contract has `restrict` for every other kind too, so nothing would be refused.)
    let word = match kind {
        Kind::Volatile => Word::Volatile,
        Kind::Const => Word::Const,
        _ => Word::Restrict,
    };
    put_word(text, at, word)
}

// How many of n entries stay when the qualifiers on top are popped.
pub fn skip_mods(b: &Table, work: &[u8], start: u32, n: u32) -> u32
    ensures { (result ≡ skipped b.now.head b.now.section.now work.now start n) × (result ≤ n) }
{
    let stays = |k: &u32| !is_qualifier(kind_at(b, work, start, *k));
    let Some(top) = (0..n).rev().find(stays) else {
        return 0;
    };
    top + 1
}

// Prints the qualifiers on top of n entries, each with a space after it, down to the first m.
pub fn emit_mods(
    b: &Table,
    work: &[u8],
    text: &mut [u8],
    at: usize,
    start: u32,
    n: u32,
    m: u32,
) -> Result<usize, Refusal>
    ensures { put_out result text.new
        ≡ put_text text.old (Ok at) (whole (mods_down b.now.head b.now.section.now work.now start m n)) }
{
    let mut p = at;
    for k in (m..n).rev() {
        let a = put_qualifier(text, p, kind_at(b, work, start, k))?;
        p = put_byte(text, a, b' ')?;
    }
    Ok(p)
}
