// The lines of the pads of a gap, in both modes.
ghost use Rattle.std.specs.Prelude.{◌≡◌, ◌-◌, Ok};
ghost use Rattle.spec_bytes.specs.text.Text.{whole};
ghost use Rattle.spec_bytes.specs.text.Placed.{put_out, put_text};
ghost use Rattle.spec_c_dumper.specs.rules.Decl.{unit_word, pads};
ghost use Rattle.c_dumper_padding.specs.units.Units.{unit_of, pad_is, pads_by};
ghost use Rattle.c_dumper_padding.specs.pads.Texts.{pad_line};

use crate::units::{Pad, Unit, next_pad};
use base_bytes::put::{put_byte, put_bytes, put_decimal, put_tabs};
use base_bytes::refusal::Refusal;
use base_keywords::table::{Word, put_word};

// (No From for the word of a unit: the match would stand there, with a contract of its own, and this would be its one call.)
fn put_unit(text: &mut [u8], at: usize, unit: Unit) -> Result<usize, Refusal>
    ensures { put_out result text.new ≡ put_text text.old (Ok at) (whole (unit_word (unit_of unit))) }
{
    let word = match unit {
        Unit::Long => Word::Long,
        Unit::Int => Word::Int,
        Unit::Short => Word::Short,
        Unit::Char => Word::Char,
    };
    put_word(text, at, word)
}

fn put_pad(text: &mut [u8], at: usize, pad: Pad, lvl: u32) -> Result<usize, Refusal>
    ensures { put_out result text.new ≡ put_text text.old (Ok at) (whole (pad_line lvl (pad_is pad))) }
{
    let a = put_byte(text, at, b'\n')?;
    let c = put_tabs(text, a, lvl)?;
    let d = put_unit(text, c, pad.unit)?;
    let e = put_bytes(text, d, b": ")?;
    let f = put_decimal(text, e, pad.width)?;
    put_byte(text, f, b';')
}

// The pads of a gap from one bit to another. (A `while`: each pad says where the next one starts, and a chain by `successors`, endless for
// std, is no plainer. Nor is the mode chosen once: the loop would stand here twice, or take a closure for a test of one bit.)
pub fn put_pads(
    text: &mut [u8],
    at: usize,
    placing: bool,
    ptr_sz: u32,
    start: u64,
    end: u64,
    lvl: u32,
) -> Result<usize, Refusal>
    ensures { put_out result text.new
        ≡ put_text text.old (Ok at) (whole (pads lvl (pads_by placing ptr_sz start (end - start)))) }
{
    let mut p = at;
    let mut s = start;
    while s < end {
        let pad = next_pad(placing, ptr_sz, s, end - s);
        p = put_pad(text, p, pad, lvl)?;
        s += pad.width;
    }
    Ok(p)
}
