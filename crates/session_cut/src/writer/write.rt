// Writing the new section.
ghost use Rattle.std.specs.Prelude.{◌≡◌, ◌<◌, ◌≤◌, Ok};
ghost use Rattle.spec_bytes.specs.text.Text.{whole};
ghost use Rattle.spec_bytes.specs.text.Placed.{put_out, put_text};
ghost use Rattle.btf_open_causes.specs.references.Followed.{type_count};
ghost use Rattle.session_cut_marks.specs.mentioned.Names.{base_of};
ghost use Rattle.session_cut_marks.specs.mentioned.Strings.{name_bytes, strings_bytes};
ghost use Rattle.session_cut.specs.writer.Bytes.{word_bytes, magic_bytes, head_bytes, type_size, types_size, new_word};
ghost use Rattle.session_cut.specs.writer.Bytes.{word_part, words_part, kept_bytes, part_bytes, all_bytes};
ghost use Rattle.session_cut.specs.writer.Bytes.{wrote_of, fitting_written, kept_written};
ghost use Rattle.session_cut_marks.specs.kept.AtKept.{at_kept};
ghost use Rattle.session_cut.specs.writer.OfType.{words_of};

use crate::writer::source::{KeptType, Mention, Part, Source, Told};
use base_bytes::element::peek;
use base_bytes::limit;
use base_bytes::put::{put_byte, put_bytes};
use base_bytes::refusal::Refusal;
use btf_open_causes::header::{BIG_MAGIC, LITTLE_MAGIC};
use session_cut_marks::interned::{SLOTS_LEN, Slot};
use session_cut_marks::kept::Kept;
use session_cut_marks::roles::{Role, word_role, words_in};

// The only version, the length of the header, and where in it the flags stand.
const VERSION: u8 = 1;

const HEADER_LEN: u32 = 24;

const FLAGS: usize = 3;

// The types begin where the header ends.
const TYPE_OFF: u32 = 0;

// The lengths of the two areas.
#[derive(Clone, Copy)]
pub struct Sizes {
    pub types: u32,
    pub strings: u32,
}

// A word, the most significant byte first where `big`.
fn put_word(out: &mut [u8], at: usize, big: bool, v: u32) -> Result<usize, Refusal>
    ensures { put_out result out.new ≡ put_text out.old (Ok at) (whole (word_bytes big v)) }
{
    if big {
        put_bytes(out, at, &v.to_be_bytes())
    } else {
        put_bytes(out, at, &v.to_le_bytes())
    }
}

// The magic number in the order of the bytes, the version and the flags.
fn put_magic(out: &mut [u8], at: usize, big: bool, flags: u8) -> Result<usize, Refusal>
    ensures { put_out result out.new ≡ put_text out.old (Ok at) (whole (magic_bytes big flags)) }
{
    if big {
        put_bytes(out, at, &[BIG_MAGIC[0], BIG_MAGIC[1], VERSION, flags])
    } else {
        put_bytes(out, at, &[LITTLE_MAGIC[0], LITTLE_MAGIC[1], VERSION, flags])
    }
}

// The header: types follow, then strings.
pub fn put_head(out: &mut [u8], big: bool, flags: u8, sizes: Sizes) -> Result<usize, Refusal>
    ensures { put_out result out.new ≡ put_text out.old (Ok 0) (whole (head_bytes big flags sizes.types sizes.strings)) }
{
    let p0 = put_magic(out, 0, big, flags)?;
    let p1 = put_word(out, p0, big, HEADER_LEN)?;
    let p2 = put_word(out, p1, big, TYPE_OFF)?;
    let p3 = put_word(out, p2, big, sizes.types)?;
    let p4 = put_word(out, p3, big, sizes.types)?;
    put_word(out, p4, big, sizes.strings)
}

// The length of the types.
pub fn types_size(kept: &Kept) -> u64
    ensures { result ≡ at_kept types_size kept.now (type_count kept.now.index.table.head) }
{
    (0..kept.index.count()).map(|x| type_size(kept, x)).sum()
}

// The length of type x: 0, where it is not kept.
fn type_size(kept: &Kept, x: u32) -> u64
    ensures { result ≡ at_kept type_size kept.now x 0 }
{
    if kept.new_id(x).is_none() {
        return 0;
    }
    (words_in(&kept.index.table, kept.entry(x)) as u64) * 4
}

impl Mention<'_> {
    // Its name and a 0, if that is new.
    fn put_name(&self, out: &mut [u8], at: usize) -> Result<usize, Refusal>
        ensures { put_out result out.new
            ≡ put_text out.old (Ok at)
            (whole (at_kept name_bytes self.now.of.source.now.kept self.now.of.x self.now.of.e.word self.now.j)) }
    {
        let Told::New = self.told else {
            return Ok(at);
        };
        let p = self
            .of
            .source
            .kept
            .index
            .table
            .put_str(out, at, self.word())?;
        put_byte(out, p, 0)
    }

    // The word as it is written.
    fn new_word(&self) -> u32
        ensures { result ≡ at_kept new_word self.now.of.source.now.kept self.now.of.source.now.bases.now self.now.of.e.word self.now.j }
    {
        match word_role(self.of.e, self.j) {
            Role::Name => self.place(),
            Role::Id => self.of.source.kept.new_id(self.word()).unwrap_or(0),
            Role::Plain => self.word(),
        }
    }

    // What the part has of it.
    fn put_word_part(&self, part: Part, out: &mut [u8], at: usize) -> Result<usize, Refusal>
        ensures { put_out result out.new
            ≡ put_text out.old (Ok at)
            (whole (at_kept word_part self.now.of.source.now.kept self.now.of.source.now.bases.now part self.now.of.x
            self.now.of.e.word self.now.j)) }
    {
        let big = self.of.source.kept.index.table.head.big_endian;
        match part {
            Part::Records => put_word(out, at, big, self.new_word()),
            Part::Names => self.put_name(out, at),
        }
    }
}

impl KeptType<'_> {
    // What the part has of all its words.
    fn put_words(&self, part: Part, out: &mut [u8], at: usize) -> Result<usize, Refusal>
        ensures { put_out result out.new
            ≡ put_text out.old (Ok at)
            (whole (at_kept words_part self.now.source.now.kept self.now.source.now.bases.now part self.now.x self.now.e.word
            (words_of self.now))) }
    {
        let mut p = at;
        let mut len = self.base;
        for j in 0..words_in(&self.source.kept.index.table, self.e) {
            let m = self.mention(j, len);
            p = m.put_word_part(part, out, p)?;
            len = m.longer();
        }
        Ok(p)
    }
}

impl Source<'_> {
    // What the part has of type x: nothing, where it is not kept.
    fn put_kept(&self, x: u32, part: Part, out: &mut [u8], at: usize) -> Result<usize, Refusal>
        ensures { x < type_count self.now.kept.index.table.head
            → put_out result out.new
            ≡ put_text out.old (Ok at) (whole (at_kept kept_bytes self.now.kept self.now.bases.now part x)) }
    {
        let Some(t) = self.kept_type(x) else {
            return Ok(at);
        };
        t.put_words(part, out, at)
    }

    // What the part has of all types.
    fn put_part(&self, part: Part, out: &mut [u8], at: usize) -> Result<usize, Refusal>
        ensures { put_out result out.new
            ≡ put_text out.old (Ok at)
            (whole (at_kept part_bytes self.now.kept self.now.bases.now part (type_count self.now.kept.index.table.head))) }
    {
        let mut p = at;
        for x in 0..self.kept.index.count() {
            p = self.put_kept(x, part, out, p)?;
        }
        Ok(p)
    }

    // The leading 0, and the new names.
    pub(crate) fn put_strings(&self, out: &mut [u8], at: usize) -> Result<usize, Refusal>
        ensures { put_out result out.new
            ≡ put_text out.old (Ok at) (whole (at_kept strings_bytes self.now.kept (type_count self.now.kept.index.table.head))) }
    {
        let p = put_byte(out, at, 0)?;
        self.put_part(Part::Names, out, p)
    }

    // Header, types and strings.
    fn put_all(&self, sizes: Sizes, out: &mut [u8]) -> Result<usize, Refusal>
        ensures { put_out result out.new
            ≡ put_text out.old (Ok 0) (whole (at_kept all_bytes self.now.kept self.now.bases.now sizes.types sizes.strings)) }
    {
        let flags = peek(self.kept.index.table.section, FLAGS, 0);
        let p = put_head(out, self.kept.index.table.head.big_endian, flags, sizes)?;
        let q = self.put_part(Part::Records, out, p)?;
        self.put_strings(out, q)
    }

    fn write_fitting(&self, sizes: Sizes, out: &mut [u8]) -> Option<u32>
        requires { (sizes.types ≤ 16777216) × (sizes.strings ≤ 16777216)
            × (sizes.types ≡ at_kept types_size self.now.kept (type_count self.now.kept.index.table.head))
            × (sizes.strings ≡ at_kept base_of self.now.kept (type_count self.now.kept.index.table.head)) }
        ensures { wrote_of result out.new ≡ at_kept fitting_written self.now.kept self.now.bases.now sizes.types sizes.strings out.old }
    {
        let len = HEADER_LEN + sizes.types + sizes.strings;
        if limit::MOST_BYTES_32 < len {
            return None;
        }
        if out.len() < (len as usize) {
            return None;
        }
        // There is room for all of it.
        let _ = self.put_all(sizes, out);
        Some(len)
    }
}

// Measures first: none and nothing written, where the output slice is short or the section would pass 16,777,216 bytes; else
// the length written. The rest of the slice stays.
pub fn write_kept(kept: &Kept, out: &mut [u8]) -> Option<u32>
    ensures { wrote_of result out.new ≡ at_kept kept_written kept.now out.old }
{
    if limit::MOST_BYTES < kept.index.table.section.len() {
        return None;
    }
    let mut bases = [0u32; limit::TYPES_LEN];
    let mut table = [Slot::FREE; SLOTS_LEN];
    let strings = kept.fill_table(&mut table, &mut bases);
    let types = types_size(kept);
    if limit::MOST_BYTES_32 < strings {
        return None;
    }
    if limit::MOST_BYTES_64 < types {
        return None;
    }
    let source = Source {
        kept: *kept,
        bases: &bases,
        table: &table,
    };
    let sizes = Sizes {
        types: types as u32,
        strings,
    };
    source.write_fitting(sizes, out)
}
