// Words of a section, and records of the type area as the Linux documentation lays them out. A record is named by its place in the section.
ghost use Rattle.std.specs.Prelude.{◌≡◌, ◌%◌};
ghost use Rattle.spec_type_table.specs.Records.{section_word, section_three, record_at};
ghost use Rattle.spec_type_table.specs.Table.{extra_word, nelems_word};

use crate::table::Table;
use base_bytes::word::{three_in, word_in};
use spec_type_table::BtfType;

impl Table<'_> {
    // The word of the section at a place, in the section's order. Every word past the header is read by this function or by `three`.
    pub fn word(&self, at: usize) -> u32
        ensures { result ≡ section_word self.now.head self.now.section.now at }
    {
        word_in(self.head.big_endian, self.section, at)
    }

    // Three words of the section from a place on.
    pub fn three(&self, at: usize) -> [u32; 3]
        ensures { result ≡ section_three self.now.head self.now.section.now at }
    {
        three_in(self.head.big_endian, self.section, at)
    }

    // The record at a place.
    pub fn load_type(&self, at: u32) -> BtfType
        ensures { result ≡ record_at self.now.head self.now.section.now at }
    {
        let [name_off, info, type_id] = self.three(at as usize);
        BtfType {
            at,
            name_off,
            info,
            type_id,
        }
    }

    // The word that follows the twelve bytes of a record: an INT's encoding, btf_array.type, or btf_decl_tag.component_idx, in which -1 is
    // 4294967295.
    pub fn extra_word(&self, t: BtfType) -> u32
        ensures { result ≡ extra_word self.now.head self.now.section.now t }
    {
        self.word((t.at as usize) + 12)
    }

    // The width of an INT: bits 0-7 of its word.
    pub fn int_bits(&self, t: BtfType) -> u32
        ensures { result ≡ extra_word self.now.head self.now.section.now t % 256 }
    {
        self.extra_word(t) % 256
    }

    // btf_array.nelems.
    pub fn array_nelems(&self, t: BtfType) -> u32
        ensures { result ≡ nelems_word self.now.head self.now.section.now t }
    {
        self.word((t.at as usize) + 20)
    }
}
