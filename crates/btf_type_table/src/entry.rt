// The entries that follow a record: members, and values of enums. What goes over them counts, `for k in 0..vlen`, and asks for entry k.
// (No iterator of the repository's own: it would hold section, byte order, place and count, and be one for each of what is asked of an
// entry: a member, a type, a name, a value of 32 or of 64 bits. Where a comma, a tag or an enumerator is counted, k is needed beside it.)
ghost use Rattle.std.specs.Prelude.{◌≡◌, ◌+◌, ◌*◌};
ghost use Rattle.spec_type_table.specs.Records.{section_word, member_at, param_at, member_of};

use crate::kind::{kind_flag_of, member_place, param_place};
use crate::table::Table;
use base_bytes::limit;
use spec_type_table::{BtfMember, BtfType, Entries};

// btf_member: with kind_flag the last word is 24 bits of offset and 8 bits of size.
const OFFSETS: u32 = 1 << 24;

impl Table<'_> {
    // Member k.
    pub fn load_member(&self, t: BtfType, k: u32) -> BtfMember
        ensures { result ≡ member_of self.now.head self.now.section.now t k }
    {
        let [name_off, type_id, offset] = self.three(member_place(t.at, k));
        if kind_flag_of(t.info) {
            return BtfMember {
                name_off,
                type_id,
                bit_offset: offset % OFFSETS,
                bit_size: offset / OFFSETS,
            };
        }
        BtfMember {
            name_off,
            type_id,
            bit_offset: offset,
            bit_size: 0,
        }
    }

    // btf_enum.val of value k, its bits.
    pub fn load_enum_value(&self, e: Entries, k: u32) -> u32
        ensures { result ≡ section_word self.now.head self.now.section.now (param_at e.at k + 4) }
    {
        self.word(param_place(e.at, k) + 4)
    }

    // btf_enum64: the low half, then the high half, of value k.
    pub fn load_enum64_value(&self, e: Entries, k: u32) -> u64
        ensures { result ≡ section_word self.now.head self.now.section.now (member_at e.at k + 8) * 4294967296
            + section_word self.now.head self.now.section.now (member_at e.at k + 4) }
    {
        let [_, low, high] = self.three(member_place(e.at, k));
        (high as u64) * limit::TWO_TO_32 + (low as u64)
    }
}
