// Names in the string area: the bytes from a place up to the first 0.
ghost use Rattle.std.specs.Prelude.{◌≡◌, ◌≤◌, ◌-◌, length, take, drop, Ok};
ghost use Rattle.spec_bytes.specs.text.Text.{whole};
ghost use Rattle.spec_bytes.specs.text.Placed.{put_out, put_text};
ghost use Rattle.spec_c_dumper.specs.rules.Types.{is_empty, is_named};
ghost use Rattle.spec_c_dumper.specs.rules.Names as rules;
ghost use Rattle.spec_c_dumper.specs.rules.Names.{starts_with, builtin};
ghost use Rattle.spec_type_table.specs.Names.{name_at, name_place, str_at, up_to_zero};
ghost use Rattle.spec_type_table.specs.Table.{type_of};

use crate::table::Table;
use base_bytes::put::put_bytes;
use base_bytes::refusal::Refusal;
use spec_type_table::{BtfType, Kind};

// The compiler's own type.
const BUILTIN: &[u8] = b"__builtin_va_list";

// What stands before the first 0.
fn up_to_zero(rest: &[u8]) -> &[u8]
    ensures { result.now ≡ up_to_zero rest.now }
{
    let len = rest.iter().position(|c| *c == 0).unwrap_or(rest.len());
    &rest[..len]
}

impl<'a> Table<'a> {
    // The section from the name at an offset of the string area on.
    pub fn from_name(&self, off: u32) -> &'a [u8]
        ensures { result.now ≡ drop (name_place self.now.head off) self.now.section.now }
    {
        let at = (self.head.strs as usize) + (off as usize);
        self.section.get(at..).unwrap_or(&[])
    }

    // The name at an offset.
    #[tactic(auto, unfolding(spec_type_table::specs::Strings::name_at))]
    pub fn get_btf_str(&self, off: u32) -> &'a [u8]
        ensures { result.now ≡ str_at self.now.head self.now.section.now off }
    {
        up_to_zero(self.from_name(off))
    }

    // Writes the name at an offset. Its end is sought no further than a byte past the room: a longer name is refused however it ends.
    #[tactic(auto, using(crate::proofs::name::Within::put_near))]
    pub fn put_str(&self, text: &mut [u8], at: usize, off: u32) -> Result<usize, Refusal>
        ensures { put_out result text.new ≡ put_text text.old (Ok at) (whole (str_at self.now.head self.now.section.now off)) }
    {
        let rest = self.from_name(off);
        let room = text.len().saturating_sub(at);
        put_bytes(text, at, up_to_zero(&rest[..rest.len().min(room + 1)]))
    }

    #[tactic(auto, using(spec_type_table::proofs::NameLaws::empty_first, std::proofs::lemmas::Bool::Decides::nat_tests))]
    pub fn is_empty(&self, off: u32) -> bool
        ensures { result ≡ is_empty (str_at self.now.head self.now.section.now off) }
    {
        matches!(self.from_name(off), [] | [0, ..])
    }

    // NAMES_BLACKLIST: whether the name contains the name of the compiler's own type.
    pub fn is_builtin(&self, off: u32) -> bool
        ensures { result ≡ builtin (str_at self.now.head self.now.section.now off) }
    {
        self.get_btf_str(off)
            .windows(BUILTIN.len())
            .any(|part| part == BUILTIN)
    }

    // Whether BtfType::name() is not empty: some kinds have none.
    #[tactic(auto, using(spec_type_table::proofs::KindTypes::kind_types), unfolding(spec_c_dumper::specs::rules::Types::is_empty))]
    pub fn is_named(&self, t: BtfType) -> bool
        ensures { result ≡ is_named (type_of self.now.head self.now.section.now t) }
    {
        match Kind::of(t.info) {
            Kind::Int
            | Kind::Struct
            | Kind::Union
            | Kind::Enum
            | Kind::Fwd
            | Kind::Typedef
            | Kind::Func
            | Kind::Var
            | Kind::Datasec
            | Kind::Float
            | Kind::DeclTag
            | Kind::TypeTag
            | Kind::Enum64 => !self.is_empty(t.name_off),
            _ => false,
        }
    }
}
