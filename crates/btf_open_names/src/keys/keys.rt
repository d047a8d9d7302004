// The key of a holder: the space of its name, and where that stands. Holder h is type h below the number of types, and after
// those an enumerator.
ghost use Rattle.std.specs.Prelude.{◌≡◌, drop};
ghost use Rattle.spec_type_table.specs.Records.{kind_of};
ghost use Rattle.btf_open_names.specs.name_classes.Same.{same_list};
ghost use Rattle.btf_open_names.specs.name_classes.Classes.{space_of, space_at, name_of, key_in};
ghost use Rattle.btf_open_names.specs.name_classes.Table.{hash_key};
ghost use Rattle.btf_open_names.specs.keys.Keys.{space_number, space_code, key_list, loaded};

use crate::keys::hash::{hash_name, same_name};
use btf_type_table::cell;
use btf_type_table::table::Table;
use spec_type_table::Kind;

// Where names are told apart: those of tags, and those of typedefs and enumerators.
#[derive(Clone, Copy, PartialEq, Eq)]
pub enum Space {
    Tag,
    Identifier,
}

impl From<Space> for u32 {
    fn from(value: Space) -> u32
        ensures { result ≡ space_number value }
    {
        match value {
            Space::Tag => 0,
            Space::Identifier => 1,
        }
    }
}

// The space of a type's name, by its kind. (An Option and no TryFrom: most kinds have no space, which is no error.)
fn space_of(info: u32) -> Option<Space>
    ensures { space_code result ≡ space_of (kind_of info) }
{
    match Kind::of(info) {
        Kind::Struct | Kind::Union | Kind::Enum | Kind::Fwd | Kind::Enum64 => Some(Space::Tag),
        Kind::Typedef => Some(Space::Identifier),
        _ => None,
    }
}

// The space of the holder h whose record or entry stands at a place. Void has none.
fn space_at(b: &Table, at: u32, h: u32) -> Option<Space>
    ensures { space_code result ≡ space_at b.now.head b.now.section.now at h }
{
    if h == 0 {
        return None;
    }
    if h < b.head.types {
        return space_of(b.word((at as usize) + 4));
    }
    Some(Space::Identifier)
}

// Where the name of the record or entry at a place stands.
fn name_of(b: &Table, at: u32) -> usize
    ensures { result ≡ name_of b.now.head b.now.section.now at }
{
    (b.head.strs as usize) + (b.word(at as usize) as usize)
}

// The space of a holder, and where its name stands. (A place and not the slice: two keys of one place have one name, and no byte of it is
// looked at then.)
#[derive(Clone, Copy)]
pub struct Key {
    pub space: Space,
    pub name: usize,
}

// The key of a holder, if it has a space. A name without a space is not looked at.
pub fn load_key(b: &Table, work: &[u8], h: u32) -> Option<Key>
    ensures { loaded b.now.section.now result ≡ key_in b.now.head b.now.section.now work.now h }
{
    let at = cell::HOLDER_PLACE.get(work, b.head.types, h);
    let space = space_at(b, at, h)?;
    Some(Key {
        space,
        name: name_of(b, at),
    })
}

impl Key {
    // The section from the name on. (`Table::from_name` takes the offset in the string area.)
    pub fn from_name(self, section: &[u8]) -> &[u8]
        ensures { result.now ≡ drop self.name section.now }
    {
        section.get(self.name..).unwrap_or(&[])
    }

    pub fn hash(self, section: &[u8]) -> u32
        ensures { result ≡ hash_key (key_list section.now self) }
    {
        hash_name(self.from_name(section), u32::from(self.space))
    }
}

// Whether two holders' keys have the same space and the same name. Without a space there is no name, so that all such are alike.
pub fn same_key(section: &[u8], x: Option<Key>, y: Option<Key>) -> bool
    ensures { result ≡ same_list (loaded section.now x) (loaded section.now y) }
{
    match (x, y) {
        (Some(x), Some(y)) => {
            x.space == y.space
                && (x.name == y.name || same_name(x.from_name(section), y.from_name(section)))
        }
        (None, None) => true,
        _ => false,
    }
}
