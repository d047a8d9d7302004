// Of which holder's name a name is that name with a suffix.
ghost use Rattle.std.specs.Prelude.{◌≡◌, ◌-◌, unwrap_or};
ghost use Rattle.btf_open_names.specs.name_classes.Classes.{key_in};
ghost use Rattle.btf_open_names.specs.filled_work.Takers.{suffix_on, base_from};
ghost use Rattle.btf_open_names.specs.keys.Keys.{key_list, loaded};
ghost use Rattle.btf_open_names.specs.suffixes.Based.{base_with, based};

use crate::keys::{Key, load_key};
use crate::suffixes::suffix::{FIRST_SUFFIX, suffix_on};
use btf_type_table::table::Table;

// Of a name with a suffix: the first holder of the name before it, and the number after it.
#[derive(Clone, Copy)]
pub struct Base {
    pub holder: u32,
    pub number: u32,
}

// The number with which the key y is x with a suffix.
pub fn key_suffix(section: &[u8], x: Option<Key>, y: Option<Key>) -> Option<u32>
    ensures { unwrap_or result 0 ≡ suffix_on (loaded section.now x) (loaded section.now y) }
{
    let x = x?;
    let y = y?;
    if x.space != y.space {
        return None;
    }
    suffix_on(x.from_name(section), y.from_name(section))
}

// Holder c as the base of a key.
pub fn base_at(b: &Table, work: &[u8], c: u32, key: Key) -> Option<Base>
    ensures { result
        ≡ base_with c (suffix_on (key_in b.now.head b.now.section.now work.now c) (key_list b.now.section.now key)) }
{
    let number = key_suffix(b.section, load_key(b, work, c), Some(key))?;
    if number < FIRST_SUFFIX {
        return None;
    }
    Some(Base { holder: c, number })
}

// The base of h: the first holder below n whose name, with a suffix, is that of h.
pub fn base_of(b: &Table, work: &[u8], n: u32, h: u32) -> Option<Base>
    ensures { result
        ≡ based (key_in b.now.head b.now.section.now work.now) h
        (base_from (key_in b.now.head b.now.section.now work.now) h (n - 1) 1) }
{
    let key = load_key(b, work, h)?;
    (1..n).find_map(|c| base_at(b, work, c, key))
}
