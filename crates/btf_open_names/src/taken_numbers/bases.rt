// Of which holder's name a name is that name with a suffix: by the table of holders, or by a walk over them where there is none.
ghost use Rattle.std.specs.Prelude.{◌≡◌, ◌-◌, ◌<◌};
ghost use Rattle.btf_open_names.specs.name_classes.Classes.{key_in};
ghost use Rattle.btf_open_names.specs.filled_work.Takers.{base_from};
ghost use Rattle.btf_open_names.specs.hash_table.Hashed.{Table as IsFilled, TableIf};
ghost use Rattle.btf_open_names.specs.suffixes.Based.{based};

use crate::holders::Holders;
use crate::keys::load_key;
use crate::suffixes::{Base, base_at, base_of, hash_before};
use btf_type_table::cell;

// The base of h. It stands in the bucket of what is before the suffix.
fn base_in(all: &Holders, work: &[u8], h: u32) -> Option<Base>
    requires { (h < all.now.n) × IsFilled all.now.table.head all.now.table.section.now work.now all.now.n }
    ensures { result
        ≡ based (key_in all.now.table.head all.now.table.section.now work.now) h
        (base_from (key_in all.now.table.head all.now.table.section.now work.now) h (all.now.n - 1) 1) }
{
    let key = load_key(&all.table, work, h)?;
    let i = hash_before(key.from_name(all.table.section), u32::from(key.space)) % all.n;
    let mut c = cell::TABLE_BUCKET.get(work, all.table.head.types, i);
    // A `while` that ends because the links rise. (`successors` is endless: with `take` it would count besides, only to end.)
    while c != 0 {
        if let Some(base) = base_at(&all.table, work, c, key) {
            return Some(base);
        }
        c = cell::TABLE_LINK.get(work, all.table.head.types, c);
    }
    None
}

// The same, by the table if there is one. (A flag: of an `F: Fn` in its place, put_taker and the loop around it would have to require
// what it answers on each work of the loop, and that of `base_in` stands on a table there.)
pub(crate) fn base(all: &Holders, work: &[u8], h: u32, has_table: bool) -> Option<Base>
    requires { (h < all.now.n) × TableIf has_table all.now.table.head all.now.table.section.now work.now all.now.n }
    ensures { result
        ≡ based (key_in all.now.table.head all.now.table.section.now work.now) h
        (base_from (key_in all.now.table.head all.now.table.section.now work.now) h (all.now.n - 1) 1) }
{
    if has_table {
        return base_in(all, work, h);
    }
    base_of(&all.table, work, all.n, h)
}
