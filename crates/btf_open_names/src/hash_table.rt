// The holders of names by the hash of their names: a table in two words of each, which are 0 before and afterwards.
// Holder h is type h below the number of types, and after those an enumerator. (It is not the table of `classify`, which has the first
// holder of each name alone, in falling order, and is searched while it grows.)
ghost use Rattle.std.specs.Prelude.{◌≡◌, ◌-◌, ◌<◌};
ghost use Rattle.btf_open_names.specs.name_classes.Classes.{noughts};
ghost use Rattle.btf_open_names.specs.hash_table.Hashed.{over, put_first, has_room, table_in};

use crate::holders::{Holders, Links, clear};
use crate::keys::load_key;
use btf_type_table::cell;
use btf_type_table::table::Table;

// The holders of a bucket.
const BUCKETS: Links = Links {
    first: cell::TABLE_BUCKET,
    next: cell::TABLE_LINK,
};

// Puts holder c in front of its bucket, if it has a space.
fn put_first(all: &Holders, work: &mut [u8], c: u32)
    requires { c < all.now.n }
    ensures { work.new ≡ put_first all.now.table.head all.now.table.section.now all.now.n c work.old }
{
    let Some(key) = load_key(&all.table, work, c) else {
        return;
    };
    let i = key.hash(all.table.section) % all.n;
    BUCKETS.put_in_front(work, all.table.head.types, i, c, c);
}

// Whether the work is long enough for all holders, and both words of each are 0.
fn has_room(all: &Holders, work: &[u8]) -> bool
    ensures { result ≡ has_room all.now.table.head.types (all.now.n - all.now.table.head.types) work.now }
{
    if !all.fit(work) {
        return false;
    }
    all.all_zero(work, cell::TABLE_BUCKET) && all.all_zero(work, cell::TABLE_LINK)
}

// Makes the table, from the last holder to the first, so that those of a bucket stand in rising order.
fn put_table(all: &Holders, work: &mut [u8]) -> bool
    ensures { (result ≡ has_room all.now.table.head.types (all.now.n - all.now.table.head.types) work.old)
        × (work.new ≡ table_in all.now.table.head (all.now.n - all.now.table.head.types) all.now.table.section.now work.old) }
{
    if !has_room(all, work) {
        return false;
    }
    for k in (1..all.n).rev() {
        put_first(all, work, k);
    }
    true
}

// Makes the table of all holders. Without room for it the work stays as it is; the answer says which.
pub fn make_table(b: &Table, enumerators: u32, work: &mut [u8]) -> bool
    ensures { (result ≡ has_room b.now.head.types enumerators work.old)
        × (work.new ≡ table_in b.now.head enumerators b.now.section.now work.old) }
{
    match Holders::of(b, enumerators) {
        Some(all) => put_table(&all, work),
        None => false,
    }
}

// Sets both words of the first n holders to 0.
pub fn clear_table(work: &mut [u8], types: u32, n: u32)
    ensures { work.new ≡ over types n noughts noughts work.old }
{
    clear(work, types, n, cell::TABLE_LINK);
    clear(work, types, n, cell::TABLE_BUCKET);
}
