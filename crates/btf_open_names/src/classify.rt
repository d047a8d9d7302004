// Name classes: for each type and each enumerator the first holder of a name of the same space and the same bytes, and 0,
// void, for a type whose name has no space. They are found by hashing, in scratch words that are 0 again afterwards.
// Holder h is type h below the number of types, and after those an enumerator.
ghost use Rattle.std.specs.Prelude.{◌≡◌, ◌-◌};
ghost use Rattle.btf_open_names.specs.name_classes.Classes.{class_of, key_in, table_classed};
ghost use Rattle.btf_open_names.specs.keys.Keys.{key_list};
ghost use Rattle.btf_open_names.specs.name_classes.Table.{HoldersReady, HolderFinds, holder_placed};

use crate::holders::{Holders, Links};
use crate::keys::{Key, load_key, same_key};
use btf_type_table::cell;
use btf_type_table::table::Table;

// The holders of a bucket, each the first of its name.
const CLASSES: Links = Links {
    first: cell::CLASS_BUCKET,
    next: cell::CLASS_LINK,
};

// The class of h, which has a space, by the table of the holders before it. A link is one more than a holder, and 0 ends the list.
fn find(all: &Holders, work: &[u8], h: u32, bucket: u32, key: Key) -> u32
    requires { HolderFinds all.now.table.head all.now.table.section.now work.now h bucket
        × (key_list all.now.table.section.now key ≡ key_in all.now.table.head all.now.table.section.now work.now h) }
    ensures { result ≡ class_of (key_in all.now.table.head all.now.table.section.now work.now) h }
{
    let mut l = cell::CLASS_BUCKET.get(work, all.table.head.types, bucket);
    // A `while` that ends because the links fall. (`successors` is endless: with `take` it would count besides, only to end.)
    while l != 0 {
        let c = l - 1;
        if same_key(all.table.section, load_key(&all.table, work, c), Some(key)) {
            return c;
        }
        l = cell::CLASS_LINK.get(work, all.table.head.types, c);
    }
    h
}

// Finds the class of k, and puts k into the table if it is the first of its class. Without a space its class is void's, 0.
fn put_holder(all: &Holders, work: &mut [u8], k: u32)
    requires { HoldersReady all.now.table.head all.now.table.section.now work.old all.now.n k }
    ensures { work.new ≡ holder_placed all.now.table.head all.now.table.section.now work.old all.now.n k }
{
    let Some(key) = load_key(&all.table, work, k) else {
        cell::CLASS_LINK.put(work, all.table.head.types, k, 0);
        cell::NAME_CLASS.put(work, all.table.head.types, k, 0);
        return;
    };
    let i = key.hash(all.table.section) % all.n;
    let r = find(all, work, k, i, key);
    if r == k {
        CLASSES.put_in_front(work, all.table.head.types, i, k, k + 1);
    } else {
        cell::CLASS_LINK.put(work, all.table.head.types, k, 0);
    }
    cell::NAME_CLASS.put(work, all.table.head.types, k, r);
}

// Sets the class of each holder. Work that is too short stays as it is.
fn classify(all: &Holders, work: &mut [u8])
    ensures { work.new ≡ table_classed all.now.table.head (all.now.n - all.now.table.head.types) all.now.table.section.now work.old }
{
    if !all.fit(work) {
        return;
    }
    all.clear(work, cell::CLASS_BUCKET);
    for k in 0..all.n {
        put_holder(all, work, k);
    }
    all.clear(work, cell::CLASS_LINK);
    all.clear(work, cell::CLASS_BUCKET);
}

// Sets the class of each type and each enumerator. Work that is too short stays as it is, and so it does where the holders
// are too many to be numbered.
pub fn classes(b: &Table, enumerators: u32, work: &mut [u8])
    ensures { work.new ≡ table_classed b.now.head enumerators b.now.section.now work.old }
{
    if let Some(all) = Holders::of(b, enumerators) {
        classify(&all, work);
    }
}
