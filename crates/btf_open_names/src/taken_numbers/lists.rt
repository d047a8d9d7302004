// Each name that is another one of its space with a suffix is put on that one's list.
ghost use Rattle.std.specs.Prelude.{◌≡◌, ◌-◌, ◌<◌};
ghost use Rattle.btf_open_names.specs.filled_work.Takers.{listed_on, taker_put, with_takers, takers_in};
ghost use Rattle.btf_open_names.specs.hash_table.Hashed.{TableIf};

use crate::hash_table::{clear_table, make_table};
use crate::holders::{Holders, Links};
use crate::keys::load_key;
use crate::suffixes::{Base, has_suffix};
use crate::taken_numbers::bases::base;
use btf_open_causes::header::{Mode, has_mode};
use btf_type_table::cell;
use btf_type_table::table::Table;

// The holders whose names take a number of a name.
const TAKERS: Links = Links {
    first: cell::FIRST_TAKER,
    next: cell::NEXT_TAKER,
};

// Puts h in front of the list of its base, with the number that its name takes.
fn put_on(work: &mut [u8], types: u32, base: Base, h: u32)
    ensures { work.new ≡ listed_on types base.holder h base.number work.old }
{
    TAKERS.put_in_front(work, types, base.holder, h, h);
    cell::TAKEN_NUMBER.put(work, types, h, base.number);
}

// Puts h on a list, if it is the first of its name and there is a name that it is with a suffix.
fn put_taker(all: &Holders, work: &mut [u8], h: u32, has_table: bool)
    requires { (h < all.now.n) × TableIf has_table all.now.table.head all.now.table.section.now work.old all.now.n }
    ensures { work.new ≡ taker_put all.now.table.head all.now.table.section.now all.now.n h work.old }
{
    if cell::NAME_CLASS.get(work, all.table.head.types, h) != h {
        return;
    }
    let Some(key) = load_key(&all.table, work, h) else {
        return;
    };
    if !has_suffix(key.from_name(all.table.section)) {
        return;
    }
    if let Some(base) = base(all, work, h, has_table) {
        put_on(work, all.table.head.types, base, h);
    }
}

// All holders, from the last to the first, so that those on a list stand in rising order. The work that opening has filled
// has room for the table.
fn put_takers(all: &Holders, work: &mut [u8])
    ensures { work.new ≡ with_takers all.now.table.head (all.now.n - all.now.table.head.types) all.now.table.section.now work.old }
{
    let has_table = make_table(&all.table, all.n - all.table.head.types, work);
    for h in (1..all.n).rev() {
        put_taker(all, work, h, has_table);
    }
    if has_table {
        clear_table(work, all.table.head.types, all.n);
    }
}

// The mode of names that cannot collide. Without it there are no lists.
pub fn takers(b: &Table, modes: u32, enumerators: u32, work: &mut [u8])
    ensures { work.new ≡ takers_in modes b.now.head enumerators b.now.section.now work.old }
{
    if !has_mode(modes, Mode::NamesApart) {
        return;
    }
    if let Some(all) = Holders::of(b, enumerators) {
        put_takers(&all, work)
    }
}
