// What the functions of a call share, and only read.
// (What they write, work, text, list and leads, stays four parameters. As a struct of four `&mut`, tried at `end`, each function owes that
// the fields keep their references; of a field's bytes none is known to be below 256, so that `end` did not prove; and a call that lends
// two fields of such a local gets no generated proof.)
ghost use Rattle.std.specs.Prelude.{◌≤◌};

use crate::options::Options;
use btf_type_table::table::Table;
use spec_session::session::Session;

// A call: the session as its record has it, the section that is lent with it, and the options.
#[derive(Clone, Copy)]
pub struct Call<'a> {
    pub session: Session,
    pub section: &'a [u8],
    pub options: Options,
}

// The requests of a call on a current session: the table that they read, of no more types than the leaders serve.
#[derive(Clone, Copy)]
pub struct Requests<'a> {
    pub table: Table<'a>,
    pub options: Options,
    ghost few: { table.head.types ≤ 262145 },
}
