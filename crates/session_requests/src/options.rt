// The options of a request, and what a call with them comes to.
ghost use Rattle.std.specs.Prelude.{◌≡◌};
ghost use Rattle.session_requests.specs.options.Options.{is_listed, ceiling_of};

use spec_session::session::{Reached, Tally, Turn};

// What a call asks for: one id, all ids, or those of a list, four bytes each.
#[derive(Clone, Copy)]
pub enum Wanted<'a> {
    One(u32),
    All,
    Ids(&'a [u8]),
}

// What a call is told beside its ids: nothing; a ceiling on the calls of ordering, which its requests share; or that the lent list
// gets an entry for each line. (The list stands beside it: the definition of a call zeroes a list that is lent without Listed too, and a
// `&mut` in here could not be copied into the requests, which read their options while they write the list.)
#[derive(Clone, Copy)]
pub enum Options {
    Plain,
    Within(u64),
    Listed,
}

impl Options {
    pub fn is_listed(self) -> bool
        ensures { result ≡ is_listed self }
    {
        match self {
            Options::Listed => true,
            Options::Plain | Options::Within(_) => false,
        }
    }

    pub fn ceiling(self) -> Option<u64>
        ensures { result ≡ ceiling_of self }
    {
        match self {
            Options::Within(calls) => Some(calls),
            Options::Plain | Options::Listed => None,
        }
    }
}

// How many entries the list has, and the calls of ordering made under a ceiling, beside what is told of the requests.
#[derive(Clone, Copy)]
pub struct Counted<T> {
    pub of: T,
    pub count: usize,
    pub made: u64,
}

impl<T> Counted<T> {
    // Before any entry and any call of ordering.
    pub(crate) fn none(of: T) -> Counted<T>
        ensures { result ≡ record { of = of; count = 0; made = 0 } }
    {
        Counted {
            of,
            count: 0,
            made: 0,
        }
    }
}

// Where the requests of a call have come to, and the ids of a list; and what a call comes to.
pub type Progress = Counted<Reached>;

pub type Tallied = Counted<Tally>;

pub type Ended = Counted<Turn>;
