// The calls of a session whose record is lent by `&mut`: thin entry points over the calls by value of `open_call` and
// `requests`.
ghost use Rattle.std.specs.Prelude.{◌≡◌, []};
ghost use Rattle.spec_session.specs.session.Answers.{answer_is};
ghost use Rattle.spec_session.specs.session.Turns.{call_of};
ghost use Rattle.spec_session.specs.calls.Calls.{open_call, type_call, types_call};
ghost use Rattle.spec_session.specs.calls.Lists.{ids_in, list_call};
ghost use Rattle.session_requests.specs.declared.options.Options.TheVariants.{Plain};
ghost use Rattle.session_requests.specs.options.Lists.{call_with};

use crate::call::Call;
use crate::open_call::open_core;
use crate::options::{Options, Wanted};
use spec_session::session::{Refused, Session};

pub fn open(
    s: &mut Session,
    section: &[u8],
    work: &mut [u8],
    text: &mut [u8],
    pointer_size: u32,
    modes: u32,
) -> Result<u32, Refused>
    ensures { call_of s.new (answer_is result) work.new text.new
        ≡ open_call s.old section.now work.old text.old pointer_size modes }
{
    let turn = open_core(*s, section, work, text, pointer_size, modes);
    *s = turn.session;
    turn.answer
}

// A call without options, by what is wanted.
fn requested(
    s: &mut Session,
    section: &[u8],
    work: &mut [u8],
    text: &mut [u8],
    wanted: Wanted,
) -> Result<u32, Refused>
    ensures { call_of s.new (answer_is result) work.new text.new
        ≡ (call_with Plain s.old section.now work.old text.old wanted.entry []).call }
{
    let call = Call {
        session: *s,
        section,
        options: Options::Plain,
    };
    let turn = call.request(work, text, &mut [0u8; 0], wanted).of;
    *s = turn.session;
    turn.answer
}

pub fn dump_type(
    s: &mut Session,
    section: &[u8],
    work: &mut [u8],
    text: &mut [u8],
    id: u32,
) -> Result<u32, Refused>
    ensures { call_of s.new (answer_is result) work.new text.new ≡ type_call s.old section.now
        work.old text.old id }
{
    requested(s, section, work, text, Wanted::One(id))
}

pub fn dump_types(
    s: &mut Session,
    section: &[u8],
    work: &mut [u8],
    text: &mut [u8],
) -> Result<u32, Refused>
    ensures { call_of s.new (answer_is result) work.new text.new
        ≡ types_call s.old section.now work.old text.old }
{
    requested(s, section, work, text, Wanted::All)
}

// The single requests for the ids of a list, four bytes each, to the first that is refused; the value is how many were
// accepted.
pub fn dump_list(
    s: &mut Session,
    section: &[u8],
    work: &mut [u8],
    text: &mut [u8],
    ids: &[u8],
) -> Result<u32, Refused>
    ensures { call_of s.new (answer_is result) work.new text.new
        ≡ list_call s.old section.now work.old text.old (ids_in ids.now) }
{
    requested(s, section, work, text, Wanted::Ids(ids))
}
