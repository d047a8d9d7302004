// What the program does with a section: every id, pointer size 8, unions under their own word.
ghost use Rattle.std.specs.Prelude.{◌≡◌};
ghost use Rattle.spec_session.specs.calls.Calls.{types_call};
ghost use Rattle.btfdump_run.specs.printed.Printed.{ran_to, ran_all, ran_on};

use crate::printed::put_refused;
use session_requests::call::Call;
use session_requests::open_call::open_core;
use session_requests::options::{Options, Wanted};
use spec_session::session::Session;

// Leaves what is printed at the start of the text: how long it is, if it fits. (No slice of the text, tried: a
// text that goes into the result has no value after the call, and the contract tells the whole of it.)
pub fn run(section: &[u8], work: &mut [u8], text: &mut [u8]) -> Option<usize>
    ensures { ran_to result text.new work.new
        ≡ ran_on section.now work.old text.old }
{
    let opened = open_core(Session::default(), section, work, text, 8, 0);
    match opened.answer {
        Ok(_) => run_all(opened.session, section, work, text),
        Err(r) => put_refused(text, r.refusal),
    }
}

fn run_all(s: Session, section: &[u8], work: &mut [u8], text: &mut [u8]) -> Option<usize>
    ensures { ran_to result text.new work.new
        ≡ ran_all (types_call s section.now work.old text.old) }
{
    let call = Call {
        session: s,
        section,
        options: Options::Plain,
    };
    let d = call.request(work, text, &mut [0u8; 0], Wanted::All);
    match d.of.answer {
        Ok(len) => Some(len as usize),
        Err(r) => put_refused(text, r.refusal),
    }
}
