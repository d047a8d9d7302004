// Opening, the first call of a session, by value.
ghost use Rattle.std.specs.Prelude.{◌≡◌};
ghost use Rattle.spec_session.specs.session.Answers.{answer_is};
ghost use Rattle.spec_session.specs.session.Turns.{call_of};
ghost use Rattle.spec_session.specs.calls.Calls.{open_call};

use session_record::settle::refused;
use spec_session::session::{Session, Turn};

// Four modes, a bit each: other bits are ignored.
const SETS_OF_MODES: u32 = 16;

pub fn open_core(
    s: Session,
    section: &[u8],
    work: &mut [u8],
    text: &mut [u8],
    pointer_size: u32,
    modes: u32,
) -> Turn
    ensures { call_of result.session (answer_is result.answer) work.new text.new
        ≡ open_call s section.now work.old text.old pointer_size modes }
{
    let section_len = section.len() as u64;
    let work_len = work.len() as u64;
    match btf_open::opening::open(section, pointer_size, modes, work, text) {
        Err(refusal) => refused(s, refusal, 0),
        Ok(counts) => Turn {
            session: Session {
                open: true,
                section_len: section_len,
                work_len: work_len,
                types: counts.types,
                enumerators: counts.enumerators,
                text_len: 0,
                pointer_size: pointer_size,
                modes: modes % SETS_OF_MODES,
                visits: 0,
            },
            answer: Ok(counts.types),
        },
    }
}
