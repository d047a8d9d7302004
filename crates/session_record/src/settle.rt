// What every call of a session shares: cause 11, and how it ends.
ghost use Rattle.std.specs.Prelude.{◌≡◌, leb, ltb, length};
ghost use Rattle.spec_bytes.specs.Refusals.{refusal_number};
ghost use Rattle.spec_session.specs.session.Answers.{answer_is, answer_of, stop_number, stays_open};
ghost use Rattle.spec_session.specs.session.Turns.{call_of, refused_turn, is_current, reach_of, with_text, then_zeros, visits_in, settled};

use crate::numbered::{NumberedReach, settle_number, stop_number};
use base_bytes::refusal::Refusal;
use base_bytes::word::{clear, get_word};
use btf_type_table::cell;
use spec_session::session::{Reached, Refused, Session, Turn};

// The answer of requests that were stopped by a refusal, or by none.
#[tactic(auto, using(spec_session::proofs::session::Laws::refused_is), unfolding(spec_session::specs::session::Answers::answer_of))]
pub fn answer_of(stop: Option<Refusal>, value: u32) -> Result<u32, Refused>
    ensures { answer_is result ≡ answer_of (stop_number stop) value }
{
    match stop {
        None => Ok(value),
        Some(refusal) => Err(Refused { refusal, value }),
    }
}

// A refused call that leaves the session as it is.
pub fn refused(s: Session, refusal: Refusal, value: u32) -> Turn
    ensures { result ≡ refused_turn s refusal value }
{
    Turn {
        session: s,
        answer: Err(Refused { refusal, value }),
    }
}

// As is_kept, of any number.
pub(crate) fn is_kept_number(number: u32) -> bool
    ensures { result ≡ ltb number 12 }
{
    number < u32::from(Refusal::TooDeep)
}

// Whether a refusal leaves the session and its record as they were: 10 and 11 do, and those of opening, which come to no request.
pub fn is_kept(refusal: Refusal) -> bool
    ensures { result ≡ ltb (refusal_number refusal) 12 }
{
    is_kept_number(u32::from(refusal))
}

// As stays_open, of any number.
pub(crate) fn stays_open_number(number: u32) -> bool
    ensures { result ≡ leb number 10 }
{
    number <= u32::from(Refusal::NoSuchId)
}

// Whether the session stays open: after no refusal, and after 10 (those of opening come to no request). 11 is tested before.
pub fn stays_open(stop: Option<Refusal>) -> bool
    ensures { result ≡ stays_open stop }
{
    match stop {
        None => true,
        Some(refusal) => stays_open_number(u32::from(refusal)),
    }
}

// Cause 11 does not hold.
#[tactic(auto, unfolding(spec_session::specs::session::Turns::is_current))]
pub fn is_current(s: Session, section_len: usize, work_len: usize, text_len: usize) -> bool
    ensures { result ≡ is_current s section_len work_len text_len }
{
    s.open
        && s.section_len == section_len as u64
        && s.work_len == work_len as u64
        && s.text_len as usize <= text_len
}

// The session after its requests, open or closed.
pub fn with_text(s: Session, open: bool, len: u32, visits: u32) -> Session
    ensures { result ≡ with_text s «open» len visits }
{
    Session {
        open,
        text_len: len,
        visits,
        ..s
    }
}

// Zeroes what follows the first bytes, of a text or of a list.
#[tactic(auto, unfolding(spec_session::specs::session::Turns::then_zeros))]
pub fn clear_from(bytes: &mut [u8], from: usize)
    ensures { bytes.new ≡ then_zeros (length bytes.old) from bytes.old }
{
    let len = bytes.len();
    clear(&mut bytes[from.min(len)..]);
}

// The visits that the work counts, in a word of void.
#[tactic(auto, unfolding(spec_session::specs::session::Turns::visits_in))]
pub fn visits_in(work: &[u8]) -> u32
    ensures { result ≡ visits_in work.now }
{
    get_word(work, cell::VISITS as usize)
}

// The end of a call: what follows the text is zero; after a refusal so is the work, and the session is closed. The record gets the
// visits that the work counts, or those that it counted before the refused request.
pub fn settle(s: Session, work: &mut [u8], text: &mut [u8], r: Reached) -> Turn
    ensures { call_of result.session (answer_is result.answer) work.new text.new
        ≡ settled s (length work.old) (length text.old) (reach_of r work.old text.old) }
{
    let by_number = NumberedReach {
        len: r.len,
        number: stop_number(r.stop),
        visits: r.visits,
    };
    let t = settle_number(s, work, text, by_number);
    Turn {
        session: t.session,
        answer: answer_of(r.stop, t.value),
    }
}
