// The end of calls by the number of what stopped them: any number, of no refusal too; 0 is none.
ghost use Rattle.std.specs.Prelude.{◌≡◌, length};
ghost use Rattle.spec_session.specs.session.Answers.{answer_is, answer_of, number_of, stop_number, value_of};
ghost use Rattle.spec_session.specs.session.Turns.{call_of, settled};
ghost use Rattle.session_record.specs.numbered.Numbered.{arrived_by, list_end_by, reach_by, turn_of};
ghost use Rattle.session_record.specs.record_bytes.Record.{record_opened, record_refused, record_after, record_longer, record_listed};
ghost use Rattle.session_record.specs.record_words.Words.{packed};

use crate::arrival::{clear_after, sum};
use crate::record_words::{encode, pack, put_reached, shut};
use crate::settle::{clear_from, is_kept_number, stays_open_number, visits_in, with_text};
use base_bytes::refusal::Refusal;
use base_bytes::word::clear;
use spec_session::session::{Session, Turn};

// As Turn: the session after a call, the number of what stopped it, and the answer's value.
#[derive(Clone, Copy)]
pub struct NumberedTurn {
    pub session: Session,
    pub number: u32,
    pub value: u32,
}

// As Reached.
#[derive(Clone, Copy)]
pub struct NumberedReach {
    pub len: u32,
    pub number: u32,
    pub visits: u32,
}

// As Tally.
#[derive(Clone, Copy)]
pub struct NumberedTally {
    pub len: u32,
    pub number: u32,
    pub accepted: u32,
    pub visits: u32,
}

// A turn that leaves the session as it is.
pub fn turn_of(s: Session, number: u32, value: u32) -> NumberedTurn
    ensures { result ≡ turn_of s number value }
{
    NumberedTurn {
        session: s,
        number,
        value,
    }
}

// The number of the refusal that stopped the requests of a call.
pub(crate) fn stop_number(stop: Option<Refusal>) -> u32
    ensures { result ≡ stop_number stop }
{
    match stop {
        None => 0,
        Some(refusal) => u32::from(refusal),
    }
}

// A turn by the number of its refusal.
pub(crate) fn numbered(t: Turn) -> NumberedTurn
    ensures { (result.session ≡ t.session) × (answer_of result.number result.value ≡ answer_is t.answer) }
{
    match t.answer {
        Ok(value) => turn_of(t.session, 0, value),
        Err(r) => turn_of(t.session, u32::from(r.refusal), r.value),
    }
}

// What a place in a slice of so many bytes says, after a text of len bytes and so many visits: the new length, or past the end a number.
pub fn arrived_number(len: u32, visits: u32, room: usize, at: usize) -> NumberedReach
    ensures { result ≡ arrived_by len visits room at }
{
    if at <= room {
        return NumberedReach {
            len: sum(len, at),
            number: 0,
            visits,
        };
    }
    NumberedReach {
        len,
        number: sum(0, at - room - 1),
        visits,
    }
}

// The end of a call: what follows the text is zero; after a refusal so is the work, and the session is closed. The record gets the
// visits that the work counts, or those that it counted before the refused request.
pub fn settle_number(s: Session, work: &mut [u8], text: &mut [u8], r: NumberedReach) -> NumberedTurn
    ensures { (call_of result.session (answer_of result.number result.value) work.new text.new
        ≡ settled s (length work.old) (length text.old) (reach_by r work.old text.old))
        × (result.number ≡ r.number) × (result.value ≡ r.len) }
{
    clear_from(text, r.len as usize);
    let is_accepted = r.number == 0;
    if is_accepted {
        return turn_of(with_text(s, true, r.len, visits_in(work)), r.number, r.len);
    }
    clear(work);
    turn_of(with_text(s, false, r.len, r.visits), r.number, r.len)
}

// The end of a call with a list: no number up to 10 closes the session, and 10 leaves what the accepted ids left.
pub fn settle_list_number(
    s: Session,
    work: &mut [u8],
    text: &mut [u8],
    r: NumberedTally,
) -> NumberedTurn
    ensures { (call_of result.session (answer_of result.number result.value) work.new text.new
        ≡ list_end_by s r work.old text.old)
        × (result.number ≡ r.number) × (result.value ≡ r.accepted) }
{
    let len = r.len;
    if stays_open_number(r.number) {
        clear_after(text, r.accepted, len as usize);
        return turn_of(with_text(s, true, len, r.visits), r.number, r.accepted);
    }
    clear_from(text, len as usize);
    clear(work);
    turn_of(with_text(s, false, len, r.visits), r.number, r.accepted)
}

// ---- the record, as bytes

// Opening writes the record whole, and a refused opening leaves it.
pub fn opened_number(record: &mut [u8], t: NumberedTurn) -> u64
    ensures { (result ≡ packed (answer_of t.number t.value))
        × («record».new ≡ record_opened (answer_of t.number t.value) t.session «record».old) }
{
    let is_opened = t.number == 0;
    if is_opened {
        encode(record, t.session);
        return t.value as u64;
    }
    pack(t.number, t.value)
}

// A request changes the text length and the visits, and the open word where it closes the session; 10 and 11 change nothing.
fn store(record: &mut [u8], t: NumberedTurn)
    ensures { «record».new ≡ record_after (answer_of t.number t.value) t.session.visits «record».old }
{
    let is_accepted = t.number == 0;
    if is_accepted {
        return put_reached(record, t.value, t.session.visits);
    }
    store_refused(record, t.number, t.value, t.session.visits)
}

fn store_refused(record: &mut [u8], number: u32, len: u32, visits: u32)
    ensures { «record».new ≡ record_refused number len visits «record».old }
{
    if is_kept_number(number) {
        return;
    }
    shut(record);
    put_reached(record, len, visits)
}

pub fn answered_number(record: &mut [u8], t: NumberedTurn) -> u64
    ensures { (result ≡ packed (answer_of t.number t.value))
        × («record».new ≡ record_after (answer_of t.number t.value) t.session.visits «record».old) }
{
    store(record, t);
    pack(t.number, t.value)
}

// A list changes them if an id was accepted.
fn store_longer(record: &mut [u8], accepted: u32, len: u32, visits: u32)
    ensures { «record».new ≡ record_longer accepted len visits «record».old }
{
    let is_none = accepted == 0;
    if is_none {
        return;
    }
    put_reached(record, len, visits)
}

fn store_list(record: &mut [u8], number: u32, accepted: u32, len: u32, visits: u32)
    ensures { «record».new ≡ record_listed number accepted len visits «record».old }
{
    if is_kept_number(number) {
        return store_longer(record, accepted, len, visits);
    }
    store_refused(record, number, len, visits)
}

pub fn listed_number(record: &mut [u8], t: NumberedTurn) -> u64
    ensures { (result ≡ packed (answer_of t.number t.value))
        × («record».new ≡ record_listed (number_of (answer_of t.number t.value)) (value_of (answer_of t.number t.value))
        t.session.text_len t.session.visits «record».old) }
{
    let s = t.session;
    store_list(record, t.number, t.value, s.text_len, s.visits);
    pack(t.number, t.value)
}
