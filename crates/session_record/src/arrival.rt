// Where a request may write, where it came to, and how a list of ids ends.
ghost use Rattle.std.specs.Prelude.{◌≡◌, ◌+◌};
ghost use Rattle.spec_session.specs.session.Answers.{answer_is};
ghost use Rattle.spec_session.specs.session.Turns.{call_of};
ghost use Rattle.spec_session.specs.calls.Calls.{limit_of};
ghost use Rattle.spec_session.specs.calls.Lists.{count_in, tailed, list_end};
ghost use Rattle.session_record.specs.arrival.Arrival.{clipped, arrived_in};

use crate::numbered::{NumberedTally, settle_list_number, stop_number};
use crate::settle::{answer_of, clear_from};
use base_bytes::limit;
use base_bytes::refusal::Refusal;
use spec_session::session::{Reached, Session, Tally, Turn};

// How far a text slice may be written after its first bytes: 1,073,741,824 bytes at most, but what is written already stays. (No min
// with text_len after all: nothing is asked of from, and the two differ where from is past a long text.)
pub fn limit(text_len: usize, from: usize) -> usize
    ensures { result ≡ limit_of text_len from }
{
    if text_len <= limit::MOST_TEXT {
        return text_len;
    }
    from.max(limit::MOST_TEXT)
}

// A sum of 32 bits, or the largest such number.
pub(crate) fn sum(a: u32, n: usize) -> u32
    ensures { result ≡ clipped (a + n) }
{
    u32::try_from((a as usize).saturating_add(n)).unwrap_or(u32::MAX)
}

// What the place where a request ended says, after a text of len bytes and so many visits: the new length, or the refusal.
pub fn arrived(len: u32, visits: u32, end: Result<usize, Refusal>) -> Reached
    ensures { result ≡ arrived_in len visits end }
{
    match end {
        Ok(at) => Reached {
            len: sum(len, at),
            stop: None,
            visits,
        },
        Err(refusal) => Reached {
            len,
            stop: Some(refusal),
            visits,
        },
    }
}

// How many ids there are: as many as the answer's value can count, at most.
pub fn count_of(ids: &[u8]) -> u32
    ensures { result ≡ count_in ids.now }
{
    u32::try_from(ids.len() / 4).unwrap_or(u32::MAX)
}

// Zeroes what follows the first bytes, of a text or of a list, if an id was accepted.
pub fn clear_after(bytes: &mut [u8], accepted: u32, from: usize)
    ensures { bytes.new ≡ tailed accepted from bytes.old }
{
    let is_none = accepted == 0;
    if is_none {
        return;
    }
    clear_from(bytes, from);
}

// The end of a call with a list: 10 leaves what the accepted ids left, what comes after it closes the session.
pub fn settle_list(s: Session, work: &mut [u8], text: &mut [u8], r: Tally) -> Turn
    ensures { call_of result.session (answer_is result.answer) work.new text.new
        ≡ list_end s r work.old text.old }
{
    let by_number = NumberedTally {
        len: r.len,
        number: stop_number(r.stop),
        accepted: r.accepted,
        visits: r.visits,
    };
    let t = settle_list_number(s, work, text, by_number);
    Turn {
        session: t.session,
        answer: answer_of(r.stop, t.value),
    }
}
