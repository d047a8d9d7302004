// The session record, as bytes, after each call of C.
ghost use Rattle.std.specs.Prelude.{◌≡◌};
ghost use Rattle.spec_session.specs.session.Answers.{answer_is, number_of, value_of};
ghost use Rattle.session_record.specs.record_words.Words.{packed};
ghost use Rattle.session_record.specs.record_bytes.Record.{record_opened, record_after, record_listed};

use crate::numbered::{answered_number, listed_number, numbered, opened_number};
use spec_session::session::Turn;

// Opening writes the record whole, and a refused opening leaves it.
pub fn opened(record: &mut [u8], t: Turn) -> u64
    ensures { (result ≡ packed (answer_is t.answer))
        × («record».new ≡ record_opened (answer_is t.answer) t.session «record».old) }
{
    opened_number(record, numbered(t))
}

// A request changes the text length and the visits, and the open word where it closes the session; 10 and 11 change nothing.
pub fn answered(record: &mut [u8], t: Turn) -> u64
    ensures { (result ≡ packed (answer_is t.answer))
        × («record».new ≡ record_after (answer_is t.answer) t.session.visits «record».old) }
{
    answered_number(record, numbered(t))
}

// A list changes them if an id was accepted.
pub fn listed(record: &mut [u8], t: Turn) -> u64
    ensures { (result ≡ packed (answer_is t.answer))
        × («record».new ≡ record_listed (number_of (answer_is t.answer)) (value_of (answer_is t.answer))
        t.session.text_len t.session.visits «record».old) }
{
    listed_number(record, numbered(t))
}
