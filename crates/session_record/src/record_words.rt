// The session record as it crosses to C: sixteen words of 64 bits, least significant byte first: open, section length, work
// length, types, enumerators, text length, pointer size, modes, visits, and seven of zero. An answer is its number in the upper half
// of 64 bits and its value in the lower.
ghost use Rattle.std.specs.Prelude.{◌≡◌, ◌<◌};
ghost use Rattle.spec_session.specs.session.Answers as answers;
ghost use Rattle.spec_session.specs.session.Answers.{alone, answer_is};
ghost use Rattle.session_record.specs.record_words.Words.{packed, get_long, put_long, put_reached, decoded, encoded_last, encoded};
ghost use Rattle.session_record.specs.record_words.Words.{unused_zero};

use base_bytes::limit;
use base_bytes::refusal::Refusal;
use base_bytes::word::{get_word, put_word};
use spec_session::session::{Refused, Session};

// Bytes of the record.
pub const RECORD_BYTES: usize = 128;

// Words of the record that are used, of sixteen.
const USED_WORDS: usize = 9;

// Answers of a refusal and the value 0: 11, 19, and 255 for a slice that is shorter than C promises, which is no refusal's number.
pub const ANSWER_CLOSED: u64 = 11 * limit::TWO_TO_32;

pub const ANSWER_NO_DECLARATION: u64 = 19 * limit::TWO_TO_32;

pub const ANSWER_SHORT_SLICE: u64 = 255 * limit::TWO_TO_32;

// Any number and value; of an answer that is accepted the number is 0.
pub fn pack(number: u32, value: u32) -> u64
    ensures { result ≡ packed (answers.Refused number value) }
{
    (number as u64) * limit::TWO_TO_32 + (value as u64)
}

pub fn number_and_value(a: Result<u32, Refused>) -> u64
    ensures { result ≡ packed (answer_is a) }
{
    match a {
        Ok(value) => value as u64,
        Err(r) => pack(u32::from(r.refusal), r.value),
    }
}

// The same of a call that says nothing beside its refusal.
pub fn number_or_value(a: Result<u32, Refusal>) -> u64
    ensures { result ≡ packed (alone a) }
{
    number_and_value(a.map_err(|refusal| Refused { refusal, value: 0 }))
}

// Word i of the record. (Two words of 32 bits, as the definition has it: first_chunk and from_le_bytes, or copy_from_slice of to_le_bytes,
// pass over the half word at the end of a record of 12 bytes, so that neither equation holds without a case for it.)
fn get_long(record: &[u8], i: usize) -> u64
    requires { i < 16 }
    ensures { result ≡ get_long «record».now i }
{
    let low = get_word(record, i * 2);
    let high = get_word(record, i * 2 + 1);
    (high as u64) * limit::TWO_TO_32 + (low as u64)
}

fn put_long(record: &mut [u8], i: usize, v: u64)
    requires { i < 16 }
    ensures { «record».new ≡ put_long «record».old i v }
{
    put_word(record, i * 2, (v % limit::TWO_TO_32) as u32);
    put_word(record, i * 2 + 1, (v / limit::TWO_TO_32) as u32);
}

// A record that is closed: its first word is 0.
pub fn shut(record: &mut [u8])
    ensures { «record».new ≡ put_long «record».old 0 0 }
{
    put_long(record, 0, 0)
}

// The record's value; of a word that holds 32 bits the upper half does not matter.
pub fn decode(record: &[u8]) -> Session
    ensures { result ≡ decoded «record».now }
{
    Session {
        open: get_long(record, 0) == 1,
        section_len: get_long(record, 1),
        work_len: get_long(record, 2),
        types: get_word(record, 6),
        enumerators: get_word(record, 8),
        text_len: get_word(record, 10),
        pointer_size: get_word(record, 12),
        modes: get_word(record, 14),
        visits: get_word(record, 16),
    }
}

// Writes the words that opening decides; the rest of the sixteen is zero.
pub fn encode(record: &mut [u8], s: Session)
    ensures { «record».new ≡ encoded s «record».old }
{
    put_long(record, 0, 1);
    put_long(record, 1, s.section_len);
    put_long(record, 2, s.work_len);
    put_long(record, 3, s.types as u64);
    put_long(record, 4, s.enumerators as u64);
    encode_rest(record, s);
}

fn encode_rest(record: &mut [u8], s: Session)
    ensures { «record».new ≡ encoded_last s «record».old }
{
    put_long(record, 5, s.text_len as u64);
    put_long(record, 6, s.pointer_size as u64);
    put_long(record, 7, s.modes as u64);
    put_long(record, 8, s.visits as u64);
    clear_unused(record);
}

// (No fill: a record may be shorter than its words, and of a word of 32 bits that lies partly inside put_long writes no byte. Its loop is
// proved with the definition folded.)
#[tactic(auto)]
fn clear_unused(record: &mut [u8])
    ensures { «record».new ≡ unused_zero 7 «record».old }
{
    for i in USED_WORDS..16 {
        put_long(record, i, 0);
    }
}

// What a request writes: the length of the text, and the visits.
pub fn put_reached(record: &mut [u8], len: u32, visits: u32)
    ensures { «record».new ≡ put_reached «record».old len visits }
{
    put_long(record, 5, len as u64);
    put_long(record, 8, visits as u64);
}
