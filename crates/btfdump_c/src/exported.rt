// The calls for C, on numbers and byte slices. The session record crosses as bytes (`session_record::record_bytes`), and an answer as a
// number of 64 bits.

mod ceilings;
mod cuts;
mod declarations;
mod explained;

ghost use Rattle.std.specs.Prelude.{◌≡◌};
ghost use Rattle.spec_c_calls.specs.Exports.{export_of, open_export, type_export, types_export, list_export};
ghost use Rattle.spec_session.specs.calls.Lists.{ids_in};
ghost use Rattle.session_record.specs.record_words.Words.{decoded};
ghost use Rattle.session_requests.specs.options.Requests.{ended_of};
ghost use Rattle.session_requests.specs.options.Lists.{call_with};
ghost use Rattle.spec_c_calls.specs.Field.{path_export_of, field_export};

use session_field_at_bit::field::which_field;
use session_record::record_bytes::{answered, listed, opened};
use session_record::record_words::{ANSWER_SHORT_SLICE, RECORD_BYTES, decode, number_or_value};
use session_requests::call::Call;
use session_requests::open_call::open_core;
use session_requests::options::{Ended, Options, Wanted};
use spec_bytes::refusal::Refusal;

// The head of each call says what a record that is too short leaves, as it differs by call: opening answers 255, the others 11; those of
// `ceilings` and `explained` store a 0 too; and a list of no ids answers 0 before the record is looked at.

#[unsafe(no_mangle)]
pub extern "C" fn btfdump_open(
    record: &mut [u8],
    section: &[u8],
    pointer_size: u32,
    modes: u32,
    work: &mut [u8],
    text: &mut [u8],
) -> u64
    ensures { export_of result «record».new work.new text.new
        ≡ open_export «record».old section.now pointer_size modes work.old text.old }
{
    if record.len() < RECORD_BYTES {
        return ANSWER_SHORT_SLICE;
    }
    let t = open_core(decode(record), section, work, text, pointer_size, modes);
    opened(record, t)
}

// A request on the session of a record, by what is wanted and its options: what nine of the calls share beside their heads. Each
// writes its own words of the record and the numbers that it is lent.
fn request_on(
    record: &[u8],
    section: &[u8],
    work: &mut [u8],
    text: &mut [u8],
    list: &mut [u8],
    wanted: Wanted,
    options: Options,
) -> Ended
    ensures { ended_of result work.new text.new list.new
        ≡ call_with options (decoded «record».now) section.now work.old text.old wanted.entry list.old }
{
    let call = Call {
        session: decode(record),
        section,
        options,
    };
    call.request(work, text, list, wanted)
}

#[unsafe(no_mangle)]
pub extern "C" fn btfdump_dump_type(
    record: &mut [u8],
    section: &[u8],
    work: &mut [u8],
    text: &mut [u8],
    id: u32,
) -> u64
    ensures { export_of result «record».new work.new text.new
        ≡ type_export «record».old section.now work.old text.old id }
{
    if record.len() < RECORD_BYTES {
        return number_or_value(Err(Refusal::SessionClosed));
    }
    let wanted = Wanted::One(id);
    let o = Options::Plain;
    let d = request_on(record, section, work, text, &mut [0u8; 0], wanted, o);
    answered(record, d.of)
}

#[unsafe(no_mangle)]
pub extern "C" fn btfdump_dump_types(
    record: &mut [u8],
    section: &[u8],
    work: &mut [u8],
    text: &mut [u8],
) -> u64
    ensures { export_of result «record».new work.new text.new
        ≡ types_export «record».old section.now work.old text.old }
{
    if record.len() < RECORD_BYTES {
        return number_or_value(Err(Refusal::SessionClosed));
    }
    let wanted = Wanted::All;
    let o = Options::Plain;
    let d = request_on(record, section, work, text, &mut [0u8; 0], wanted, o);
    answered(record, d.of)
}

#[unsafe(no_mangle)]
pub extern "C" fn btfdump_dump_list(
    record: &mut [u8],
    section: &[u8],
    work: &mut [u8],
    text: &mut [u8],
    ids: &[u8],
) -> u64
    ensures { export_of result «record».new work.new text.new
        ≡ list_export «record».old section.now work.old text.old (ids_in ids.now) }
{
    if ids.len() < 4 {
        return 0;
    }
    if record.len() < RECORD_BYTES {
        return number_or_value(Err(Refusal::SessionClosed));
    }
    let wanted = Wanted::Ids(ids);
    let o = Options::Plain;
    let d = request_on(record, section, work, text, &mut [0u8; 0], wanted, o);
    listed(record, d.of)
}

#[unsafe(no_mangle)]
pub extern "C" fn btfdump_field(
    record: &[u8],
    section: &[u8],
    work: &[u8],
    path: &mut [u8],
    id: u32,
    bit: u32,
) -> u64
    ensures { path_export_of result path.new
        ≡ field_export «record».now section.now work.now path.old id bit }
{
    if record.len() < RECORD_BYTES {
        return number_or_value(Err(Refusal::SessionClosed));
    }
    let a = which_field(decode(record), section, work, path, id, bit);
    number_or_value(a)
}
