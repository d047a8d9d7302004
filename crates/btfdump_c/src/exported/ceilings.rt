// Requests under a ceiling on the calls of the ordering rule, for C. How many were made is stored in `made`.
ghost use Rattle.std.specs.Prelude.{◌≡◌};
ghost use Rattle.spec_c_calls.specs.Ceilings.{within_export_of, type_within_export, types_within_export, list_within_export};
ghost use Rattle.spec_session.specs.calls.Lists.{ids_in};

use crate::exported::request_on;
use session_record::record_bytes::{answered, listed};
use session_record::record_words::{RECORD_BYTES, number_or_value};
use session_requests::options::{Options, Wanted};
use spec_bytes::refusal::Refusal;

#[unsafe(no_mangle)]
pub extern "C" fn btfdump_dump_type_within(
    record: &mut [u8],
    section: &[u8],
    work: &mut [u8],
    text: &mut [u8],
    id: u32,
    ceiling: u64,
    made: &mut u64,
) -> u64
    ensures { within_export_of result «record».new work.new text.new made.new
        ≡ type_within_export ceiling «record».old section.now work.old text.old id }
{
    if record.len() < RECORD_BYTES {
        *made = 0;
        return number_or_value(Err(Refusal::SessionClosed));
    }
    let wanted = Wanted::One(id);
    let o = Options::Within(ceiling);
    let d = request_on(record, section, work, text, &mut [0u8; 0], wanted, o);
    *made = d.made;
    answered(record, d.of)
}

#[unsafe(no_mangle)]
pub extern "C" fn btfdump_dump_types_within(
    record: &mut [u8],
    section: &[u8],
    work: &mut [u8],
    text: &mut [u8],
    ceiling: u64,
    made: &mut u64,
) -> u64
    ensures { within_export_of result «record».new work.new text.new made.new
        ≡ types_within_export ceiling «record».old section.now work.old text.old }
{
    if record.len() < RECORD_BYTES {
        *made = 0;
        return number_or_value(Err(Refusal::SessionClosed));
    }
    let wanted = Wanted::All;
    let o = Options::Within(ceiling);
    let d = request_on(record, section, work, text, &mut [0u8; 0], wanted, o);
    *made = d.made;
    answered(record, d.of)
}

#[unsafe(no_mangle)]
pub extern "C" fn btfdump_dump_list_within(
    record: &mut [u8],
    section: &[u8],
    work: &mut [u8],
    text: &mut [u8],
    ids: &[u8],
    ceiling: u64,
    made: &mut u64,
) -> u64
    ensures { within_export_of result «record».new work.new text.new made.new
        ≡ list_within_export ceiling «record».old section.now work.old text.old
        (ids_in ids.now) }
{
    if ids.len() < 4 {
        *made = 0;
        return 0;
    }
    if record.len() < RECORD_BYTES {
        *made = 0;
        return number_or_value(Err(Refusal::SessionClosed));
    }
    let wanted = Wanted::Ids(ids);
    let o = Options::Within(ceiling);
    let d = request_on(record, section, work, text, &mut [0u8; 0], wanted, o);
    *made = d.made;
    listed(record, d.of)
}
