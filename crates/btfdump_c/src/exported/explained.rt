// Requests that are lent a list and leave an entry in it for each line, for C. How many entries there are is stored in `count`.
ghost use Rattle.std.specs.Prelude.{◌≡◌};
ghost use Rattle.spec_c_calls.specs.Causes.{causes_export_of, type_causes_export, types_causes_export, list_causes_export};
ghost use Rattle.spec_session.specs.calls.Lists.{ids_in};

use crate::exported::request_on;
use session_record::record_bytes::{answered, listed};
use session_record::record_words::{RECORD_BYTES, number_or_value};
use session_requests::options::{Options, Wanted};
use spec_bytes::refusal::Refusal;

#[unsafe(no_mangle)]
pub extern "C" fn btfdump_dump_type_causes(
    record: &mut [u8],
    section: &[u8],
    work: &mut [u8],
    text: &mut [u8],
    id: u32,
    list: &mut [u8],
    count: &mut u64,
) -> u64
    ensures { causes_export_of result «record».new work.new text.new count.new list.new
        ≡ type_causes_export «record».old section.now work.old text.old id list.old }
{
    if record.len() < RECORD_BYTES {
        *count = 0;
        return number_or_value(Err(Refusal::SessionClosed));
    }
    let wanted = Wanted::One(id);
    let o = Options::Listed;
    let d = request_on(record, section, work, text, list, wanted, o);
    *count = d.count as u64;
    answered(record, d.of)
}

#[unsafe(no_mangle)]
pub extern "C" fn btfdump_dump_types_causes(
    record: &mut [u8],
    section: &[u8],
    work: &mut [u8],
    text: &mut [u8],
    list: &mut [u8],
    count: &mut u64,
) -> u64
    ensures { causes_export_of result «record».new work.new text.new count.new list.new
        ≡ types_causes_export «record».old section.now work.old text.old list.old }
{
    if record.len() < RECORD_BYTES {
        *count = 0;
        return number_or_value(Err(Refusal::SessionClosed));
    }
    let wanted = Wanted::All;
    let o = Options::Listed;
    let d = request_on(record, section, work, text, list, wanted, o);
    *count = d.count as u64;
    answered(record, d.of)
}

#[unsafe(no_mangle)]
pub extern "C" fn btfdump_dump_list_causes(
    record: &mut [u8],
    section: &[u8],
    work: &mut [u8],
    text: &mut [u8],
    ids: &[u8],
    list: &mut [u8],
    count: &mut u64,
) -> u64
    ensures { causes_export_of result «record».new work.new text.new count.new list.new
        ≡ list_causes_export «record».old section.now work.old text.old (ids_in ids.now)
        list.old }
{
    if ids.len() < 4 {
        *count = 0;
        return 0;
    }
    if record.len() < RECORD_BYTES {
        *count = 0;
        return number_or_value(Err(Refusal::SessionClosed));
    }
    let wanted = Wanted::Ids(ids);
    let o = Options::Listed;
    let d = request_on(record, section, work, text, list, wanted, o);
    *count = d.count as u64;
    listed(record, d.of)
}
