// A section cut down to what is used, for C.
ghost use Rattle.std.specs.Prelude.{◌≡◌};
ghost use Rattle.spec_c_calls.specs.Cuts.{cut_export_of, cut_export};

use session_cut::call::cut;
use session_record::record_words::{RECORD_BYTES, decode, number_or_value};
use spec_bytes::refusal::Refusal;

#[unsafe(no_mangle)]
pub extern "C" fn btfdump_cut(record: &[u8], section: &[u8], ids: &[u8], out: &mut [u8]) -> u64
    ensures { cut_export_of result out.new
        ≡ cut_export «record».now section.now ids.now out.old }
{
    if record.len() < RECORD_BYTES {
        return number_or_value(Err(Refusal::SessionClosed));
    }
    let a = cut(decode(record), section, ids, out);
    number_or_value(a)
}
