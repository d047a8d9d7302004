// Reading a declaration back, for C.
ghost use Rattle.std.specs.Prelude.{◌≡◌};
ghost use Rattle.session_declaration_reader.specs.bases.Items.{placed};
ghost use Rattle.spec_c_calls.specs.Declarations.{read_export};

use session_declaration_reader::reader::{CHAIN_WORDS, read_declaration};
use session_record::record_words::{ANSWER_SHORT_SLICE, number_or_value};
use spec_bytes::refusal::Refusal;

#[unsafe(no_mangle)]
pub extern "C" fn btfdump_read_declaration(text: &[u8], chain: &mut [u64]) -> u64
    ensures { placed result chain.new ≡ read_export text.now chain.old }
{
    if chain.len() < CHAIN_WORDS {
        return ANSWER_SHORT_SLICE;
    }
    match read_declaration(text, chain) {
        Some(n) => n as u64,
        None => number_or_value(Err(Refusal::NoDeclaration)),
    }
}
