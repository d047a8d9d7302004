// Reading one declaration's text back into its chain.
ghost use Rattle.std.specs.Prelude.{◌≡◌, ◌<◌, IfSome};
ghost use Rattle.session_declaration_reader.specs.reader.Encoding.{read_into, count_told, ReadOut};

use crate::bases::Chain;
use crate::token_kind::TokenKind;
use crate::tokens::Cursor;
use base_bytes::limit;

// Words of a chain: three for each of its entries.
pub const CHAIN_WORDS: usize = 3 * limit::MOST_CALLS as usize;

// Calls of the grammar that may be open at once: no declaration of at most 512 entries needs more.
const MOST_OPEN: u32 = 2056;

// The chain of the declaration that the text is, from the first of the lent words on: how many entries it has.
fn read_chain(text: &[u8], words: &mut [u64]) -> Option<u32>
    ensures { ReadOut text.now words.old result words.new }
{
    let start = Cursor { text, at: 0 };
    let mut chain = Chain { words, n: 0 };
    let base = start.base_at(true)?;
    let behind = Cursor {
        at: base.end,
        ..start
    };
    let at = behind.declarator(true, MOST_OPEN, &mut chain)?;
    let end = Cursor { at, ..start };
    let TokenKind::End = end.token().kind else {
        return None;
    };
    chain.put_base(base, false);
    let is_longer = limit::MOST_CALLS < chain.n;
    if is_longer {
        return None;
    }
    Some(chain.n)
}

// Reads the declaration that the text is, stores its chain, and tells how many entries it has. None, and words of zero, where the text is
// no such declaration or its chain would pass 512 entries. Words for 512 entries are 1536.
pub fn read_declaration(text: &[u8], chain: &mut [u64]) -> Option<u32>
    ensures { (count_told result chain.new ≡ read_into text.now chain.old) × IfSome result (λ n. 0 < n) }
{
    let n = read_chain(text, chain);
    if n.is_none() {
        chain.fill(0);
    }
    n
}
