// The tokens of a text, looked at from a place on.
ghost use Rattle.std.specs.Prelude.{◌≡◌, true, ◌<◌, length, get_or, drop};
ghost use Rattle.session_declaration_reader.specs.tokens.Tokens.{is_letter, is_word_byte, in_run};
ghost use Rattle.session_declaration_reader.specs.tokens.Tokens as defs;
ghost use Rattle.session_declaration_reader.specs.tokens.Looking.{count_value, word_kind, run_kind, Skipped, Ran};
ghost use Rattle.session_declaration_reader.specs.tokens.Looking.{Looked};

use crate::token_kind::{NO_TOKEN, Qualifier, TokenKind};
use base_keywords::table::{Word, is_word};

// A text, and where reading stands in it.
#[derive(Clone, Copy)]
pub struct Cursor<'a> {
    pub text: &'a [u8],
    pub at: usize,
}

// A token, and where it starts and ends.
#[derive(Clone, Copy)]
pub struct Tok {
    pub kind: TokenKind,
    pub start: usize,
    pub end: usize,
}

#[tactic(auto, unfolding(crate::specs::tokens::Tokens::is_letter))]
fn is_letter(b: u8) -> bool
    ensures { result ≡ is_letter b }
{
    b.is_ascii_alphabetic() || b == b'_'
}

#[tactic(auto, unfolding(crate::specs::tokens::Tokens::is_word_byte, crate::specs::tokens::Tokens::is_digit))]
fn is_word_byte(b: u8) -> bool
    ensures { result ≡ is_word_byte b }
{
    is_letter(b) || b.is_ascii_digit()
}

#[tactic(auto, unfolding(crate::specs::tokens::Tokens::in_run))]
fn in_run(b: u8) -> bool
    ensures { result ≡ in_run b }
{
    is_word_byte(b) || b == b'.'
}

fn identifier(run: &[u8]) -> bool
    ensures { result ≡ defs.identifier run.now }
{
    let Some((first, rest)) = run.split_first() else {
        return false;
    };
    is_letter(*first) && rest.iter().all(|b| is_word_byte(*b))
}

// The value of a count. (`parse` by itself takes a sign and leading zeros.)
fn count_value(run: &[u8]) -> Option<u32>
    ensures { result ≡ count_value run.now }
{
    if let [] | [b'0', _, ..] = run {
        return None;
    }
    if !run.iter().all(|b| b.is_ascii_digit()) {
        return None;
    }
    str::from_utf8(run).ok()?.parse().ok()
}

// What an identifier is: a qualifier, or a word of a base.
#[tactic(auto, unfolding(crate::specs::tokens::Tokens::word_token, crate::specs::tokens::Tokens::kind_of, spec_c_dumper::specs::rules::Decl::qualifier))]
fn word_kind(run: &[u8]) -> TokenKind
    ensures { result ≡ word_kind run.now }
{
    if is_word(run, Word::Const) {
        return TokenKind::Qualifier(Qualifier::Const);
    }
    if is_word(run, Word::Volatile) {
        return TokenKind::Qualifier(Qualifier::Volatile);
    }
    if is_word(run, Word::Restrict) {
        return TokenKind::Qualifier(Qualifier::Restrict);
    }
    let is_tag = is_word(run, Word::Struct)
        || is_word(run, Word::Union)
        || is_word(run, Word::Enum);
    if is_tag {
        return TokenKind::Tag;
    }
    if is_word(run, Word::Void) {
        return TokenKind::Void;
    }
    TokenKind::Word
}

#[tactic(auto, unfolding(crate::specs::tokens::Looking::count_value, crate::specs::tokens::Tokens::run_token))]
fn run_kind(run: &[u8]) -> TokenKind
    ensures { result ≡ run_kind run.now }
{
    if identifier(run) {
        return word_kind(run);
    }
    if let Some(count) = count_value(run) {
        return TokenKind::Count(count);
    }
    if is_word(run, Word::Dots) {
        return TokenKind::Mark(b'.');
    }
    TokenKind::Mark(NO_TOKEN)
}

impl<'a> Cursor<'a> {
    // What stands from here on.
    fn rest(self) -> &'a [u8]
        ensures { result.now ≡ drop self.entry.at self.entry.text.now }
    {
        self.text.get(self.at..).unwrap_or(&[])
    }

    // The first place from here on where no space stands.
    fn skip(self) -> usize
        ensures { Skipped self.entry.text.now self.entry.at result }
    {
        let rest = self.rest();
        let spaces = rest.iter().position(|b| *b != b' ');
        self.at + spaces.unwrap_or(rest.len())
    }

    // Where the run that starts here ends.
    fn run_end(self) -> usize
        requires { (self.at < length self.text.now) × (in_run (get_or self.text.now self.at 0) ≡ true) }
        ensures { Ran self.entry.text.now self.entry.at result }
    {
        let rest = self.rest();
        let run = rest.iter().position(|b| !in_run(*b));
        self.at + run.unwrap_or(rest.len())
    }

    // The next token.
    pub fn token(self) -> Tok
        ensures { Looked self.entry.text.now self.entry.at result }
    {
        let start = self.skip();
        let Some(b) = self.text.get(start) else {
            return Tok {
                kind: TokenKind::End,
                start,
                end: start,
            };
        };
        if !in_run(*b) {
            return Tok {
                kind: TokenKind::Mark(*b),
                start,
                end: start + 1,
            };
        }
        let run = Cursor { at: start, ..self };
        let end = run.run_end();
        Tok {
            kind: run_kind(&self.text[start..end]),
            start,
            end,
        }
    }
}
